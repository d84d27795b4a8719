// The kind of oriented lights.
ghost use Rattle.lc_bound.specs.Oriented.{oriented_meaning};
ghost use Rattle.lc_bound.specs.OrientedLaws.{oriented_laws};

use crate::cosines::emission_top;
use crate::hull::{box_from, box_to, hull, point_box};
use crate::reach::{emitted, falloff, scaled_total};
use crate::reflection::reflection_top;
use lc_light::Oriented;
use lc_num::{Power, Rgb, Rule, Span3, Vec3, cos16, difference, near2, short_square};
use lc_terms::{Kind, Spot};
use std::marker::Model;

/// What is kept of many oriented lights: the box of their places, the box of their normals and the least squared length
/// of a normal, their summed intensity, and how many they are.
#[derive(Clone, Copy, Debug)]
pub struct OrientedClump {
    span: Span3,
    normals: Span3,
    least: u32,
    total: Power,
    count: u32,
}

impl Model for OrientedClump {
    ghost use Rattle.lc_bound.specs.Oriented.{Clump};

    ghost Value = { Clump };

    ghost view = { λ c. record { box = c.span; normals = c.normals; least = c.least; total = c.total; count = c.count } };

    ghost inverse = { λ c.
        record { span = c.box; normals = c.normals; least = c.least; total = c.total; count = c.count } };
}

/// The kind of lights that shine from one side of a surface, with the cosine to its normal.
#[derive(Clone, Copy, Debug)]
pub struct OrientedKind;

impl Kind for OrientedKind {
    type Light = Oriented;

    type Clump = OrientedClump;

    ghost meaning = { oriented_meaning };

    ghost laws = { oriented_laws };

    fn place(light: &Oriented) -> Vec3 {
        light.place
    }

    fn power(light: &Oriented) -> Power {
        light.power
    }

    fn toward(x: Vec3, light: &Oriented) -> Vec3 {
        difference(light.place, x)
    }

    fn target(_x: Vec3, light: &Oriented) -> Vec3 {
        light.place
    }

    fn geometry(x: Vec3, light: &Oriented) -> u64 {
        let cosine = cos16(light.normal, difference(x, light.place));
        if cosine == 0 {
            return 0;
        }
        emitted(cosine, falloff(short_square(difference(light.place, x))))
    }

    fn one(light: &Oriented) -> OrientedClump {
        OrientedClump {
            span: point_box(light.place),
            normals: point_box(light.normal),
            least: short_square(light.normal) as u32,
            total: light.power,
            count: 1,
        }
    }

    fn join(a: &OrientedClump, b: &OrientedClump) -> OrientedClump {
        OrientedClump {
            span: hull(a.span, b.span),
            normals: hull(a.normals, b.normals),
            least: a.least.min(b.least),
            total: Power {
                r: a.total.r + b.total.r,
                g: a.total.g + b.total.g,
                b: a.total.b + b.total.b,
            },
            count: a.count + b.count,
        }
    }

    fn total(clump: &OrientedClump) -> Power {
        clump.total
    }

    fn top(spot: &Spot, clump: &OrientedClump, rule: Rule) -> Rgb {
        let near = near2(spot.x, clump.span);
        let Some(reflection) = reflection_top(spot, box_from(spot.x, clump.span), near, rule) else {
            return Rgb { r: 0, g: 0, b: 0 };
        };
        let offsets = box_to(spot.x, clump.span);
        let emission = emission_top(clump.normals, clump.least as u128, offsets, near, rule);
        if emission == 0 {
            return Rgb { r: 0, g: 0, b: 0 };
        }
        let geometry = emitted(emission, falloff(near as u64));
        scaled_total(geometry, spot, reflection, clump.total)
    }
}
