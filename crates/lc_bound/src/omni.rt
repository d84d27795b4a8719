// The kind of omnidirectional lights.
ghost use Rattle.lc_bound.specs.Omni.{omni_meaning};
ghost use Rattle.lc_bound.specs.OmniLaws.{omni_laws};

use crate::hull::{box_from, hull, point_box};
use crate::reach::{falloff, scaled_total};
use crate::reflection::reflection_top;
use lc_light::Omni;
use lc_num::{Power, Rgb, Rule, Span3, Vec3, difference, near2, short_square};
use lc_terms::{Kind, Spot};
use std::marker::Model;

/// What is kept of many omnidirectional lights: the box of their places, their summed intensity, and how many they are.
#[derive(Clone, Copy, Debug, PartialEq, Eq)]
pub struct OmniClump {
    span: Span3,
    total: Power,
    count: u32,
}

impl Model for OmniClump {
    ghost use Rattle.lc_bound.specs.Omni.{Clump};

    ghost Value = { Clump };

    ghost view = { λ c. record { box = c.span; total = c.total; count = c.count } };

    ghost inverse = { λ c. record { span = c.box; total = c.total; count = c.count } };
}

/// The kind of lights that shine alike in all directions.
#[derive(Clone, Copy, Debug)]
pub struct OmniKind;

impl Kind for OmniKind {
    type Light = Omni;

    type Clump = OmniClump;

    ghost meaning = { omni_meaning };

    ghost laws = { omni_laws };

    fn place(light: &Omni) -> Vec3 {
        light.place
    }

    fn power(light: &Omni) -> Power {
        light.power
    }

    fn toward(x: Vec3, light: &Omni) -> Vec3 {
        difference(light.place, x)
    }

    fn target(_x: Vec3, light: &Omni) -> Vec3 {
        light.place
    }

    fn geometry(x: Vec3, light: &Omni) -> u64 {
        falloff(short_square(difference(light.place, x)))
    }

    fn one(light: &Omni) -> OmniClump {
        OmniClump {
            span: point_box(light.place),
            total: light.power,
            count: 1,
        }
    }

    fn join(a: &OmniClump, b: &OmniClump) -> OmniClump {
        OmniClump {
            span: hull(a.span, b.span),
            total: Power {
                r: a.total.r + b.total.r,
                g: a.total.g + b.total.g,
                b: a.total.b + b.total.b,
            },
            count: a.count + b.count,
        }
    }

    fn total(clump: &OmniClump) -> Power {
        clump.total
    }

    fn top(spot: &Spot, clump: &OmniClump, rule: Rule) -> Rgb {
        let near = near2(spot.x, clump.span);
        let Some(reflection) = reflection_top(spot, box_from(spot.x, clump.span), near, rule) else {
            return Rgb { r: 0, g: 0, b: 0 };
        };
        scaled_total(falloff(near as u64), spot, reflection, clump.total)
    }
}
