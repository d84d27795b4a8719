// The kind of suns.
ghost use Rattle.std.specs.Prelude.{◌≡◌, ◌≤◌, pos, ◌+ℤ◌, ◌*ℤ◌, unsigned_abs};
ghost use Rattle.lc_bound.specs.Sun.{sun_meaning};
ghost use Rattle.lc_bound.specs.SunLaws.{sun_laws};

use crate::hull::{hull, point_box};
use crate::reach::scaled_total;
use crate::reflection::reflection_top;
use lc_light::Sun;
use lc_num::{Power, Rgb, Rule, Span3, Vec3, short_square};
use lc_terms::{Kind, Spot};
use std::marker::Model;

/// The geometric term of every sun: that of an omnidirectional light at a distance of 1.0000.
const GEOMETRY: u64 = 1_000_000_000;

/// What is kept of many suns: the box of their directions, a length that none of the directions is below, as its
/// square, their summed intensity, and how many they are.
#[derive(Clone, Copy, Debug, PartialEq, Eq)]
pub struct SunClump {
    least: u64,
    count: u32,
    span: Span3,
    total: Power,
}

impl Model for SunClump {
    ghost use Rattle.lc_bound.specs.Sun.{Clump};

    ghost Value = { Clump };

    ghost view = { λ c. record { box = c.span; least = c.least; total = c.total; count = c.count } };

    ghost inverse = { λ c. record { span = c.box; least = c.least; total = c.total; count = c.count } };
}

/// The coordinate that is 16384 times `toward` beyond `x`.
fn beyond(x: i64, toward: i64) -> i64
    requires x { unsigned_abs x ≤ 50_100_000 }
    requires toward { unsigned_abs toward ≤ 16384 }
    ensures { result ≡ x +ℤ (pos 16384 *ℤ toward) }
{
    x + 16384 * toward
}

/// The kind of lights at infinity, of which only the direction counts.
#[derive(Clone, Copy, Debug)]
pub struct SunKind;

impl Kind for SunKind {
    type Light = Sun;

    type Clump = SunClump;

    ghost meaning = { sun_meaning };

    ghost laws = { sun_laws };

    fn place(light: &Sun) -> Vec3 {
        light.toward
    }

    fn power(light: &Sun) -> Power {
        light.power
    }

    fn toward(_x: Vec3, light: &Sun) -> Vec3 {
        light.toward
    }

    fn target(x: Vec3, light: &Sun) -> Vec3 {
        Vec3 {
            x: beyond(x.x, light.toward.x),
            y: beyond(x.y, light.toward.y),
            z: beyond(x.z, light.toward.z),
        }
    }

    fn geometry(_x: Vec3, _light: &Sun) -> u64 {
        GEOMETRY
    }

    fn one(light: &Sun) -> SunClump {
        SunClump {
            span: point_box(light.toward),
            least: short_square(light.toward),
            total: light.power,
            count: 1,
        }
    }

    fn join(a: &SunClump, b: &SunClump) -> SunClump {
        SunClump {
            span: hull(a.span, b.span),
            least: a.least.min(b.least),
            total: Power {
                r: a.total.r + b.total.r,
                g: a.total.g + b.total.g,
                b: a.total.b + b.total.b,
            },
            count: a.count + b.count,
        }
    }

    fn total(clump: &SunClump) -> Power {
        clump.total
    }

    fn top(spot: &Spot, clump: &SunClump, rule: Rule) -> Rgb {
        let Some(reflection) = reflection_top(spot, clump.span, clump.least as u128, rule) else {
            return Rgb { r: 0, g: 0, b: 0 };
        };
        scaled_total(GEOMETRY, spot, reflection, clump.total)
    }
}
