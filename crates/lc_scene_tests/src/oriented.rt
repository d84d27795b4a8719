// Two lights in front of a spot, worked out by hand: the cosines are 4/5, which is 52428 in 1/65536.
ghost use Rattle.std.specs.Prelude.{◌≡◌};
ghost use Rattle.lc_light.specs.Lights.{IsOriented};
ghost use Rattle.lc_terms.specs.Spot.{IsSpot};
ghost use Rattle.lc_bound.specs.Oriented.{IsClump, one};

use lc_bound::{OrientedClump, OrientedKind};
use lc_light::Oriented;
use lc_num::{Colour, Power, Rgb, Rule, Span3, Vec3};
use lc_terms::{Kind, Spot};
use std::test::*;

const ORIGIN: Vec3 = Vec3 { x: 0, y: 0, z: 0 };

/// A light 5.0000 from the origin that shines straight down.
fn lamp() -> Oriented
    ensures { IsOriented result }
{
    Oriented {
        place: Vec3 {
            x: 30_000,
            y: 0,
            z: 40_000,
        },
        normal: Vec3 { x: 0, y: 0, z: -5 },
        power: Power { r: 1, g: 2, b: 3 },
    }
}

/// A light that is farther away, with a normal of the same length.
fn slanted_lamp() -> Oriented
    ensures { IsOriented result }
{
    Oriented {
        place: Vec3 {
            x: 60_000,
            y: 0,
            z: 40_000,
        },
        normal: Vec3 { x: 0, y: -3, z: -4 },
        power: Power {
            r: 10,
            g: 20,
            b: 30,
        },
    }
}

fn lamp_that_shines_up() -> Oriented
    ensures { IsOriented result }
{
    Oriented {
        place: Vec3 {
            x: 0,
            y: 0,
            z: 40_000,
        },
        normal: Vec3 { x: 0, y: 0, z: 5 },
        power: Power { r: 1, g: 2, b: 3 },
    }
}

fn ground() -> Spot
    ensures spot { IsSpot result }
{
    Spot {
        x: ORIGIN,
        n: Vec3 {
            x: 0,
            y: 0,
            z: 16384,
        },
        r: ORIGIN,
        kd: Colour {
            r: 10_000,
            g: 5_000,
            b: 0,
        },
        ks: Colour { r: 0, g: 0, b: 0 },
        ns: 0,
    }
}

fn of_one(light: &Oriented) -> OrientedClump
    requires { IsOriented light.now }
    ensures value { result ≡ one light.now }
    ensures clump { IsClump result }
{
    OrientedKind::one(light)
}

fn of_two(a: &Oriented, b: &Oriented) -> OrientedClump
    requires a { IsOriented a.now }
    requires b { IsOriented b.now }
    ensures { IsClump result }
{
    OrientedKind::join(&of_one(a), &of_one(b))
}

#[test]
fn lights_shine_from_their_places(rt: HostRuntime) {
    let light = lamp();
    let x = Vec3 { x: 1, y: 2, z: 3 };
    assert_eq!(rt; OrientedKind::place(&light), light.place);
    assert_eq!(rt; OrientedKind::target(x, &light), light.place);
    assert_eq!(rt;
        OrientedKind::toward(x, &light),
        Vec3 {
            x: 29_999,
            y: -2,
            z: 39_997
        }
    );
    // 4 * 10^7 at this distance, times the cosine.
    assert_eq!(rt; OrientedKind::geometry(ORIGIN, &light), 31_999_511);
    // Above the light, on its dark side, and so near below that the distance counts as 0.0100.
    let above = Vec3 {
        x: 30_000,
        y: 0,
        z: 50_000,
    };
    let below = Vec3 {
        x: 30_000,
        y: 0,
        z: 39_950,
    };
    assert_eq!(rt; OrientedKind::geometry(above, &light), 0);
    assert_eq!(rt; OrientedKind::geometry(below, &light), 10_000_000_000_000);
}

#[test]
fn one_light_is_bounded_by_its_own_factor(rt: HostRuntime) {
    let top = Rgb {
        r: 16_776_703_627_080_000,
        g: 16_776_703_627_080_000,
        b: 0,
    };
    assert_eq!(rt;
        OrientedKind::top(&ground(), &of_one(&lamp()), Rule::One),
        top
    );
    let dark = of_one(&lamp_that_shines_up());
    assert_eq!(rt; OrientedKind::top(&ground(), &dark, Rule::One), Rgb::BLACK);
}

#[test]
fn two_lights_are_bounded_at_the_nearer_place(rt: HostRuntime) {
    let clump = of_two(&lamp(), &slanted_lamp());
    let total = Power {
        r: 11,
        g: 22,
        b: 33,
    };
    assert_eq!(rt; OrientedKind::total(&clump), total);
    // The greatest dot product of a normal and an offset is 5 * 40000, and the least lengths are 5 and 50000.
    let top = Rgb {
        r: 184_543_739_897_880_000,
        g: 184_543_739_897_880_000,
        b: 0,
    };
    assert_eq!(rt; OrientedKind::top(&ground(), &clump, Rule::One), top);
}
