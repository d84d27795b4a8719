// Two suns, one over a level spot and one at its horizon, worked out by hand.
ghost use Rattle.std.specs.Prelude.{◌≡◌};
ghost use Rattle.lc_light.specs.Lights.{IsSun};
ghost use Rattle.lc_terms.specs.Spot.{IsSpot};
ghost use Rattle.lc_bound.specs.Sun.{IsClump, one};

use lc_bound::{SunClump, SunKind};
use lc_light::Sun;
use lc_num::{Colour, Power, Rgb, Rule, Span3, Vec3};
use lc_terms::{Kind, Spot};

const ORIGIN: Vec3 = Vec3 { x: 0, y: 0, z: 0 };

fn overhead() -> Sun
    ensures { IsSun result }
{
    Sun {
        toward: Vec3 {
            x: 0,
            y: 0,
            z: 16384,
        },
        power: Power { r: 1, g: 2, b: 3 },
    }
}

/// A sun whose direction is ten units long.
fn level() -> Sun
    ensures { IsSun result }
{
    Sun {
        toward: Vec3 { x: -10, y: 0, z: 0 },
        power: Power {
            r: 10,
            g: 20,
            b: 30,
        },
    }
}

fn ground() -> Spot
    ensures spot { IsSpot result }
{
    Spot {
        x: ORIGIN,
        n: Vec3 {
            x: 0,
            y: 0,
            z: 16384,
        },
        r: ORIGIN,
        kd: Colour {
            r: 10_000,
            g: 5_000,
            b: 0,
        },
        ks: Colour { r: 0, g: 0, b: 0 },
        ns: 0,
    }
}

fn of_one(sun: &Sun) -> SunClump
    requires { IsSun sun.now }
    ensures value { result ≡ one sun.now }
    ensures clump { IsClump result }
{
    SunKind::one(sun)
}

fn of_two(a: &Sun, b: &Sun) -> SunClump
    requires a { IsSun a.now }
    requires b { IsSun b.now }
    ensures { IsClump result }
{
    SunKind::join(&of_one(a), &of_one(b))
}

#[test]
fn suns_are_at_infinity(rt: HostRuntime) {
    let sun = level();
    let x = Vec3 { x: 5, y: 6, z: 7 };
    assert_eq!(rt; SunKind::place(&sun), sun.toward);
    assert_eq!(rt; SunKind::toward(x, &sun), sun.toward);
    assert_eq!(rt; SunKind::geometry(x, &sun), 1_000_000_000);
    let far = Vec3 {
        x: -163_835,
        y: 6,
        z: 7,
    };
    assert_eq!(rt; SunKind::target(x, &sun), far);
}

#[test]
fn one_sun_is_bounded_by_its_own_cosine(rt: HostRuntime) {
    let clump = of_one(&overhead());
    let top = Rgb {
        r: 655_360_000_000_000_000,
        g: 655_360_000_000_000_000,
        b: 0,
    };
    assert_eq!(rt; SunKind::top(&ground(), &clump, Rule::One), top);
    let clump = of_one(&level());
    let black = Rgb { r: 0, g: 0, b: 0 };
    assert_eq!(rt; SunKind::top(&ground(), &clump, Rule::One), black);
}

#[test]
fn two_suns_may_all_shine_from_above(rt: HostRuntime) {
    let clump = of_two(&overhead(), &level());
    let total = Power {
        r: 11,
        g: 22,
        b: 33,
    };
    assert_eq!(rt; SunKind::total(&clump), total);
    let top = Rgb {
        r: 7_208_960_000_000_000_000,
        g: 7_208_960_000_000_000_000,
        b: 0,
    };
    assert_eq!(rt; SunKind::top(&ground(), &clump, Rule::One), top);
}

#[test]
fn a_highlight_counts_by_its_own_colour(rt: HostRuntime) {
    // The mirrored view is slanted as 3 to 4, so its cosine to the sun overhead is 52428 of 65536, and the square 41941.
    let spot = Spot {
        r: Vec3 {
            x: 12_288,
            y: 0,
            z: 16_384,
        },
        ks: Colour {
            r: 10_000,
            g: 0,
            b: 5_000,
        },
        ns: 2,
        ..ground()
    };
    let top = Rgb {
        r: 1_074_770_000_000_000_000,
        g: 655_360_000_000_000_000,
        b: 629_115_000_000_000_000,
    };
    assert_eq!(rt; SunKind::top(&spot, &of_one(&overhead()), Rule::One), top);
}
