// The material term by hand, and the factor of a light through the trait.
ghost use Rattle.std.specs.Prelude.{◌≡◌, ◌<◌, ◌≤◌};
ghost use Rattle.lc_terms.specs.Spot.{IsSpot};

use crate::lamps::Dark;
use lc_geom::{Hit, Triangles};
use lc_num::{Colour, Power, Rgb, Rule, Steps, Vec3};
use lc_terms::{Kind, Spot, eval, material};
use std::marker::Brand;
use std::sync::ledger::{Blank, Ledger};
use std::test::*;

/// No triangle at all.
struct Open;

impl Triangles for Open {
    ghost use Rattle.std.specs.Prelude.{[]};

    ghost list = { λ s. [] };

    fn blocked(&self, _p: Vec3, _q: Vec3) -> bool {
        false
    }

    fn nearest(&self, _e: Vec3, _d: Vec3) -> Option<Hit> {
        None
    }
}

fn spot() -> Spot
    ensures spot { IsSpot result }
{
    Spot {
        x: Vec3 { x: 0, y: 0, z: 0 },
        n: Vec3 {
            x: 0,
            y: 0,
            z: 16384,
        },
        r: Vec3 {
            x: 16384,
            y: 0,
            z: 0,
        },
        kd: Colour {
            r: 10000,
            g: 5000,
            b: 0,
        },
        ks: Colour { r: 0, g: 0, b: 0 },
        ns: 1,
    }
}

#[test]
fn materials(rt: HostRuntime) {
    // Straight above the cosine is 1, level with the surface and below it 0, and at 3, 4, 5 it is 4/5 rounded down.
    let above = Vec3 {
        x: 0,
        y: 0,
        z: 10000,
    };
    let level = Vec3 { x: 7, y: 0, z: 0 };
    let below = Vec3 { x: 0, y: 0, z: -1 };
    let slanted = Vec3 { x: 3, y: 0, z: 4 };
    let black = Rgb { r: 0, g: 0, b: 0 };
    assert_eq!(rt;
        material(&spot(), above),
        Rgb {
            r: 655_360_000,
            g: 327_680_000,
            b: 0
        }
    );
    assert_eq!(rt; material(&spot(), level), black);
    assert_eq!(rt; material(&spot(), below), black);
    assert_eq!(rt;
        material(&spot(), slanted),
        Rgb {
            r: 524_280_000,
            g: 262_140_000,
            b: 0
        }
    );
}

/// A spot with a mirrored view straight up and a specular colour, and no diffuse one.
fn shiny(ns: u32) -> Spot
    requires { ns ≤ 1000 }
    ensures { IsSpot result }
{
    Spot {
        r: Vec3 {
            x: 0,
            y: 0,
            z: 16384,
        },
        kd: Colour { r: 0, g: 0, b: 0 },
        ks: Colour {
            r: 10000,
            g: 5000,
            b: 0,
        },
        ns,
        ..spot()
    }
}

#[test]
fn highlights(rt: HostRuntime) {
    let above = Vec3 {
        x: 0,
        y: 0,
        z: 10000,
    };
    let slanted = Vec3 { x: 3, y: 0, z: 4 };
    let below = Vec3 { x: 0, y: 0, z: -1 };
    let whole = Rgb {
        r: 655_360_000,
        g: 327_680_000,
        b: 0,
    };
    // Toward the mirrored view every power is 1. The cosine 4/5 is 52428 of 65536, its square 41941 and its cube 33552,
    // each rounded down.
    assert_eq!(rt; material(&shiny(1000), above), whole);
    assert_eq!(rt; material(&shiny(0), slanted), whole);
    assert_eq!(rt;
        material(&shiny(1), slanted),
        Rgb {
            r: 524_280_000,
            g: 262_140_000,
            b: 0
        }
    );
    assert_eq!(rt;
        material(&shiny(3), slanted),
        Rgb {
            r: 335_520_000,
            g: 167_760_000,
            b: 0
        }
    );
    // The highlight is nothing where the light comes from below the surface.
    assert_eq!(rt; material(&shiny(0), below), Rgb { r: 0, g: 0, b: 0 });
    // A zero vector has the cosine 0, whose power 0 is 1, and whose other powers are 0.
    let flat = Spot {
        r: Vec3 { x: 0, y: 0, z: 0 },
        ..shiny(0)
    };
    assert_eq!(rt; material(&flat, above), whole);
    assert_eq!(rt;
        material(&Spot { ns: 1, ..flat }, above),
        Rgb { r: 0, g: 0, b: 0 }
    );
}

fn factor_of_dark<L: Ledger>(blank: Blank) -> Rgb
    requires name { blank.name ≡ L.name }
    requires parts { blank.parts ≡ L.parts }
    requires some { 0 < L.parts }
{
    let mut steps = Steps::<L>::start(blank);
    let lamp = (
        Vec3 { x: 1, y: 2, z: 3 },
        Power {
            r: 10000,
            g: 10000,
            b: 10000,
        },
    );
    eval::<Dark, Open, L>(&spot(), &lamp, &Open, &mut steps)
}

#[test]
fn factors(rt: HostRuntime) {
    assert_eq!(rt;
        factor_of_dark::<Brand>(Blank::new(1)),
        Rgb { r: 0, g: 0, b: 0 }
    );
}
