// Spots and samples worked out by hand, on a triangle in the plane at height 0 that faces up.
ghost use Rattle.std.specs.Prelude.{◌≡◌, ◌<◌, ◌≤◌, length};
ghost use Rattle.lc_view.specs.Camera.{IsRay};

use lc_cut::{Answer, Ask, Bench};
use lc_light::read_lights;
use lc_mtl::{Materials, read_mtl};
use lc_num::{Colour, Rgb, Rule, Steps, Vec3};
use lc_obj::read_obj;
use lc_sample::{Scene, sample, spot_seen};
use lc_terms::Spot;
use lc_view::Ray;
use std::alloc::Global;
use std::marker::Brand;
use std::sync::ledger::{Blank, Ledger};
use std::test::Fail;

const TRIANGLE: &[u8] = b"v -1 -1 0\nv 1 -1 0\nv 0 1 0\nf 1 2 3\n";

/// The same with the name of a material.
const NAMED: &[u8] = b"v -1 -1 0\nv 1 -1 0\nv 0 1 0\nusemtl a\nf 1 2 3\n";

/// Straight down on the triangle, from 5 above it.
const DOWN: Ray = Ray {
    e: Vec3 {
        x: 0,
        y: 0,
        z: 50_000,
    },
    d: Vec3 {
        x: 0,
        y: 0,
        z: -268_435_456,
    },
};

/// Straight up on the triangle, from 5 below it.
const UP: Ray = Ray {
    e: Vec3 {
        x: 0,
        y: 0,
        z: -50_000,
    },
    d: Vec3 {
        x: 0,
        y: 0,
        z: 268_435_456,
    },
};

/// Straight up from 5 above the triangle.
const AWAY: Ray = Ray {
    e: Vec3 {
        x: 0,
        y: 0,
        z: 50_000,
    },
    d: Vec3 {
        x: 0,
        y: 0,
        z: 268_435_456,
    },
};

fn gray(n: u128) -> Rgb {
    Rgb { r: n, g: n, b: n }
}

/// The scene of a mesh, a library and lights.
fn scene(alloc: Global, mesh: &[u8], library: &[u8], lights: &[u8]) -> Result<Scene, Fail>
    requires mesh { length mesh.now ≤ 536_870_912 }
    requires library { length library.now ≤ 536_870_912 }
    requires lights { length lights.now ≤ 536_870_912 }
{
    let mesh = read_obj(alloc, mesh)?;
    let mut materials = Materials::new(alloc);
    read_mtl(alloc, library, &mut materials)?;
    let lights = read_lights(alloc, lights, 0)?;
    let scene = Scene::join(alloc, mesh, &materials, lights, 0)?;
    Ok(scene)
}

fn count<L: Ledger>(scene: &Scene, bench: &mut Bench, ray: Ray, ask: Ask, blank: Blank) -> Answer
    requires ray { IsRay ray }
    requires bench { bench.old ≡ ask.size }
    requires permille { ask.permille ≤ 1000 }
    requires least { 3 ≤ ask.size }
    requires most { ask.size ≤ 65536 }
    requires name { blank.name ≡ L.name }
    requires parts { blank.parts ≡ L.parts }
    requires some { 0 < blank.parts }
    ensures { bench.new ≡ bench.old }
{
    let mut steps = Steps::<L>::start(blank);
    sample(scene, bench, ray, ask, &mut steps)
}

fn look(scene: &Scene, bench: &mut Bench, ray: Ray, ask: Ask) -> Answer
    requires ray { IsRay ray }
    requires bench { bench.old ≡ ask.size }
    requires permille { ask.permille ≤ 1000 }
    requires least { 3 ≤ ask.size }
    requires most { ask.size ≤ 65536 }
    ensures { bench.new ≡ bench.old }
{
    count::<Brand>(scene, bench, ray, ask, Blank::new(1))
}

#[test]
fn spots_of_both_sides(rt: HostRuntime) -> Result<(), Fail> {
    let scene = scene(rt.alloc(), TRIANGLE, b"", b"")?;
    let above = Spot {
        x: Vec3 { x: 0, y: 0, z: 16 },
        n: Vec3 {
            x: 0,
            y: 0,
            z: 16_384,
        },
        r: Vec3 {
            x: 0,
            y: 0,
            z: 16_384,
        },
        kd: Colour {
            r: 8_000,
            g: 8_000,
            b: 8_000,
        },
        ks: Colour { r: 0, g: 0, b: 0 },
        ns: 0,
    };
    let below = Spot {
        x: Vec3 { x: 0, y: 0, z: -16 },
        n: Vec3 {
            x: 0,
            y: 0,
            z: -16_384,
        },
        r: Vec3 {
            x: 0,
            y: 0,
            z: -16_384,
        },
        kd: above.kd,
        ks: above.ks,
        ns: 0,
    };
    assert_eq!(rt; spot_seen(&scene, DOWN), Some(above));
    assert_eq!(rt; spot_seen(&scene, UP), Some(below));
    assert_eq!(rt; spot_seen(&scene, AWAY), None);
    Ok(())
}

#[test]
fn a_light_over_a_spot(rt: HostRuntime) -> Result<(), Fail> {
    // The light is 1 above the spot.
    let scene = scene(rt.alloc(), TRIANGLE, b"", b"point 0 0 1.0016 1 1 1\n")?;
    let mut bench = Bench::new(rt.alloc(), 3)?;
    let ask = Ask {
        permille: 20,
        size: 3,
        rule: Rule::One,
    };
    let lit = look(&scene, &mut bench, DOWN, ask);
    assert_eq!(rt; (lit.size, lit.evals), (1, 1));
    assert_eq!(rt; lit.est, gray(5_242_880_000_000_000_000_000));
    assert_eq!(rt; lit.bound, gray(0));
    let dark = look(&scene, &mut bench, AWAY, ask);
    assert_eq!(rt; (dark.size, dark.evals), (0, 0));
    assert_eq!(rt; dark.est, gray(0));
    assert_eq!(rt; dark.bound, gray(0));
    Ok(())
}

#[test]
fn materials_by_their_names(rt: HostRuntime) -> Result<(), Fail> {
    // Of two materials of a name the first is taken.
    for (library, kd) in [
        (b"newmtl b\nKd 1\n".as_slice(), 8_000),
        (
            b"newmtl b\nKd 1\nnewmtl a\nKd 0.5\nnewmtl a\nKd 0.25\n",
            5_000,
        ),
    ] {
        let scene = scene(rt.alloc(), NAMED, library, b"")?;
        let spot = spot_seen(&scene, DOWN);
        let seen = spot.map(|spot| spot.kd.g);
        assert_eq!(rt; seen, Some(kd));
    }
    Ok(())
}
