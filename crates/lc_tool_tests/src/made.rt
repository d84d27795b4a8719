// Made scenes over a desk in memory.
ghost use Rattle.std.specs.Prelude.{◌≤◌, IfOk, IfSome, IsTrue, length};
ghost use Rattle.std.proofs.Common.{All};
ghost use Rattle.lc_num.specs.Vectors.{Within};
ghost use Rattle.lc_geom.specs.Triangles.{IsTri};

use crate::cases::serve;
use crate::renders::expect_size;
use lc_desk::{MemoryDesk, Slot};
use lc_geom::{Tri, Triangles};
use lc_hier::{Hier, Plain};
use lc_light::read_lights;
use lc_make::make;
use lc_num::{List, Memory, Vec3};
use lc_obj::read_obj;
use std::alloc::{AllocGlobal, Global};
use std::process::Abort;
use std::test::Fail;

/// A scene was made, whose line on Report begins so.
fn expect_made(rt: &impl Abort, desk: &MemoryDesk, report: &str) {
    expect_size(
        rt,
        desk,
        (b"P6\n32 24\n255\n", 13 + 3 * 768),
        (b"LCB 1 32 24 1 100 20\n", 769),
    );
    let told = desk.told(Slot::Report);
    assert!(rt;
        told.starts_with(report.as_bytes()) && told.ends_with(b"\n"),
        "{report}"
    );
    assert!(rt; desk.told(Slot::Note).is_empty(), "{report}");
}

/// Two desks hold the same picture and record.
fn expect_same(rt: &impl Abort, one: &MemoryDesk, other: &MemoryDesk) {
    assert!(rt; one.told(Slot::Picture) == other.told(Slot::Picture));
    assert!(rt; one.told(Slot::Bounds) == other.told(Slot::Bounds));
}

/// The desk of a run that is done.
fn desk_after(rt: &(impl Abort + AllocGlobal), words: &[&str]) -> MemoryDesk {
    let mut desk = MemoryDesk::new(rt.alloc());
    assert!(rt; serve(rt.alloc(), words, &mut desk) == 0);
    desk
}

/// Numbers of scenes, each with the beginning of the line on Report.
const MADE: &[(&[&str], &str)] = &[
    (&["make", "0"], "lights 1513 triangles 14 samples 768 cut "),
    (
        &["make", "39"],
        "lights 1552 triangles 482 samples 768 cut ",
    ),
    (
        &["make", "007"],
        "lights 1520 triangles 98 samples 768 cut ",
    ),
];

/// The texts of some numbers are accepted, and twice the same is made of one.
#[test]
fn makes_scenes(rt: HostRuntime) {
    for (words, report) in MADE {
        let first = desk_after(&rt, words);
        let second = desk_after(&rt, words);
        expect_made(&rt, &first, report);
        expect_same(&rt, &first, &second);
        assert!(rt;
            first.told(Slot::Report) == second.told(Slot::Report),
            "{report}"
        );
    }
}

fn desk_with_texts(alloc: Global) -> Result<MemoryDesk, Memory> {
    let made = make(alloc, 3)?;
    let mut desk = MemoryDesk::new(alloc);
    for (name, text) in [
        ("made.txt", &made.job),
        ("made.obj", &made.obj),
        ("made.mtl", &made.mtl),
        ("made.lights", &made.lights),
    ] {
        desk.add(name, text.as_slice())?;
    }
    Ok(desk)
}

/// A render of the same texts gives the same picture and record.
#[test]
fn renders_made_texts(rt: HostRuntime) -> Result<(), Fail> {
    let mut desk = desk_with_texts(rt.alloc())?;
    assert!(rt; serve(rt.alloc(), &["render", "made.txt"], &mut desk) == 0);
    expect_same(&rt, &desk, &desk_after(&rt, &["make", "3"]));
    Ok(())
}

/// A refused put of the line on Report leaves the two files whole.
#[test]
fn tells_that_report_failed(rt: HostRuntime) -> Result<(), Fail> {
    let mut desk = MemoryDesk::new(rt.alloc());
    // Two begins and two headers, a line for each of 768 samples and a row of pixels for each of 24 rows.
    desk.fail(4 + 768 + 24 + 1, 5)?;
    assert!(rt; serve(rt.alloc(), &["make", "0"], &mut desk) == 9);
    assert!(rt; desk.told(Slot::Report) == b"light".as_slice());
    assert!(rt; desk.told(Slot::Note) == b"report: write fault\n".as_slice());
    expect_same(&rt, &desk, &desk_after(&rt, &["make", "0"]));
    Ok(())
}

fn in_range(place: Vec3) -> bool
    ensures { IsTrue result → Within 50_000_000 place }
{
    place.x.unsigned_abs() <= 50_000_000
        && place.y.unsigned_abs() <= 50_000_000
        && place.z.unsigned_abs() <= 50_000_000
}

/// A triangle within the range of scenes.
fn valid(tri: Tri) -> Option<Tri>
    ensures { IfSome result IsTri }
{
    if in_range(tri.a) && in_range(tri.b) && in_range(tri.c) {
        Some(tri)
    } else {
        None
    }
}

/// The triangles of a mesh.
fn triangles(alloc: Global, text: &[u8]) -> Result<List<Tri>, Fail>
    requires { length text.now ≤ 536_870_912 }
    ensures { IfOk result (All IsTri) }
{
    let mesh = read_obj(alloc, text)?;
    let mut list = List::new(alloc);
    for face in mesh.faces.as_slice() {
        let Some(tri) = valid(face.tri) else {
            return Err(Fail::from("a triangle is out of range"));
        };
        list.push(tri)?;
    }
    Ok(list)
}

/// The hierarchy of a made scene answers as the list of its triangles does, and tests less than half of them.
#[test]
fn tests_few_triangles_of_a_made_scene(rt: HostRuntime) -> Result<(), Fail> {
    let made = make(rt.alloc(), 39)?;
    let list = triangles(rt.alloc(), made.obj.as_slice())?;
    assert_eq!(rt; list.as_slice().len(), 482);
    let boxes = Hier::build(rt.alloc(), list.as_slice())?;
    let plain = Plain::new(list);
    let lights = read_lights(rt.alloc(), made.lights.as_slice(), 39)?;
    let start = Vec3 {
        x: 300_000,
        y: 1_000,
        z: 300_000,
    };
    assert_eq!(rt; lights.omni.as_slice().len(), 1039);
    let mut tests = 0;
    for light in lights.omni.as_slice() {
        let end = light.place;
        assert!(rt; in_range(end));
        assert!(rt; tests < 1_000_000);
        assert!(rt; boxes.blocked_counting(start, end, &mut tests) == plain.blocked(start, end));
    }
    assert!(rt; tests < 1039 * 482 / 2);
    Ok(())
}
