// Segments and rays of a room.
ghost use Rattle.std.specs.Prelude.{◌≤◌, All, IfOk, length, unsigned_abs};
ghost use Rattle.lc_num.specs.Vectors.{Within};
ghost use Rattle.lc_geom.specs.Hits.{moved};
ghost use Rattle.lc_geom.specs.Triangles.{IsTri};

use crate::random::Random;
use crate::room::Room;
use lc_geom::{Tri, normal_of};
use lc_num::{List, Memory, Vec3, difference, scaled};
use std::alloc::Global;

/// How many spots segments begin at.
const SPOTS: u32 = 256;

/// So many spots one after the other ask for the same lamps.
const NEIGHBOURS: u32 = 16;

/// How many lamps a spot asks for.
const ASKED: u32 = 32;

/// How many lamps and suns there are.
const LAMPS: u32 = 200;

const SUNS: u32 = 16;

/// How many rays there are.
const RAYS: u32 = 4096;

/// A segment from a spot toward a light.
#[derive(Clone, Copy)]
pub struct Segment {
    pub p: Vec3,
    pub q: Vec3,
    ghost beginning: { Within 50_100_000 p },
    ghost end: { Within 320_000_000 q },
}

/// A ray from a camera.
#[derive(Clone, Copy)]
pub struct Ray {
    pub e: Vec3,
    pub d: Vec3,
    ghost beginning: { Within 50_100_000 e },
    ghost end: { Within 320_000_000 (moved e d) },
}

/// A third of a sum of three coordinates of a triangle.
fn third(a: i64, b: i64, c: i64) -> i64
    requires a { unsigned_abs a ≤ 50_000_000 }
    requires b { unsigned_abs b ≤ 50_000_000 }
    requires c { unsigned_abs c ≤ 50_000_000 }
    ensures { unsigned_abs result ≤ 50_000_000 }
{
    (a + b + c) / 3
}

fn middle(t: &Tri) -> Vec3
    requires { IsTri t.now }
    ensures { Within 50_000_000 result }
{
    Vec3 {
        x: third(t.a.x, t.b.x, t.c.x),
        y: third(t.a.y, t.b.y, t.c.y),
        z: third(t.a.z, t.b.z, t.c.z),
    }
}

/// The place 16 units off the middle of a triangle, along its normal.
fn above(t: &Tri) -> Vec3
    requires { IsTri t.now }
    ensures { Within 50_000_016 result }
{
    let Vec3 { x, y, z } = middle(t);
    let up = scaled(normal_of(t), 16);
    Vec3 {
        x: x + up.x,
        y: y + up.y,
        z: z + up.z,
    }
}

/// A spot of the room.
fn spot(random: &mut Random, room: &Room) -> Vec3
    ensures { Within 50_000_016 result }
{
    let triangles = room.triangles.as_slice();
    let number = random.number(triangles.len() as u32 - 1);
    above(&triangles[number as usize])
}

/// A lamp near the ceiling.
fn lamp(random: &mut Random) -> Vec3
    ensures { Within 50_000 result }
{
    Vec3 {
        y: 45_000 + random.number(4_000) as i64,
        ..random.place()
    }
}

fn lamps(alloc: Global, random: &mut Random) -> Result<List<Vec3>, Memory>
    ensures { IfOk result (All (Within 50_000)) }
{
    let mut list = List::new(alloc);
    for _ in 0..LAMPS {
        list.push(lamp(random))?;
    }
    Ok(list)
}

/// 16384 times the direction from a sun.
fn sun(random: &mut Random) -> Vec3
    ensures { Within 268_435_456 result }
{
    let Vec3 { x, y, z } = random.direction(16_384);
    Vec3 {
        x: 16_384 * x,
        y: 16_384 * y,
        z: 16_384 * z,
    }
}

fn suns(alloc: Global, random: &mut Random) -> Result<List<Vec3>, Memory>
    ensures { IfOk result (All (Within 268_435_456)) }
{
    let mut list = List::new(alloc);
    for _ in 0..SUNS {
        list.push(sun(random))?;
    }
    Ok(list)
}

/// Adds the segments from a spot to some of the lamps, those from this number on.
fn push_to_lamps(
    list: &mut List<Segment>,
    p: Vec3,
    lamps: &[Vec3],
    first: u32,
) -> Result<(), Memory>
    requires p { Within 50_000_016 p }
    requires lamps { All (Within 50_000) lamps.now }
    requires first { first ≤ 1_000_000 }
{
    for turn in 0..ASKED {
        if let Some(lamp) = lamps.get(((first + turn) % LAMPS) as usize) {
            list.push(Segment { p, q: *lamp })?;
        }
    }
    Ok(())
}

/// Segments from spots to lamps. Spots that follow one another mostly ask for the same lamps.
pub fn to_lamps(alloc: Global, random: &mut Random, room: &Room) -> Result<List<Segment>, Memory> {
    let lamps = lamps(alloc, random)?;
    let mut list = List::new(alloc);
    for number in 0..SPOTS {
        let p = spot(random, room);
        push_to_lamps(&mut list, p, lamps.as_slice(), number / NEIGHBOURS * ASKED)?;
    }
    Ok(list)
}

/// The segment from a spot toward a sun.
fn toward(p: Vec3, sun: Vec3) -> Segment
    requires p { Within 50_000_016 p }
    requires sun { Within 268_435_456 sun }
{
    Segment {
        p,
        q: difference(p, sun),
    }
}

/// Adds the segments from a spot toward all suns.
fn push_to_suns(list: &mut List<Segment>, p: Vec3, suns: &[Vec3]) -> Result<(), Memory>
    requires p { Within 50_000_016 p }
    requires suns { All (Within 268_435_456) suns.now }
{
    for sun in suns {
        list.push(toward(p, *sun))?;
    }
    Ok(())
}

/// Segments from spots toward suns.
pub fn to_suns(alloc: Global, random: &mut Random, room: &Room) -> Result<List<Segment>, Memory> {
    let suns = suns(alloc, random)?;
    let mut list = List::new(alloc);
    for _ in 0..SPOTS {
        let p = spot(random, room);
        push_to_suns(&mut list, p, suns.as_slice())?;
    }
    Ok(list)
}

fn seeded_ray(random: &mut Random) -> Ray {
    Ray {
        e: random.place(),
        d: random.direction(268_435_456),
    }
}

/// Rays from places in the room.
pub fn rays(alloc: Global, random: &mut Random) -> Result<List<Ray>, Memory> {
    let mut list = List::new(alloc);
    for _ in 0..RAYS {
        list.push(seeded_ray(random))?;
    }
    Ok(list)
}
