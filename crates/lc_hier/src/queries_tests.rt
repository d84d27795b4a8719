// What a hierarchy answers, beside the test of every triangle.
ghost use Rattle.std.specs.Prelude.{◌≡◌, ◌+◌, ◌≤◌, ◌<◌, All, IfOk, length, unsigned_abs};
ghost use Rattle.lc_num.specs.Vectors.{Within};
ghost use Rattle.lc_geom.specs.Hits.{moved};
ghost use Rattle.lc_geom.specs.Triangles.{IsTri};

use super::*;
use lc_geom::{Tri, Triangles, moved};
use lc_num::{List, Memory, Vec3};
use std::alloc::Global;
use std::test::*;

const FARTHEST: i64 = 50_000_000;

/// Numbers that look random, by shifts.
#[derive(Drop)]
struct Random {
    state: u64,
}

impl Random {
    fn number(&mut self, most: u32) -> u32
        ensures { result ≤ most }
    {
        self.state ^= self.state << 13;
        self.state ^= self.state >> 7;
        self.state ^= self.state << 17;
        (self.state % (most as u64 + 1)) as u32
    }

    /// At most so far from another coordinate, and within the range of corners.
    fn near(&mut self, middle: i64, reach: u32) -> i64
        requires { unsigned_abs middle ≤ 50_000_000 }
        ensures { unsigned_abs result ≤ 50_000_000 }
    {
        let way = self.number(reach) as i64;
        let at = if self.number(1) == 0 {
            middle + way
        } else {
            middle - way
        };
        at.clamp(-FARTHEST, FARTHEST)
    }

    fn place(&mut self, middle: Vec3, reach: u32) -> Vec3
        requires { Within 50_000_000 middle }
        ensures { Within 50_000_000 result }
    {
        let x = self.near(middle.x, reach);
        let y = self.near(middle.y, reach);
        let z = self.near(middle.z, reach);
        Vec3 { x, y, z }
    }

    /// Small where the number is odd, so that some boxes are small in a wide scene.
    fn triangle(&mut self, most: u32, number: u32) -> Tri
        ensures { IsTri result }
    {
        let reach = if number % 2 == 0 { most } else { most / 16 + 1 };
        let a = self.place(Vec3 { x: 0, y: 0, z: 0 }, most);
        Tri {
            a,
            b: self.place(a, reach),
            c: self.place(a, reach),
        }
    }
}

/// The same triangles, tested one after the other and in boxes.
#[derive(Drop)]
struct Both {
    plain: Plain,
    boxes: Hier,
}

fn in_both_forms(alloc: Global, list: List<Tri>) -> Result<Both, Memory>
    requires valid { All IsTri list }
    requires few { length list ≤ 1_000_000 }
{
    let boxes = Hier::build(alloc, list.as_slice())?;
    Ok(Both {
        plain: Plain::new(list),
        boxes,
    })
}

impl Both {
    /// Whether both answer alike, and the boxes again once they know what blocked.
    fn agree(&self, p: Vec3, d: Vec3) -> bool
        requires p { Within 50_000_000 p }
        requires d { Within 50_000_000 d }
    {
        let q = moved(p, d);
        let is_blocked = self.plain.blocked(p, q);
        self.boxes.blocked(p, q) == is_blocked
            && self.boxes.blocked(p, q) == is_blocked
            && self.boxes.nearest(p, d) == self.plain.nearest(p, d)
    }
}

fn random_list(
    alloc: Global,
    random: &mut Random,
    most: u32,
    count: u32,
) -> Result<List<Tri>, Memory>
    requires { count ≤ 1000 }
    ensures valid { IfOk result (All IsTri) }
    ensures few { IfOk result (λ list. length list ≤ 1_000_000) }
{
    let mut list = List::new(alloc);
    for number in 0..count {
        list.push(random.triangle(most, number))?;
    }
    Ok(list)
}

/// Whether both forms of a random list answer alike at 60 random segments.
fn random_answers(alloc: Global, random: &mut Random, most: u32, count: u32) -> Result<bool, Memory>
    requires { count ≤ 1000 }
{
    let list = random_list(alloc, random, most, count)?;
    let both = in_both_forms(alloc, list)?;
    let middle = Vec3 { x: 0, y: 0, z: 0 };
    let mut agree = true;
    for _ in 0..60 {
        let p = random.place(middle, most);
        let d = random.place(middle, most);
        agree &= both.agree(p, d);
    }
    Ok(agree)
}

#[test]
fn random_triangles(rt: HostRuntime) -> Result<(), Fail> {
    // On small grids many edges, corners and planes meet; the largest reaches the limits.
    let mut random = Random {
        state: 88_172_645_463_325_252,
    };
    for most in [2, 3, 20, 1_000, 100_000, 5_000_000, 50_000_000] {
        for count in [1, 2, 3, 8, 40, 200] {
            assert!(rt;
                random_answers(rt.alloc(), &mut random, most, count)?,
                "{count} up to {most}"
            );
        }
    }
    Ok(())
}

// ---- a floor and 40 boxes on it

/// A place in metres, from a corner of the floor.
fn metres(x: u32, y: u32, z: u32) -> Vec3
    requires x { x ≤ 100 }
    requires y { y ≤ 100 }
    requires z { z ≤ 100 }
    ensures { Within 50_000_000 result }
{
    Vec3 {
        x: 10_000 * x as i64 - 400_000,
        y: 10_000 * y as i64,
        z: 10_000 * z as i64 - 400_000,
    }
}

/// The places of the corners of a box's twelve triangles among its eight corners, of which the upper four come last.
const SIDES: [[u32; 3]; 12] = [
    [0, 1, 2],
    [0, 2, 3],
    [4, 5, 6],
    [4, 6, 7],
    [0, 1, 5],
    [0, 5, 4],
    [1, 2, 6],
    [1, 6, 5],
    [2, 3, 7],
    [2, 7, 6],
    [3, 0, 4],
    [3, 4, 7],
];

/// A corner of a box.
fn corner(number: u32, place: u32) -> Vec3
    requires { number < 40 }
    ensures { Within 50_000_000 result }
{
    let right = u32::from(matches!(place, 1 | 2 | 5 | 6));
    let far = u32::from(matches!(place, 2 | 3 | 6 | 7));
    let up = if place > 3 { 1 + number % 3 } else { 0 };
    metres(
        7 * number % 19 + 31 + right,
        up,
        11 * number % 23 + 29 + far,
    )
}

fn side(number: u32, places: [u32; 3]) -> Tri
    requires { number < 40 }
    ensures { IsTri result }
{
    let [a, b, c] = places;
    Tri {
        a: corner(number, a),
        b: corner(number, b),
        c: corner(number, c),
    }
}

fn floor_and_boxes(alloc: Global) -> Result<List<Tri>, Memory>
    ensures valid { IfOk result (All IsTri) }
    ensures few { IfOk result (λ list. length list ≤ 1_000_000) }
{
    let mut list = List::new(alloc);
    let (a, b) = (metres(0, 0, 0), metres(80, 0, 0));
    let (c, d) = (metres(80, 0, 80), metres(0, 0, 80));
    list.push(Tri { a, b, c })?;
    list.push(Tri { a, b: c, c: d })?;
    for at in 0..480 {
        list.push(side(at / 12, SIDES[at as usize % 12]))?;
    }
    Ok(list)
}

/// A lamp above the boxes.
fn lamp(number: u32) -> Vec3
    requires { number < 1039 }
    ensures { Within 50_000_000 result }
{
    metres(37 * number % 41 + 20, 5 + number % 7, 29 * number % 43 + 19)
}

#[test]
fn few_tests_of_boxes_on_a_floor(rt: HostRuntime) -> Result<(), Fail> {
    let both = in_both_forms(rt.alloc(), floor_and_boxes(rt.alloc())?)?;
    let start = Vec3 {
        x: 300_000,
        y: 1_000,
        z: 300_000,
    };
    let mut tests = 0;
    for number in 0..1039 {
        let end = lamp(number);
        let is_blocked = both.plain.blocked(start, end);
        assert!(rt; tests < 1_000_000);
        assert!(rt; both.boxes.blocked_counting(start, end, &mut tests) == is_blocked);
    }
    // Of 1039 segments and 482 triangles.
    assert!(rt; tests < 1039 * 482 / 2);
    Ok(())
}
