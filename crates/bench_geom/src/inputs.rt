// Segments, rays and triangles of a room of 10 m, from a seed.
ghost use Rattle.std.specs.Prelude.{◌≤◌, unsigned_abs};
ghost use Rattle.lc_num.specs.Vectors.{Within};
ghost use Rattle.lc_geom.specs.Hits.{moved};
ghost use Rattle.lc_geom.specs.Triangles.{IsTri};

use lc_geom::{Tri, normal_of};
use lc_hier::Plain;
use lc_num::{List, Memory, Vec3, difference, scaled};
use std::alloc::Global;

/// How many inputs there are.
pub const COUNT: u32 = 1024;

/// How many triangles a list has.
const TRIANGLES: u32 = 64;

const ORIGIN: Vec3 = Vec3 { x: 0, y: 0, z: 0 };

/// Numbers that look random, by shifts.
#[derive(Drop)]
pub struct Random {
    state: u64,
}

impl Random {
    pub fn new() -> Random {
        Random {
            state: 0x9e37_79b9_7f4a_7c15,
        }
    }

    /// A number from 0 to `most`.
    fn number(&mut self, most: u32) -> u32
        ensures { result ≤ most }
    {
        self.state ^= self.state << 13;
        self.state ^= self.state >> 7;
        self.state ^= self.state << 17;
        (self.state % (most as u64 + 1)) as u32
    }

    /// A number of either sign.
    fn coordinate(&mut self, most: u32) -> i64
        ensures { unsigned_abs result ≤ most }
    {
        let size = self.number(most) as i64;
        if self.number(1) == 0 { size } else { -size }
    }

    fn vector(&mut self, most: u32) -> Vec3
        ensures { Within most result }
    {
        let x = self.coordinate(most);
        let y = self.coordinate(most);
        let z = self.coordinate(most);
        Vec3 { x, y, z }
    }

    /// A place in the room.
    fn place(&mut self) -> Vec3
        ensures { Within 50_000 result }
    {
        self.vector(50_000)
    }

    /// A vector of length 16384, about.
    fn direction(&mut self) -> Vec3
        ensures { Within 16384 result }
    {
        let way = self.place();
        scaled(way, 16_384)
    }

    /// A triangle whose sides are at most 1 m long, around its middle.
    fn around(&mut self, middle: Vec3) -> Tri
        requires { Within 1_000_000 middle }
        ensures { IsTri result }
    {
        let u = self.vector(1_900);
        let v = self.vector(1_900);
        let w = difference(difference(ORIGIN, u), v);
        Tri {
            a: difference(middle, u),
            b: difference(middle, v),
            c: difference(middle, w),
        }
    }

    /// A triangle somewhere near a place.
    fn near(&mut self, place: Vec3) -> Tri
        requires { Within 500_000 place }
        ensures { IsTri result }
    {
        let off = self.vector(1_500);
        self.around(difference(place, off))
    }

    fn spot(&mut self) -> Spot {
        let middle = self.place();
        let own = self.around(middle);
        Spot {
            p: difference(middle, scaled(normal_of(&own), 16)),
            own,
        }
    }

    /// Of four numbers, one gives the spot's own triangle, one a triangle near the segment, and two a triangle anywhere
    /// in the room.
    fn other(&mut self, number: u32, own: Tri, near: Vec3) -> Tri
        requires own { IsTri own }
        requires near { Within 500_000 near }
        ensures { IsTri result }
    {
        match number % 4 {
            0 => own,
            1 => self.near(near),
            _ => {
                let middle = self.place();
                self.around(middle)
            }
        }
    }

    /// A segment from a spot to a lamp in the room or not far from it.
    fn to_lamp(&mut self, number: u32) -> Segment {
        let spot = self.spot();
        let half = self.vector(25_000);
        let halfway = difference(spot.p, half);
        let triangle = self.other(number, spot.own, halfway);
        Segment {
            p: spot.p,
            q: difference(halfway, half),
            triangle,
            mark: self.number(1_000_000),
        }
    }

    /// A segment from a spot toward a sun.
    fn to_sun(&mut self, number: u32) -> Segment {
        let spot = self.spot();
        let sun = self.direction();
        let triangle = self.other(number, spot.own, difference(spot.p, sun));
        Segment {
            p: spot.p,
            q: difference(spot.p, far(sun)),
            triangle,
            mark: self.number(1_000_000),
        }
    }

    /// A ray from a camera.
    fn ray(&mut self, number: u32) -> Ray {
        let spot = self.spot();
        let back = self.direction();
        let triangle = self.other(number, spot.own, difference(spot.p, back));
        Ray {
            e: spot.p,
            d: difference(ORIGIN, far(back)),
            triangle,
        }
    }
}

/// A direction, 16384 times.
fn far(way: Vec3) -> Vec3
    requires { Within 16384 way }
    ensures { Within 268_435_456 result }
{
    Vec3 {
        x: 16_384 * way.x,
        y: 16_384 * way.y,
        z: 16_384 * way.z,
    }
}

/// A place 16 units off a triangle.
#[derive(Clone, Copy)]
struct Spot {
    p: Vec3,
    own: Tri,
    ghost place: { Within 50_016 p },
    ghost valid: { IsTri own },
}

/// A segment, a triangle, and what is added up where the triangle blocks the segment.
#[derive(Clone, Copy)]
pub struct Segment {
    pub p: Vec3,
    pub q: Vec3,
    pub triangle: Tri,
    pub mark: u32,
    ghost beginning: { Within 50_100_000 p },
    ghost end: { Within 320_000_000 q },
    ghost valid: { IsTri triangle },
}

/// A ray and a triangle.
#[derive(Clone, Copy)]
pub struct Ray {
    pub e: Vec3,
    pub d: Vec3,
    pub triangle: Tri,
    ghost beginning: { Within 50_100_000 e },
    ghost end: { Within 320_000_000 (moved e d) },
    ghost valid: { IsTri triangle },
}

pub fn to_lamps(alloc: Global, random: &mut Random) -> Result<List<Segment>, Memory> {
    let mut list = List::new(alloc);
    for number in 0..COUNT {
        list.push(random.to_lamp(number))?;
    }
    Ok(list)
}

pub fn to_suns(alloc: Global, random: &mut Random) -> Result<List<Segment>, Memory> {
    let mut list = List::new(alloc);
    for number in 0..COUNT {
        list.push(random.to_sun(number))?;
    }
    Ok(list)
}

pub fn rays(alloc: Global, random: &mut Random) -> Result<List<Ray>, Memory> {
    let mut list = List::new(alloc);
    for number in 0..COUNT {
        list.push(random.ray(number))?;
    }
    Ok(list)
}

/// A list of triangles in the middle of the room.
pub fn room(alloc: Global, random: &mut Random) -> Result<Plain, Memory> {
    let mut list = List::new(alloc);
    for _ in 0..TRIANGLES {
        let middle = random.vector(20_000);
        list.push(random.around(middle))?;
    }
    Ok(Plain::new(list))
}
