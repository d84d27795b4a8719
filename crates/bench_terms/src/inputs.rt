// Inputs of the terms, from a seed.
ghost use Rattle.std.specs.Prelude.{◌≡◌, ◌≤◌, ◌^◌, unsigned_abs};
ghost use Rattle.lc_num.specs.Vectors.{Within};

use lc_num::{List, Memory, Vec3};
use std::alloc::Global;

/// How many inputs each term has.
pub const COUNT: u32 = 1024;

/// Numbers that look random, by shifts.
#[derive(Drop)]
pub struct Random {
    state: u64,
}

impl Random {
    pub fn new() -> Random {
        Random {
            state: 0x9e37_79b9_7f4a_7c15,
        }
    }

    fn next(&mut self) -> u64 {
        self.state ^= self.state << 13;
        self.state ^= self.state >> 7;
        self.state ^= self.state << 17;
        self.state
    }

    /// A number from `-most` to `most`.
    fn component(&mut self, most: u32) -> i64
        ensures { unsigned_abs result ≤ most }
    {
        (self.next() % (2 * most as u64 + 1)) as i64 - most as i64
    }

    /// A number from 0 to `most`.
    fn coordinate(&mut self, most: u32) -> i64
        ensures { unsigned_abs result ≤ most }
    {
        (self.next() % (most as u64 + 1)) as i64
    }

    fn vector(&mut self, most: u32) -> Vec3
        ensures { Within most result }
    {
        let x = self.component(most);
        let y = self.component(most);
        let z = self.component(most);
        Vec3 { x, y, z }
    }

    /// A vector of the octant in which no component is negative, so that no cosine is 0 by its sign.
    fn vector_of_octant(&mut self, most: u32) -> Vec3
        ensures { Within most result }
    {
        let x = self.coordinate(most);
        let y = self.coordinate(most);
        let z = self.coordinate(most);
        Vec3 { x, y, z }
    }
}

/// A vector to be scaled.
#[derive(Clone, Copy)]
pub struct Offset {
    pub vector: Vec3,
    ghost within: { Within 100_100_000 vector },
}

/// A normal and an offset whose cosine is asked.
#[derive(Clone, Copy)]
pub struct Pair {
    pub normal: Vec3,
    pub offset: Vec3,
    ghost normal_within: { Within 16384 normal },
    ghost offset_within: { Within 100_100_000 offset },
}

/// Numbers of 33 bits.
pub fn words(alloc: Global, random: &mut Random) -> Result<List<u64>, Memory> {
    let mut list = List::new(alloc);
    for _ in 0..COUNT {
        list.push(random.next() >> 31)?;
    }
    Ok(list)
}

pub fn vectors(alloc: Global, random: &mut Random) -> Result<List<Offset>, Memory> {
    let mut list = List::new(alloc);
    for _ in 0..COUNT {
        let vector = random.vector(100_100_000);
        list.push(Offset { vector })?;
    }
    Ok(list)
}

pub fn pairs(alloc: Global, random: &mut Random) -> Result<List<Pair>, Memory> {
    let mut list = List::new(alloc);
    for _ in 0..COUNT {
        let normal = random.vector_of_octant(16384);
        let offset = random.vector_of_octant(100_100_000);
        list.push(Pair { normal, offset })?;
    }
    Ok(list)
}
