// Spots and clumps of lights, and boxes of vectors, from a seed.
ghost use Rattle.std.specs.Prelude.{ℕ, ◌*◌, ◌^◌, ◌≤◌, unsigned_abs};
ghost use Rattle.lc_num.specs.Vectors.{Within};
ghost use Rattle.lc_num.specs.Boxes.{IsBoxWithin};
ghost use Rattle.lc_num.specs.Channels.{IsColourWithin, IsPowerWithin};
ghost use Rattle.lc_light.specs.Lights.{IsOriented};
ghost use Rattle.lc_terms.specs.Spot.{IsSpot};
ghost use Rattle.lc_bound.specs.Omni.{IsClump};
ghost use Rattle.lc_bound.specs.Oriented.{IsClump as IsOrientedClump};

use lc_bound::{OmniClump, OmniKind, OrientedClump, OrientedKind};
use lc_light::{Omni, Oriented};
use lc_num::{Colour, List, Memory, Power, Span3, Vec3, difference, greater, lesser, short_square};
use lc_terms::{Kind, Spot};
use std::alloc::Global;

/// How many inputs there are.
pub const COUNT: u32 = 1024;

const ORIGIN: Vec3 = Vec3 { x: 0, y: 0, z: 0 };

/// Numbers that look random, by shifts.
#[derive(Drop)]
pub struct Random {
    state: u64,
}

impl Random {
    pub fn new() -> Random {
        Random {
            state: 0x9e37_79b9_7f4a_7c15,
        }
    }

    /// A number from 0 to `most`.
    fn number(&mut self, most: u32) -> u32
        ensures { result ≤ most }
    {
        self.state ^= self.state << 13;
        self.state ^= self.state >> 7;
        self.state ^= self.state << 17;
        (self.state % (most as u64 + 1)) as u32
    }

    fn coordinate(&mut self, most: u32) -> i64
        ensures { unsigned_abs result ≤ most }
    {
        self.number(most) as i64
    }

    /// A vector of the octant in which no component is negative.
    fn vector(&mut self, most: u32) -> Vec3
        ensures { Within most result }
    {
        let x = self.coordinate(most);
        let y = self.coordinate(most);
        let z = self.coordinate(most);
        Vec3 { x, y, z }
    }

    fn colour(&mut self) -> Colour
        ensures { IsColourWithin 10_000 result }
    {
        let r = self.number(10_000);
        let g = self.number(10_000);
        let b = self.number(10_000);
        Colour { r, g, b }
    }

    fn power(&mut self) -> Power
        ensures { IsPowerWithin 100_000_000 result }
    {
        let r = self.number(100_000_000) as u64;
        let g = self.number(100_000_000) as u64;
        let b = self.number(100_000_000) as u64;
        Power { r, g, b }
    }

    /// A spot without a highlight of the octant in which no coordinate is positive, whose normal has no negative
    /// component.
    fn spot(&mut self) -> Spot
        ensures spot { IsSpot result }
    {
        let place = self.vector(50_000_000);
        let n = self.vector(16384);
        let kd = self.colour();
        Spot {
            x: difference(ORIGIN, place),
            n,
            r: ORIGIN,
            kd,
            ks: Colour { r: 0, g: 0, b: 0 },
            ns: 0,
        }
    }

    /// The same with a highlight, whose mirrored view has no negative component.
    fn shiny_spot(&mut self) -> Spot
        ensures { IsSpot result }
    {
        let spot = self.spot();
        let r = self.vector(16384);
        let ks = self.colour();
        let ns = self.number(100);
        Spot { r, ks, ns, ..spot }
    }

    /// The clump of two lights that are at most 100 apart on each axis.
    fn clump(&mut self) -> OmniClump
        ensures { IsClump result }
    {
        let place = self.vector(49_000_000);
        let apart = self.vector(1_000_000);
        let power = self.power();
        pair(place, difference(place, apart), power)
    }

    /// The clump of two oriented lights that are at most 100 apart on each axis. Their normals have no positive
    /// component.
    fn oriented_clump(&mut self) -> OrientedClump
        ensures { IsOrientedClump result }
    {
        let place = self.vector(49_000_000);
        let apart = self.vector(1_000_000);
        let turned = self.vector(15_384);
        let more = self.vector(1_000);
        let power = self.power();
        let normal = difference(ORIGIN, turned);
        let first = Oriented {
            place,
            normal,
            power,
        };
        let second = Oriented {
            place: difference(place, apart),
            normal: difference(normal, more),
            power,
        };
        oriented_pair(&first, &second)
    }

    /// A box of normals and a box of offsets, both about in the octant in which no component is negative.
    fn emission(&mut self) -> Emission {
        let normal = self.vector(15_384);
        let turned = self.vector(1_000);
        let offset = self.vector(99_100_000);
        let apart = self.vector(1_000_000);
        between(
            around(normal, difference(normal, turned)),
            around(offset, difference(offset, apart)),
        )
    }
}

/// The clump of two lights of one intensity.
fn pair(a: Vec3, b: Vec3, power: Power) -> OmniClump
    requires a { Within 50_000_000 a }
    requires b { Within 50_000_000 b }
    requires power { IsPowerWithin 100_000_000 power }
    ensures { IsClump result }
{
    let first = OmniKind::one(&Omni { place: a, power });
    let second = OmniKind::one(&Omni { place: b, power });
    OmniKind::join(&first, &second)
}

/// The clump of two oriented lights.
fn oriented_pair(a: &Oriented, b: &Oriented) -> OrientedClump
    requires a { IsOriented a.now }
    requires b { IsOriented b.now }
    ensures { IsOrientedClump result }
{
    OrientedKind::join(&OrientedKind::one(a), &OrientedKind::one(b))
}

/// A spot and a clump that is bounded there.
#[derive(Clone, Copy)]
pub struct Case {
    pub spot: Spot,
    pub clump: OmniClump,
    ghost is_spot: { IsSpot spot },
    ghost is_clump: { IsClump clump },
}

pub fn cases(alloc: Global, random: &mut Random) -> Result<List<Case>, Memory> {
    let mut list = List::new(alloc);
    for _ in 0..COUNT {
        let spot = random.spot();
        let clump = random.clump();
        list.push(Case { spot, clump })?;
    }
    Ok(list)
}

/// The same over spots with a highlight.
pub fn shiny_cases(alloc: Global, random: &mut Random) -> Result<List<Case>, Memory> {
    let mut list = List::new(alloc);
    for _ in 0..COUNT {
        let spot = random.shiny_spot();
        let clump = random.clump();
        list.push(Case { spot, clump })?;
    }
    Ok(list)
}

/// A spot with a highlight, and light that comes to it.
#[derive(Clone, Copy)]
pub struct Reflection {
    pub spot: Spot,
    pub b: Vec3,
    ghost is_spot: { IsSpot spot },
    ghost within: { Within 100_100_000 b },
}

pub fn reflections(alloc: Global, random: &mut Random) -> Result<List<Reflection>, Memory> {
    let mut list = List::new(alloc);
    for _ in 0..COUNT {
        let spot = random.shiny_spot();
        let b = random.vector(100_100_000);
        list.push(Reflection { spot, b })?;
    }
    Ok(list)
}

/// A spot and a clump of oriented lights that is bounded there.
#[derive(Clone, Copy)]
pub struct OrientedCase {
    pub spot: Spot,
    pub clump: OrientedClump,
    ghost is_spot: { IsSpot spot },
    ghost is_clump: { IsOrientedClump clump },
}

pub fn oriented_cases(alloc: Global, random: &mut Random) -> Result<List<OrientedCase>, Memory> {
    let mut list = List::new(alloc);
    for _ in 0..COUNT {
        let spot = random.spot();
        let clump = random.oriented_clump();
        list.push(OrientedCase { spot, clump })?;
    }
    Ok(list)
}

/// Two boxes between whose vectors the cosines are bounded, and a squared length for each.
#[derive(Clone, Copy)]
pub struct Emission {
    pub normals: Span3,
    pub least_n: u64,
    pub offsets: Span3,
    pub least_d: u64,
    ghost normals_within: { IsBoxWithin 16384 normals },
    ghost least_n_small: { least_n ≤ 3 * 2 ^ 28 },
    ghost offsets_within: { IsBoxWithin 100_100_000 offsets },
    ghost least_d_small: { least_d ≤ 3 * (100_100_000 * 100_100_000) },
}

/// The least box around two vectors.
fn around(a: Vec3, b: Vec3) -> Span3
    ensures { (m : ℕ) → Within m a → Within m b → IsBoxWithin m result }
{
    Span3 {
        lo: lesser(a, b),
        hi: greater(a, b),
    }
}

fn between(normals: Span3, offsets: Span3) -> Emission
    requires normals { IsBoxWithin 16384 normals }
    requires offsets { IsBoxWithin 100_100_000 offsets }
{
    Emission {
        normals,
        least_n: short_square(normals.lo),
        offsets,
        least_d: short_square(offsets.lo),
    }
}

pub fn emissions(alloc: Global, random: &mut Random) -> Result<List<Emission>, Memory> {
    let mut list = List::new(alloc);
    for _ in 0..COUNT {
        list.push(random.emission())?;
    }
    Ok(list)
}
