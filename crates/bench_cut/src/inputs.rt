// Lights and spots, from a seed.
ghost use Rattle.std.specs.Prelude.{◌≤◌, unsigned_abs, All, IfOk, length};
ghost use Rattle.lc_num.specs.Vectors.{Within};
ghost use Rattle.lc_num.specs.Channels.{IsPowerWithin};
ghost use Rattle.lc_terms.specs.Spot.{IsSpot};
ghost use Rattle.lc_light.specs.Lights.{AreLights, IsOmni, IsOriented, IsSun};

use lc_light::{Lights, Omni, Oriented, Sun};
use lc_num::{Colour, List, Memory, Power, Vec3};
use lc_terms::Spot;
use std::alloc::Global;

/// Numbers that look random, by shifts.
#[derive(Drop)]
pub struct Random {
    state: u64,
}

impl Random {
    pub fn new() -> Random {
        Random {
            state: 0x9e37_79b9_7f4a_7c15,
        }
    }

    /// A number from 0 to `most`.
    fn number(&mut self, most: u32) -> u32
        ensures { result ≤ most }
    {
        self.state ^= self.state << 13;
        self.state ^= self.state >> 7;
        self.state ^= self.state << 17;
        (self.state % (most as u64 + 1)) as u32
    }

    fn coordinate(&mut self, most: u32) -> i64
        ensures { unsigned_abs result ≤ most }
    {
        self.number(most) as i64
    }

    /// A vector of the octant in which no component is negative.
    fn vector(&mut self, most: u32) -> Vec3
        ensures { Within most result }
    {
        let x = self.coordinate(most);
        let y = self.coordinate(most);
        let z = self.coordinate(most);
        Vec3 { x, y, z }
    }

    fn power(&mut self) -> Power
        ensures { IsPowerWithin 100_000_000 result }
    {
        let r = self.number(100_000_000) as u64;
        let g = self.number(100_000_000) as u64;
        let b = self.number(100_000_000) as u64;
        Power { r, g, b }
    }

    /// A light within 100 of the origin on each axis.
    fn omni(&mut self) -> Omni
        ensures { IsOmni result }
    {
        let place = self.vector(1_000_000);
        let power = self.power();
        Omni { place, power }
    }

    /// A light within 100 of the origin on each axis that shines from one side.
    fn oriented(&mut self) -> Oriented
        ensures { IsOriented result }
    {
        let place = self.vector(1_000_000);
        let normal = self.vector(16384);
        let power = self.power();
        Oriented {
            place,
            normal,
            power,
        }
    }

    /// A light at infinity.
    fn sun(&mut self) -> Sun
        ensures { IsSun result }
    {
        let toward = self.vector(16384);
        let power = self.power();
        Sun { toward, power }
    }

    /// A white spot without a highlight among the lights.
    pub fn spot(&mut self) -> Spot
        ensures spot { IsSpot result }
    {
        let x = self.vector(1_000_000);
        let n = self.vector(16384);
        Spot {
            x,
            n,
            r: Vec3 { x: 0, y: 0, z: 0 },
            kd: Colour {
                r: 10_000,
                g: 10_000,
                b: 10_000,
            },
            ks: Colour { r: 0, g: 0, b: 0 },
            ns: 0,
        }
    }
}

fn omni_lights(alloc: Global, random: &mut Random, count: u32) -> Result<List<Omni>, Memory>
    ensures valid { IfOk result (All IsOmni) }
    ensures few { IfOk result (λ lights. length lights ≤ count) }
{
    let mut lights = List::new(alloc);
    for _ in 0..count {
        lights.push(random.omni())?;
    }
    Ok(lights)
}

fn oriented_lights(alloc: Global, random: &mut Random, count: u32) -> Result<List<Oriented>, Memory>
    ensures valid { IfOk result (All IsOriented) }
    ensures few { IfOk result (λ lights. length lights ≤ count) }
{
    let mut lights = List::new(alloc);
    for _ in 0..count {
        lights.push(random.oriented())?;
    }
    Ok(lights)
}

fn suns(alloc: Global, random: &mut Random, count: u32) -> Result<List<Sun>, Memory>
    ensures valid { IfOk result (All IsSun) }
    ensures few { IfOk result (λ lights. length lights ≤ count) }
{
    let mut lights = List::new(alloc);
    for _ in 0..count {
        lights.push(random.sun())?;
    }
    Ok(lights)
}

/// So many lights, of each kind a third.
pub fn lights(alloc: Global, random: &mut Random, count: u32) -> Result<Lights, Memory>
    requires { count ≤ 65536 }
    ensures { IfOk result AreLights }
{
    let third = count / 3;
    let omni = omni_lights(alloc, random, count - 2 * third)?;
    let oriented = oriented_lights(alloc, random, third)?;
    let sun = suns(alloc, random, third)?;
    Ok(Lights {
        omni,
        oriented,
        sun,
    })
}
