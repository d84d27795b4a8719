// Numbers that look random.
ghost use Rattle.std.specs.Prelude.{◌≡◌, ◌≤◌, ◌^◌, unsigned_abs};
ghost use Rattle.lc_num.specs.Vectors.{Within};

use lc_num::{Vec3, scaled};

/// Numbers that look random, by shifts.
#[derive(Drop)]
pub struct Random {
    state: u64,
}

impl Random {
    pub fn new() -> Random {
        Random {
            state: 0x9e37_79b9_7f4a_7c15,
        }
    }

    /// A number from 0 to `most`.
    pub fn number(&mut self, most: u32) -> u32
        ensures { result ≤ most }
    {
        self.state ^= self.state << 13;
        self.state ^= self.state >> 7;
        self.state ^= self.state << 17;
        (self.state % (most as u64 + 1)) as u32
    }

    fn coordinate(&mut self) -> i64
        ensures { unsigned_abs result ≤ 50_000 }
    {
        let size = self.number(50_000) as i64;
        if self.number(1) == 0 { size } else { -size }
    }

    /// A place in the room, or a way in any direction.
    pub fn place(&mut self) -> Vec3
        ensures { Within 50_000 result }
    {
        let x = self.coordinate();
        let y = self.coordinate();
        let z = self.coordinate();
        Vec3 { x, y, z }
    }

    /// A vector of this length, about.
    pub fn direction(&mut self, length: u64) -> Vec3
        requires { length ≤ 2 ^ 28 }
        ensures { Within length result }
    {
        let way = self.place();
        scaled(way, length)
    }
}
