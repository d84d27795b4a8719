// Sources of light as a light file names them.
ghost use Rattle.std.specs.Prelude.{◌≡◌};
ghost use Rattle.lc_light.specs.Sources.{count};

use crate::area::Area;
use crate::lights::{Omni, Sun};

/// What a line of a light file names.
#[derive(Clone, Copy)]
pub enum Source {
    Point(Omni),
    Sun(Sun),
    Area(Area),
}

impl Source {
    /// How many lights the source gives.
    pub fn count(&self) -> usize
        ensures { result ≡ count self.now }
    {
        match self {
            Source::Point(_) | Source::Sun(_) => 1,
            Source::Area(area) => area.count as usize,
        }
    }
}
