// Boxes along the axes.
ghost use Rattle.std.specs.Prelude.{◌≡◌, ◌^◌};
ghost use Rattle.lc_num.specs.Vectors.{Within, greater, lesser};
ghost use Rattle.lc_geom.specs.Triangles.{IsTri};
ghost use Rattle.lc_geom.specs.declared.triangle.Tri.{Tri};
ghost use Rattle.lc_hier.specs.Boxes.{Holds, place_of};

use lc_geom::Tri;
use lc_num::{Vec3, greater, lesser};

/// A corner of a box, in 32 bits. Units are 1/10000.
#[derive(Clone, Copy, Debug, PartialEq, Eq)]
pub(crate) struct Corner {
    pub(crate) x: i32,
    pub(crate) y: i32,
    pub(crate) z: i32,
}

/// A box from its low to its high corner, both included.
#[derive(Clone, Copy, Debug, PartialEq, Eq)]
pub(crate) struct Bounds {
    pub(crate) low: Corner,
    pub(crate) high: Corner,
}

impl Corner {
    /// The corner at a place of a valid triangle.
    fn at(place: Vec3) -> Corner
        requires { Within 50_000_000 place }
        ensures { place_of result ≡ place }
    {
        Corner {
            x: place.x as i32,
            y: place.y as i32,
            z: place.z as i32,
        }
    }
}

impl Bounds {
    /// The least box that holds a valid triangle.
    pub(crate) fn of(t: &Tri) -> Bounds
        requires { IsTri t.now }
        ensures holds { Holds result t.now }
        ensures low { place_of result.low ≡ lesser (lesser t.now.a t.now.b) t.now.c }
        ensures high { place_of result.high ≡ greater (greater t.now.a t.now.b) t.now.c }
    {
        Bounds {
            low: Corner::at(lesser(lesser(t.a, t.b), t.c)),
            high: Corner::at(greater(greater(t.a, t.b), t.c)),
        }
    }

    /// The least box that holds what either holds.
    pub(crate) fn joined(self, other: Bounds) -> Bounds
        ensures low { place_of result.low ≡ lesser (place_of self.low) (place_of other.low) }
        ensures high { place_of result.high ≡ greater (place_of self.high) (place_of other.high) }
        ensures first { (t : Tri) → Holds self t → Holds result t }
        ensures second { (t : Tri) → Holds other t → Holds result t }
    {
        Bounds {
            low: Corner {
                x: self.low.x.min(other.low.x),
                y: self.low.y.min(other.low.y),
                z: self.low.z.min(other.low.z),
            },
            high: Corner {
                x: self.high.x.max(other.high.x),
                y: self.high.y.max(other.high.y),
                z: self.high.z.max(other.high.z),
            },
        }
    }
}
