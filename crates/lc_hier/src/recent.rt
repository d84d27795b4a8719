// Triangles that blocked a segment before.
ghost use Rattle.std.specs.Prelude.{◌≡◌, ◌<◌, vec_len};

use lc_num::{Memory, Vec3};
use std::alloc::Global;
use std::cell::Cell;

const PLACES: usize = 4_096;

/// No row stands at this place.
const NONE: u32 = u32::MAX;

/// The places of rows whose triangles blocked a segment before, by the segment's end, or by its direction where the
/// end is far. Neighbouring places are often in the shadow of one triangle. Whatever the cells hold, the answers are
/// the same.
#[derive(Drop)]
pub(crate) struct Recent {
    rows: Vec<Cell<u32>>,
    ghost full: { vec_len rows ≡ 4096 },
}

/// A place in the table, by 12 bits of a sum of the coordinates times numbers that look random. Corners and lamps are
/// within 2^26, while a segment toward a sun ends farther away, each one elsewhere: these are kept by their
/// directions.
#[inline(always)]
fn place(p: Vec3, q: Vec3) -> usize
    ensures { result < 4096 }
{
    let is_far = (q.x.unsigned_abs() | q.y.unsigned_abs() | q.z.unsigned_abs()) >> 26 != 0;
    let (x, y, z) = if is_far {
        (
            q.x.wrapping_sub(p.x),
            q.y.wrapping_sub(p.y),
            q.z.wrapping_sub(p.z),
        )
    } else {
        (q.x, q.y, q.z)
    };
    let sum = x
        .wrapping_add(y.wrapping_mul(0x3F2A_91C5))
        .wrapping_add(z.wrapping_mul(0x1B87_3593_4D2F));
    (sum.unsigned_abs().wrapping_mul(0x9E37_79B9_7F4A_7C15) >> 52) as usize
}

impl Recent {
    /// A table of no rows.
    pub(crate) fn new(alloc: Global) -> Result<Recent, Memory> {
        let rows = vec![in alloc; Cell::new(NONE); PLACES]?;
        Ok(Recent { rows })
    }

    /// The place of the row that is kept for such a segment, or one at which no row stands.
    #[inline(always)]
    pub(crate) fn row(&self, p: Vec3, q: Vec3) -> u32 {
        self.rows[place(p, q)].get()
    }

    /// Keeps a row for such segments, or none.
    #[inline(always)]
    pub(crate) fn keep(&self, p: Vec3, q: Vec3, row: Option<u32>) {
        self.rows[place(p, q)].set(row.unwrap_or(NONE));
    }
}
