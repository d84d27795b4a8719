// Where the triangles of a node are split between its children.
ghost use Rattle.std.specs.Prelude.{◌<◌, ◌≤◌, IsPermutation, length};

use crate::bounds::{Bounds, Corner};
use crate::item::Item;
use lc_num::{Vec3, greater, lesser};

const BINS: usize = 16;

/// From this depth on each child takes half of the items, wherever they are. So no node of 1,000,000 triangles is
/// deeper than 68.
const DEEP: u32 = 48;

/// The bits that extents keep, so that areas times counts fit 64 bits.
const KEPT_BITS: u32 = 20;

#[derive(Clone, Copy)]
enum Axis {
    X,
    Y,
    Z,
}

/// Some items: a box for all of them, and how many they are.
#[derive(Clone, Copy)]
struct Bin {
    bounds: Bounds,
    count: u32,
}

const EMPTY: Bin = Bin {
    bounds: Bounds {
        low: Corner {
            x: i32::MAX,
            y: i32::MAX,
            z: i32::MAX,
        },
        high: Corner {
            x: i32::MIN,
            y: i32::MIN,
            z: i32::MIN,
        },
    },
    count: 0,
};

impl Bin {
    fn joined(self, other: Bin) -> Bin {
        Bin {
            bounds: self.bounds.joined(other.bounds),
            count: self.count.saturating_add(other.count),
        }
    }

    /// The box's area times the number of items: what it costs to test them where the box is not missed.
    fn cost(&self, scale: u32) -> u64
        requires { scale < 64 }
    {
        area(&self.bounds, scale).saturating_mul(self.count as u64)
    }
}

/// An axis, cut into bins of one width.
#[derive(Clone, Copy)]
struct Binning {
    axis: Axis,
    base: i64,
    shift: u32,
}

/// Between which bins a node is split.
#[derive(Clone, Copy)]
struct Split {
    binning: Binning,
    /// The last bin on the lower side.
    last: usize,
    /// Whether the upper side has the larger box, and so comes first.
    upper_first: bool,
}

/// The middle of a box, times two.
fn middle(bounds: &Bounds) -> Vec3 {
    let Bounds { low, high } = *bounds;
    Vec3 {
        x: low.x as i64 + high.x as i64,
        y: low.y as i64 + high.y as i64,
        z: low.z as i64 + high.z as i64,
    }
}

fn along(axis: Axis, v: Vec3) -> i64 {
    match axis {
        Axis::X => v.x,
        Axis::Y => v.y,
        Axis::Z => v.z,
    }
}

/// How far it is from `low` to `high`, or 0 where `high` is the lower one.
fn extent(low: i64, high: i64) -> u64 {
    high.saturating_sub(low).max(0).unsigned_abs()
}

/// How many bits of an extent are beyond so many.
fn beyond(extent: u64, bits: u32) -> u32
    requires { 0 < bits }
    ensures { result < 64 }
{
    (64 - extent.leading_zeros()).saturating_sub(bits)
}

fn extents(bounds: &Bounds) -> (u64, u64, u64) {
    let Bounds { low, high } = *bounds;
    (
        extent(low.x as i64, high.x as i64),
        extent(low.y as i64, high.y as i64),
        extent(low.z as i64, high.z as i64),
    )
}

/// Half the surface of a box whose extents lose some bits.
fn area(bounds: &Bounds, scale: u32) -> u64
    requires { scale < 64 }
{
    let (x, y, z) = extents(bounds);
    let (x, y, z) = (x >> scale, y >> scale, z >> scale);
    let sides = x.saturating_mul(y).saturating_add(y.saturating_mul(z));
    sides.saturating_add(z.saturating_mul(x))
}

impl Binning {
    /// Bins on the axis on which the middles are the farthest apart.
    fn new(items: &[Item]) -> Binning {
        let mut low = Vec3 {
            x: i64::MAX,
            y: i64::MAX,
            z: i64::MAX,
        };
        let mut high = Vec3 {
            x: i64::MIN,
            y: i64::MIN,
            z: i64::MIN,
        };
        for item in items {
            let middle = middle(&item.bounds);
            low = lesser(low, middle);
            high = greater(high, middle);
        }
        let (x, y, z) = (
            extent(low.x, high.x),
            extent(low.y, high.y),
            extent(low.z, high.z),
        );
        let (axis, extent) = if x >= y && x >= z {
            (Axis::X, x)
        } else if y >= z {
            (Axis::Y, y)
        } else {
            (Axis::Z, z)
        };
        Binning {
            axis,
            base: along(axis, low),
            shift: beyond(extent, BINS.ilog2()),
        }
    }

    fn bin_of(&self, bounds: &Bounds) -> usize
        ensures { result < 16 }
    {
        let distance = extent(self.base, along(self.axis, middle(bounds)));
        (distance >> self.shift.min(63)).min(BINS as u64 - 1) as usize
    }

    fn bins(&self, items: &[Item]) -> [Bin; BINS] {
        let mut bins = [EMPTY; BINS];
        for item in items {
            let bin = &mut bins[self.bin_of(&item.bounds)];
            bin.bounds = bin.bounds.joined(item.bounds);
            bin.count = bin.count.saturating_add(1);
        }
        bins
    }
}

/// Each bin joined with those above it.
fn joined_from(bins: &[Bin; BINS]) -> [Bin; BINS] {
    let mut joined = *bins;
    for i in (0..BINS - 1).rev() {
        joined[i] = joined[i].joined(joined[i + 1]);
    }
    joined
}

impl Split {
    /// The split of least cost; none where all items are in one bin.
    fn best(items: &[Item]) -> Option<Split> {
        let binning = Binning::new(items);
        let bins = binning.bins(items);
        let from = joined_from(&bins);
        let (x, y, z) = extents(&from[0].bounds);
        let scale = beyond(x.max(y).max(z), KEPT_BITS);
        let mut best = None;
        let mut least = u64::MAX;
        let mut lower = EMPTY;
        for last in 0..BINS - 1 {
            lower = lower.joined(bins[last]);
            let upper = from[last + 1];
            if lower.count == 0 || upper.count == 0 {
                continue;
            }
            let cost = lower.cost(scale).saturating_add(upper.cost(scale));
            if cost < least {
                least = cost;
                best = Some(Split {
                    binning,
                    last,
                    upper_first: area(&upper.bounds, scale) > area(&lower.bounds, scale),
                });
            }
        }
        best
    }

    fn comes_first(&self, item: &Item) -> bool {
        (self.binning.bin_of(&item.bounds) <= self.last) != self.upper_first
    }

    /// Puts the items of the side that comes first before the others, and tells how many they are.
    fn divide(&self, items: &mut [Item]) -> usize
        ensures permutation { IsPermutation items.old items.new }
        ensures within { result ≤ length items.old }
    {
        let mut first = 0;
        let mut end = items.len();
        while first < end {
            if self.comes_first(&items[first]) {
                first += 1;
            } else {
                end -= 1;
                items.swap(first, end);
            }
        }
        first
    }
}

/// Divides the items of a node between its children, and tells how many the first child has.
pub(crate) fn divide(items: &mut [Item], depth: u32) -> usize
    requires { 1 < length items.old }
    ensures permutation { IsPermutation items.old items.new }
    ensures some { 0 < result }
    ensures rest { result < length items.old }
{
    let half = items.len() / 2;
    if depth >= DEEP {
        return half;
    }
    let Some(split) = Split::best(items) else {
        return half;
    };
    let middle = split.divide(items);
    if middle == 0 || middle == items.len() {
        half
    } else {
        middle
    }
}
