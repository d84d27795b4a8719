// One axis of a segment, ready for boxes.
ghost use Rattle.std.specs.Prelude.{◌≡◌, ◌+◌, ◌*◌, ◌^◌, ◌<◌, ◌≤◌, ◌+ℤ◌, ◌-ℤ◌, ◌*ℤ◌, unsigned_abs, if◌then◌else◌, int_lt};

/// A whole segment, in units of its depths.
pub(crate) const WHOLE: u32 = 1 << 30;

/// A segment on one axis. A place on the axis, less `start` and times `low`, is no farther along the segment than the
/// segment meets it; less `wide` and times `high` it is no nearer. Both are in units of `1 / (WHOLE << shift)` of the
/// segment.
#[derive(Clone, Copy)]
pub(crate) struct Slab {
    start: i64,
    /// The start. Along an axis on which the segment is shorter than a step of
    /// `1 << shift` it is moved back by one, so that the segment leaves no box too early.
    wide: i64,
    low: i64,
    high: i64,
    /// Whether the segment leads to lesser coordinates, and so meets the high end of a box first.
    backward: bool,
    ghost start_small: { unsigned_abs start ≤ 50_100_000 },
    ghost wide_small: { unsigned_abs wide ≤ 50_200_000 },
    ghost low_small: { unsigned_abs low ≤ 2 ^ 30 },
    ghost high_small: { unsigned_abs high ≤ 2 ^ 30 + 1 },
}

/// Bounds of the reciprocal of a length. Where it is less than a step, it is lengthened by `slack` for the upper one.
#[derive(Clone, Copy)]
struct Reciprocals {
    low: u32,
    high: u32,
    slack: u32,
}

impl Reciprocals {
    /// Bounds of `(WHOLE << shift) / length`. Lengths are rounded to steps of `1 << shift`, so that few bits of the
    /// bounds are lost; one division serves where nothing is rounded.
    #[inline(always)]
    fn of(length: u32, shift: u32) -> Reciprocals
        requires { shift ≤ 12 }
        ensures low { result.low * length ≤ 2 ^ (30 + shift) }
        ensures high { 2 ^ (30 + shift) ≤ result.high * (length + result.slack) }
        ensures low_small { result.low ≤ 2 ^ 30 }
        ensures high_small { result.high ≤ 2 ^ 30 + 1 }
        ensures slack_small { result.slack ≤ 2 ^ 12 }
    {
        let steps = length >> shift;
        if steps == 0 {
            return Reciprocals {
                low: WHOLE,
                high: WHOLE,
                slack: 1 << shift,
            };
        }
        let quotient = WHOLE / steps;
        let low = if shift == 0 {
            quotient
        } else {
            WHOLE / (steps + 1)
        };
        Reciprocals {
            low,
            high: quotient + 1,
            slack: 0,
        }
    }
}

impl Slab {
    ghost use Rattle.lc_hier.specs.Slabs.{Serves};

    /// From `p` to `q` on this axis, backward where `q` is less.
    #[inline(always)]
    pub(crate) fn new(p: i64, q: i64, backward: bool, shift: u32) -> Slab
        requires p { unsigned_abs p ≤ 50_100_000 }
        requires q { unsigned_abs q ≤ 320_000_000 }
        requires backward { backward ≡ int_lt q p }
        requires shift { shift ≤ 12 }
        ensures { Serves (2 ^ (30 + shift)) p q result }
    {
        let bounds = Reciprocals::of((q - p).unsigned_abs() as u32, shift);
        let low = bounds.low as i64;
        let high = bounds.high as i64;
        let slack = bounds.slack as i64;
        if backward {
            return Slab {
                start: p,
                wide: p + slack,
                low: -low,
                high: -high,
                backward: true,
            };
        }
        Slab {
            start: p,
            wide: p - slack,
            low,
            high,
            backward: false,
        }
    }

    /// Where the segment is at the earliest when it comes to what lies between two places of this axis.
    #[inline(always)]
    pub(crate) fn entry(&self, low: i32, high: i32) -> i64
        ensures { result ≡ ((if self.now.backward then high else low) -ℤ self.now.start) *ℤ self.now.low }
    {
        let near = if self.backward { high } else { low };
        (near as i64 - self.start) * self.low
    }

    /// Where it is at the latest when it leaves it.
    #[inline(always)]
    pub(crate) fn exit(&self, low: i32, high: i32) -> i64
        ensures { result ≡ ((if self.now.backward then low else high) -ℤ self.now.wide) *ℤ self.now.high }
    {
        let far = if self.backward { low } else { high };
        (far as i64 - self.wide) * self.high
    }
}
