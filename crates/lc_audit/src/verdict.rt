// What an audit finds.
use crate::channel::Channel;

/// What an audit of a record finds.
#[derive(Clone, Copy, Debug, PartialEq, Eq)]
pub enum Verdict {
    /// The recorded bounds hold at each sample that was looked at, and so many were.
    Yes { checked: u64 },
    /// The first sample and channel where the recorded bound does not hold.
    No(Miss),
}

/// A sample and a channel where the recorded bound does not hold: the estimate is further from the sum over all
/// lights, or the bound is above the job's thousandths of the estimate although the cut has not the job's greatest
/// size. One unit of radiance is `65536 * 10^17`.
#[derive(Clone, Copy, Debug, PartialEq, Eq)]
pub struct Miss {
    /// The number of the sample, from 0, in the order of the record's lines.
    pub sample: u64,
    pub channel: Channel,
    /// The sum over all lights.
    pub plain: u128,
    /// The estimate that the record tells.
    pub est: u128,
    /// The bound that the record tells.
    pub bound: u128,
}
