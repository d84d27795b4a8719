// A sample of a record, and where its bound does not hold.
ghost use Rattle.std.specs.Prelude.{◌≡◌, ◌+◌, ◌-◌, ◌*◌, ◌^◌, ◌≤◌, find, option_map};
ghost use Rattle.lc_num.specs.Channels.{IsRgbWithin};
ghost use Rattle.lc_job.specs.Jobs.{IsJob};
ghost use Rattle.lc_record.specs.Record.{IsSample};
ghost use Rattle.lc_audit.specs.Verdicts.{Place, fails, is_off, is_wide, miss_at, miss_of, places_of};

use crate::channel::Channel;
use crate::verdict::Miss;
use lc_job::Job;
use lc_num::Rgb;
use lc_rated::Answer;

/// A sample of a record: its number, the sum over all lights there, and what its line says.
#[derive(Clone, Copy)]
pub(crate) struct Sample {
    pub number: u64,
    pub light: Rgb,
    pub line: Answer,
}

/// Whether the estimate is further from the sum over all lights than the bound says.
fn is_off(miss: &Miss) -> bool
    ensures { result ≡ is_off miss.now }
{
    miss.plain.abs_diff(miss.est) > miss.bound
}

/// Whether the bound is above the permille of the estimate.
fn is_wide(miss: &Miss, permille: u32) -> bool
    requires permille { permille ≤ 1000 }
    requires est { miss.now.est ≤ 2 ^ 117 - 1 }
    requires bound { miss.now.bound ≤ 2 ^ 117 - 1 }
    ensures { result ≡ is_wide permille miss.now }
{
    1000 * miss.bound > u128::from(permille) * miss.est
}

/// What a sample has in a channel, if its bound does not hold there.
fn miss_in(job: &Job, sample: &Sample, channel: Channel) -> Option<Miss>
    requires job { IsJob job.now }
    requires line { IsSample job.now.cut sample.now.line }
    ensures { result ≡ miss_at job.now.cut job.now.permille (record { sample = sample.now; channel = channel }) }
{
    let miss = Miss {
        sample: sample.number,
        channel,
        plain: channel.part(sample.light),
        est: channel.part(sample.line.est),
        bound: channel.part(sample.line.bound),
    };
    let capped = sample.line.size == job.cut;
    if is_off(&miss) || (!capped && is_wide(&miss, job.permille)) {
        Some(miss)
    } else {
        None
    }
}

/// The first channel of a sample in which its bound does not hold.
pub(crate) fn first_miss(job: &Job, sample: &Sample) -> Option<Miss>
    requires job { IsJob job.now }
    requires line { IsSample job.now.cut sample.now.line }
    ensures { result ≡ option_map miss_of (find (fails job.now.cut job.now.permille) (places_of sample.now)) }
{
    if let Some(miss) = miss_in(job, sample, Channel::Red) {
        return Some(miss);
    }
    if let Some(miss) = miss_in(job, sample, Channel::Green) {
        return Some(miss);
    }
    miss_in(job, sample, Channel::Blue)
}
