// The audit of a record.
ghost use Rattle.std.specs.Prelude.{◌≡◌, ◌<◌, ◌≤◌, All, Some, length, slice_get};
ghost use Rattle.std.specs.Int.{div_ceil};
ghost use Rattle.lc_view.specs.Samples.{sample_count};
ghost use Rattle.lc_job.specs.Jobs.{IsJob};
ghost use Rattle.lc_record.specs.Record.{IsSample};
ghost use Rattle.lc_audit.specs.Verdicts.{looked_at, verdict};

use crate::sample::{Sample, first_miss};
use crate::verdict::Verdict;
use lc_job::Job;
use lc_record::Record;
use lc_sample::{Scene, plain_sample};
use lc_view::ray_of_sample;

/// A sample of those that are looked at, by its number among them.
fn look(scene: &Scene, job: &Job, kept: &Record, step: u64, turn: u64) -> Sample
    requires job { IsJob job.now }
    requires step { 0 < step }
    requires whole { length kept.now.lines ≡ sample_count job.now.camera }
    requires valid { All (IsSample job.now.cut) kept.now.lines }
    requires turn { turn < div_ceil (length kept.now.lines) step }
    ensures value { slice_get (looked_at scene.now job.now kept.now.lines step) turn ≡ Some result }
    ensures valid { IsSample job.now.cut result.line }
{
    let number = turn * step;
    Sample {
        number,
        light: plain_sample(scene, ray_of_sample(&job.camera, number)),
        line: kept.lines.as_slice()[number as usize],
    }
}

/// Computes the sum over all lights, each with its own visibility against every triangle, at the samples 0, `step`,
/// twice `step` and so on of a record, and says whether what their lines tell of it holds: that the estimate is at
/// most the bound away, and that the bound is at most the job's thousandths of the estimate, unless the cut has the
/// job's greatest size. The step is at least 1. Channels are looked at in the order of their numbers. It takes no
/// memory.
pub fn audit(scene: &Scene, job: &Job, kept: &Record, step: u64) -> Verdict
    requires job { IsJob job.now }
    requires step { 1 ≤ step }
    requires whole { length kept.now.lines ≡ sample_count job.now.camera }
    requires valid { All (IsSample job.now.cut) kept.now.lines }
    ensures { result ≡ verdict scene.now job.now kept.now.lines step }
{
    let looks = (kept.lines.len() as u64).div_ceil(step);
    for turn in 0..looks {
        let sample = look(scene, job, kept, step, turn);
        if let Some(miss) = first_miss(job, &sample) {
            return Verdict::No(miss);
        }
    }
    Verdict::Yes { checked: looks }
}
