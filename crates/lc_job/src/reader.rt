// A job file read line by line.
ghost use Rattle.std.specs.Prelude.{◌≡◌, ◌≤◌, length, None, IfOk, IfErr};
ghost use Rattle.lc_scan.specs.LineTests.{first_kind, IsTested};
ghost use Rattle.lc_scan.specs.Spoken.{spoken};
ghost use Rattle.lc_view.specs.Camera.{IsCamera};
ghost use Rattle.lc_job.specs.Jobs.{IsJob, has_twins, looks, job_tests};
ghost use Rattle.lc_job.specs.JobFile.{draft_of, fault_in, first_stop, job_in};
ghost use Rattle.lc_job.specs.Stops.{IsFault, IsMissing, IsOfLine};

use crate::draft::Draft;
use crate::fault_kind::FaultKind;
use crate::job::Job;
use crate::line::entry_in;
use crate::stop::JobStop;
use lc_num::{cross, difference, square};
use lc_scan::{Lines, next_spoken};
use lc_view::Camera;
use std::alloc::Global;

/// What the lines of a text say, or its first faulty line.
fn read_lines(alloc: Global, bytes: &[u8]) -> Result<Draft, JobStop>
    requires { length bytes.now ≤ 536_870_912 }
    ensures ok { IfOk result (λ draft. (fault_in bytes.now ≡ None) × (draft ≡ draft_of (spoken bytes.now))) }
    ensures fault { IfErr result (λ stop. IsOfLine stop (fault_in bytes.now)) }
{
    let mut draft = Draft::new();
    let mut lines = Lines::new(bytes);
    while let Some((number, line)) = next_spoken(&mut lines) {
        match entry_in(alloc, line, &draft) {
            Ok(entry) => draft.take(entry),
            Err(stop) => return Err(stop.at(number)),
        }
    }
    Ok(draft)
}

/// Whether the direction in which a camera looks and its upward direction span a plane.
fn looks(camera: &Camera) -> bool
    requires { IsCamera camera.now }
    ensures { result ≡ looks camera.now }
{
    square(cross(difference(camera.at, camera.eye), camera.up)) > 0
}

/// Whether two of the names of a job are equal.
fn has_twins(job: &Job) -> bool
    ensures { result ≡ has_twins job.now }
{
    let scene = job.scene.as_str();
    let lights = job.lights.as_str();
    let picture = job.picture.as_str();
    let bounds = job.bounds.as_str();
    scene == lights
        || scene == picture
        || scene == bounds
        || lights == picture
        || lights == bounds
        || picture == bounds
}

fn test_whole(job: &Job) -> Result<(), FaultKind>
    requires { IsJob job.now }
    ensures { IsTested (first_kind (job_tests job.now)) result }
{
    if !looks(&job.camera) {
        return Err(FaultKind::NoView);
    }
    if has_twins(job) {
        return Err(FaultKind::SameNames);
    }
    Ok(())
}

/// The job of a file of at most 512 MiB, or why it is refused.
///
/// Each keyword stands at most once, in any order. `scene`, `lights`, `picture`, `bounds`, `eye`, `at` and `size` have
/// to stand. Without its line the upward direction is `0 1 0`, `view` is 0.5, `grid` 1, `seed` 0, `error` 20, `cut`
/// 1000, `white` 1 and `rule` 1.
pub fn read_job(alloc: Global, bytes: &[u8]) -> Result<Job, JobStop>
    requires { length bytes.now ≤ 536_870_912 }

    // A job comes only where nothing is wrong, and then it is the text's.
    ensures ok { IfOk result (λ job. (first_stop bytes.now ≡ None) × (job ≡ job_in bytes.now)) }

    // A fault is the first thing that is wrong.
    ensures fault { IfErr result (λ stop. IsFault stop (first_stop bytes.now)) }

    // So is a missing keyword.
    ensures missing { IfErr result (λ stop. IsMissing stop (first_stop bytes.now)) }

    // The job is in its ranges.
    ensures valid { IfOk result IsJob }
{
    let draft = read_lines(alloc, bytes)?;
    match draft.finish() {
        Err(key) => Err(JobStop::Missing { key }),
        Ok(job) => match test_whole(&job) {
            Err(kind) => Err(JobStop::Fault {
                line: 0,
                kind: kind.number(),
            }),
            Ok(()) => Ok(job),
        },
    }
}
