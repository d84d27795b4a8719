// The command `audit`.
ghost use Rattle.std.specs.Prelude.{[], ◌∷◌, IfOk, Some};
ghost use Rattle.lc_audit.specs.declared.verdict.Verdict.TheVariants.{Yes};
ghost use Rattle.lc_desk.specs.declared.desk.Slot.TheVariants.{Report};
ghost use Rattle.lc_job.specs.Jobs.{IsJob};
ghost use Rattle.lc_tool.specs.Audited.{AreLinesFor, IsRecord};
ghost use Rattle.lc_tool.specs.Course.{at_once, told};
ghost use Rattle.lc_tool.specs.Ends.{Ends, EndsAs};
ghost use Rattle.lc_tool.specs.Outcome.{audit_course, audited, audit_world, judged, record_of, same_header};
ghost use Rattle.lc_tool.specs.Stopped.{GoesAs, ReadsAs, StopsAs, StopsReading};

use crate::fixed::append;
use crate::note::{note_fault, note_miss};
use crate::ranges::AuditStep;
use crate::read::read_record_file;
use crate::status::{Source, Status, Stop};
use crate::world::{World, read_world};
use crate::write::{put_report, settle};
use arrayvec::ArrayString;
use itoa::Buffer;
use lc_audit::Verdict;
use lc_desk::Desk;
use lc_frame::header_of;
use lc_job::Job;
use lc_record::Record;
use std::alloc::Global;

/// The kind of the fault of a record that begins with another header than the job's.
const OTHER_HEADER: u8 = 4;

/// A record that begins with the header of the job. A refusal is told on Note.
fn compare_header<D: Desk>(
    name: &str,
    job: &Job,
    kept: Record,
    desk: &mut D,
) -> Result<Record, Stop>
    requires job { IsJob job.now }
    requires kept { IsRecord kept }
    ensures went { GoesAs result (Some (same_header name.now job.now kept)) (D.state desk.old) (D.state desk.new) }
    ensures lines { IfOk result (λ same. AreLinesFor job.now same.lines) }
    ensures stopped { StopsAs result (Some (same_header name.now job.now kept)) (D.state desk.old) (D.state desk.new) }
{
    if kept.header == header_of(job) {
        return Ok(kept);
    }
    note_fault(desk, name, 1, OTHER_HEADER);
    Err(Stop::Faulty(Source::Record))
}

/// Reads the record of a job's picture. A refusal is told on Note.
fn read_kept<D: Desk>(alloc: Global, job: &Job, desk: &mut D) -> Result<Record, Stop>
    requires { IsJob job.now }
    ensures went { ReadsAs result (record_of job.now) (D.state desk.old) (D.state desk.new) }
    ensures lines { IfOk result (λ kept. AreLinesFor job.now kept.lines) }
    ensures stopped { StopsReading result (record_of job.now) (D.state desk.old) (D.state desk.new) }
{
    let kept = read_record_file(alloc, job.bounds.as_str(), desk)?;
    compare_header(job.bounds.as_str(), job, kept, desk)
}

/// Tells on Report that so many samples were looked at and hold.
fn report_yes<D: Desk>(checked: u64, desk: &mut D) -> Status
    ensures { Ends result (Report ∷ []) (Some (at_once (judged (Yes checked)))) (D.state desk.old) (D.state desk.new) }
{
    let mut digits = Buffer::new();
    let mut line = ArrayString::<64>::new();
    append(&mut line, "audit yes ");
    append(&mut line, digits.format(checked));
    append(&mut line, "\n");
    match put_report(desk, line.as_str().as_bytes()) {
        Ok(()) => Status::Done,
        Err(stop) => settle(desk, stop),
    }
}

/// Tells the verdict on a record of a world: yes on Report, no on Note.
fn judge<D: Desk>(world: &World, kept: &Record, step: AuditStep, desk: &mut D) -> Status
    requires job { IsJob world.now.job }
    requires lines { AreLinesFor world.now.job kept.now.lines }
    ensures { Ends result (Report ∷ []) (Some (audited step world.now kept.now)) (D.state desk.old) (D.state desk.new) }
{
    match lc_audit::audit(&world.scene, &world.job, kept, step.samples) {
        Verdict::Yes { checked } => report_yes(checked, desk),
        Verdict::No(miss) => {
            note_miss(desk, &miss);
            Status::Stopped(Stop::Refuted)
        }
    }
}

/// Audits the record of a world's job.
fn audit_record<D: Desk>(alloc: Global, world: &World, step: AuditStep, desk: &mut D) -> Status
    requires job { IsJob world.now.job }
    ensures { EndsAs result (Report ∷ []) (audit_world step world.now) (D.state desk.old) (D.state desk.new) }
{
    match read_kept(alloc, &world.job, desk) {
        Ok(kept) => judge(world, &kept, step, desk),
        Err(stop) => Status::Stopped(stop),
    }
}

/// Audits the record of a job's file: computes the sum over all lights at each sample whose number the step divides,
/// and says whether what its line tells of it holds.
pub fn audit<D: Desk>(alloc: Global, name: &str, step: AuditStep, desk: &mut D) -> Status
    ensures ends { EndsAs result (Report ∷ []) (audit_course name.now step) (D.state desk.old) (D.state desk.new) }
{
    match read_world(alloc, name, desk) {
        Ok(world) => audit_record(alloc, &world, step, desk),
        Err(stop) => Status::Stopped(stop),
    }
}
