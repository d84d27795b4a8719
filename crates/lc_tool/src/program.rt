// The call of the program.
ghost use Rattle.std.specs.Prelude.{◌≡◌, ◌⊎◌, ◌≤◌, ℕ, List as Items, None, Some, ◌↔◌, IfSome, IsTrue};
ghost use Rattle.lc_desk.specs.Desk.{no_faults};
ghost use Rattle.lc_desk.specs.declared.desk.Slot.{Slot};
ghost use Rattle.lc_frame.specs.declared.stop.FrameStop.TheVariants as frame;
ghost use Rattle.lc_tool.specs.declared.status.Source.{Source};
ghost use Rattle.lc_tool.specs.declared.status.Stop.TheVariants as stop;
ghost use Rattle.lc_tool.specs.declared.world.World.{World};
ghost use Rattle.lc_tool.specs.Words.{audit as audit_words, make as make_words, command_of, texts};
ghost use Rattle.lc_tool.specs.Status.{source_code};
ghost use Rattle.lc_tool.specs.Outcome.{outcome};
ghost use Rattle.lc_tool.specs.Ends.{Runs, Counts, Does, Stops, Breaks, HasFailed, HasLine, SameOutputs, IsComplete};
ghost use Rattle.lc_tool.specs.Ends.{OpensOnly};
ghost use Rattle.lc_tool.specs.Probed.{Records};
ghost use Rattle.lc_tool.specs.Audited.{AuditFails, AuditHolds, HasNoAuditFault, IsAuditOf, IsOwnRecord, KeepsFiles};
ghost use Rattle.lc_tool.specs.Rendered.{AreCounted, AreFractions, AreNear, HasPicture, HasPlainPicture, HasRecord};
ghost use Rattle.lc_tool.specs.Rendered.{HasSummary, HasWorld, IsMakeOf, IsPlainOf, IsRenderOf, LeavesParts};
ghost use Rattle.lc_tool.specs.Rendered.{LeavesPlainPart, LeavesSummary, Renders};

use crate::audit::audit;
use crate::make::make;
use crate::note::note_usage;
use crate::plain::plain;
use crate::probe::probe;
use crate::render::render;
use crate::status::Status;
use crate::words::{Command, read_words};
use lc_desk::Desk;
use lc_num::Steps;
use std::alloc::Global;
use std::sync::ledger::Ledger;

fn attempt<D: Desk, L: Ledger>(
    alloc: Global,
    words: &[&str],
    desk: &mut D,
    steps: &mut Steps<L>,
) -> Status
    ensures runs { Runs (command_of (texts words.now)) result (outcome (texts words.now) (D.state desk.old).held)
        (D.state desk.old) (D.state desk.new) }
    ensures counted { Counts result (outcome (texts words.now) (D.state desk.old).held) steps.old steps.new }
{
    match read_words(words) {
        Some(
            Command::Probe {
                lights,
                place,
                direction,
            },
        ) => probe(alloc, lights, place, direction, desk, steps),
        Some(Command::Render { job }) => render(alloc, job, desk, steps),
        Some(Command::Plain { job }) => plain(alloc, job, desk),
        Some(Command::Audit { job, step }) => audit(alloc, job, step, desk),
        Some(Command::Make { number }) => make(alloc, number, desk, steps),
        None => {
            note_usage(desk);
            Status::Usage
        }
    }
}

/// Runs the words of the command line, without the program's name, over a desk, and answers the exit status.
pub fn run<D: Desk, L: Ledger>(
    alloc: Global,
    words: &[&str],
    desk: &mut D,
    steps: &mut Steps<L>,
) -> u8
    // Where `probe` is done, Report has its record, over a desk that tells its files.
    ensures recorded { result ≡ 0 →
        Records (texts words.now) (D.state desk.old) (D.state desk.new) steps.old steps.new }

    // Where `render` is done over a desk that tells its files, they tell a world of its job; where `make` is done, over
    // every desk, its made texts tell one. At each sample of the picture the recorded estimate is within the recorded
    // bound of the sum over all lights; the bound is within the job's permille of the estimate unless the cut has the
    // job's greatest size; the evaluations are counted, at most twice that size at each sample; the record's file is
    // exactly the record of these answers, and the picture's file exactly their tone mapping.
    ensures near { result ≡ 0 → (world : World) →
        Renders (texts words.now) (D.state desk.old).held world → AreNear world }
    ensures fraction { result ≡ 0 → (world : World) →
        Renders (texts words.now) (D.state desk.old).held world → AreFractions world }
    ensures counted { result ≡ 0 → (world : World) → Renders (texts words.now) (D.state desk.old).held world →
        AreCounted world steps.old steps.new }
    ensures record { result ≡ 0 → (world : World) → Renders (texts words.now) (D.state desk.old).held world →
        HasRecord world (D.state desk.old) (D.state desk.new) }
    ensures picture { result ≡ 0 → (world : World) → Renders (texts words.now) (D.state desk.old).held world →
        HasPicture world (D.state desk.old) (D.state desk.new) }
    ensures world { result ≡ 0 → HasWorld (command_of (texts words.now)) (D.state desk.old).held }

    // Where `plain` is done over a desk that tells its files, the picture's file is exactly the tone mapping of the
    // sums over all lights.
    ensures plain { result ≡ 0 → (world : World) → IsPlainOf (texts words.now) (D.state desk.old).held world →
        HasPlainPicture world (D.state desk.old) (D.state desk.new) }

    // Whatever the status, each of the two files of `render` and `make` is as it was, or was begun under the job's name
    // and has a first part of those bytes.
    ensures parts { (world : World) → Renders (texts words.now) (D.state desk.old).held world →
        LeavesParts world (D.state desk.old) (D.state desk.new) }
    ensures report { (world : World) → IsRenderOf (texts words.now) (D.state desk.old).held world →
        (D.state desk.new).slots.report ≡ (D.state desk.old).slots.report }
    ensures plain_part { (world : World) → IsPlainOf (texts words.now) (D.state desk.old).held world →
        LeavesPlainPart world (D.state desk.old) (D.state desk.new) }

    // `make` tells its answers in short on Report, or a first part of that line where it is not done. It reads no file.
    ensures summary { result ≡ 0 → (world : World) → (m : IsMakeOf (texts words.now) world) →
        HasSummary m.number world (D.state desk.old) (D.state desk.new) }
    ensures summary_part { (world : World) → (m : IsMakeOf (texts words.now) world) →
        LeavesSummary m.number world (D.state desk.old) (D.state desk.new) }
    ensures made { (number : ℕ) → command_of (texts words.now) ≡ Some (make_words number) →
        ¬ (result ≡ 7) × ¬ (result ≡ 8) × ¬ (result ≡ 10) }

    // Where `audit` is done over a desk that tells its files, the file of the job's record is the text of a record with
    // the job's header, and each line whose number the step divides holds by the sum over all lights. 11 comes only
    // where one of these lines does not. Over the record that a render of the same files writes it is done, or there
    // was no memory, unless a fault is counted. It writes neither of the two files.
    ensures audit_yes { result ≡ 0 → (world : World) → (text : Items ℕ) →
        (a : IsAuditOf (texts words.now) (D.state desk.old).held world text) →
        AuditHolds a.step world text (D.state desk.old) (D.state desk.new) }
    ensures audit_no { result ≡ 11 → (world : World) → (text : Items ℕ) →
        (a : IsAuditOf (texts words.now) (D.state desk.old).held world text) → AuditFails a.step world text }
    ensures audit_own { (world : World) → (text : Items ℕ) →
        IsAuditOf (texts words.now) (D.state desk.old).held world text → IsOwnRecord world text →
        HasNoAuditFault (D.state desk.old) (D.state desk.new) → (result ≡ 0) ⊎ (result ≡ 1) }
    ensures audit_keeps { (name : Items ℕ) (step : ℕ) → command_of (texts words.now) ≡ Some (audit_words name step) →
        KeepsFiles (D.state desk.old) (D.state desk.new) }

    // It reads no file but those of the outcome, in their order, and begins none but those that it writes.
    ensures opens { IfSome (outcome (texts words.now) (D.state desk.old).held)
        (OpensOnly (D.state desk.old) (D.state desk.new)) }

    // 0 comes only where nothing is refused, and then all is written and nothing else.
    ensures done { result ≡ 0 → Does (texts words.now) (D.state desk.old) (D.state desk.new) }
    ensures silent { result ≡ 0 → (D.state desk.new).slots.note ≡ (D.state desk.old).slots.note }

    // 2 comes exactly where the words are no command.
    ensures usage { (result ≡ 2) ↔ (command_of (texts words.now) ≡ None) }

    // 3 to 6 and 12 come only where the text is reached and has a fault or is of another job, 11 only where the verdict
    // on a record is reached and is no, 7 and 10 only where the file is absent or too long and a count rose, 8 only
    // where a count rose, for a file that is reached.
    ensures faulty { (text : Source) → result ≡ source_code text →
        Stops (texts words.now) (stop.Faulty text) (D.state desk.old) (D.state desk.new) }
    ensures absent { result ≡ 7 →
        Stops (texts words.now) stop.Absent (D.state desk.old) (D.state desk.new) }
    ensures read_fault { result ≡ 8 →
        Stops (texts words.now) stop.ReadFault (D.state desk.old) (D.state desk.new) }
    ensures long { result ≡ 10 →
        Stops (texts words.now) stop.Long (D.state desk.old) (D.state desk.new) }
    ensures refuted { result ≡ 11 →
        Stops (texts words.now) stop.Refuted (D.state desk.old) (D.state desk.new) }

    // 9 comes only where the count of a slot that the command writes rose. 1 is want of memory.
    ensures write_fault { result ≡ 9 → (slot : Slot)
        × Breaks (texts words.now) (frame.Write slot) (D.state desk.old) (D.state desk.new)
        × HasFailed (texts words.now) slot (D.state desk.old) (D.state desk.new) }
    ensures memory { result ≡ 1 →
        Stops (texts words.now) stop.Memory (D.state desk.old) (D.state desk.new)
        ⊎ Breaks (texts words.now) frame.Memory (D.state desk.old) (D.state desk.new) }
    ensures only { result ≤ 12 }

    // Each other status than 0 has its line on Note, and nothing is written before all is read.
    ensures noted { ¬ (result ≡ 0) → HasLine result (D.state desk.old) (D.state desk.new) }
    ensures unwritten { ¬ (result ≡ 0) → ¬ (result ≡ 1) → ¬ (result ≡ 9) →
        SameOutputs (D.state desk.old) (D.state desk.new) }

    // With no fault counted the status is the outcome's, or 1. Over a desk with no call to fail no fault is answered.
    ensures complete { IsComplete (texts words.now) result (D.state desk.old) (D.state desk.new) }
    ensures steady { IsTrue (D.state desk.old).steady → (D.state desk.old).faults ≡ no_faults →
        ¬ (result ≡ 8) × ¬ (result ≡ 9) }
{
    attempt(alloc, words, desk, steps).code()
}
