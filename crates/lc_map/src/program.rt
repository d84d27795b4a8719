// The call of the program.
ghost use Rattle.std.specs.Prelude.{◌≡◌, ◌≢◌, ◌↔◌, Some, None, Ok, IfSome, IsTrue};
ghost use Rattle.lc_desk.specs.declared.desk.Slot.{Slot as SlotValue};
ghost use Rattle.lc_desk.specs.declared.desk.Slot.TheVariants.{Picture};
ghost use Rattle.lc_frame.specs.Files.{picture_file};
ghost use Rattle.lc_frame.specs.declared.stop.FrameStop.TheVariants as frame;
ghost use Rattle.lc_frame.specs.declared.stop.FrameStop.{FrameStop as WriteStop};
ghost use Rattle.lc_record.specs.declared.reader.Record.{Record as RecordValue};
ghost use Rattle.lc_tool.specs.Audited.{IsRecord};
ghost use Rattle.lc_tool.specs.Course.{at_once, told};
ghost use Rattle.lc_desk.specs.Desk.{no_faults};
ghost use Rattle.lc_tool.specs.Ends.{Ends, OpensOnly, SameOutputs};
ghost use Rattle.lc_tool.specs.Noted.{Noted};
ghost use Rattle.lc_tool.specs.Status.{code};
ghost use Rattle.lc_tool.specs.Words.{texts};
ghost use Rattle.lc_tool.specs.declared.status.Stop.{Stop as StopValue};
ghost use Rattle.lc_map.specs.Meant.{meant};
ghost use Rattle.lc_map.specs.Outcome.{map_course, map_work, outcome, usage_line};
ghost use Rattle.lc_map.specs.Runs.{Breaks, Does, HasLine, IsComplete, PictureFailed, Runs, Stops};
ghost use Rattle.lc_map.specs.Mapped.{HasMap, HasRecord, IsMapOf, KeepsOthers, LeavesMap};
ghost use Rattle.lc_map.specs.Words.{Order as OrderValue, order_of};

use crate::rows::map_rows;
use crate::words::{Order, read_words};
use lc_desk::Desk;
use lc_record::Record;
use lc_tool::note::note;
use lc_tool::{Status, read_record_file, settle};
use std::alloc::Global;

fn note_usage<D: Desk>(desk: &mut D)
    ensures noted { Noted usage_line (D.state desk.old) (D.state desk.new) }
    ensures asked { (D.state desk.new).asked ≡ (D.state desk.old).asked }
{
    note(
        desk,
        "usage:",
        " boundmap RECORD PICTURE bound|size|missed\n",
    );
}

/// Writes the picture of a record.
fn write_map<D: Desk>(alloc: Global, order: Order<'_>, kept: &Record, desk: &mut D) -> Status
    requires { IsRecord kept.now }
    ensures { Ends result picture_file (Some (at_once (Ok (map_work (meant order.entry) kept.now))))
        (D.state desk.old) (D.state desk.new) }
{
    match map_rows(alloc, order.picture, order.kind, kept, desk) {
        Ok(()) => Status::Done,
        Err(stop) => settle(desk, stop),
    }
}

/// Reads the record of an order, and writes its picture.
fn map_record<D: Desk>(alloc: Global, order: Order<'_>, desk: &mut D) -> Status
    ensures { Ends result picture_file (told (map_course (meant order.entry)) (D.state desk.old).held)
        (D.state desk.old) (D.state desk.new) }
{
    match read_record_file(alloc, order.source, desk) {
        Ok(kept) => write_map(alloc, order, &kept, desk),
        Err(stop) => Status::Stopped(stop),
    }
}

fn attempt<D: Desk>(alloc: Global, words: &[&str], desk: &mut D) -> Status
    ensures { Runs (order_of (texts words.now)) result (outcome (texts words.now) (D.state desk.old).held)
        (D.state desk.old) (D.state desk.new) }
{
    match read_words(words) {
        Some(order) => map_record(alloc, order, desk),
        None => {
            note_usage(desk);
            Status::Usage
        }
    }
}

/// Runs the words of the command line, without the program's name, over a desk: reads a record and writes the picture
/// that maps it, and answers how that ended.
pub fn run<D: Desk>(alloc: Global, words: &[&str], desk: &mut D) -> Status
    // Where it is done over a desk that tells its files, the record's file is the text of a record, and the picture's
    // file is exactly the picture that maps it.
    ensures record { result ≡ Status.Done → (order : OrderValue) → order_of (texts words.now) ≡ Some order →
        HasRecord order (D.state desk.old).held }
    ensures picture { result ≡ Status.Done → (order : OrderValue) → (kept : RecordValue) →
        IsMapOf (texts words.now) (D.state desk.old).held order kept →
        HasMap order kept (D.state desk.old) (D.state desk.new) }

    // Whatever the status, the picture's file is as it was, or was begun under its name and has a first part of those
    // bytes. The other outputs are as they were.
    ensures part { (order : OrderValue) → (kept : RecordValue) →
        IsMapOf (texts words.now) (D.state desk.old).held order kept →
        LeavesMap order kept (D.state desk.old) (D.state desk.new) }
    ensures others { KeepsOthers (D.state desk.old) (D.state desk.new) }

    // It reads no file but the record, and begins none but the picture.
    ensures opens { IfSome (outcome (texts words.now) (D.state desk.old).held)
        (OpensOnly (D.state desk.old) (D.state desk.new)) }

    // It is done only where nothing is refused, and then the picture is written and nothing else.
    ensures done { result ≡ Status.Done → Does (texts words.now) (D.state desk.old) (D.state desk.new) }
    ensures silent { result ≡ Status.Done → (D.state desk.new).slots.note ≡ (D.state desk.old).slots.note }

    // The usage is told exactly where the words are no order.
    ensures usage { (result ≡ Status.Usage) ↔ (order_of (texts words.now) ≡ None) }

    // It stops before the picture is begun where the record has a fault, is absent or is too long, for a fault of a
    // read or for want of memory, each with its cause.
    ensures stopped { (stop : StopValue) → result ≡ Status.Stopped stop →
        Stops (texts words.now) stop (D.state desk.old) (D.state desk.new) }

    // It breaks off only where the count of the picture's faults rose, or for want of memory.
    ensures unwritten { (stop : WriteStop) → result ≡ Status.Unwritten stop →
        Breaks (texts words.now) stop (D.state desk.old) (D.state desk.new) }
    ensures write_fault { (slot : SlotValue) → result ≡ Status.Unwritten (frame.Write slot) →
        (slot ≡ Picture) × PictureFailed (D.state desk.old) (D.state desk.new) }

    // Each other end than that all is done has its line on Note, and nothing is written before the record is read.
    ensures noted { result ≢ Status.Done → HasLine result (D.state desk.old) (D.state desk.new) }
    ensures unbegun { (stop : StopValue) → result ≡ Status.Stopped stop →
        SameOutputs (D.state desk.old) (D.state desk.new) }

    // With no fault counted the status is the outcome's, or there was no memory. Over a desk with no call to fail no
    // fault is answered.
    ensures complete { IsComplete (texts words.now) result (D.state desk.old) (D.state desk.new) }
    ensures steady { IsTrue (D.state desk.old).steady → (D.state desk.old).faults ≡ no_faults →
        ¬ (code result ≡ 8) × ¬ (code result ≡ 9) }
{
    attempt(alloc, words, desk)
}
