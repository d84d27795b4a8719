// Lines on Note, put in two pieces without taking memory.
ghost use Rattle.std.specs.Prelude.{◌≡◌, ◌++◌};
ghost use Rattle.lc_tool.specs.Lines.{memory_line, usage_line, absent_line, read_fault_line, long_line, fault_line};
ghost use Rattle.lc_tool.specs.Lines.{missing_line, miss_line, miss_words, slot_word, write_fault_line};
ghost use Rattle.lc_tool.specs.Noted.{Noted};
ghost use Rattle.lc_tool.specs.Stopped.{NoReadCounted};

use crate::fixed::append;
use arrayvec::ArrayString;
use itoa::Buffer;
use lc_audit::Miss;
use lc_desk::{Desk, Slot};
use lc_job::Key;

/// Puts the two pieces of a line on Note. After a piece that is refused nothing more is put.
pub fn note<D: Desk>(desk: &mut D, first: &str, second: &str)
    ensures noted { Noted (first.now ++ second.now) (D.state desk.old) (D.state desk.new) }
    ensures asked { (D.state desk.new).asked ≡ (D.state desk.old).asked }
    ensures counts { NoReadCounted (D.state desk.old) (D.state desk.new) }
{
    if desk.put(Slot::Note, first.as_bytes()).is_ok() {
        let _ = desk.put(Slot::Note, second.as_bytes());
    }
}

/// Tells that there is no memory.
pub fn note_memory<D: Desk>(desk: &mut D)
    ensures noted { Noted memory_line (D.state desk.old) (D.state desk.new) }
    ensures asked { (D.state desk.new).asked ≡ (D.state desk.old).asked }
    ensures counts { NoReadCounted (D.state desk.old) (D.state desk.new) }
{
    note(desk, "out", " of memory\n");
}

pub fn note_usage<D: Desk>(desk: &mut D)
    ensures noted { Noted usage_line (D.state desk.old) (D.state desk.new) }
    ensures asked { (D.state desk.new).asked ≡ (D.state desk.old).asked }
{
    note(
        desk,
        "usage:",
        " lightcuts probe LIGHTS X Y Z NX NY NZ | render JOB | plain JOB | audit JOB STEP | make N\n",
    );
}

pub fn note_absent<D: Desk>(desk: &mut D, name: &str)
    ensures noted { Noted (absent_line name.now) (D.state desk.old) (D.state desk.new) }
    ensures asked { (D.state desk.new).asked ≡ (D.state desk.old).asked }
{
    note(desk, name, ": absent\n");
}

pub fn note_read_fault<D: Desk>(desk: &mut D, name: &str)
    ensures noted { Noted (read_fault_line name.now) (D.state desk.old) (D.state desk.new) }
    ensures asked { (D.state desk.new).asked ≡ (D.state desk.old).asked }
{
    note(desk, name, ": read fault\n");
}

/// A file is longer than so many bytes.
pub fn note_long<D: Desk>(desk: &mut D, name: &str, limit: u64)
    ensures noted { Noted (long_line limit name.now) (D.state desk.old) (D.state desk.new) }
    ensures asked { (D.state desk.new).asked ≡ (D.state desk.old).asked }
{
    let mut digits = Buffer::new();
    let mut rest = ArrayString::<64>::new();
    append(&mut rest, ": longer than ");
    append(&mut rest, digits.format(limit));
    append(&mut rest, " bytes\n");
    note(desk, name, rest.as_str());
}

/// A job lacks a required keyword.
pub fn note_missing<D: Desk>(desk: &mut D, name: &str, key: Key)
    ensures noted { Noted (missing_line name.now key) (D.state desk.old) (D.state desk.new) }
    ensures asked { (D.state desk.new).asked ≡ (D.state desk.old).asked }
{
    let mut rest = ArrayString::<64>::new();
    append(&mut rest, ": line 0: kind 5: ");
    append(&mut rest, key.word());
    append(&mut rest, "\n");
    note(desk, name, rest.as_str());
}

pub fn note_fault<D: Desk>(desk: &mut D, name: &str, line: u32, kind: u8)
    ensures noted { Noted (fault_line name.now line kind) (D.state desk.old) (D.state desk.new) }
    ensures asked { (D.state desk.new).asked ≡ (D.state desk.old).asked }
{
    let mut digits = Buffer::new();
    let mut rest = ArrayString::<128>::new();
    append(&mut rest, ": line ");
    append(&mut rest, digits.format(line));
    append(&mut rest, ": kind ");
    append(&mut rest, digits.format(kind));
    append(&mut rest, "\n");
    note(desk, name, rest.as_str());
}

/// A recorded bound does not hold.
#[tactic(auto, unfolding(crate::specs::Lines::miss_words))]
pub fn note_miss<D: Desk>(desk: &mut D, miss: &Miss)
    ensures noted { Noted (miss_line miss.now) (D.state desk.old) (D.state desk.new) }
    ensures asked { (D.state desk.new).asked ≡ (D.state desk.old).asked }
{
    let mut digits = Buffer::new();
    let mut rest = ArrayString::<192>::new();
    append(&mut rest, " sample ");
    append(&mut rest, digits.format(miss.sample));
    append(&mut rest, " channel ");
    append(&mut rest, digits.format(miss.channel.number()));
    append(&mut rest, " plain ");
    append(&mut rest, digits.format(miss.plain));
    append(&mut rest, " est ");
    append(&mut rest, digits.format(miss.est));
    append(&mut rest, " bound ");
    append(&mut rest, digits.format(miss.bound));
    append(&mut rest, "\n");
    note(desk, "audit:", rest.as_str());
}

fn word(slot: Slot) -> &'static str
    ensures { result.now ≡ slot_word slot }
{
    match slot {
        Slot::Picture => "picture:",
        Slot::Bounds => "bounds:",
        Slot::Report => "report:",
        Slot::Note => "note:",
    }
}

pub fn note_write_fault<D: Desk>(desk: &mut D, slot: Slot)
    ensures noted { Noted (write_fault_line slot) (D.state desk.old) (D.state desk.new) }
    ensures asked { (D.state desk.new).asked ≡ (D.state desk.old).asked }
{
    note(desk, word(slot), " write fault\n");
}
