// The desk of the operating system: files by their paths, Report on standard output, Note on standard error.
ghost use Rattle.std.specs.Prelude.{◌≡◌, ◌≢◌, ◌<◌, ◌≤◌, ◌++◌, ◌∷◌, ℕ, [], List, length, None, Some, OnOk, OnErr, IsErr, IsErrAnd, IsErrOf, IfErr, IfOk, IfSome, IsOk, IsSome, Err};
ghost use Rattle.lc_desk.specs.Causes.{Rose};
ghost use Rattle.lc_desk.specs.Desk.{CanPut, OnlyReads, OnlySlot, Told, TookPart, appended, opened};
ghost use Rattle.lc_desk.specs.Effects.{CountsPut, CountsRead, after_begin, after_put, after_read};
ghost use Rattle.lc_desk.specs.Slots.{slot_at};
ghost use Rattle.lc_desk.specs.Host.{AppendsPart, HasMore, HasPart, tally_state, untold_state};
ghost use Rattle.lc_desk.specs.System.{StopsOpen, StopsPut};
ghost use Rattle.std.specs.Io.KnownBytes.{Appends};

use crate::answers::{open_stop, put_stop, room_for};
use crate::streams::{read_within, write_piece};
use crate::tally::Tally;
use crate::{Desk, PutStop, ReadStop, Slot};
use std::fs::OpenFile;
use std::io::{Read, Write};
use std::rt::Files;
use std::{fs, io};

/// The desk of the operating system, the program's only way to the outside. Picture and Bounds are files, Report is
/// standard output and Note is standard error. It tells no contents.
///
/// A file that is not found counts as absent. A call that a signal interrupts is tried again. Where the system has no
/// memory for a begin or a put, that is want of memory. Any other refusal of the system is a fault of the read or of
/// the slot, as are a folder in place of a file, a full disk and a closed pipe.
#[derive(Drop)]
pub struct HostDesk<'a, R: Files + Print, E: Print> {
    runtime: &'a R,
    errors: &'a E,
    picture: Option<R::File>,
    bounds: Option<R::File>,
    pub(crate) tally: Tally,
}

impl<'a, R: Files + Print, E: Print> HostDesk<'a, R, E> {
    /// A desk over the program's runtime, with its standard error. No slot is begun, and every count is 0.
    pub fn new(runtime: &'a R, errors: &'a E) -> Self
        ensures { ⟦<HostDesk<'a, R, E> as Desk>⟧.state result ≡ untold_state }
    {
        HostDesk {
            runtime,
            errors,
            picture: None,
            bounds: None,
            tally: Tally::new(),
        }
    }
}

// Reads a file that was opened, whose length is looked at first.
fn read_opened<F: OpenFile + Read + Drop>(
    opened: io::Result<F>,
    limit: u64,
    into: &mut Vec<u8>,
) -> Result<(), ReadStop>
    requires { length into.old.items ≤ limit }
    ensures refused { IfErr opened (λ error. IsErrAnd result (StopsOpen error)) }
    ensures present { IsErrOf result ReadStop.Absent → IsErr opened }
    ensures bytes { IfOk opened (λ file. OnOk result (IfSome (F.remaining file) (λ left. into.new.items
        ≡ into.old.items ++ left))) }
    ensures within { OnOk result (length into.new.items ≤ limit) }
{
    let mut file = match opened {
        Ok(file) => file,
        Err(error) => return Err(open_stop(&error)),
    };
    let room = room_for(file.metadata(), limit)?;
    if into.reserve_exact(room as usize).is_err() {
        return Err(ReadStop::Memory);
    }
    read_within(&mut file, limit, into)
}

// Makes a file. Where the program was started with a standard stream closed, the system gives that stream's number to
// the next file, which would then get what is meant for the stream. A second handle has a number of its own.
fn create<R: Files>(runtime: &R, name: &str) -> io::Result<R::File> {
    fs::create(runtime, name)?.try_clone()
}

// Gives a slot the file that was made, in place of the one that it had.
fn place<F: Drop>(made: io::Result<F>, file: &mut Option<F>) -> Result<(), PutStop>
    ensures placed { IfOk made (λ new. file.new ≡ Some new) }
    ensures ok { IsOk made → IsOk result }
    ensures refused { IfErr made (λ error. IsErrAnd result (StopsPut error)) }
    ensures some { OnOk result (IsSome file.new) }
    ensures kept { OnErr result (file.new ≡ file.old) }
{
    match made {
        Ok(made) => {
            *file = Some(made);
            Ok(())
        }
        Err(error) => Err(put_stop(&error)),
    }
}

// Writes a piece to a slot's file. A slot without one takes nothing.
fn write_to<F: Write>(file: &mut Option<F>, piece: &[u8]) -> Result<(), PutStop>
    ensures ok { OnOk result (HasMore F.contents piece.now file.old file.new) }
    ensures part { OnErr result (HasPart F.contents piece.now file.old file.new) }
    ensures none { file.old ≡ None → result ≡ Err PutStop.Failed }
{
    match file {
        Some(file) => write_piece(file, piece),
        None => Err(PutStop::Failed),
    }
}

// Writes a piece to the file or the stream of a slot, and to no other.
fn put_to<F: Write, O: Write, N: Write>(
    slot: Slot,
    picture: &mut Option<F>,
    bounds: &mut Option<F>,
    report: &mut O,
    note: &mut N,
    piece: &[u8],
) -> Result<(), PutStop>
    ensures picture { OnOk result (slot ≡ Slot.Picture → HasMore F.contents piece.now picture.old picture.new) }
    ensures picture_part { OnErr result (slot ≡ Slot.Picture → HasPart F.contents piece.now picture.old picture.new) }
    ensures other_picture { slot ≢ Slot.Picture → picture.new ≡ picture.old }
    ensures bounds { OnOk result (slot ≡ Slot.Bounds → HasMore F.contents piece.now bounds.old bounds.new) }
    ensures bounds_part { OnErr result (slot ≡ Slot.Bounds → HasPart F.contents piece.now bounds.old bounds.new) }
    ensures other_bounds { slot ≢ Slot.Bounds → bounds.new ≡ bounds.old }
    ensures report { OnOk result (slot ≡ Slot.Report
        → Appends (O.contents report.old) (O.contents report.new) piece.now) }
    ensures report_part { OnErr result (slot ≡ Slot.Report
        → AppendsPart (O.contents report.old) (O.contents report.new) piece.now) }
    ensures other_report { slot ≢ Slot.Report → report.new ≡ report.old }
    ensures note { OnOk result (slot ≡ Slot.Note → Appends (N.contents note.old) (N.contents note.new) piece.now) }
    ensures note_part { OnErr result (slot ≡ Slot.Note
        → AppendsPart (N.contents note.old) (N.contents note.new) piece.now) }
    ensures other_note { slot ≢ Slot.Note → note.new ≡ note.old }
{
    match slot {
        Slot::Picture => write_to(picture, piece),
        Slot::Bounds => write_to(bounds, piece),
        Slot::Report => write_piece(report, piece),
        Slot::Note => write_piece(note, piece),
    }
}

impl<'a, R: Files + Print, E: Print> Desk for HostDesk<'a, R, E> {
    ghost state = { λ d. tally_state d.tally };

    fn read(&mut self, name: &str, limit: u64, into: &mut Vec<u8>) -> Result<(), ReadStop>
        // The trait's clauses.
        ensures bytes { OnOk result (Told (tally_state self.old.tally).held name.now (λ file. file
            ≡ Some into.new.items)) }
        ensures within { OnOk result (length into.new.items ≤ limit) }
        ensures emptied { OnErr result (into.new.items ≡ []) }
        ensures absent { IsErrOf result ReadStop.Absent
            → Rose (tally_state self.old.tally).absents (tally_state self.new.tally).absents }
        ensures absent_told { IsErrOf result ReadStop.Absent
            → Told (tally_state self.old.tally).held name.now (λ file. file ≡ None) }
        ensures long { IsErrOf result ReadStop.Long
            → Rose (tally_state self.old.tally).longs (tally_state self.new.tally).longs }
        ensures long_told { IsErrOf result ReadStop.Long
            → Told (tally_state self.old.tally).held name.now (λ file. (bytes : List ℕ) × (file ≡ Some bytes)
            × (limit < length bytes)) }
        ensures failed { IsErrOf result ReadStop.Failed
            → Rose (tally_state self.old.tally).faults.reads (tally_state self.new.tally).faults.reads }
        ensures counted { CountsRead result (tally_state self.old.tally) (tally_state self.new.tally) }
        ensures asked { (tally_state self.new.tally).asked ≡ (tally_state self.old.tally).asked ++ name.now ∷ [] }
        ensures same { OnlyReads (tally_state self.old.tally) (tally_state self.new.tally) }

        // Exactly what it counts.
        ensures after { tally_state self.new.tally ≡ after_read result name.now (tally_state self.old.tally) }
        // The files of the slots stay as they are.
        ensures files_kept { (self.new.picture ≡ self.old.picture) × (self.new.bounds ≡ self.old.bounds) }
    {
        into.clear();
        let outcome = read_opened(fs::open(self.runtime, name), limit, into);
        if outcome.is_err() {
            into.clear();
        }
        self.tally.read(name, outcome);
        outcome
    }

    fn begin(&mut self, slot: Slot, name: &str) -> Result<(), PutStop>
        // The trait's clauses.
        ensures begun { OnOk result (slot_at (tally_state self.new.tally).slots slot
            ≡ opened name.now (slot_at (tally_state self.old.tally).slots slot)) }
        ensures kept { OnErr result ((tally_state self.new.tally).slots ≡ (tally_state self.old.tally).slots) }
        ensures failed { IsErrOf result PutStop.Failed
            → Rose (slot_at (tally_state self.old.tally).faults.puts slot)
            (slot_at (tally_state self.new.tally).faults.puts slot) }
        ensures memory { IsErrOf result PutStop.Memory
            → Rose (tally_state self.old.tally).shorts (tally_state self.new.tally).shorts }
        ensures counted { CountsPut result slot (tally_state self.old.tally) (tally_state self.new.tally) }
        ensures asked { (tally_state self.new.tally).begins
            ≡ (tally_state self.old.tally).begins ++ (slot, name.now) ∷ [] }
        ensures same { OnlySlot slot (tally_state self.old.tally) (tally_state self.new.tally) }

        // Exactly what it counts, and which slots it opens.
        ensures after { tally_state self.new.tally ≡ after_begin result slot name.now (tally_state self.old.tally) }
        // The files, of which a refusal leaves each as it was.
        ensures picture_made { OnOk result (slot ≡ Slot.Picture → IsSome self.new.picture) }
        ensures bounds_made { OnOk result (slot ≡ Slot.Bounds → IsSome self.new.bounds) }
        ensures streams { slot ≢ Slot.Picture → slot ≢ Slot.Bounds → IsOk result }
        ensures files_kept { OnErr result ((self.new.picture ≡ self.old.picture)
            × (self.new.bounds ≡ self.old.bounds)) }
        ensures other_picture { slot ≢ Slot.Picture → self.new.picture ≡ self.old.picture }
        ensures other_bounds { slot ≢ Slot.Bounds → self.new.bounds ≡ self.old.bounds }
    {
        let outcome = match slot {
            Slot::Picture => place(create(self.runtime, name), &mut self.picture),
            Slot::Bounds => place(create(self.runtime, name), &mut self.bounds),
            Slot::Report => Ok(()),
            Slot::Note => Ok(()),
        };
        self.tally.begin(slot, name, outcome);
        outcome
    }

    fn put(&mut self, slot: Slot, piece: &[u8]) -> Result<(), PutStop>
        requires { CanPut (tally_state self.old.tally).slots slot }
        // The trait's clauses.
        ensures put { OnOk result (slot_at (tally_state self.new.tally).slots slot
            ≡ appended piece.now (slot_at (tally_state self.old.tally).slots slot)) }
        ensures failed { IsErrOf result PutStop.Failed
            → Rose (slot_at (tally_state self.old.tally).faults.puts slot)
            (slot_at (tally_state self.new.tally).faults.puts slot) }
        ensures part { IsErrOf result PutStop.Failed
            → TookPart piece.now (slot_at (tally_state self.old.tally).slots slot)
            (slot_at (tally_state self.new.tally).slots slot) }
        ensures memory { IsErrOf result PutStop.Memory
            → Rose (tally_state self.old.tally).shorts (tally_state self.new.tally).shorts }
        ensures kept { IsErrOf result PutStop.Memory
            → (tally_state self.new.tally).slots ≡ (tally_state self.old.tally).slots }
        ensures counted { CountsPut result slot (tally_state self.old.tally) (tally_state self.new.tally) }
        ensures asked { (tally_state self.new.tally).begins ≡ (tally_state self.old.tally).begins }
        ensures same { OnlySlot slot (tally_state self.old.tally) (tally_state self.new.tally) }

        // Exactly what it counts.
        ensures after { tally_state self.new.tally ≡ after_put result slot [] (tally_state self.old.tally) }

        // The files take what is put, where they tell what they hold.
        ensures picture { OnOk result (slot ≡ Slot.Picture
            → HasMore R.File.contents piece.now self.old.picture self.new.picture) }
        ensures bounds { OnOk result (slot ≡ Slot.Bounds
            → HasMore R.File.contents piece.now self.old.bounds self.new.bounds) }
        // Where a put is refused, they take a part of it and nothing else.
        ensures picture_part { OnErr result (slot ≡ Slot.Picture
            → HasPart R.File.contents piece.now self.old.picture self.new.picture) }
        ensures bounds_part { OnErr result (slot ≡ Slot.Bounds
            → HasPart R.File.contents piece.now self.old.bounds self.new.bounds) }
        ensures other_picture { slot ≢ Slot.Picture → self.new.picture ≡ self.old.picture }
        ensures other_bounds { slot ≢ Slot.Bounds → self.new.bounds ≡ self.old.bounds }
    {
        let report = &mut io::writer(self.runtime);
        let note = &mut io::writer(self.errors);
        let (picture, bounds) = (&mut self.picture, &mut self.bounds);
        let outcome = put_to(slot, picture, bounds, report, note, piece);
        self.tally.put(slot, outcome);
        outcome
    }
}
