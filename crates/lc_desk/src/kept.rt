// One slot of a desk in memory.
ghost use Rattle.std.specs.Prelude.{◌≡◌, ◌≤◌, IsErrOf, ◌++◌, OnOk, OnErr, IfErr, None, Some, MatchOption, IsOkUnless, Err, ◌⊎◌};
ghost use Rattle.lc_desk.specs.Causes.{raised};
ghost use Rattle.lc_desk.specs.Desk.{TookPart};
ghost use Rattle.lc_desk.specs.Effects.{faults_after, shorts_after, slot_after_begin, slot_after_put, part_of};
ghost use Rattle.lc_desk.specs.Memory.{kept_state, empty_slot};

use crate::PutStop;
use std::alloc::Global;

#[derive(Drop)]
pub(crate) struct Kept {
    bytes: Vec<u8>,
    name: Option<String>,
    begun: bool,
    faults: u64,
}

// Counts a want of memory.
fn no_memory(shorts: &mut u64) -> PutStop
    ensures stop { result ≡ PutStop.Memory }
    ensures shorts { shorts.new ≡ raised shorts.old }
    ensures later { shorts.old ≤ shorts.new }
{
    *shorts = shorts.saturating_add(1);
    PutStop::Memory
}

// Appends the bytes, or leaves all as it was where there is no room.
fn append(bytes: &mut Vec<u8>, shorts: &mut u64, part: &[u8]) -> Result<(), PutStop>
    ensures ok { OnOk result (bytes.new.items ≡ bytes.old.items ++ part.now) }
    ensures kept { OnErr result (bytes.new.items ≡ bytes.old.items) }
    ensures memory { IfErr result (λ stop. stop ≡ PutStop.Memory) }
    ensures shorts { shorts.new ≡ shorts_after result shorts.old }
    ensures later { shorts.old ≤ shorts.new }
{
    match bytes.extend_from_slice(part) {
        Ok(()) => Ok(()),
        Err(_) => Err(no_memory(shorts)),
    }
}

impl Kept {
    pub(crate) fn new(alloc: Global) -> Self
        ensures slot { kept_state result ≡ empty_slot }
        ensures faults { result.faults ≡ 0 }
    {
        Kept {
            bytes: Vec::new(alloc),
            name: None,
            begun: false,
            faults: 0,
        }
    }

    pub(crate) fn as_slice(&self) -> &[u8]
        ensures { result.now ≡ self.now.bytes.items }
    {
        &self.bytes
    }

    // Empties the slot, under this name, unless the call is to fail.
    pub(crate) fn begin(
        &mut self,
        alloc: Global,
        taken: Option<u64>,
        shorts: &mut u64,
        name: &str,
    ) -> Result<(), PutStop>
        ensures answer { MatchOption taken (IsOkUnless result PutStop.Memory) (λ _. result ≡ Err PutStop.Failed) }
        ensures slot { kept_state self.new ≡ slot_after_begin result name.now (kept_state self.old) }
        ensures faults { self.new.faults ≡ faults_after result self.old.faults }
        ensures shorts { shorts.new ≡ shorts_after result shorts.old }
        ensures quiet { taken ≡ None → self.new.faults ≡ self.old.faults }
        ensures later { self.old.faults ≤ self.new.faults }
        ensures short_later { shorts.old ≤ shorts.new }
    {
        if taken.is_some() {
            self.faults = self.faults.saturating_add(1);
            return Err(PutStop::Failed);
        }
        match String::from_str(alloc, name) {
            Ok(name) => {
                self.bytes.clear();
                self.name = Some(name);
                self.begun = true;
                Ok(())
            }
            Err(_) => Err(no_memory(shorts)),
        }
    }

    // Appends the piece, or its first bytes where the call is to fail.
    pub(crate) fn put(
        &mut self,
        taken: Option<u64>,
        shorts: &mut u64,
        piece: &[u8],
    ) -> Result<(), PutStop>
        ensures answer { MatchOption taken (IsOkUnless result PutStop.Memory) (λ _. (result ≡ Err PutStop.Failed)
            ⊎ (result ≡ Err PutStop.Memory)) }
        ensures slot { kept_state self.new ≡ slot_after_put result (part_of taken piece.now) (kept_state self.old) }
        ensures faults { self.new.faults ≡ faults_after result self.old.faults }
        ensures shorts { shorts.new ≡ shorts_after result shorts.old }
        ensures part { IsErrOf result PutStop.Failed → TookPart piece.now (kept_state self.old) (kept_state self.new) }
        ensures quiet { taken ≡ None → self.new.faults ≡ self.old.faults }
        ensures later { self.old.faults ≤ self.new.faults }
        ensures short_later { shorts.old ≤ shorts.new }
    {
        match taken {
            None => append(&mut self.bytes, shorts, piece),
            Some(count) => {
                append(&mut self.bytes, shorts, first_bytes(piece, count))?;
                self.faults = self.faults.saturating_add(1);
                Err(PutStop::Failed)
            }
        }
    }
}

// The first `count` bytes, or all where there are fewer.
fn first_bytes(piece: &[u8], count: u64) -> &[u8]
    ensures { result.now ≡ part_of (Some count) piece.now }
{
    if count < piece.len() as u64 {
        &piece[..count as usize]
    } else {
        piece
    }
}
