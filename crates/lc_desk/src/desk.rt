// The outside world as the program sees it.
ghost use Rattle.std.specs.Prelude.{◌≡◌, ◌<◌, ◌≤◌, ◌++◌, ◌∷◌, ℕ, [], List, length, OnOk, OnErr, IsErrOf, Some, None};
ghost use Rattle.lc_desk.specs.Causes.{Rose};
ghost use Rattle.lc_desk.specs.Desk.{DeskState, OnlyReads, OnlySlot, CanPut, Told, opened, appended, TookPart};
ghost use Rattle.lc_desk.specs.Effects.{CountsPut, CountsRead};
ghost use Rattle.lc_desk.specs.Slots.{slot_at};

/// What the program writes to.
#[derive(Clone, Copy, Debug, PartialEq, Eq)]
pub enum Slot {
    /// The file of the picture.
    Picture,
    /// The file of the recorded bounds.
    Bounds,
    /// The answer to the user, which is standard output on a real system.
    Report,
    /// The line that tells why the program stopped, which is standard error on a real system.
    Note,
}

/// Why a file was not read.
#[derive(Clone, Copy, Debug, PartialEq, Eq)]
pub enum ReadStop {
    /// There is no file of that name.
    Absent,
    /// The file has more bytes than the limit.
    Long,
    /// The file is there, or may be, and reading it went wrong.
    Failed,
    /// There was no memory for the bytes.
    Memory,
}

/// Why a slot was not begun, or did not take a piece.
#[derive(Clone, Copy, Debug, PartialEq, Eq)]
pub enum PutStop {
    /// The slot refused, or a piece was taken only in part.
    Failed,
    /// There was no memory.
    Memory,
}

/// Files that are read by name, and four slots that are written.
///
/// It counts what went wrong: the faults of reads and of each slot, the reads that found no file, those that found
/// more than their limit, and the begins and puts that found no memory. No count ever falls. Contracts also know the
/// names that it was asked to read, and the slots and names that it was asked to begin, each in order; a run keeps no
/// bytes for them.
pub trait Desk {
    /// The files that it holds, its slots, its counts, and what it was asked.
    ghost state: { Self → DeskState };

    /// Reads a file of at most `limit` bytes. After `Ok`, `into` is exactly the file's bytes, and after a refusal it
    /// is empty.
    ///
    /// `Memory` may come at any time. Every other refusal raises the count of its cause by one. No other count changes.
    fn read(&mut self, name: &str, limit: u64, into: &mut Vec<u8>) -> Result<(), ReadStop>
        ensures bytes { OnOk result (Told (state self.old).held name.now (λ file. file ≡ Some into.new.items)) }
        ensures within { OnOk result (length into.new.items ≤ limit) }
        ensures emptied { OnErr result (into.new.items ≡ []) }
        ensures absent { IsErrOf result ReadStop.Absent → Rose (state self.old).absents (state self.new).absents }
        ensures absent_told { IsErrOf result ReadStop.Absent
            → Told (state self.old).held name.now (λ file. file ≡ None) }
        ensures long { IsErrOf result ReadStop.Long → Rose (state self.old).longs (state self.new).longs }
        ensures long_told { IsErrOf result ReadStop.Long
            → Told (state self.old).held name.now (λ file. (bytes : List ℕ) × (file ≡ Some bytes)
            × (limit < length bytes)) }
        ensures failed { IsErrOf result ReadStop.Failed
            → Rose (state self.old).faults.reads (state self.new).faults.reads }
        ensures counted { CountsRead result (state self.old) (state self.new) }
        ensures asked { (state self.new).asked ≡ (state self.old).asked ++ name.now ∷ [] }
        ensures same { OnlyReads (state self.old) (state self.new) };

    /// Leaves the slot empty, under this name. After a refusal the slot and its name are as they were.
    ///
    /// `Failed` raises the slot's count of faults by one, and `Memory` the count of wants of memory. No other count
    /// changes.
    fn begin(&mut self, slot: Slot, name: &str) -> Result<(), PutStop>
        ensures begun { OnOk result (slot_at (state self.new).slots slot
            ≡ opened name.now (slot_at (state self.old).slots slot)) }
        ensures kept { OnErr result ((state self.new).slots ≡ (state self.old).slots) }
        ensures failed { IsErrOf result PutStop.Failed
            → Rose (slot_at (state self.old).faults.puts slot) (slot_at (state self.new).faults.puts slot) }
        ensures memory { IsErrOf result PutStop.Memory → Rose (state self.old).shorts (state self.new).shorts }
        ensures counted { CountsPut result slot (state self.old) (state self.new) }
        ensures asked { (state self.new).begins ≡ (state self.old).begins ++ (slot, name.now) ∷ [] }
        ensures same { OnlySlot slot (state self.old) (state self.new) };

    /// Appends the piece to the slot, which was begun before, or is Report or Note.
    ///
    /// `Failed` leaves what the slot held and the first bytes of the piece, and raises the slot's count of faults by
    /// one. `Memory` leaves the slot as it was, and raises the count of wants of memory by one. No other count
    /// changes.
    fn put(&mut self, slot: Slot, piece: &[u8]) -> Result<(), PutStop>
        requires { CanPut (state self.old).slots slot }
        ensures put { OnOk result (slot_at (state self.new).slots slot
            ≡ appended piece.now (slot_at (state self.old).slots slot)) }
        ensures failed { IsErrOf result PutStop.Failed
            → Rose (slot_at (state self.old).faults.puts slot) (slot_at (state self.new).faults.puts slot) }
        ensures part { IsErrOf result PutStop.Failed
            → TookPart piece.now (slot_at (state self.old).slots slot) (slot_at (state self.new).slots slot) }
        ensures memory { IsErrOf result PutStop.Memory → Rose (state self.old).shorts (state self.new).shorts }
        ensures kept { IsErrOf result PutStop.Memory → (state self.new).slots ≡ (state self.old).slots }
        ensures counted { CountsPut result slot (state self.old) (state self.new) }
        ensures asked { (state self.new).begins ≡ (state self.old).begins }
        ensures same { OnlySlot slot (state self.old) (state self.new) };
}
