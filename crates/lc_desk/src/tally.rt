// What the desk of the system counts, which of its slots were begun, and what it was asked.
ghost use Rattle.std.specs.Prelude.{◌≡◌, ◌≤◌, ◌++◌, ◌∷◌, [], OnOk, OnErr, IsErrOf, IsTrue, true, false};
ghost use Rattle.lc_desk.specs.Causes.{Rose};
ghost use Rattle.lc_desk.specs.Desk.{OnlyReads, OnlySlot};
ghost use Rattle.lc_desk.specs.Effects.{after_read, after_begin, after_put, faults_after, shorts_after};
ghost use Rattle.lc_desk.specs.Host.{tally_state, untold_state};
ghost use Rattle.lc_desk.specs.Slots.{slot_at};

use crate::log::Log;
use crate::per_slot::PerSlot;
use crate::{PutStop, ReadStop, Slot};

#[derive(Drop)]
pub(crate) struct SlotTally {
    pub(crate) begun: bool,
    pub(crate) faults: u64,
}

#[derive(Drop)]
pub(crate) struct Tally {
    pub(crate) slots: PerSlot<SlotTally>,
    pub(crate) reads: u64,
    pub(crate) absents: u64,
    pub(crate) longs: u64,
    pub(crate) shorts: u64,
    log: Log,
}

impl SlotTally {
    fn new() -> Self
        ensures begun { result.begun ≡ false }
        ensures faults { result.faults ≡ 0 }
    {
        SlotTally {
            begun: false,
            faults: 0,
        }
    }

    // Counts a begin or a put of the slot, where it was refused.
    fn count(&mut self, shorts: &mut u64, outcome: Result<(), PutStop>)
        ensures begun { self.new.begun ≡ self.old.begun }
        ensures faults { self.new.faults ≡ faults_after outcome self.old.faults }
        ensures shorts { shorts.new ≡ shorts_after outcome shorts.old }
        ensures later { self.old.faults ≤ self.new.faults }
        ensures short_later { shorts.old ≤ shorts.new }
    {
        match outcome {
            Ok(()) => {}
            Err(PutStop::Failed) => self.faults = self.faults.saturating_add(1),
            Err(PutStop::Memory) => *shorts = shorts.saturating_add(1),
        }
    }

    // Counts a begin, which opens the slot where it went well.
    fn begin(&mut self, shorts: &mut u64, outcome: Result<(), PutStop>)
        ensures opened { OnOk outcome (self.new.begun ≡ true) }
        ensures kept { OnErr outcome (self.new.begun ≡ self.old.begun) }
        ensures faults { self.new.faults ≡ faults_after outcome self.old.faults }
        ensures shorts { shorts.new ≡ shorts_after outcome shorts.old }
        ensures later { self.old.faults ≤ self.new.faults }
        ensures short_later { shorts.old ≤ shorts.new }
    {
        self.count(shorts, outcome);
        if outcome.is_ok() {
            self.begun = true;
        }
    }
}

impl Tally {
    pub(crate) fn new() -> Self
        ensures { tally_state result ≡ untold_state }
    {
        Tally {
            slots: PerSlot {
                picture: SlotTally::new(),
                bounds: SlotTally::new(),
                report: SlotTally::new(),
                note: SlotTally::new(),
            },
            reads: 0,
            absents: 0,
            longs: 0,
            shorts: 0,
            log: Log::new(),
        }
    }

    // Counts a read, where it was refused.
    pub(crate) fn read(&mut self, name: &str, outcome: Result<(), ReadStop>)
        ensures absent { IsErrOf outcome ReadStop.Absent → Rose self.old.absents self.new.absents }
        ensures long { IsErrOf outcome ReadStop.Long → Rose self.old.longs self.new.longs }
        ensures failed { IsErrOf outcome ReadStop.Failed → Rose self.old.reads self.new.reads }
        ensures same { OnlyReads (tally_state self.old) (tally_state self.new) }
        ensures after { tally_state self.new ≡ after_read outcome name.now (tally_state self.old) }
    {
        self.log.read(name);
        match outcome {
            Ok(()) => {}
            Err(ReadStop::Absent) => self.absents = self.absents.saturating_add(1),
            Err(ReadStop::Long) => self.longs = self.longs.saturating_add(1),
            Err(ReadStop::Failed) => self.reads = self.reads.saturating_add(1),
            Err(ReadStop::Memory) => {}
        }
    }

    // Counts a begin, and opens the slot where it went well.
    pub(crate) fn begin(&mut self, slot: Slot, name: &str, outcome: Result<(), PutStop>)
        ensures begun { OnOk outcome (IsTrue (slot_at (tally_state self.new).slots slot).begun) }
        ensures kept { OnErr outcome ((tally_state self.new).slots ≡ (tally_state self.old).slots) }
        ensures failed { IsErrOf outcome PutStop.Failed
            → Rose (slot_at (tally_state self.old).faults.puts slot) (slot_at (tally_state self.new).faults.puts slot) }
        ensures memory { IsErrOf outcome PutStop.Memory → Rose self.old.shorts self.new.shorts }
        ensures same { OnlySlot slot (tally_state self.old) (tally_state self.new) }
        ensures after { tally_state self.new ≡ after_begin outcome slot name.now (tally_state self.old) }
    {
        self.log.begin(&slot, name);
        self.slots.at_mut(slot).begin(&mut self.shorts, outcome);
    }

    // Counts a put, where it was refused.
    pub(crate) fn put(&mut self, slot: Slot, outcome: Result<(), PutStop>)
        ensures kept { (tally_state self.new).slots ≡ (tally_state self.old).slots }
        ensures failed { IsErrOf outcome PutStop.Failed
            → Rose (slot_at (tally_state self.old).faults.puts slot) (slot_at (tally_state self.new).faults.puts slot) }
        ensures memory { IsErrOf outcome PutStop.Memory → Rose self.old.shorts self.new.shorts }
        ensures same { OnlySlot slot (tally_state self.old) (tally_state self.new) }
        ensures after { tally_state self.new ≡ after_put outcome slot [] (tally_state self.old) }
    {
        self.slots.at_mut(slot).count(&mut self.shorts, outcome);
    }
}
