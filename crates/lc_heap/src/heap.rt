// Heaps.
ghost use Rattle.std.specs.Prelude.{◌≡◌, ◌+◌, ◌*◌, ◌<◌, ◌≤◌, ◌↔◌, [], ◌∷◌, length, Contains, IfOk, IsPermutation, IsTrue, MatchOption};
ghost use Rattle.lc_heap.specs.Order.{IsFirstOf};
ghost use Rattle.lc_heap.specs.Bits.{bits};
ghost use Rattle.lc_heap.specs.Heaps.{empty_heap};

use crate::entry::Entry;
use crate::packed::Packed;
use crate::sift::{rise, sink};
use lc_num::{Memory, Steps};
use std::alloc::Global;
use std::marker::Model;
use std::sync::ledger::Ledger;

/// Entries of which the first in their order comes out first, in memory that is taken beforehand. Contracts see it as
/// its entries, in no order that matters, and its room: how many entries it can hold.
#[derive(Drop)]
pub struct Heap {
    entries: Vec<Packed>,
    room: u32,
}

impl Model for Heap {
    ghost use Rattle.std.specs.Prelude.{◌≤◌, length, vec_capacity};
    ghost use Rattle.lc_heap.specs.Heaps.{HeapParts, IsHeap, coded_parts};

    ghost Value = { HeapParts };

    ghost coded = { coded_parts };

    ghost view = { λ h. record { entries = h.entries.items; room = h.room } };

    ghost invariant = { λ h. IsHeap h.entries.items × (length h.entries.items ≤ h.room)
        × (h.room ≤ vec_capacity h.entries) };
}

impl Heap {
    /// A heap of no entry, with room for so many.
    pub fn with_room(alloc: Global, n: u32) -> Result<Heap, Memory>
        ensures { IfOk result (λ heap. heap ≡ empty_heap n) }
    {
        let entries = Vec::with_capacity(alloc, n as usize)?;
        Ok(Heap { entries, room: n })
    }

    /// The number of entries.
    pub fn len(&self) -> usize
        ensures count { result ≡ length self.now.entries }
        ensures within { result ≤ self.now.room }
    {
        self.entries.len()
    }

    /// Whether there is no entry.
    pub fn is_empty(&self) -> bool
        ensures { IsTrue result ↔ (self.now.entries ≡ []) }
    {
        self.entries.is_empty()
    }

    /// The entry that comes before all others; none exactly where there is no entry.
    pub fn first(&self) -> Option<Entry>
        ensures { MatchOption result (self.now.entries ≡ []) (λ e. Contains self.now.entries e
            × IsFirstOf self.now.entries e) }
    {
        let first = self.entries.first().copied()?;
        Some(first.entry())
    }

    /// Adds an entry, for which there has to be room. It takes at most as many comparisons as the number of entries
    /// after it has binary digits.
    pub fn put<L: Ledger>(&mut self, e: Entry, steps: &mut Steps<L>)
        requires { length self.old.entries < self.old.room }
        ensures entries { IsPermutation (e ∷ self.old.entries) self.new.entries }
        ensures room { self.new.room ≡ self.old.room }
        ensures counted { steps.old ≤ steps.new }
        ensures steps { steps.new ≤ steps.old + bits (length self.new.entries) }
    {
        let packed = Packed::of(e);
        let _ = self.entries.push(packed);
        rise(&mut self.entries, packed, steps);
    }

    /// Takes out the entry that comes before all others; none exactly where there is no entry. It takes at most twice
    /// as many comparisons as the number of entries before it has binary digits.
    pub fn take<L: Ledger>(&mut self, steps: &mut Steps<L>) -> Option<Entry>
        ensures entries { MatchOption result ((self.old.entries ≡ [])
            × (self.new.entries ≡ [])) (λ e. IsPermutation self.old.entries (e ∷ self.new.entries)
            × IsFirstOf self.old.entries e) }
        ensures room { self.new.room ≡ self.old.room }
        ensures counted { steps.old ≤ steps.new }
        ensures steps { steps.new ≤ steps.old + 2 * bits (length self.old.entries) }
    {
        let last = self.entries.pop()?;
        if self.entries.is_empty() {
            return Some(last.entry());
        }
        let first = self.entries[0];
        sink(&mut self.entries, last, steps);
        Some(first.entry())
    }

    /// Takes out the entry that comes before all others and adds one, in at most twice as many comparisons as the
    /// number of entries has binary digits.
    pub fn exchange<L: Ledger>(&mut self, e: Entry, steps: &mut Steps<L>) -> Entry
        requires { 0 < length self.old.entries }
        ensures entries { IsPermutation (e ∷ self.old.entries) (result ∷ self.new.entries) }
        ensures taken { Contains self.old.entries result }
        ensures first { IsFirstOf self.old.entries result }
        ensures room { self.new.room ≡ self.old.room }
        ensures counted { steps.old ≤ steps.new }
        ensures steps { steps.new ≤ steps.old + 2 * bits (length self.old.entries) }
    {
        let first = self.entries[0];
        sink(&mut self.entries, Packed::of(e), steps);
        first.entry()
    }

    /// Lets all entries go.
    pub fn clear(&mut self)
        ensures { self.new ≡ empty_heap self.old.room }
    {
        self.entries.clear();
    }
}
