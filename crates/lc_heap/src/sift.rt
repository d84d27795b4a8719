// How an entry goes up or down to its place. Until it is there, a place is open, which moves in its stead.
ghost use Rattle.std.specs.Prelude.{◌≡◌, ◌+◌, ◌-◌, ◌*◌, ◌<◌, ◌≤◌, length, slice_set, IsPermutation};
ghost use Rattle.lc_heap.specs.Bits.{bits};
ghost use Rattle.lc_heap.specs.Heaps.{IsFirstChild, IsHeap, IsHeapIn};

use crate::packed::{Packed, comes_before};
use lc_num::Steps;
use std::sync::ledger::Ledger;

/// Puts an entry in the last place, which is open, or above it.
pub(crate) fn rise<L: Ledger>(entries: &mut [Packed], entry: Packed, steps: &mut Steps<L>)
    requires some { 0 < length entries.old }
    requires heap { IsHeapIn entries.old (length entries.old - 1) }
    ensures moved { IsPermutation (slice_set entries.old (length entries.old - 1) entry) entries.new }
    ensures heap { IsHeap entries.new }
    ensures counted { steps.old ≤ steps.new }
    ensures steps { steps.new ≤ steps.old + bits (length entries.old - 1) }
{
    let mut at = entries.len() - 1;
    while 0 < at {
        let parent = (at - 1) / 2;
        let above = entries[parent];
        steps.tick();
        if !comes_before(entry, above) {
            break;
        }
        entries[at] = above;
        at = parent;
    }
    entries[at] = entry;
}

/// The place of the first of the children of a place. Which one it is no processor foresees, so it is not asked by a
/// branch.
fn first_child<L: Ledger>(entries: &[Packed], at: usize, steps: &mut Steps<L>) -> usize
    requires { 2 * at + 1 < length entries.now }
    ensures left { 2 * at + 1 ≤ result }
    ensures right { result ≤ 2 * at + 2 }
    ensures within { result < length entries.now }
    ensures first { IsFirstChild entries.now at result }
    ensures counted { steps.old ≤ steps.new }
    ensures steps { steps.new ≤ steps.old + 1 }
{
    let left = 2 * at + 1;
    let right = left + 1;
    if right == entries.len() {
        return left;
    }
    steps.tick();
    left + usize::from(comes_before(entries[right], entries[left]))
}

/// Puts an entry in the first place, which is open, or below it.
pub(crate) fn sink<L: Ledger>(entries: &mut [Packed], entry: Packed, steps: &mut Steps<L>)
    requires some { 0 < length entries.old }
    requires heap { IsHeap entries.old }
    ensures moved { IsPermutation (slice_set entries.old 0 entry) entries.new }
    ensures heap { IsHeap entries.new }
    ensures counted { steps.old ≤ steps.new }
    ensures steps { steps.new ≤ steps.old + 2 * bits (length entries.old) }
{
    let mut at = 0;
    while at < entries.len() / 2 {
        let child = first_child(entries, at, steps);
        let below = entries[child];
        steps.tick();
        if !comes_before(below, entry) {
            break;
        }
        entries[at] = below;
        at = child;
    }
    entries[at] = entry;
}
