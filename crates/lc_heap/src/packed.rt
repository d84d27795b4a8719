// Entries as the heap keeps them.
ghost use Rattle.std.specs.Prelude.{◌≡◌};
ghost use Rattle.lc_heap.specs.Order.{comes_before};

use crate::entry::Entry;
use std::marker::Model;

/// An entry as the heap keeps it, in 24 bytes without gaps: the halves of its key, its kind and its number. Gaps would
/// be copied byte by byte where entries move. Contracts see it as the entry.
#[derive(Clone, Copy)]
pub(crate) struct Packed {
    upper: u64,
    lower: u64,
    kind: u32,
    node: u32,
}

impl Model for Packed {
    ghost use Rattle.std.specs.Prelude.{◌+◌, ◌*◌, ◌/◌, ◌%◌, ◌^◌, ◌<◌};
    ghost use Rattle.std.proofs.lemmas.Nat.{div-mul-add, mod-mul-add};
    ghost use Rattle.lc_heap.specs.declared.entry.Entry.{Entry};

    ghost Value = { Entry };

    ghost view = { λ p. record { key = p.upper * 2 ^ 64 + p.lower; kind = p.kind; node = p.node } };

    ghost invariant = { λ p. (p.lower < 2 ^ 64) × (p.kind < 2 ^ 8) };

    ghost inverse = { λ e.
        record { upper = e.key / 2 ^ 64; lower = e.key % 2 ^ 64; kind = e.kind; node = e.node } };

    ghost inverse_ok = { λ p h i. record {
      upper = div-mul-add p.upper (2 ^ 64) p.lower h.0 i;
      lower = mod-mul-add p.upper (2 ^ 64) p.lower h.0 i;
      kind = p.kind;
      node = p.node;
    } };
}

impl Packed {
    /// An entry, as the heap keeps it.
    pub(crate) fn of(entry: Entry) -> Packed
        ensures { result ≡ entry }
    {
        Packed {
            upper: (entry.key >> 64) as u64,
            lower: (entry.key % (1 << 64)) as u64,
            kind: u32::from(entry.kind),
            node: entry.node,
        }
    }

    /// The entry.
    pub(crate) fn entry(self) -> Entry
        ensures { result ≡ self }
    {
        Entry {
            key: (u128::from(self.upper) << 64) + u128::from(self.lower),
            kind: self.kind as u8,
            node: self.node,
        }
    }
}

/// Whether an entry comes before another. The upper halves of their keys mostly tell.
pub(crate) fn comes_before(a: Packed, b: Packed) -> bool
    ensures { result ≡ comes_before a b }
{
    if a.upper != b.upper {
        return b.upper < a.upper;
    }
    if a.lower != b.lower {
        return b.lower < a.lower;
    }
    if a.kind != b.kind {
        return a.kind < b.kind;
    }
    a.node < b.node
}
