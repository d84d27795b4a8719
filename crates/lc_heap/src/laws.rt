// Laws of the order of entries and of numbers of digits. The functions do nothing: each states laws by its contract.
ghost use Rattle.std.specs.Prelude.{◌≡◌, ℕ, ◌<◌, ◌≤◌, ◌^◌, false, true};
ghost use Rattle.lc_heap.specs.declared.entry.Entry.{Entry};
ghost use Rattle.lc_heap.specs.Order.{comes_before};
ghost use Rattle.lc_heap.specs.Bits.{bits};

/// The order of entries is total: of two that differ exactly one comes before the other, no entry comes before itself,
/// and what comes before an entry comes before all that come after it.
pub fn entries_in_order()
    ensures total { (a b : Entry) → comes_before a b ≡ false → comes_before b a ≡ false → a ≡ b }
    ensures one_way { (a b : Entry) → comes_before a b ≡ true → comes_before b a ≡ false }
    ensures itself { (a : Entry) → comes_before a a ≡ false }
    ensures chain { (a b c : Entry) → comes_before a b ≡ true → comes_before b c ≡ true → comes_before a c ≡ true }
{}

/// The number of binary digits of m is the least k with m below the k-th power of two.
pub fn binary_digits()
    ensures enough { (m : ℕ) → m < 2 ^ bits m }
    ensures least { (m k : ℕ) → m < 2 ^ k → bits m ≤ k }
{}
