//! Laws of whole numbers, over unbounded numbers: roots, and sums of products of six numbers.
//!
//! The functions do nothing. Each states laws by its contract, for the crates above to cite.
#![tactic(auto)]

ghost use Rattle.std.specs.Prelude.{◌≡◌, ℕ, ◌+◌, ◌*◌, ◌/◌, ◌<◌, ◌≤◌, Bool, true, ℤ, ◌+ℤ◌, ◌-ℤ◌, ◌*ℤ◌, ◌≤ℤ◌};
ghost use Rattle.lc_algebra.specs.Greatest.{greatest_up_to};
ghost use Rattle.lc_algebra.specs.Roots.{isqrt, ratio_root};

/// The greatest number that passes a test, where 0 does.
pub fn greatest_numbers()
    ensures within { (test : ℕ → Bool) (most : ℕ) → greatest_up_to test most ≤ most }
    ensures passes { (test : ℕ → Bool) (most : ℕ) → test 0 ≡ true → test (greatest_up_to test most) ≡ true }
    ensures greatest { (test : ℕ → Bool) (most k : ℕ) → k ≤ most → test k ≡ true → k ≤ greatest_up_to test most }
{}

/// A square root is the one number that its two bounds allow, and rises with its number.
pub fn square_roots()
    ensures low { (n : ℕ) → isqrt n * isqrt n ≤ n }
    ensures high { (n : ℕ) → n < (isqrt n + 1) * (isqrt n + 1) }
    ensures only { (n k : ℕ) → k * k ≤ n → n < (k + 1) * (k + 1) → isqrt n ≡ k }
    ensures rises { (m n : ℕ) → m ≤ n → isqrt m ≤ isqrt n }
{}

/// The root of a ratio: `ratio_root c n` is the root of `n / c`.
pub fn ratio_roots()
    ensures low { (c n : ℕ) → ratio_root c n * ratio_root c n * c ≤ n }
    ensures greatest { (c n k : ℕ) → 0 < c → k * k * c ≤ n → k ≤ ratio_root c n }
    ensures only { (c n k : ℕ) → 0 < c → k * k * c ≤ n → n < (k + 1) * (k + 1) * c → ratio_root c n ≡ k }
    ensures rises { (c m n : ℕ) → 0 < c → m ≤ n → ratio_root c m ≤ ratio_root c n }
    ensures falls { (c d n : ℕ) → 0 < d → d ≤ c → ratio_root c n ≤ ratio_root d n }
    ensures quotient { (c n : ℕ) → 0 < c → isqrt (n / c) ≡ ratio_root c n }
{}

/// Two triples of numbers: the product of their squared lengths is the square of their product and the squared
/// length of their cross product (Lagrange), and so at least the square of their product (Cauchy and Schwarz).
pub fn six_numbers()
    ensures lagrange { (a b c d e f : ℤ)
        → (a *ℤ a +ℤ b *ℤ b +ℤ c *ℤ c) *ℤ (d *ℤ d +ℤ e *ℤ e +ℤ f *ℤ f)
        ≡ (a *ℤ d +ℤ b *ℤ e +ℤ c *ℤ f) *ℤ (a *ℤ d +ℤ b *ℤ e +ℤ c *ℤ f) +ℤ
        ((b *ℤ f -ℤ c *ℤ e) *ℤ (b *ℤ f -ℤ c *ℤ e) +ℤ (c *ℤ d -ℤ a *ℤ f) *ℤ (c *ℤ d -ℤ a *ℤ f) +ℤ
        (a *ℤ e -ℤ b *ℤ d) *ℤ (a *ℤ e -ℤ b *ℤ d)) }
    ensures cauchy_schwarz { (a b c d e f : ℤ)
        → ((a *ℤ d +ℤ b *ℤ e +ℤ c *ℤ f) *ℤ (a *ℤ d +ℤ b *ℤ e +ℤ c *ℤ f)) ≤ℤ
        ((a *ℤ a +ℤ b *ℤ b +ℤ c *ℤ c) *ℤ (d *ℤ d +ℤ e *ℤ e +ℤ f *ℤ f)) }
{}
