// Rounds over the inputs.
ghost use Rattle.std.specs.Prelude.{◌≡◌, ◌+◌, ◌%◌, ◌^◌, sum_by};
ghost use Rattle.lc_num.specs.Roots.{isqrt};
ghost use Rattle.bench_terms.specs.Sums.{length_sum, cosine_of};

use crate::inputs::{Offset, Pair};
use lc_num::{cos16, isqrt, scaled};

fn add_roots(sum: u64, words: &[u64]) -> u64
    ensures { result ≡ (sum + sum_by isqrt words.now) % 2 ^ 64 }
{
    let mut total = sum;
    for word in words {
        total = total.wrapping_add(isqrt(*word as u128));
    }
    total
}

fn add_lengths(sum: u64, vectors: &[Offset]) -> u64
    ensures { result ≡ (sum + sum_by length_sum vectors.now) % 2 ^ 64 }
{
    let mut total = sum;
    for offset in vectors {
        let v = scaled(offset.vector, 16384);
        total = total.wrapping_add(v.x.unsigned_abs() + v.y.unsigned_abs() + v.z.unsigned_abs());
    }
    total
}

fn add_cosines(sum: u64, pairs: &[Pair]) -> u64
    ensures { result ≡ (sum + sum_by cosine_of pairs.now) % 2 ^ 64 }
{
    let mut total = sum;
    for pair in pairs {
        total = total.wrapping_add(cos16(pair.normal, pair.offset) as u64);
    }
    total
}

/// The sum of the roots in all rounds.
pub fn roots(rounds: u32, words: &[u64]) -> u64 {
    let mut sum = 0;
    for _ in 0..rounds {
        sum = add_roots(sum, words);
    }
    sum
}

/// The sum of the components' absolute values in all rounds.
pub fn lengths(rounds: u32, vectors: &[Offset]) -> u64 {
    let mut sum = 0;
    for _ in 0..rounds {
        sum = add_lengths(sum, vectors);
    }
    sum
}

/// The sum of the cosines in all rounds.
pub fn cosines(rounds: u32, pairs: &[Pair]) -> u64 {
    let mut sum = 0;
    for _ in 0..rounds {
        sum = add_cosines(sum, pairs);
    }
    sum
}
