// Cosines of the angle between two vectors.
ghost use Rattle.std.specs.Prelude.{◌≡◌, ◌+◌, ◌*◌, ◌^◌, ◌<◌, ◌≤◌, pos, unsigned_abs};
ghost use Rattle.lc_num.specs.Roots.{ratio_root};
ghost use Rattle.lc_num.specs.Cosines.{CanMeasure, cos16, cosine_at_most};

use crate::guesses::cosine_guess;
use crate::products::{short_dot, short_square};
use crate::roots::isqrt;
use crate::steps::Steps;
use crate::vectors::Vec3;
use std::marker::Brand;
use std::sync::ledger::{Blank, Ledger};

// How many numbers are tested on each side of a guess before the root is found by its digits. None was seen that is
// more than 1 off.
const NEAR: u32 = 4;

/// The root of `top / squares`, one binary digit after the other. Each number that is tested counts one step.
#[cold]
fn by_digits<L: Ledger>(squares: u128, top: u128, steps: &mut Steps<L>) -> u64
    requires some { 0 < squares }
    requires squares { squares < 2 ^ 86 }
    requires top { top ≤ 65536 * 65536 * squares }
    ensures value { result ≡ ratio_root squares top }
    ensures steps { steps.new ≡ steps.old + 17 }
{
    let mut root: u64 = 0;
    for place in (0..17_u32).rev() {
        steps.tick();
        let next = root + (1_u64 << place);
        if (next * next) as u128 * squares <= top {
            root = next;
        }
    }
    root
}

/// A number up to `guess` that is not above the root of `top / squares`: the greatest, or 0 where that is far from the
/// guess. Each number that is tested counts one step.
fn lowered<L: Ledger>(guess: u64, squares: u128, top: u128, steps: &mut Steps<L>) -> u64
    requires guess { guess ≤ 65536 }
    requires squares { squares < 2 ^ 86 }
    ensures low { result * result * squares ≤ top }
    ensures most { result ≤ 65536 }
    ensures counted { steps.old < steps.new }
    ensures steps { steps.new ≤ steps.old + 4 }
{
    let mut root = guess;
    for _ in 0..NEAR {
        steps.tick();
        if (root * root) as u128 * squares <= top {
            return root;
        }
        root -= 1;
    }
    0
}

/// The root of `top / squares`, from a number that is not above it. Each number that is tested counts one step.
fn raised<L: Ledger>(start: u64, squares: u128, top: u128, steps: &mut Steps<L>) -> u64
    requires start { start ≤ 65536 }
    requires low { start * start * squares ≤ top }
    requires some { 0 < squares }
    requires squares { squares < 2 ^ 86 }
    requires top { top ≤ 65536 * 65536 * squares }
    ensures value { result ≡ ratio_root squares top }
    ensures most { result ≤ 65536 }
    ensures counted { steps.old < steps.new }
    ensures steps { steps.new ≤ steps.old + 21 }
{
    let mut root = start;
    for _ in 0..NEAR {
        steps.tick();
        if top < ((root + 1) * (root + 1)) as u128 * squares {
            return root;
        }
        root += 1;
    }
    by_digits(squares, top, steps)
}

/// The greatest k with `k^2 * squares <= 2^32 * along^2`, from a guess. It is at most 65536. Each number that is tested
/// counts one step.
fn guessed<L: Ledger>(along: u64, squares: u128, steps: &mut Steps<L>) -> u32
    requires along { along < 2 ^ 43 }
    requires squares { squares < 2 ^ 86 }
    requires some { 0 < squares }
    requires schwarz { along * along ≤ squares }
    ensures value { result ≡ ratio_root squares (2 ^ 32 * (along * along)) }
    ensures most { result ≤ 65536 }
    ensures counted { steps.old < steps.new }
    ensures steps { steps.new ≤ steps.old + 25 }
{
    let top = 0x1_0000_0000 * (along as u128 * along as u128);
    let start = lowered(cosine_guess(along, squares), squares, top, steps);
    raised(start, squares, top, steps) as u32
}

/// The greatest k with `k^2 * squares <= 2^32 * along^2`. It is at most 65536. The blank is for the ledger of the
/// numbers that are tested.
fn counted<L: Ledger>(along: u64, squares: u128, blank: Blank) -> u32
    requires along { along < 2 ^ 43 }
    requires squares { squares < 2 ^ 86 }
    requires some { 0 < squares }
    requires schwarz { along * along ≤ squares }
    requires name { blank.name ≡ L.name }
    requires parts { blank.parts ≡ L.parts }
    requires positive { 0 < L.parts }
    ensures value { result ≡ ratio_root squares (2 ^ 32 * (along * along)) }
    ensures most { result ≤ 65536 }
{
    guessed(along, squares, &mut Steps::<L>::start(blank))
}

/// The greatest k with `k^2 * squares <= 2^32 * along^2`. It is at most 65536.
fn cosine(along: u64, squares: u128) -> u32
    requires along { along < 2 ^ 43 }
    requires squares { squares < 2 ^ 86 }
    requires some { 0 < squares }
    requires schwarz { along * along ≤ squares }
    ensures value { result ≡ ratio_root squares (2 ^ 32 * (along * along)) }
    ensures most { result ≤ 65536 }
{
    counted::<Brand>(along, squares, Blank::new(1))
}

/// The cosine of the angle between two vectors in 1/65536, rounded down, and 0 where it is negative or a vector is
/// zero: the greatest k with `k^2 * (n.n) * (b.b) <= 2^32 * (n.b)^2`. The components of one vector are at most 16384,
/// and those of the other at most 100,100,000.
pub fn cos16(n: Vec3, b: Vec3) -> u32
    requires { CanMeasure n b }
    ensures value { result ≡ cos16 n b }
    ensures most { result ≤ 65536 }
{
    let along = short_dot(n, b);
    if along <= 0 {
        return 0;
    }
    cosine(
        along as u64,
        short_square(n) as u128 * short_square(b) as u128,
    )
}

// The products of squared lengths from here on want a quotient, as 2^32 times them passes 128 bits.
const LONG_SQUARES: u128 = 1 << 86;

/// The cosine that a positive dot product and a product of two squared lengths give, at most 65536.
fn positive_cosine(along: u64, squares: u128) -> u32
    requires some { 0 < along }
    requires along { along < 2 ^ 43 }
    ensures value { result ≡ cosine_at_most (pos along) squares }
    ensures most { result ≤ 65536 }
{
    let own = along as u128 * along as u128;
    if squares <= own {
        65536
    } else if squares < LONG_SQUARES {
        cosine(along, squares)
    } else {
        isqrt(0x1_0000_0000 * own / squares) as u32
    }
}

/// The cosine in 1/65536 that a dot product and a product of two squared lengths give, rounded down, at most 65536: the
/// greatest k with `k^2 * squares <= 2^32 * along^2`, and 0 where the dot product is not positive.
pub fn cosine_at_most(along: i64, squares: u128) -> u32
    requires along { unsigned_abs along < 2 ^ 43 }
    ensures value { result ≡ cosine_at_most along squares }
    ensures most { result ≤ 65536 }
{
    if along <= 0 {
        0
    } else {
        positive_cosine(along as u64, squares)
    }
}
