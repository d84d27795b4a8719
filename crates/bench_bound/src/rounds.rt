// Rounds over the inputs.
ghost use Rattle.std.specs.Prelude.{◌≡◌, ◌+◌, ◌%◌, ◌^◌, sum_by};
ghost use Rattle.bench_bound.specs.Sums.{emission_of, material_sum, oriented_sum, top_sum};

use crate::inputs::{Case, Emission, OrientedCase, Reflection};
use lc_bound::{OmniKind, OrientedKind};
use lc_num::{Rgb, Rule, emit_top};
use lc_terms::{Kind, material};

/// A number and the three channels of a bound.
fn plus(sum: u128, top: Rgb) -> u128
    ensures { result ≡ (sum + (top.r + top.g + top.b)) % 2 ^ 128 }
{
    sum.wrapping_add(top.r)
        .wrapping_add(top.g)
        .wrapping_add(top.b)
}

fn add_tops(sum: u128, cases: &[Case], rule: Rule) -> u128
    ensures { result ≡ (sum + sum_by (top_sum rule) cases.now) % 2 ^ 128 }
{
    let mut total = sum;
    for case in cases {
        total = plus(total, OmniKind::top(&case.spot, &case.clump, rule));
    }
    total
}

fn add_oriented_tops(sum: u128, cases: &[OrientedCase], rule: Rule) -> u128
    ensures { result ≡ (sum + sum_by (oriented_sum rule) cases.now) % 2 ^ 128 }
{
    let mut total = sum;
    for case in cases {
        total = plus(total, OrientedKind::top(&case.spot, &case.clump, rule));
    }
    total
}

fn add_materials(sum: u128, reflections: &[Reflection]) -> u128
    ensures { result ≡ (sum + sum_by material_sum reflections.now) % 2 ^ 128 }
{
    let mut total = sum;
    for lit in reflections {
        total = plus(total, material(&lit.spot, lit.b));
    }
    total
}

fn add_emissions(sum: u128, emissions: &[Emission]) -> u128
    ensures { result ≡ (sum + sum_by emission_of emissions.now) % 2 ^ 128 }
{
    let mut total = sum;
    for e in emissions {
        let top = emit_top(e.normals, e.least_n as u128, e.offsets, e.least_d as u128);
        total = total.wrapping_add(top as u128);
    }
    total
}

/// The sum of the bounds under a rule in all rounds.
pub fn tops(rounds: u32, cases: &[Case], rule: Rule) -> u128 {
    let mut sum = 0;
    for _ in 0..rounds {
        sum = add_tops(sum, cases, rule);
    }
    sum
}

/// The sum of the bounds of oriented lights under a rule in all rounds.
pub fn oriented_tops(rounds: u32, cases: &[OrientedCase], rule: Rule) -> u128 {
    let mut sum = 0;
    for _ in 0..rounds {
        sum = add_oriented_tops(sum, cases, rule);
    }
    sum
}

/// The sum of the material terms in all rounds.
pub fn materials(rounds: u32, reflections: &[Reflection]) -> u128 {
    let mut sum = 0;
    for _ in 0..rounds {
        sum = add_materials(sum, reflections);
    }
    sum
}

/// The sum of the bounds of cosines between two boxes in all rounds.
pub fn emissions(rounds: u32, emissions: &[Emission]) -> u128 {
    let mut sum = 0;
    for _ in 0..rounds {
        sum = add_emissions(sum, emissions);
    }
    sum
}
