// Cuts at many spots.
ghost use Rattle.std.specs.Prelude.{◌≡◌, ◌≤◌, ◌<◌};

use crate::inputs::Random;
use lc_cut::{Ask, Bench, Forest, cut};
use lc_hier::Plain;
use lc_num::{Rule, Steps};
use std::marker::Brand;
use std::sync::ledger::{Blank, Ledger};

const ASK: Ask = Ask {
    permille: 20,
    size: 1000,
    rule: Rule::One,
};

/// How many lights were evaluated, and a checksum of estimates and bounds.
#[derive(Clone, Copy)]
pub struct Sums {
    pub evals: u64,
    pub light: u128,
}

/// Adds the cut at a spot.
fn add_cut<L: Ledger>(
    sums: Sums,
    bench: &mut Bench,
    forest: &Forest,
    scene: &Plain,
    random: &mut Random,
    blank: Blank,
) -> Sums
    requires bench { bench.old ≡ 1000 }
    requires name { blank.name ≡ L.name }
    requires parts { blank.parts ≡ L.parts }
    requires some { 0 < blank.parts }
    ensures { bench.new ≡ bench.old }
{
    let spot = random.spot();
    let answer = cut(
        bench,
        forest,
        &spot,
        scene,
        ASK,
        &mut Steps::<L>::start(blank),
    );
    Sums {
        evals: sums.evals.wrapping_add(answer.evals as u64),
        light: sums
            .light
            .wrapping_add(answer.est.r)
            .wrapping_add(answer.bound.g),
    }
}

/// Adds the cuts at so many spots.
pub fn add_cuts(
    bench: &mut Bench,
    forest: &Forest,
    scene: &Plain,
    random: &mut Random,
    spots: u32,
) -> Sums
    requires bench { bench.old ≡ 1000 }
    ensures { bench.new ≡ bench.old }
{
    let mut sums = Sums { evals: 0, light: 0 };
    for _ in 0..spots {
        sums = add_cut::<Brand>(sums, bench, forest, scene, random, Blank::new(1));
    }
    sums
}
