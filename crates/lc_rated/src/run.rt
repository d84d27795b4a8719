// From the first cut to the one that stops.
ghost use Rattle.std.specs.Prelude.{◌≡◌, ◌+◌, ◌<◌, ◌≤◌, length};
ghost use Rattle.lc_rated.specs.Cuts.{answer, answer_of, AreLimited};

use crate::answer::Answer;
use crate::begin::begin;
use crate::lighting::Lighting;
use crate::nodes::Nodes;
use crate::refine::refine;
use lc_num::Steps;
use std::sync::ledger::{Blank, Ledger};

/// What is answered of the nodes of a cut.
fn answer_at<K: Copy>(nodes: &Nodes<K>) -> Answer
    ensures size { result.size ≡ length nodes.now.entries }
    ensures evals { result.evals ≡ length nodes.now.entries }
    ensures est { result.est ≡ nodes.now.sums.est }
    ensures bound { result.bound ≡ nodes.now.sums.bound }
{
    let size = nodes.len();
    let sums = nodes.sums();
    Answer {
        size,
        evals: size,
        est: sums.est,
        bound: sums.bound,
    }
}

/// Refines until a cut stops. The blank is for the ledger of the heap's comparisons.
pub fn run<T: Lighting, L: Ledger, M: Ledger>(
    nodes: &mut Nodes<T::Kept>,
    lighting: &T,
    size: u32,
    permille: u32,
    steps: &mut Steps<L>,
    blank: Blank,
) -> Answer
    requires limited { AreLimited (T.trees lighting.now) }
    requires permille { permille ≤ 1000 }
    requires least { 3 ≤ size }
    requires room { nodes.old.room ≡ size }
    requires name { blank.name ≡ M.name }
    requires parts { blank.parts ≡ M.parts }
    requires some { 0 < M.parts }
    ensures value { result ≡ answer size permille (T.trees lighting.now) }
    ensures steps { steps.new ≡ steps.old + result.evals }
    ensures room { nodes.new.room ≡ nodes.old.room }
{
    let mut comparisons = Steps::<M>::start(blank);
    begin(nodes, lighting, steps, &mut comparisons);
    while !nodes.is_done(size, permille) {
        refine(nodes, lighting, steps, &mut comparisons);
    }
    answer_at(nodes)
}
