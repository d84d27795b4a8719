// The best-first cut, in memory that is made beforehand.
ghost use Rattle.std.specs.Prelude.{◌≡◌, ◌+◌, ◌*◌, ◌≤◌, ◌⊎◌, IfOk};
ghost use Rattle.lc_rated.specs.LitTrees.{AreBounded};
ghost use Rattle.lc_rated.specs.Cuts.{answer, full_light, AreLimited, IsFraction, IsNear};

use crate::answer::Answer;
use crate::lighting::Lighting;
use crate::nodes::Nodes;
use crate::run::run;
use lc_num::{Memory, Steps};
use std::alloc::Global;
use std::marker::{Brand, Model};
use std::sync::ledger::{Blank, Ledger};

/// The working memory of cuts for whose nodes a `K` is kept, seen by contracts as the greatest size that it is made
/// for.
#[derive(Drop)]
pub struct Bench<K: Copy> {
    nodes: Nodes<K>,
}

impl<K: Copy> Model for Bench<K> {
    ghost use Rattle.std.specs.Prelude.{ℕ};

    ghost Value = { ℕ };

    ghost view = { λ b. b.nodes.room };
}

impl<K: Copy> Bench<K> {
    /// Memory for cuts of at most so many nodes.
    pub fn new(alloc: Global, size: u32) -> Result<Bench<K>, Memory>
        ensures { IfOk result (λ b. b ≡ size) }
    {
        let nodes = Nodes::with_room(alloc, size)?;
        Ok(Bench { nodes })
    }
}

/// The best-first cut of three light trees at a spot, of at most `size` nodes: the first whose bounds add up to at
/// most `permille` thousandths of its estimates in each channel, or that has the greatest size. Each root and each
/// refinement evaluates one light, which counts one step. It takes no memory.
pub fn best_cut<T: Lighting, L: Ledger>(
    bench: &mut Bench<T::Kept>,
    lighting: &T,
    size: u32,
    permille: u32,
    steps: &mut Steps<L>,
) -> Answer
    requires bench { bench.old ≡ size }
    requires least { 3 ≤ size }
    requires permille { permille ≤ 1000 }
    requires limited { AreLimited (T.trees lighting.now) }
    ensures value { result ≡ answer size permille (T.trees lighting.now) }
    ensures near { AreBounded (T.trees lighting.now) → IsNear (full_light (T.trees lighting.now)) result }
    ensures fraction { (result.size ≡ size) ⊎ IsFraction permille result }
    ensures size { result.size ≤ size }
    ensures evals { result.evals ≤ 2 * size }
    ensures each { result.evals ≡ result.size }
    ensures steps { steps.new ≡ steps.old + result.evals }
    ensures bench { bench.new ≡ bench.old }
{
    run::<T, L, Brand>(
        &mut bench.nodes,
        lighting,
        size,
        permille,
        steps,
        Blank::new(1),
    )
}
