// The first cut.
ghost use Rattle.std.specs.Prelude.{◌≡◌, ◌+◌, ◌≤◌, ◌++◌, List, length};
ghost use Rattle.lc_rated.specs.LitTrees.{tree_for};
ghost use Rattle.lc_rated.specs.Cuts.{root_of, roots_of, AreLimited};
ghost use Rattle.lc_rated.specs.Nodes.{Holds, IsCutOf, roots_before};

use crate::kind::LightKind;
use crate::lighting::Lighting;
use crate::nodes::Nodes;
use lc_num::Steps;
use std::sync::ledger::Ledger;

/// Adds the root of a kind, if there is one, to those of the kinds before it.
fn start<T: Lighting, L: Ledger, M: Ledger>(
    nodes: &mut Nodes<T::Kept>,
    lighting: &T,
    kind: LightKind,
    steps: &mut Steps<L>,
    comparisons: &mut Steps<M>,
)
    requires limited { AreLimited (T.trees lighting.now) }
    requires room { 3 ≤ nodes.old.room }
    requires begun { Holds (T.keeps lighting.now) (roots_before kind (T.trees lighting.now)) nodes.old }
    ensures begun { Holds (T.keeps lighting.now)
        (roots_before kind (T.trees lighting.now) ++ root_of kind (tree_for (T.trees lighting.now) kind)) nodes.new }
    ensures room { nodes.new.room ≡ nodes.old.room }
    ensures steps { steps.new ≡ steps.old + length (root_of kind (tree_for (T.trees lighting.now) kind)) }
{
    if let Some(root) = lighting.root(kind, steps) {
        nodes.add(kind, root, comparisons);
    }
}

/// Starts with the roots.
pub fn begin<T: Lighting, L: Ledger, M: Ledger>(
    nodes: &mut Nodes<T::Kept>,
    lighting: &T,
    steps: &mut Steps<L>,
    comparisons: &mut Steps<M>,
)
    requires limited { AreLimited (T.trees lighting.now) }
    requires room { 3 ≤ nodes.old.room }
    ensures cut { IsCutOf (T.keeps lighting.now) (roots_of (T.trees lighting.now)) nodes.new }
    ensures count { length nodes.new.entries ≡ length (roots_of (T.trees lighting.now)) }
    ensures room { nodes.new.room ≡ nodes.old.room }
    ensures steps { steps.new ≡ steps.old + length (roots_of (T.trees lighting.now)) }
{
    nodes.clear();
    start(nodes, lighting, LightKind::Omni, steps, comparisons);
    start(nodes, lighting, LightKind::Oriented, steps, comparisons);
    start(nodes, lighting, LightKind::Sun, steps, comparisons);
}
