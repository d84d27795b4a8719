// One step of the sequence of cuts.
ghost use Rattle.std.specs.Prelude.{◌≡◌, ◌+◌, ◌<◌, length};
ghost use Rattle.lc_rated.specs.Cuts.{roots_of, greatest_key, AreLimited};
ghost use Rattle.lc_rated.specs.Nodes.{cut_now, IsCutOf};

use crate::kind::kind_of;
use crate::light::NodeLight;
use crate::lighting::Lighting;
use crate::nodes::Nodes;
use lc_num::Steps;
use std::sync::ledger::Ledger;

/// Puts the children of the first node of greatest key in its place.
pub fn refine<T: Lighting, L: Ledger, M: Ledger>(
    nodes: &mut Nodes<T::Kept>,
    lighting: &T,
    steps: &mut Steps<L>,
    comparisons: &mut Steps<M>,
)
    requires limited { AreLimited (T.trees lighting.now) }
    requires cut { IsCutOf (T.keeps lighting.now) (roots_of (T.trees lighting.now)) nodes.old }
    requires some { 0 < greatest_key (cut_now (roots_of (T.trees lighting.now)) nodes.old) }
    requires room { length nodes.old.entries < nodes.old.room }
    ensures cut { IsCutOf (T.keeps lighting.now) (roots_of (T.trees lighting.now)) nodes.new }
    ensures more { length nodes.new.entries ≡ length nodes.old.entries + 1 }
    ensures room { nodes.new.room ≡ nodes.old.room }
    ensures steps { steps.new ≡ steps.old + 1 }
{
    let Some(first) = nodes.first() else {
        unreachable!();
    };
    let kind = kind_of(first.kind);
    let Some(slot) = nodes.slot(kind, first.node) else {
        unreachable!();
    };
    let Some(held) = nodes.kept(slot) else {
        unreachable!();
    };
    let Some(split) = lighting.split(kind, first.node, held.kept, steps) else {
        unreachable!();
    };
    let light = NodeLight {
        est: split.est,
        bound: held.bound,
    };
    nodes.replace(kind, slot, light, split.left, split.right, comparisons);
}
