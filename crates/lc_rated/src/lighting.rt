// What lights a spot: three light trees, whose nodes are found from the roots down.
ghost use Rattle.std.specs.Prelude.{◌≡◌, ◌+◌, if◌then◌else◌, IsSome, IsSomeAnd, is_some};
ghost use Rattle.lc_rated.specs.LitTrees.{tree_for, find};
ghost use Rattle.lc_rated.specs.Finding.{IsRoot, IsSplit};

use crate::kind::LightKind;
use crate::light::NodeLight;
use lc_num::{Rgb, Steps};
use std::sync::ledger::Ledger;

/// A node of a tree, the light that it gives, and what is kept of its representative's evaluation.
#[derive(Clone, Copy)]
pub struct Found<K> {
    pub node: u32,
    pub light: NodeLight,
    pub kept: K,
}

/// The children of a node, and the estimate that the node had.
#[derive(Clone, Copy)]
pub struct Split<K> {
    pub est: Rgb,
    pub left: Found<K>,
    pub right: Found<K>,
}

/// Three light trees at one spot, one of each kind of light. Any of them may be empty. The representative of an inner
/// node is that of one of its children, so only that of the other has to be evaluated where a node gives way to them.
pub trait Lighting {
    ghost use Rattle.std.specs.Prelude.{ℕ};
    ghost use Rattle.lc_rated.specs.declared.kind.LightKind.{LightKind};
    ghost use Rattle.lc_rated.specs.LitTrees.{Trees};

    /// What is kept of the evaluation of a representative.
    type Kept: Copy;

    /// What each node gives at the spot.
    ghost trees: { Self → Trees };

    /// That this may be kept of the node of a kind and a number.
    ghost keeps: { Self → LightKind → ℕ → Self.Kept → Type 0 };

    /// The root of the tree of a kind, if there is one. Its representative is evaluated, which counts one step.
    fn root<L: Ledger>(&self, kind: LightKind, steps: &mut Steps<L>) -> Option<Found<Self::Kept>>
        ensures root { IsRoot (keeps self.now kind) (tree_for (trees self.now) kind) result }
        ensures steps { steps.new ≡ steps.old + (if is_some result then 1 else 0) };

    /// The children of a node, none for a leaf. One representative is evaluated, which counts one step.
    fn split<L: Ledger>(
        &self,
        kind: LightKind,
        node: u32,
        kept: Self::Kept,
        steps: &mut Steps<L>,
    ) -> Option<Split<Self::Kept>>
        requires node { IsSome (find (trees self.now) kind node) }
        requires kept { keeps self.now kind node kept }
        ensures split { IsSomeAnd (find (trees self.now) kind node) (λ t. IsSplit (keeps self.now kind) node t result) }
        ensures steps { steps.new ≡ steps.old + (if is_some result then 1 else 0) };
}
