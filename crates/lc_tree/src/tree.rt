// Trees of lights.
ghost use Rattle.std.specs.Prelude.{◌≡◌, ◌<◌, ◌≤◌, ◌^◌, All, length, slice_get, Some, IsSomeAnd, IfOk};
ghost use Rattle.lc_tree.specs.Build.{tree_of, weight_of};
ghost use Rattle.lc_tree.specs.Cover.{IsClumpOf, IsLeaderOf};
ghost use Rattle.lc_tree.specs.Node.{count_of, kids_of, node_of, numbers};
ghost use Rattle.lc_tree.specs.Rows.{IsLed, IsRowOf, IsTreeIf};
ghost use Rattle.lc_words.specs.Words.{stream_word};

use crate::build::{clump_weight, rows_of_tree};
use crate::leaves::{Leaves, leaves_of};
use crate::row::Row;
use lc_num::Memory;
use lc_terms::Kind;
use std::alloc::Global;
use std::marker::Model;

/// A binary tree over a list of lights, one light in each leaf, or the empty tree over none. Nodes are numbered in
/// preorder from 0, the root. Lights have their indices in the list as numbers.
#[derive(Drop)]
pub struct Tree<K: Kind> {
    lights: Vec<K::Light>,
    rows: Vec<Row<K::Clump>>,
    leaves: Leaves,
}

impl<K: Kind> Model for Tree<K> {
    ghost use Rattle.lc_tree.specs.Node.{Kept, coded_kept};
    ghost use Rattle.lc_tree.specs.Rows.{read_rows, IsLaidIf, IsListed};

    ghost Value = { Kept K.Light };

    ghost coded = { coded_kept K.Light.code };

    ghost view = { λ t. record { lights = t.lights.items; root = read_rows t.lights.items t.rows.items } };

    ghost invariant = { λ t. IsLaidIf K.meaning.valid_light K.meaning.one K.meaning.join t.lights.items t.rows.items
        × IsListed t.rows.items t.leaves.order.items t.leaves.firsts.items };
}

impl<K: Kind> Tree<K> {
    /// The tree of at most 65,536 lights by halving, with the words of a stream of a seed. Each light of the list
    /// stands in exactly one leaf.
    pub fn build(
        alloc: Global,
        lights: &[K::Light],
        seed: u64,
        stream: u64,
    ) -> Result<Tree<K>, Memory>
        requires few { length lights.now ≤ 65536 }
        requires valid { All K.meaning.valid_light lights.now }
        ensures value { IfOk result (λ t. t
            ≡ record { lights = lights.now; root = tree_of K.meaning (stream_word seed stream) lights.now }) }
        ensures tree { IfOk result (IsTreeIf K.meaning.valid_light) }
    {
        let rows = rows_of_tree::<K>(alloc, lights, seed, stream)?;
        let leaves = leaves_of(alloc, &rows)?;
        let mut held = Vec::new(alloc);
        held.extend_from_slice(lights)?;
        Ok(Tree {
            lights: held,
            rows,
            leaves,
        })
    }

    /// The number of nodes: one less than twice the number of lights, and 0 for the empty tree.
    pub fn count(&self) -> u32
        ensures count { result ≡ count_of self.now.root }
        ensures few { result ≤ 131072 }
        ensures tree { IsTreeIf K.meaning.valid_light self.now }
    {
        self.rows.len() as u32
    }

    fn row(&self, node: u32) -> &Row<K::Clump>
        requires { node < count_of self.now.root }
        ensures row { IsSomeAnd (node_of self.now.root node)
            (λ t. IsRowOf K.meaning.valid_light K.meaning.one K.meaning.join self.now.lights node t result.now) }
        ensures valid { K.meaning.valid_clump result.now.clump }
    {
        &self.rows[node as usize]
    }

    /// The numbers of the left and the right child; none exactly for a leaf.
    pub fn kids(&self, node: u32) -> Option<(u32, u32)>
        requires { node < count_of self.now.root }
        ensures { IsSomeAnd (node_of self.now.root node) (λ t. result ≡ kids_of node t) }
    {
        let left = self.row(node).left;
        if left == 0 {
            None
        } else {
            Some((node + 1, node + 2 * left))
        }
    }

    /// The clump of the lights below a node.
    pub fn clump(&self, node: u32) -> K::Clump
        requires { node < count_of self.now.root }
        ensures clump { IsSomeAnd (node_of self.now.root node) (λ t. IsClumpOf K.meaning t result) }
        ensures valid { K.meaning.valid_clump result }
    {
        self.row(node).clump
    }

    /// The number of the light that stands for a node: for an inner node that of one of its children.
    pub fn leader(&self, node: u32) -> u32
        requires { node < count_of self.now.root }
        ensures leader { IsSomeAnd (node_of self.now.root node) (λ t. IsLeaderOf self.now.lights t result) }
        ensures below { result < length self.now.lights }
        ensures led { IsSomeAnd (node_of self.now.root node) IsLed }
    {
        self.row(node).leader
    }

    /// The numbers of the lights in the leaves below a node, from the left.
    pub fn members(&self, node: u32) -> &[u32]
        requires { node < count_of self.now.root }
        ensures { IsSomeAnd (node_of self.now.root node) (λ t. result.now ≡ numbers t) }
    {
        let count = self.row(node).count as usize;
        let first = self.leaves.firsts[node as usize] as usize;
        &self.leaves.order[first..first + count]
    }

    /// The light of a number.
    pub fn light(&self, number: u32) -> K::Light
        requires { number < length self.now.lights }
        ensures light { slice_get self.now.lights number ≡ Some result }
        ensures valid { K.meaning.valid_light result }
    {
        self.lights[number as usize]
    }

    /// All lights, by their numbers.
    pub fn lights(&self) -> &[K::Light]
        ensures lights { result.now ≡ self.now.lights }
        ensures valid { All K.meaning.valid_light result.now }
    {
        &self.lights
    }

    /// The sum of the three channels of a node's summed intensity, in units of 1/10000.
    pub fn weight(&self, node: u32) -> u64
        requires { node < count_of self.now.root }
        ensures weight { IsSomeAnd (node_of self.now.root node) (λ t. result ≡ weight_of K.meaning t) }
        ensures small { result < 2 ^ 63 }
    {
        clump_weight::<K>(&self.row(node).clump)
    }
}
