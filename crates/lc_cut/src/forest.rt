// The lights of a scene in trees, and the cut through them at a spot.
ghost use Rattle.std.specs.Prelude.{◌≡◌, ◌+◌, ◌-◌, ◌*◌, ◌^◌, ◌≤◌, ◌⊎◌, IfOk};
ghost use Rattle.lc_num.specs.Channels.{IsRgbWithin};
ghost use Rattle.lc_light.specs.Lights.{AreLights};
ghost use Rattle.lc_terms.specs.Spot.{IsSpot};
ghost use Rattle.lc_rated.specs.Cuts.{IsFraction, IsNear, answer};
ghost use Rattle.lc_cut.specs.Contribution.{plain};
ghost use Rattle.lc_cut.specs.Forest.{IsForest, forest_of, light_count, lights_of, trees_of};

use crate::lit_forest::LitForest;
use lc_bound::{OmniKind, OrientedKind, SunKind};
use lc_geom::Triangles;
use lc_light::Lights;
use lc_num::{Memory, Rgb, Rule, Steps};
use lc_rated::{Answer, best_cut};
use lc_terms::Spot;
use lc_tree::Tree;
use std::alloc::Global;
use std::marker::Model;
use std::sync::ledger::Ledger;

/// The lights of a scene, at most 65,536, each kind in a tree of its own, in which each light stands in exactly one
/// leaf.
#[derive(Drop)]
pub struct Forest {
    pub omni: Tree<OmniKind>,
    pub oriented: Tree<OrientedKind>,
    pub sun: Tree<SunKind>,
}

impl Model for Forest {
    ghost use Rattle.lc_cut.specs.Forest.{ForestParts, IsForest, coded_parts};

    ghost Value = { ForestParts };

    ghost coded = { coded_parts };

    ghost view = { λ f. record { omni = f.omni; oriented = f.oriented; sun = f.sun } };

    ghost invariant = { λ f. IsForest (record { omni = f.omni; oriented = f.oriented; sun = f.sun }) };
}

impl Forest {
    /// The trees of lists of lights by halving, with the words of streams 0, 1 and 2 of the generator of `rand_pcg`.
    /// Each light stands in exactly one leaf of the tree of its kind.
    pub fn build(alloc: Global, lights: &Lights, seed: u64) -> Result<Forest, Memory>
        requires { AreLights lights.now }
        ensures value { IfOk result (λ forest. forest ≡ forest_of seed lights.now) }
        ensures few { IfOk result (λ forest. light_count (lights_of forest) ≤ 65536) }
        ensures forest { IfOk result IsForest }
    {
        let omni = Tree::build(alloc, lights.omni.as_slice(), seed, 0)?;
        let oriented = Tree::build(alloc, lights.oriented.as_slice(), seed, 1)?;
        let sun = Tree::build(alloc, lights.sun.as_slice(), seed, 2)?;
        Ok(Forest {
            omni,
            oriented,
            sun,
        })
    }
}

/// When a cut is fine enough.
#[derive(Clone, Copy, Debug, PartialEq, Eq)]
pub struct Ask {
    /// The thousandths of the estimate that the bound may be, at most 1000.
    pub permille: u32,
    /// The greatest size of a cut, at least 3.
    pub size: u32,
    /// The rule by which clusters are bounded.
    pub rule: Rule,
}

/// The working memory of cuts, seen by contracts as the greatest size that it is made for.
pub type Bench = lc_rated::Bench<Rgb>;

/// The light at a spot among the triangles of a scene, by the best-first cut through the three trees: the answer of
/// the first cut whose bound is at most `permille` thousandths of its estimate in each channel, or that has the
/// greatest size. Each root and each refinement evaluates one light, which counts one step. It takes no memory.
pub fn cut<T: Triangles, L: Ledger>(
    bench: &mut Bench,
    forest: &Forest,
    spot: &Spot,
    scene: &T,
    ask: Ask,
    steps: &mut Steps<L>,
) -> Answer
    requires bench { bench.old ≡ ask.size }
    requires spot { IsSpot spot.now }
    requires least { 3 ≤ ask.size }
    requires permille { ask.permille ≤ 1000 }
    ensures value { result ≡ answer ask.size ask.permille (trees_of (T.list scene.now) spot.now ask.rule forest.now) }
    ensures near { IsNear (plain (T.list scene.now) spot.now (lights_of forest.now)) result }
    ensures fraction { (result.size ≡ ask.size) ⊎ IsFraction ask.permille result }
    ensures size { result.size ≤ ask.size }
    ensures evals { result.evals ≤ 2 * ask.size }
    ensures each { result.evals ≡ result.size }
    ensures est { IsRgbWithin (2 ^ 117 - 1) result.est }
    ensures bound { IsRgbWithin (2 ^ 117 - 1) result.bound }
    ensures steps { steps.new ≡ steps.old + result.evals }
    ensures bench { bench.new ≡ bench.old }
{
    let lit = LitForest {
        omni: &forest.omni,
        oriented: &forest.oriented,
        sun: &forest.sun,
        spot,
        scene,
        rule: ask.rule,
    };
    best_cut(bench, &lit, ask.size, ask.permille, steps)
}
