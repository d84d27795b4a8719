// A forest at one spot of a scene.
ghost use Rattle.lc_terms.specs.Spot.{IsSpot};

use crate::node::{root, split};
use lc_bound::{OmniKind, OrientedKind, SunKind};
use lc_geom::Triangles;
use lc_num::{Rgb, Rule, Steps};
use lc_rated::{Found, LightKind, Lighting, Split};
use lc_terms::Spot;
use lc_tree::Tree;
use std::sync::ledger::Ledger;

/// The trees of a forest at a spot among the triangles of a scene, with the bounds of a rule.
pub(crate) struct LitForest<'a, T: Triangles> {
    pub(crate) omni: &'a Tree<OmniKind>,
    pub(crate) oriented: &'a Tree<OrientedKind>,
    pub(crate) sun: &'a Tree<SunKind>,
    pub(crate) spot: &'a Spot,
    pub(crate) scene: &'a T,
    pub(crate) rule: Rule,
    ghost valid: { IsSpot spot.now },
}

impl<T: Triangles> Drop for LitForest<'_, T> {
    fn drop(self) {
        let Self {
            omni: _,
            oriented: _,
            sun: _,
            spot: _,
            scene: _,
            rule: _,
        } = self;
    }
}

impl<T: Triangles> Lighting for LitForest<'_, T> {
    ghost use Rattle.lc_cut.specs.Forest.{keeps_of, trees_of};

    type Kept = Rgb;

    ghost trees = { λ f. trees_of (T.list f.scene.now) f.spot.now f.rule
        (record { omni = f.omni.now; oriented = f.oriented.now; sun = f.sun.now }) };

    ghost keeps = { λ f. keeps_of (T.list f.scene.now) f.spot.now
        (record { omni = f.omni.now; oriented = f.oriented.now; sun = f.sun.now }) };

    fn root<L: Ledger>(&self, kind: LightKind, steps: &mut Steps<L>) -> Option<Found<Rgb>> {
        match kind {
            LightKind::Omni => root(self.omni, self.spot, self.rule, self.scene, steps),
            LightKind::Oriented => root(self.oriented, self.spot, self.rule, self.scene, steps),
            LightKind::Sun => root(self.sun, self.spot, self.rule, self.scene, steps),
        }
    }

    fn split<L: Ledger>(
        &self,
        kind: LightKind,
        node: u32,
        kept: Rgb,
        steps: &mut Steps<L>,
    ) -> Option<Split<Rgb>> {
        let Self {
            omni,
            oriented,
            sun,
            spot,
            scene,
            rule,
        } = self;
        match kind {
            LightKind::Omni => split(*omni, node, kept, spot, *rule, *scene, steps),
            LightKind::Oriented => split(*oriented, node, kept, spot, *rule, *scene, steps),
            LightKind::Sun => split(*sun, node, kept, spot, *rule, *scene, steps),
        }
    }
}
