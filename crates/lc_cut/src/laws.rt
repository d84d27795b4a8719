// What the answer of a cut says of the sum over all lights, by the definitions alone. The functions do nothing: each
// states laws by its contract.
ghost use Rattle.std.specs.Prelude.{◌≡◌, ℕ, ◌-◌, ◌*◌, ◌^◌, ◌<◌, ◌≤◌, ◌⊎◌, List, Some};
ghost use Rattle.lc_num.specs.Channels.{IsRgbWithin, IsAtMost};
ghost use Rattle.lc_num.specs.declared.rules.Rule.{Rule};
ghost use Rattle.lc_num.specs.declared.rules.Rule.TheVariants as rule;
ghost use Rattle.lc_geom.specs.declared.triangle.Tri.{Tri};
ghost use Rattle.lc_light.specs.Lights.{AreLights};
ghost use Rattle.lc_light.specs.declared.lights.Lights.{Lights};
ghost use Rattle.lc_terms.specs.Spot.{IsSpot};
ghost use Rattle.lc_terms.specs.declared.spot.Spot.{Spot};
ghost use Rattle.lc_tree.specs.Node.{Node, node_at};
ghost use Rattle.lc_tree.specs.Rows.{IsTree};
ghost use Rattle.lc_rated.specs.Cuts.{IsFraction, IsNear, answer, cut_at, greatest_key, roots_of, totals_of};
ghost use Rattle.lc_cut.specs.Contribution.{plain};
ghost use Rattle.lc_cut.specs.Forest.{ForestParts, IsForest, forest_of, lights_of, trees_of};
ghost use Rattle.lc_cut.specs.Lit.{est_of, light_at, IsBoundedNode};

use lc_terms::Kind;

/// The trees that are built of valid lights are a forest: each light of the lists stands in exactly one leaf of the
/// tree of its kind.
pub fn forests_of_all_lights()
    ensures valid { (seed : ℕ) (lights : Lights) → AreLights lights → IsForest (forest_of seed lights) }
    ensures lights { (seed : ℕ) (lights : Lights) → lights_of (forest_of seed lights) ≡ lights }
{}

/// At every node of a tree over valid lights of any kind, whatever its shape, at every valid spot among whatever
/// triangles and under each rule: neither the estimate nor the sum of the contributions of the lights below the node
/// is above the most that its clump can give, and the two differ by at most the node's bound. The bound under the
/// second rule is nowhere above that under the first, and the estimate is the same.
pub fn nodes_within_bounds<K: Kind>()
    ensures bounded { (ts : List Tri) (spot : Spot) (r : Rule) (lights : List K.Light) (root t : Node K.Light)
        (p : ℕ) → IsSpot spot → IsTree K.meaning.valid_light lights root → node_at root p ≡ Some t
        → IsBoundedNode K.meaning ts spot r t }
    ensures sharper { (ts : List Tri) (spot : Spot) (lights : List K.Light) (root t : Node K.Light) (p : ℕ)
        → IsSpot spot → IsTree K.meaning.valid_light lights root → node_at root p ≡ Some t
        → IsAtMost (light_at K.meaning ts spot rule.One t).bound (light_at K.meaning ts spot rule.Two t).bound }
    ensures same { (ts : List Tri) (spot : Spot) (r : Rule) (t : Node K.Light)
        → (light_at K.meaning ts spot r t).est ≡ est_of K.meaning ts spot t }
{}

/// At every valid spot among whatever triangles, under each rule, and for every three trees over valid lights,
/// whatever their shapes, the estimate differs from the sum over all lights by at most the bound in each channel, and
/// the bound is within the permille of the estimate unless the cut has the greatest size.
pub fn distance_to_all_lights()
    ensures near { (size permille : ℕ) (ts : List Tri) (spot : Spot) (r : Rule) (forest : ForestParts) → IsSpot spot
        → IsForest forest
        → IsNear (plain ts spot (lights_of forest)) (answer size permille (trees_of ts spot r forest)) }
    ensures fraction { (size permille : ℕ) (ts : List Tri) (spot : Spot) (r : Rule) (forest : ForestParts)
        → 3 ≤ size
        → ((answer size permille (trees_of ts spot r forest)).size ≡ size)
        ⊎ IsFraction permille (answer size permille (trees_of ts spot r forest)) }
{}

/// At every valid spot among whatever triangles, under each rule, and for every three trees over valid lights,
/// whatever their shapes, the sums of the estimates and of the bounds of each cut are below 2^117 in each channel,
/// and so is the sum over all lights. A thousand times such a sum is below 2^127, and every key of a cut is below
/// 2^119.
pub fn sums_fit()
    ensures est { (ts : List Tri) (spot : Spot) (r : Rule) (forest : ForestParts) (k : ℕ) → IsSpot spot
        → IsForest forest
        → IsRgbWithin (2 ^ 117 - 1) (totals_of (cut_at (roots_of (trees_of ts spot r forest)) k)).est }
    ensures bound { (ts : List Tri) (spot : Spot) (r : Rule) (forest : ForestParts) (k : ℕ) → IsSpot spot
        → IsForest forest
        → IsRgbWithin (2 ^ 117 - 1) (totals_of (cut_at (roots_of (trees_of ts spot r forest)) k)).bound }
    ensures lights { (ts : List Tri) (spot : Spot) (forest : ForestParts) → IsSpot spot → IsForest forest
        → IsRgbWithin (2 ^ 117 - 1) (plain ts spot (lights_of forest)) }
    ensures key { (ts : List Tri) (spot : Spot) (r : Rule) (forest : ForestParts) (k : ℕ) → IsSpot spot
        → IsForest forest → greatest_key (cut_at (roots_of (trees_of ts spot r forest)) k) < 2 ^ 119 }
    ensures thousandfold { (n : ℕ) → n < 2 ^ 117 → 1000 * n < 2 ^ 127 }
{}
