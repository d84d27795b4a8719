// What a node of a light tree gives at a spot.
ghost use Rattle.std.specs.Prelude.{◌≡◌, ◌+◌, ◌-◌, ◌*◌, ◌^◌, ◌<◌, ◌≤◌, max, Some, if◌then◌else◌, is_some, IsSomeAnd};
ghost use Rattle.lc_num.specs.Channels.{IsPowerWithin, IsRgbWithin, by_power};
ghost use Rattle.lc_terms.specs.Spot.{IsSpot};
ghost use Rattle.lc_tree.specs.Node.{count_of, kids_of, leader, members, node_of};
ghost use Rattle.lc_tree.specs.Cover.{power_sum};
ghost use Rattle.lc_rated.specs.Finding.{IsRoot, IsSplit};
ghost use Rattle.lc_cut.specs.Lit.{bound_of, light_by, lit, lit_root, node_bound, IsFactor};

use lc_geom::Triangles;
use lc_num::{Power, Rgb, Rule, Steps};
use lc_rated::{Found, NodeLight, Split};
use lc_terms::{Kind, Spot, by_power, eval};
use lc_tree::Tree;
use std::sync::ledger::Ledger;

/// The representative of a node.
fn leading<K: Kind>(tree: &Tree<K>, node: u32) -> K::Light
    requires { node < count_of tree.now.root }
    ensures light { IsSomeAnd (node_of tree.now.root node) (λ t. result ≡ leader t) }
    ensures valid { K.meaning.valid_light result }
{
    tree.light(tree.leader(node))
}

/// The summed intensity of the lights below a node.
fn total<K: Kind>(clump: &K::Clump) -> Power
    requires { K.meaning.valid_clump clump.now }
    ensures value { result ≡ K.meaning.total clump.now }
    ensures within { IsPowerWithin (10 ^ 8 * 65_536) result }
{
    K::total(clump)
}

/// The estimate of a node whose representative has this factor.
fn estimate<K: Kind>(tree: &Tree<K>, node: u32, factor: Rgb) -> Rgb
    requires node { node < count_of tree.now.root }
    requires factor { IsRgbWithin (20_000 * 65_536 * 10 ^ 13) factor }
    ensures { IsSomeAnd (node_of tree.now.root node) (λ t. result ≡ by_power factor (power_sum K.meaning (members t))) }
{
    by_power(factor, total::<K>(&tree.clump(node)))
}

/// The greater of an estimate and of what it leaves of the most that there can be.
fn beside(est: u128, top: u128) -> u128
    ensures { result ≡ max est (top - est) }
{
    est.max(top.saturating_sub(est))
}

/// The bound of an inner node by its estimate and by the most that it can give.
fn node_bound(rule: Rule, est: Rgb, top: Rgb) -> Rgb
    ensures { result ≡ node_bound rule est top }
{
    match rule {
        Rule::One => top,
        Rule::Two => Rgb {
            r: beside(est.r, top.r),
            g: beside(est.g, top.g),
            b: beside(est.b, top.b),
        },
    }
}

/// The bound of a node with this estimate.
fn bound<K: Kind>(tree: &Tree<K>, node: u32, spot: &Spot, rule: Rule, est: Rgb) -> Rgb
    requires spot { IsSpot spot.now }
    requires node { node < count_of tree.now.root }
    ensures { IsSomeAnd (node_of tree.now.root node) (λ t. result ≡ bound_of K.meaning spot.now rule est t) }
{
    if tree.kids(node).is_some() {
        node_bound(rule, est, K::top(spot, &tree.clump(node), rule))
    } else {
        Rgb::BLACK
    }
}

/// What is found of a node whose representative has this factor.
fn found<K: Kind>(tree: &Tree<K>, node: u32, spot: &Spot, rule: Rule, factor: Rgb) -> Found<Rgb>
    requires spot { IsSpot spot.now }
    requires node { node < count_of tree.now.root }
    requires factor { IsRgbWithin (20_000 * 65_536 * 10 ^ 13) factor }
    ensures node { result.node ≡ node }
    ensures light { IsSomeAnd (node_of tree.now.root node) (λ t. result.light
        ≡ light_by K.meaning spot.now rule factor t) }
    ensures kept { result.kept ≡ factor }
{
    let est = estimate(tree, node, factor);
    Found {
        node,
        light: NodeLight {
            est,
            bound: bound(tree, node, spot, rule, est),
        },
        kept: factor,
    }
}

/// The factor of a node's representative. It is evaluated, which counts one step.
fn factor<K: Kind, T: Triangles, L: Ledger>(
    tree: &Tree<K>,
    node: u32,
    spot: &Spot,
    scene: &T,
    steps: &mut Steps<L>,
) -> Rgb
    requires spot { IsSpot spot.now }
    requires node { node < count_of tree.now.root }
    ensures factor { IsFactor K.meaning (T.list scene.now) spot.now tree.now.root node result }
    ensures steps { steps.new ≡ steps.old + 1 }
{
    eval::<K, T, L>(spot, &leading(tree, node), scene, steps)
}

/// The factors of the children of a node that has this factor. That of the child with the node's representative is
/// taken over, and the representative of the other is evaluated, which counts one step.
fn factors<K: Kind, T: Triangles, L: Ledger>(
    tree: &Tree<K>,
    node: u32,
    left: u32,
    right: u32,
    kept: Rgb,
    spot: &Spot,
    scene: &T,
    steps: &mut Steps<L>,
) -> (Rgb, Rgb)
    requires spot { IsSpot spot.now }
    requires node { node < count_of tree.now.root }
    requires kids { IsSomeAnd (node_of tree.now.root node) (λ t. Some (left, right) ≡ kids_of node t) }
    requires kept { IsFactor K.meaning (T.list scene.now) spot.now tree.now.root node kept }
    ensures left { IsFactor K.meaning (T.list scene.now) spot.now tree.now.root left result.0 }
    ensures right { IsFactor K.meaning (T.list scene.now) spot.now tree.now.root right result.1 }
    ensures steps { steps.new ≡ steps.old + 1 }
{
    if tree.leader(left) == tree.leader(node) {
        (kept, factor(tree, right, spot, scene, steps))
    } else {
        (factor(tree, left, spot, scene, steps), kept)
    }
}

/// The root of a tree, if there is one.
pub(crate) fn root<K: Kind, T: Triangles, L: Ledger>(
    tree: &Tree<K>,
    spot: &Spot,
    rule: Rule,
    scene: &T,
    steps: &mut Steps<L>,
) -> Option<Found<Rgb>>
    requires spot { IsSpot spot.now }
    ensures root { IsRoot (IsFactor K.meaning (T.list scene.now) spot.now tree.now.root)
        (lit_root K.meaning (T.list scene.now) spot.now rule tree.now.root) result }
    ensures steps { steps.new ≡ steps.old + (if is_some result then 1 else 0) }
{
    if tree.count() == 0 {
        return None;
    }
    let factor = factor(tree, 0, spot, scene, steps);
    Some(found(tree, 0, spot, rule, factor))
}

/// The children of a node whose representative has this factor.
pub(crate) fn split<K: Kind, T: Triangles, L: Ledger>(
    tree: &Tree<K>,
    node: u32,
    kept: Rgb,
    spot: &Spot,
    rule: Rule,
    scene: &T,
    steps: &mut Steps<L>,
) -> Option<Split<Rgb>>
    requires spot { IsSpot spot.now }
    requires node { node < count_of tree.now.root }
    requires kept { IsFactor K.meaning (T.list scene.now) spot.now tree.now.root node kept }
    ensures split { IsSomeAnd (node_of tree.now.root node)
        (λ t. IsSplit (IsFactor K.meaning (T.list scene.now) spot.now tree.now.root) node
        (lit K.meaning (T.list scene.now) spot.now rule t) result) }
    ensures steps { steps.new ≡ steps.old + (if is_some result then 1 else 0) }
{
    let (left, right) = tree.kids(node)?;
    let kept_by = factors(tree, node, left, right, kept, spot, scene, steps);
    Some(Split {
        est: estimate(tree, node, kept),
        left: found(tree, left, spot, rule, kept_by.0),
        right: found(tree, right, spot, rule, kept_by.1),
    })
}
