// Laws of the sequence of cuts, over lit trees alone. The functions do nothing: each states laws by its contract.
ghost use Rattle.std.specs.Prelude.{◌≡◌, ℕ, ◌+◌, ◌*◌, ◌<◌, ◌≤◌, ◌^◌, ◌⊎◌, List, Some, length, true, false};
ghost use Rattle.lc_num.specs.declared.channels.Rgb.{Rgb};
ghost use Rattle.lc_num.specs.Channels.{black};
ghost use Rattle.lc_rated.specs.declared.light.NodeLight.{NodeLight};
ghost use Rattle.lc_rated.specs.LitTrees.{LitTree, lit_fork, leaf_count, node_at, Trees, EachTree, IsBounded, IsLimited, AreBounded, most_of_leaf};
ghost use Rattle.lc_rated.specs.Cuts.{Placed, AreLimited, IsFraction, IsInOrder, IsNear, answer, apart, bound_sum, chosen, cut_at, est_sum, full_light, full_sum, greatest_key, leaf_sum, refined, refinements, roots_of, stops};

/// The sequence stops: a cut that does not stop has a node of positive key, which is no leaf, and the next cut has one
/// node more. So the chosen cut stops, and no cut before it does.
pub fn sequence_stops()
    ensures positive { (size permille : ℕ) (cut : List Placed) → stops size permille cut ≡ false
        → 0 < greatest_key cut }
    ensures longer { (size permille : ℕ) (cut : List Placed) → stops size permille cut ≡ false
        → length (refined cut) ≡ length cut + 1 }
    ensures few { (trees : Trees) → length (roots_of trees) ≤ 3 }
    ensures stops { (size permille : ℕ) (trees : Trees) → 3 ≤ size
        → stops size permille (chosen size permille (roots_of trees)) ≡ true }
    ensures first { (size permille : ℕ) (trees : Trees) (k : ℕ) → k < refinements size permille (roots_of trees)
        → stops size permille (cut_at (roots_of trees) k) ≡ false }
{}

/// Node numbers are preorder: the root has 0, the left child of the node p has p + 1, and its right child has p and
/// twice the number of leaves of its left child.
pub fn node_numbers()
    ensures root { (tree : LitTree) → node_at tree 0 ≡ Some tree }
    ensures left { (tree : LitTree) (p : ℕ) (light : NodeLight) (left right : LitTree)
        → node_at tree p ≡ Some (lit_fork light left right) → node_at tree (p + 1) ≡ Some left }
    ensures right { (tree : LitTree) (p : ℕ) (light : NodeLight) (left right : LitTree)
        → node_at tree p ≡ Some (lit_fork light left right) → node_at tree (p + 2 * leaf_count left) ≡ Some right }
{}

/// Each cut is in order of kind and number. So of the nodes of greatest key the one of lowest kind and then of lowest
/// number is refined.
pub fn cuts_in_order()
    ensures { (trees : Trees) (k : ℕ) → IsInOrder (cut_at (roots_of trees) k) }
{}

/// The estimate of each cut differs from the sum over all leaves by at most its bound, in any channel in which that
/// holds of the nodes; so that of the chosen cut does.
pub fn distance()
    ensures channel { (c : Rgb → ℕ) (trees : Trees) (k : ℕ) → EachTree (IsBounded c) trees
        → apart (full_sum c (roots_of trees)) (est_sum c (cut_at (roots_of trees) k))
        ≤ bound_sum c (cut_at (roots_of trees) k) }
    ensures answer { (size permille : ℕ) (trees : Trees) → AreBounded trees
        → IsNear (full_light trees) (answer size permille trees) }
{}

/// The bound is within the permille of the estimate in each channel, unless the cut has the greatest size.
pub fn fraction()
    ensures { (size permille : ℕ) (trees : Trees) → 3 ≤ size
        → ((answer size permille trees).size ≡ size) ⊎ IsFraction permille (answer size permille trees) }
{}

/// A cut has at most the greatest size, and a light is evaluated for each of its nodes.
pub fn counted_evaluations()
    ensures size { (size permille : ℕ) (trees : Trees) → 3 ≤ size → (answer size permille trees).size ≤ size }
    ensures evals { (size permille : ℕ) (trees : Trees) → 3 ≤ size → (answer size permille trees).evals ≤ 2 * size }
    ensures each { (size permille : ℕ) (trees : Trees)
        → (answer size permille trees).evals ≡ (answer size permille trees).size }
{}

/// The sums over any cut and its keys are numbers of 128 bits, with room for a thousand times a sum. A channel is any
/// that is nothing in black.
pub fn sizes()
    ensures est { (c : Rgb → ℕ) (trees : Trees) (k : ℕ) → EachTree (IsLimited c most_of_leaf) trees
        → leaf_sum (roots_of trees) ≤ 65536 → est_sum c (cut_at (roots_of trees) k) < 2 ^ 117 }
    ensures bound { (c : Rgb → ℕ) (trees : Trees) (k : ℕ) → c black ≡ 0 → EachTree (IsLimited c most_of_leaf) trees
        → leaf_sum (roots_of trees) ≤ 65536 → bound_sum c (cut_at (roots_of trees) k) < 2 ^ 117 }
    ensures thousandfold { (n : ℕ) → n < 2 ^ 117 → 1000 * n < 2 ^ 127 }
    ensures key { (trees : Trees) (k : ℕ) → AreLimited trees → greatest_key (cut_at (roots_of trees) k) < 2 ^ 119 }
{}
