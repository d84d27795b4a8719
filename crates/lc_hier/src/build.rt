// Building the hierarchy of a list.
ghost use Rattle.std.specs.Prelude.{◌≡◌, ◌+◌, ◌*◌, ◌<◌, ◌≤◌, List, All, IfOk, IsPermutation, length, take, vec_len};
ghost use Rattle.lc_geom.specs.Triangles.{IsTri};
ghost use Rattle.lc_hier.specs.declared.node.Row.{Row};
ghost use Rattle.lc_hier.specs.Grown.{AreHeld, AreRows, Grown};
ghost use Rattle.lc_hier.specs.Layout.{IsHierarchy, first_row};

use crate::bounds::{Bounds, Corner};
use crate::hier::Hier;
use crate::item::{Item, items_of, rows_of};
use crate::node::Node;
use crate::recent::Recent;
use crate::split::divide;
use lc_geom::Tri;
use lc_num::Memory;
use std::alloc::Global;

/// A leaf has at most so many triangles. Its box is joined of those of its first and its last, so these are at most 2.
const LEAF: usize = 2;

/// The box of the end node, at which no walk looks.
const NOWHERE: Bounds = Bounds {
    low: Corner { x: 0, y: 0, z: 0 },
    high: Corner { x: 0, y: 0, z: 0 },
};

/// Adds the nodes of some items, whose rows stand from `start` on in the order that it leaves the items in. It gives a
/// box for all of them.
fn grow(items: &mut [Item], start: u32, depth: u32, nodes: &mut Vec<Node>) -> Result<Bounds, Memory>
    requires some { 0 < length items.old }
    requires few { start + length items.old ≤ 1_000_000 }
    requires room { vec_len nodes.old + 2 * length items.old ≤ 2_000_000 }
    ensures permutation { IfOk result (λ _. IsPermutation items.old items.new) }
    ensures kept { IfOk result (λ _. take (vec_len nodes.old) nodes.new.items ≡ nodes.old.items) }
    ensures more { IfOk result (λ _. vec_len nodes.old < vec_len nodes.new) }
    ensures few { IfOk result (λ _. vec_len nodes.new < vec_len nodes.old + 2 * length items.old) }
    ensures starts { IfOk result (λ _. first_row nodes.new.items (start + length items.old) (vec_len nodes.old)
        ≡ start) }
    ensures grown { IfOk result (λ bounds. (rows : List Row) → AreHeld items.new rows start
        → Grown nodes.new.items rows (vec_len nodes.old) start (start + length items.old) bounds) }
{
    let at = nodes.len();
    let bounds = items[0].bounds.joined(items[items.len() - 1].bounds);
    nodes.push(Node {
        bounds,
        skip: at as u32 + 1,
        first: start,
    })?;
    if items.len() <= LEAF {
        return Ok(bounds);
    }
    let count = divide(items, depth);
    let (left, right) = items.split_at_mut(count);
    let deeper = depth.saturating_add(1);
    let a = grow(left, start, deeper, nodes)?;
    let b = grow(right, start + count as u32, deeper, nodes)?;
    let bounds = a.joined(b);
    nodes[at] = Node {
        bounds,
        skip: nodes.len() as u32,
        first: start,
    };
    Ok(bounds)
}

/// The nodes of all items, which it puts in the order of the leaves.
fn nodes_of(alloc: Global, items: &mut [Item]) -> Result<Vec<Node>, Memory>
    requires { length items.old ≤ 1_000_000 }
    ensures permutation { IfOk result (λ _. IsPermutation items.old items.new) }
    ensures hierarchy { IfOk result (λ nodes. (rows : List Row) → AreRows items.new rows
        → IsHierarchy nodes.items rows) }
{
    let count = items.len();
    let mut nodes = Vec::with_capacity(alloc, 2 * count + 1)?;
    if count > 0 {
        grow(items, 0, 0, &mut nodes)?;
    }
    nodes.push(Node {
        bounds: NOWHERE,
        skip: u32::MAX,
        first: count as u32,
    })?;
    Ok(nodes)
}

impl Hier {
    /// The hierarchy of the triangles of a list, at most 1,000,000, numbered from 0.
    pub fn build(alloc: Global, list: &[Tri]) -> Result<Hier, Memory>
        requires valid { All IsTri list.now }
        requires few { length list.now ≤ 1_000_000 }
        ensures { IfOk result (λ h. h ≡ list.now) }
    {
        let mut items = items_of(alloc, list)?;
        let nodes = nodes_of(alloc, &mut items)?;
        let rows = rows_of(alloc, list, &items)?;
        let recent = Recent::new(alloc)?;
        Ok(Hier {
            nodes,
            rows,
            recent,
        })
    }
}
