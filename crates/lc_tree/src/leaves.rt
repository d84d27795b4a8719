// The leaves of a tree from the left.
ghost use Rattle.std.specs.Prelude.{◌≡◌, ℕ, ◌<◌, ◌≤◌, IfOk, get_or, length, take};
ghost use Rattle.lc_tree.specs.Rows.{IsListed, leaf_numbers};

use crate::row::Row;
use lc_num::Memory;
use std::alloc::Global;

/// The light numbers of the leaves from the left, and beside each node how many leaves are left of its own.
#[derive(Drop)]
pub(crate) struct Leaves {
    pub(crate) order: Vec<u32>,
    pub(crate) firsts: Vec<u32>,
}

fn order_of<C: Copy>(alloc: Global, rows: &[Row<C>]) -> Result<Vec<u32>, Memory>
    ensures { IfOk result (λ order. order.items ≡ leaf_numbers rows.now) }
{
    let leaves = rows.iter().filter(|row| row.left == 0);
    Ok(leaves.map(|row| row.leader).collect(alloc)?)
}

fn firsts_of<C: Copy>(alloc: Global, rows: &[Row<C>]) -> Result<Vec<u32>, Memory>
    requires { length rows.now ≤ 131072 }
    ensures each { IfOk result (λ firsts. length firsts.items ≡ length rows.now) }
    ensures firsts { IfOk result (λ firsts. (k : ℕ) → k < length rows.now
        → get_or firsts.items k 0 ≡ length (leaf_numbers (take k rows.now))) }
{
    let mut firsts = Vec::new(alloc);
    let mut first = 0;
    for row in rows {
        firsts.push(first)?;
        first += u32::from(row.left == 0);
    }
    Ok(firsts)
}

/// The leaves of the tree of these rows.
pub(crate) fn leaves_of<C: Copy>(alloc: Global, rows: &[Row<C>]) -> Result<Leaves, Memory>
    requires { length rows.now ≤ 131072 }
    ensures { IfOk result (λ leaves. IsListed rows.now leaves.order.items leaves.firsts.items) }
{
    let order = order_of(alloc, rows)?;
    let firsts = firsts_of(alloc, rows)?;
    Ok(Leaves { order, firsts })
}
