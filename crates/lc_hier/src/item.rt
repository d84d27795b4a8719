// Triangles by their boxes and numbers, and the rows made of them.
ghost use Rattle.std.specs.Prelude.{◌≡◌, ◌<◌, ◌≤◌, All, IfOk, length, map};
ghost use Rattle.std.specs.List.{range_with_len};
ghost use Rattle.lc_geom.specs.Triangles.{IsTri};
ghost use Rattle.lc_hier.specs.Grown.{IsItem, row_of};

use crate::bounds::Bounds;
use crate::node::Row;
use lc_geom::Tri;
use lc_num::Memory;
use std::alloc::Global;

/// A triangle's box, and its number in the list.
#[derive(Clone, Copy)]
pub(crate) struct Item {
    pub(crate) bounds: Bounds,
    pub(crate) number: u32,
}

/// The items of a list of triangles, in its order.
pub(crate) fn items_of(alloc: Global, list: &[Tri]) -> Result<Vec<Item>, Memory>
    requires valid { All IsTri list.now }
    requires few { length list.now ≤ 1_000_000 }
    ensures numbers { IfOk result (λ items. map (λ item. item.number) items.items
        ≡ range_with_len 0 (length list.now)) }
    ensures held { IfOk result (λ items. All (IsItem list.now) items.items) }
{
    let mut items = Vec::with_capacity(alloc, list.len())?;
    for (number, triangle) in list.iter().enumerate() {
        items.push(Item {
            bounds: Bounds::of(triangle),
            number: number as u32,
        })?;
    }
    Ok(items)
}

/// The rows of items, in their order.
pub(crate) fn rows_of(alloc: Global, list: &[Tri], items: &[Item]) -> Result<Vec<Row>, Memory>
    requires { All (IsItem list.now) items.now }
    ensures { IfOk result (λ rows. rows.items ≡ map (row_of list.now) items.now) }
{
    let mut rows = Vec::with_capacity(alloc, items.len())?;
    for item in items {
        rows.push(Row {
            triangle: list[item.number as usize],
            number: item.number,
        })?;
    }
    Ok(rows)
}
