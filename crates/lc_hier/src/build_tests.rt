// Hierarchies of few triangles, and of many that cannot be told apart by their places.
ghost use Rattle.std.specs.Prelude.{◌≡◌, ◌≤◌, All, IfOk, length, unsigned_abs, vec_len};
ghost use Rattle.lc_geom.specs.Triangles.{IsTri};

use super::*;
use lc_geom::Tri;
use lc_num::{Memory, Vec3};
use std::alloc::Global;
use std::test::*;

#[derive(Clone, Copy)]
enum Shape {
    /// All are one triangle.
    Equal,
    /// 1 unit wide and up to 6 km long.
    Needles,
    /// Boxes around one place, each in the next.
    Nested,
}

/// A triangle with corners at a place and at its mirror image.
fn mirrored(x: i64, y: i64, z: i64) -> Tri
    requires x { unsigned_abs x ≤ 50_000_000 }
    requires y { unsigned_abs y ≤ 50_000_000 }
    requires z { unsigned_abs z ≤ 50_000_000 }
    ensures { IsTri result }
{
    Tri {
        a: Vec3 { x, y, z },
        b: Vec3 {
            x: -x,
            y: -y,
            z: -z,
        },
        c: Vec3 { x, y: -y, z },
    }
}

fn shaped(shape: Shape, number: u32) -> Tri
    requires { number ≤ 3000 }
    ensures { IsTri result }
{
    let far = number as i64 + 1;
    match shape {
        Shape::Equal => mirrored(10_000, 10_000, 10_000),
        Shape::Needles => mirrored(10_000 * far, 1, 0),
        Shape::Nested => mirrored(far, far, far),
    }
}

fn many(alloc: Global, shape: Shape, count: u32) -> Result<Vec<Tri>, Memory>
    requires { count ≤ 3000 }
    ensures valid { IfOk result (λ list. All IsTri list.items) }
    ensures len { IfOk result (λ list. vec_len list ≡ count) }
{
    let mut list = Vec::new(alloc);
    for number in 0..count {
        list.push(shaped(shape, number))?;
    }
    Ok(list)
}

/// How many boxes the innermost box stands in, itself included.
fn deepest(alloc: Global, hier: &Hier) -> Result<usize, Memory> {
    let mut open = Vec::new(alloc);
    let mut most = 0;
    for (i, node) in hier.nodes.iter().enumerate() {
        open.retain(|skip: &u32| *skip as usize > i);
        if i + 1 < hier.nodes.len() {
            open.push(node.skip)?;
        }
        most = open.len().max(most);
    }
    Ok(most)
}

/// The sum of the rows' numbers.
fn sum_of_numbers(hier: &Hier) -> u64 {
    let mut sum = 0u64;
    for row in &hier.rows {
        sum = sum.wrapping_add(row.number as u64);
    }
    sum
}

/// How many nodes and rows the hierarchy of a list has, the sum of the rows' numbers, and how many boxes the innermost
/// stands in.
fn form_of(alloc: Global, list: &[Tri]) -> Result<(usize, usize, u64, usize), Memory>
    requires valid { All IsTri list.now }
    requires few { length list.now ≤ 1_000_000 }
{
    let hier = Hier::build(alloc, list)?;
    let deepest = deepest(alloc, &hier)?;
    Ok((
        hier.nodes.len(),
        hier.rows.len(),
        sum_of_numbers(&hier),
        deepest,
    ))
}

#[test]
fn few(rt: HostRuntime) -> Result<(), Fail> {
    let one = mirrored(50_000_000, -50_000_000, 50_000_000);
    assert_eq!(rt; form_of(rt.alloc(), &[])?, (1, 0, 0, 0));
    assert_eq!(rt; form_of(rt.alloc(), &[one])?, (2, 1, 0, 1));
    Ok(())
}

#[test]
fn many_at_one_place(rt: HostRuntime) -> Result<(), Fail> {
    for (shape, least, most) in [
        (Shape::Equal, 12, 12),
        (Shape::Needles, 1, 68),
        (Shape::Nested, 1, 68),
    ] {
        let list = many(rt.alloc(), shape, 3000)?;
        let (_, rows, sum, deepest) = form_of(rt.alloc(), &list)?;
        assert_eq!(rt; (rows, sum), (3000, 4_498_500));
        assert!(rt; least <= deepest && deepest <= most, "{deepest}");
    }
    Ok(())
}
