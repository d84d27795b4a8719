// Boxes: of one point, around two boxes, and of the vectors from a place to a box and back.
ghost use Rattle.std.specs.Prelude.{◌≡◌, ◌^◌};
ghost use Rattle.lc_num.specs.Vectors.{Within};
ghost use Rattle.lc_num.specs.Boxes.{IsBoxWithin};
ghost use Rattle.lc_bound.specs.Hull.{box_from, box_to, hull, point_box};

use lc_num::{Span3, Vec3, difference, greater, lesser};

/// The box of one point.
pub fn point_box(p: Vec3) -> Span3
    ensures { result ≡ point_box p }
{
    Span3 { lo: p, hi: p }
}

/// The least box around two boxes.
pub fn hull(a: Span3, b: Span3) -> Span3
    ensures { result ≡ hull a b }
{
    Span3 {
        lo: lesser(a.lo, b.lo),
        hi: greater(a.hi, b.hi),
    }
}

/// The box of the vectors from a place `x` to the points of a box.
pub fn box_from(x: Vec3, span: Span3) -> Span3
    requires x { Within (2 ^ 60) x }
    requires span { IsBoxWithin (2 ^ 60) span }
    ensures { result ≡ box_from x span }
{
    Span3 {
        lo: difference(span.lo, x),
        hi: difference(span.hi, x),
    }
}

/// The box of the vectors from the points of a box to a place `x`.
pub fn box_to(x: Vec3, span: Span3) -> Span3
    requires x { Within (2 ^ 60) x }
    requires span { IsBoxWithin (2 ^ 60) span }
    ensures { result ≡ box_to x span }
{
    Span3 {
        lo: difference(x, span.hi),
        hi: difference(x, span.lo),
    }
}
