// Walks through a hierarchy of boxes.
ghost use Rattle.std.specs.Prelude.{◌≡◌, ◌+◌, ◌-◌, ◌^◌, ◌<◌, ◌≤◌, All, length, IfNone, IfSome, IsNone, IsSome, OnSome, MatchOption, Some, slice_get, int_lt};
ghost use Rattle.lc_num.specs.Vectors.{Within};
ghost use Rattle.lc_geom.specs.Hits.{earlier, is_before, moved};
ghost use Rattle.lc_geom.specs.Triangles.{IsTri};
ghost use Rattle.lc_hier.specs.Layout.{IsHierarchy};
ghost use Rattle.lc_hier.specs.Seen.{AreClear, IsBlocker, IsFirstAmong, others};

use crate::beam::Beam;
use crate::node::{Node, Row};
use lc_geom::{Hit, blocks, depth, moved};
use lc_num::Vec3;

#[inline(always)]
fn node_at(nodes: &[Node], at: usize) -> Node
    requires { at < length nodes.now }
    ensures { slice_get nodes.now at ≡ Some result }
{
    nodes[at]
}

#[inline(always)]
fn row_at(rows: &[Row], at: u32) -> &Row
    requires at { at < length rows.now }
    requires valid { All (λ row. IsTri row.triangle) rows.now }
    ensures row { slice_get rows.now at ≡ Some result.now }
    ensures valid { IsTri result.now.triangle }
{
    &rows[at as usize]
}

/// The first of these rows whose triangle blocks the segment, but for the known one, which does not. Each test counts.
fn blocker_among(
    rows: &[Row],
    places: (u32, u32),
    p: Vec3,
    q: Vec3,
    known: u32,
    tests: &mut u64,
) -> Option<u32>
    requires p { Within 50_100_000 p }
    requires q { Within 320_000_000 q }
    requires valid { All (λ row. IsTri row.triangle) rows.now }
    requires order { places.0 ≤ places.1 }
    requires most { places.1 ≤ length rows.now }
    requires few { tests.old + places.1 < 2 ^ 64 + places.0 }
    requires clear { AreClear p q rows.now known places.0 }
    ensures clear { IfNone result (AreClear p q rows.now known places.1) }
    ensures blocks { IfSome result (IsBlocker p q rows.now) }
    ensures more { tests.old ≤ tests.new }
    ensures some { OnSome result (tests.old < tests.new) }
    ensures counted { tests.new + others known places.0 ≤ tests.old + others known places.1 }
{
    for place in places.0..places.1 {
        if place == known {
            continue;
        }
        *tests += 1;
        if blocks(p, q, &row_at(rows, place).triangle) {
            return Some(place);
        }
    }
    None
}

/// What `blocker` finds, where it is known on which axes the segment leads to lesser coordinates. The compiler makes a
/// loop for each value that is a constant, in which the ends of boxes are not picked anew.
#[inline(always)]
fn search(
    nodes: &[Node],
    rows: &[Row],
    p: Vec3,
    q: Vec3,
    backward: (bool, bool, bool),
    known: u32,
    tests: &mut u64,
) -> Option<u32>
    requires p { Within 50_100_000 p }
    requires q { Within 320_000_000 q }
    requires x { backward.0 ≡ int_lt q.x p.x }
    requires y { backward.1 ≡ int_lt q.y p.y }
    requires z { backward.2 ≡ int_lt q.z p.z }
    requires laid { IsHierarchy nodes.now rows.now }
    requires few { tests.old + length rows.now < 2 ^ 64 }
    ensures clear { IfNone result (AreClear p q rows.now known (length rows.now)) }
    ensures blocks { IfSome result (IsBlocker p q rows.now) }
    ensures more { tests.old ≤ tests.new }
    ensures some { OnSome result (tests.old < tests.new) }
    ensures counted { tests.new ≤ tests.old + others known (length rows.now) }
{
    let beam = Beam::toward(p, q, backward);
    let last = nodes.len() - 1;
    let mut at = 0;
    while at < last {
        let node = node_at(nodes, at);
        if beam.misses(&node.bounds) {
            at = node.skip as usize;
            continue;
        }
        at += 1;
        if node.skip as usize == at {
            let found = blocker_among(
                rows,
                (node.first, node_at(nodes, at).first),
                p,
                q,
                known,
                tests,
            );
            if found.is_some() {
                return found;
            }
        }
    }
    None
}

/// A row whose triangle blocks the segment, but for the known one, which does not. Each test counts.
pub(crate) fn blocker(
    nodes: &[Node],
    rows: &[Row],
    p: Vec3,
    q: Vec3,
    known: u32,
    tests: &mut u64,
) -> Option<u32>
    requires p { Within 50_100_000 p }
    requires q { Within 320_000_000 q }
    requires laid { IsHierarchy nodes.now rows.now }
    requires few { tests.old + length rows.now < 2 ^ 64 }
    ensures clear { IfNone result (AreClear p q rows.now known (length rows.now)) }
    ensures blocks { IfSome result (IsBlocker p q rows.now) }
    ensures more { tests.old ≤ tests.new }
    ensures some { OnSome result (tests.old < tests.new) }
    ensures counted { tests.new ≤ tests.old + others known (length rows.now) }
{
    match (q.x < p.x, q.y < p.y, q.z < p.z) {
        (false, false, false) => search(nodes, rows, p, q, (false, false, false), known, tests),
        (false, false, true) => search(nodes, rows, p, q, (false, false, true), known, tests),
        (false, true, false) => search(nodes, rows, p, q, (false, true, false), known, tests),
        (false, true, true) => search(nodes, rows, p, q, (false, true, true), known, tests),
        (true, false, false) => search(nodes, rows, p, q, (true, false, false), known, tests),
        (true, false, true) => search(nodes, rows, p, q, (true, false, true), known, tests),
        (true, true, false) => search(nodes, rows, p, q, (true, true, false), known, tests),
        (true, true, true) => search(nodes, rows, p, q, (true, true, true), known, tests),
    }
}

/// The one of two hits that comes first.
fn earlier(hit: Hit, best: Option<Hit>) -> Hit
    ensures { result ≡ earlier hit best }
{
    match best {
        Some(first) if !is_before(hit, first) => first,
        _ => hit,
    }
}

fn is_before(a: Hit, b: Hit) -> bool
    ensures { result ≡ is_before a b }
{
    a.depth < b.depth || (a.depth == b.depth && a.number <= b.number)
}

/// The first of a hit and those on some rows.
fn nearest_among(
    rows: &[Row],
    places: (u32, u32),
    e: Vec3,
    d: Vec3,
    mut best: Option<Hit>,
) -> Option<Hit>
    requires e { Within 50_100_000 e }
    requires end { Within 320_000_000 (moved e d) }
    requires valid { All (λ row. IsTri row.triangle) rows.now }
    requires most { places.1 ≤ length rows.now }
    requires order { places.0 ≤ places.1 }
    requires first { IsFirstAmong e d rows.now places.0 best }
    ensures first { IsFirstAmong e d rows.now places.1 result }
    ensures some { IsSome best → IsSome result }
{
    for place in places.0..places.1 {
        let row = row_at(rows, place);
        if let Some(depth) = depth(e, d, &row.triangle) {
            let hit = Hit {
                depth,
                number: row.number,
            };
            best = Some(earlier(hit, best));
        }
    }
    best
}

/// The first hit of a ray on the rows.
pub(crate) fn nearest(nodes: &[Node], rows: &[Row], e: Vec3, d: Vec3) -> Option<Hit>
    requires e { Within 50_100_000 e }
    requires end { Within 320_000_000 (moved e d) }
    requires laid { IsHierarchy nodes.now rows.now }
    ensures { IsFirstAmong e d rows.now (length rows.now) result }
{
    let mut beam = Beam::new(e, moved(e, d));
    let mut best = None;
    let last = nodes.len() - 1;
    let mut at = 0;
    while at < last {
        let node = node_at(nodes, at);
        if beam.misses(&node.bounds) {
            at = node.skip as usize;
            continue;
        }
        at += 1;
        if node.skip as usize == at {
            best = nearest_among(rows, (node.first, node_at(nodes, at).first), e, d, best);
            if let Some(hit) = best {
                beam.shorten(hit.depth);
            }
        }
    }
    best
}
