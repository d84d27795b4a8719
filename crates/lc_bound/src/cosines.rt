// Bounds of cosines over boxes under a rule.
ghost use Rattle.std.specs.Prelude.{◌≡◌, ◌*◌, ◌^◌, ◌≤◌};
ghost use Rattle.lc_num.specs.Boxes.{CanBound, IsBoxWithin};
ghost use Rattle.lc_bound.specs.Reach.{cosine_top, emission_top};

use lc_num::{Rule, Span3, Vec3, cos_top, cos_top2, emit_top, emit_top2};

/// A bound of the cosine from `n` to the vectors of a box that are no shorter than `least`, in 1/65536.
pub fn cosine_top(n: Vec3, span: Span3, least: u128, rule: Rule) -> u32
    requires n { CanBound n span }
    requires least { least ≤ 3 * (100_100_000 * 100_100_000) }
    ensures value { result ≡ cosine_top rule n span least }
    ensures most { result ≤ 65536 }
{
    match rule {
        Rule::One => cos_top(n, span, least),
        Rule::Two => cos_top2(n, span, least),
    }
}

/// A bound of the cosine from the normals of a box to the offsets of another, where their squared lengths are at least
/// `least_n` and `least_d`, in 1/65536.
pub fn emission_top(normals: Span3, least_n: u128, offsets: Span3, least_d: u128, rule: Rule) -> u32
    requires normals { IsBoxWithin 16384 normals }
    requires least_n { least_n ≤ 3 * 2 ^ 28 }
    requires offsets { IsBoxWithin 100_100_000 offsets }
    requires least_d { least_d ≤ 3 * (100_100_000 * 100_100_000) }
    ensures value { result ≡ emission_top rule normals least_n offsets least_d }
    ensures most { result ≤ 65536 }
{
    match rule {
        Rule::One => emit_top(normals, least_n, offsets, least_d),
        Rule::Two => emit_top2(normals, least_n, offsets, least_d),
    }
}
