// Bounds of what a surface sends back over a box.
ghost use Rattle.std.specs.Prelude.{◌≡◌, ◌*◌, ◌≤◌, IfNone, IfSome};
ghost use Rattle.lc_num.specs.Boxes.{CanBound};
ghost use Rattle.lc_num.specs.Channels.{black};
ghost use Rattle.lc_num.specs.Powers.{pow16};
ghost use Rattle.lc_terms.specs.Factor.{reflected};
ghost use Rattle.lc_terms.specs.Spot.{IsSpot};
ghost use Rattle.lc_bound.specs.Reach.{cosine_top, material_top};

use crate::cosines::cosine_top;
use lc_num::{Colour, Rule, Span3, pow16};
use lc_terms::Spot;

/// How much of the diffuse and of the specular colour of a spot is sent back, each in 1/65536.
#[derive(Clone, Copy, Debug)]
pub struct Reflection {
    pub cosine: u32,
    pub highlight: u32,
}

/// A bound of the highlight for light from the vectors of a box that are no shorter than `least`. No specular colour
/// makes use of it where it is black, and then it is not worked out.
fn highlight_top(spot: &Spot, span: Span3, least: u128, rule: Rule) -> u32
    requires spot { IsSpot spot.now }
    requires vectors { CanBound spot.now.r span }
    requires least { least ≤ 3 * (100_100_000 * 100_100_000) }
    ensures r { spot.now.ks.r * result ≡ spot.now.ks.r * pow16 (cosine_top rule spot.now.r span least) spot.now.ns }
    ensures g { spot.now.ks.g * result ≡ spot.now.ks.g * pow16 (cosine_top rule spot.now.r span least) spot.now.ns }
    ensures b { spot.now.ks.b * result ≡ spot.now.ks.b * pow16 (cosine_top rule spot.now.r span least) spot.now.ns }
    ensures most { result ≤ 65_536 }
{
    if spot.ks == Colour::BLACK {
        return 0;
    }
    pow16(cosine_top(spot.r, span, least, rule), spot.ns)
}

/// A bound of what a spot sends back of light from the vectors of a box that are no shorter than `least`, and `None`
/// where that is nothing.
pub fn reflection_top(spot: &Spot, span: Span3, least: u128, rule: Rule) -> Option<Reflection>
    requires spot { IsSpot spot.now }
    requires normal { CanBound spot.now.n span }
    requires mirrored { CanBound spot.now.r span }
    requires least { least ≤ 3 * (100_100_000 * 100_100_000) }
    ensures none { IfNone result (material_top spot.now span least rule ≡ black) }
    ensures value { IfSome result (λ top. reflected spot.now top.cosine top.highlight
        ≡ material_top spot.now span least rule) }
    ensures cosine { IfSome result (λ top. top.cosine ≤ 65_536) }
    ensures highlight { IfSome result (λ top. top.highlight ≤ 65_536) }
{
    let cosine = cosine_top(spot.n, span, least, rule);
    if cosine == 0 {
        return None;
    }
    let highlight = highlight_top(spot, span, least, rule);
    Some(Reflection { cosine, highlight })
}
