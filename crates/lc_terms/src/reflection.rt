// What a surface sends back.
ghost use Rattle.std.specs.Prelude.{◌≡◌, ◌+◌, ◌*◌, ◌≤◌};
ghost use Rattle.lc_num.specs.Channels.{IsRgbWithin};
ghost use Rattle.lc_num.specs.Cosines.{cos16};
ghost use Rattle.lc_num.specs.Powers.{pow16};
ghost use Rattle.lc_num.specs.Vectors.{Within};
ghost use Rattle.lc_terms.specs.Factor.{material, reflected};
ghost use Rattle.lc_terms.specs.Spot.{IsSpot};

use crate::spot::Spot;
use lc_num::{Colour, Rgb, Vec3, cos16, pow16};

/// The highlight of a spot for light from `b`, in 1/65536. No specular colour makes use of it where it is black, and
/// then it is not worked out.
fn highlight(spot: &Spot, b: Vec3) -> u32
    requires spot { IsSpot spot.now }
    requires b { Within 100_100_000 b }
    ensures r { spot.now.ks.r * result ≡ spot.now.ks.r * pow16 (cos16 spot.now.r b) spot.now.ns }
    ensures g { spot.now.ks.g * result ≡ spot.now.ks.g * pow16 (cos16 spot.now.r b) spot.now.ns }
    ensures b { spot.now.ks.b * result ≡ spot.now.ks.b * pow16 (cos16 spot.now.r b) spot.now.ns }
    ensures most { result ≤ 65_536 }
{
    if spot.ks == Colour::BLACK {
        return 0;
    }
    pow16(cos16(spot.r, b), spot.ns)
}

/// One channel of a diffuse colour times a cosine and of a specular colour times a highlight.
fn share(diffuse: u32, cosine: u32, specular: u32, highlight: u32) -> u128
    requires diffuse { diffuse ≤ 10_000 }
    requires cosine { cosine ≤ 65_536 }
    requires specular { specular ≤ 10_000 }
    requires highlight { highlight ≤ 65_536 }
    ensures value { result ≡ diffuse * cosine + specular * highlight }
    ensures small { result ≤ 20_000 * 65_536 }
{
    (diffuse * cosine + specular * highlight) as u128
}

fn reflected(spot: &Spot, cosine: u32, highlight: u32) -> Rgb
    requires spot { IsSpot spot.now }
    requires cosine { cosine ≤ 65_536 }
    requires highlight { highlight ≤ 65_536 }
    ensures value { result ≡ reflected spot.now cosine highlight }
    ensures small { IsRgbWithin (20_000 * 65_536) result }
{
    Rgb {
        r: share(spot.kd.r, cosine, spot.ks.r, highlight),
        g: share(spot.kd.g, cosine, spot.ks.g, highlight),
        b: share(spot.kd.b, cosine, spot.ks.b, highlight),
    }
}

/// The material term of a spot for light from `b`, in 1/10000 of 1/65536 (Lightcuts 2005, the Phong model): the
/// diffuse colour times the cosine of the angle between the normal and `b`, and the specular colour times a power of
/// the cosine of the angle between the mirrored view and `b`. It is black where the first cosine is 0. The components
/// of `b` are at most 100,100,000.
pub fn material(spot: &Spot, b: Vec3) -> Rgb
    requires spot { IsSpot spot.now }
    requires b { Within 100_100_000 b }
    ensures value { result ≡ material spot.now b }
    ensures small { IsRgbWithin (20_000 * 65_536) result }
{
    let cosine = cos16(spot.n, b);
    if cosine == 0 {
        return Rgb::BLACK;
    }
    reflected(spot, cosine, highlight(spot, b))
}
