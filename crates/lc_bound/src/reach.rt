// Terms of a factor, and bounds of them over a box.
ghost use Rattle.std.specs.Prelude.{◌≡◌, ◌*◌, ◌≤◌, ◌<◌, ◌^◌};
ghost use Rattle.lc_num.specs.Channels.{IsPowerWithin, by_power, times};
ghost use Rattle.lc_terms.specs.Factor.{reflected};
ghost use Rattle.lc_terms.specs.Spot.{IsSpot};
ghost use Rattle.lc_bound.specs.Reach.{emitted, falloff};

use crate::reflection::Reflection;
use lc_num::{Power, Rgb};
use lc_terms::Spot;

/// The geometric term at a squared distance: `10^17 / max(square, 10^4)`, at most `10^13`.
pub fn falloff(square: u64) -> u64
    ensures value { result ≡ falloff square }
    ensures most { result ≤ 10 ^ 13 }
{
    100_000_000_000_000_000 / square.max(10_000)
}

/// The geometric term of a light that leaves its surface at a cosine in 1/65536: that of a light without a surface
/// times the cosine, rounded down.
pub fn emitted(cosine: u32, geometry: u64) -> u64
    requires cosine { cosine ≤ 65_536 }
    requires geometry { geometry ≤ 10 ^ 13 }
    ensures value { result ≡ emitted cosine geometry }
    ensures most { result ≤ 10 ^ 13 }
{
    cosine as u64 * geometry / 65_536
}

/// One channel of a colour times the summed intensity, where `scale` is the geometric bound times a cosine or a
/// highlight.
fn channel(scale: u64, colour: u32, total: u64) -> u128
    requires scale { scale ≤ 10 ^ 13 * 65_536 }
    requires colour { colour ≤ 10_000 }
    requires total { total ≤ 10 ^ 8 * 65_536 }
    ensures value { result ≡ scale * (colour * total) }
    ensures small { result < 2 ^ 116 }
{
    scale as u128 * (colour as u64 * total) as u128
}

/// The geometric bound times what a spot sends back of a reflection times the summed intensity, per channel.
pub fn scaled_total(geometry: u64, spot: &Spot, reflection: Reflection, total: Power) -> Rgb
    requires geometry { geometry ≤ 10 ^ 13 }
    requires spot { IsSpot spot.now }
    requires cosine { reflection.cosine ≤ 65_536 }
    requires highlight { reflection.highlight ≤ 65_536 }
    requires total { IsPowerWithin (10 ^ 8 * 65_536) total }
    ensures { result ≡ by_power (times geometry (reflected spot.now reflection.cosine reflection.highlight)) total }
{
    let diffuse = geometry * reflection.cosine as u64;
    let specular = geometry * reflection.highlight as u64;
    Rgb {
        r: channel(diffuse, spot.kd.r, total.r) + channel(specular, spot.ks.r, total.r),
        g: channel(diffuse, spot.kd.g, total.g) + channel(specular, spot.ks.g, total.g),
        b: channel(diffuse, spot.kd.b, total.b) + channel(specular, spot.ks.b, total.b),
    }
}
