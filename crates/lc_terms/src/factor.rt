// The factor of a light at a spot.
ghost use Rattle.std.specs.Prelude.{◌≡◌, ◌+◌, ◌*◌, ◌^◌, ◌≤◌};
ghost use Rattle.lc_num.specs.Channels.{IsPowerWithin, IsRgbWithin, by_power, times};
ghost use Rattle.lc_terms.specs.Factor.{factor};
ghost use Rattle.lc_terms.specs.Kind.{factor_of};
ghost use Rattle.lc_terms.specs.Spot.{IsSpot};

use crate::kind::Kind;
use crate::reflection::material;
use crate::spot::Spot;
use lc_geom::Triangles;
use lc_num::{Power, Rgb, Steps};
use std::sync::ledger::Ledger;

fn channel(geometry: u64, material: u128) -> u128
    requires geometry { geometry ≤ 10 ^ 13 }
    requires material { material ≤ 20_000 * 65_536 }
    ensures value { result ≡ geometry * material }
    ensures small { result ≤ 20_000 * 65_536 * 10 ^ 13 }
{
    geometry as u128 * (material as u64) as u128
}

/// One channel of a factor times an intensity.
fn powered(factor: u128, power: u64) -> u128
    requires factor { factor ≤ 20_000 * 65_536 * 10 ^ 13 }
    requires power { power ≤ 10 ^ 8 * 65_536 }
    ensures { result ≡ factor * power }
{
    factor * power as u128
}

/// A factor times an intensity, in each channel: what a light of this intensity gives to the spot.
pub fn by_power(factor: Rgb, power: Power) -> Rgb
    requires factor { IsRgbWithin (20_000 * 65_536 * 10 ^ 13) factor }
    requires power { IsPowerWithin (10 ^ 8 * 65_536) power }
    ensures { result ≡ by_power factor power }
{
    Rgb {
        r: powered(factor.r, power.r),
        g: powered(factor.g, power.g),
        b: powered(factor.b, power.b),
    }
}

fn times(geometry: u64, material: Rgb) -> Rgb
    requires geometry { geometry ≤ 10 ^ 13 }
    requires material { IsRgbWithin (20_000 * 65_536) material }
    ensures value { result ≡ times geometry material }
    ensures small { IsRgbWithin (20_000 * 65_536 * 10 ^ 13) result }
{
    Rgb {
        r: channel(geometry, material.r),
        g: channel(geometry, material.g),
        b: channel(geometry, material.b),
    }
}

/// The factor that a light has where nothing blocks it: the material term times the geometric term, with no rounding.
fn unblocked<K: Kind>(spot: &Spot, light: &K::Light) -> Rgb
    requires spot { IsSpot spot.now }
    requires light { K.meaning.valid_light light.now }
    ensures value { result ≡ factor spot.now (K.meaning.toward spot.now.x light.now)
        (K.meaning.geometry spot.now.x light.now) }
    ensures small { IsRgbWithin (20_000 * 65_536 * 10 ^ 13) result }
{
    let material = material(spot, K::toward(spot.x, light));
    if material == Rgb::BLACK {
        return Rgb::BLACK;
    }
    times(K::geometry(spot.x, light), material)
}

/// The factor of a light at a spot (Lightcuts 2005: the material, geometric and visibility terms): the material term
/// times the geometric term, with no rounding, where no triangle of the scene blocks the segment from the spot to the
/// light's target, and else 0. Where the product is 0 no segment is tested.
pub fn factor_of<K: Kind, T: Triangles>(spot: &Spot, light: &K::Light, scene: &T) -> Rgb
    requires spot { IsSpot spot.now }
    requires light { K.meaning.valid_light light.now }
    ensures value { result ≡ factor_of K.meaning (T.list scene.now) spot.now light.now }
    ensures small { IsRgbWithin (20_000 * 65_536 * 10 ^ 13) result }
{
    let factor = unblocked::<K>(spot, light);
    if factor == Rgb::BLACK || scene.blocked(spot.x, K::target(spot.x, light)) {
        Rgb::BLACK
    } else {
        factor
    }
}

/// The same for a light that is evaluated to choose a cut. It counts one step.
pub fn eval<K: Kind, T: Triangles, L: Ledger>(
    spot: &Spot,
    light: &K::Light,
    scene: &T,
    steps: &mut Steps<L>,
) -> Rgb
    requires spot { IsSpot spot.now }
    requires light { K.meaning.valid_light light.now }
    ensures value { result ≡ factor_of K.meaning (T.list scene.now) spot.now light.now }
    ensures small { IsRgbWithin (20_000 * 65_536 * 10 ^ 13) result }
    ensures steps { steps.new ≡ steps.old + 1 }
{
    steps.tick();
    factor_of::<K, T>(spot, light, scene)
}
