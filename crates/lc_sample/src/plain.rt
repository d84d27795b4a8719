// The sum over all lights at a ray.
ghost use Rattle.std.specs.Prelude.{◌≡◌, ◌+◌, ◌-◌, ◌*◌, ◌^◌, ◌≤◌, length};
ghost use Rattle.lc_num.specs.Channels.{IsPowerWithin, IsRgbWithin, plus, by_power};
ghost use Rattle.lc_terms.specs.Spot.{IsSpot};
ghost use Rattle.lc_cut.specs.Contribution.{contribution, plain, plain_of};
ghost use Rattle.lc_cut.specs.Forest.{lights_of};
ghost use Rattle.lc_view.specs.Camera.{IsRay};
ghost use Rattle.lc_sample.specs.Sampled.{light_of};

use crate::sampling::spot_seen;
use crate::scene::Scene;
use lc_cut::Forest;
use lc_geom::Triangles;
use lc_num::{Power, Rgb};
use lc_terms::{Kind, Spot, by_power, factor_of};
use lc_tree::Tree;
use lc_view::Ray;

/// What a light gives to a spot: its factor times its intensity.
fn contribution<K: Kind, T: Triangles>(spot: &Spot, light: &K::Light, scene: &T) -> Rgb
    requires spot { IsSpot spot.now }
    requires light { K.meaning.valid_light light.now }
    ensures value { result ≡ contribution K.meaning (T.list scene.now) spot.now light.now }
    ensures small { IsRgbWithin (20_000 * 65_536 * 10 ^ 21) result }
{
    let factor = factor_of::<K, T>(spot, light, scene);
    by_power(factor, power_of::<K>(light))
}

fn power_of<K: Kind>(light: &K::Light) -> Power
    requires { K.meaning.valid_light light.now }
    ensures value { result ≡ K.meaning.power light.now }
    ensures within { IsPowerWithin (10 ^ 8) result }
{
    K::power(light)
}

/// The sum over all lights of a tree, each with its own visibility.
fn plain_of<K: Kind, T: Triangles>(tree: &Tree<K>, spot: &Spot, scene: &T) -> Rgb
    requires spot { IsSpot spot.now }
    requires few { length tree.now.lights ≤ 65536 }
    ensures value { result ≡ plain_of K.meaning (T.list scene.now) spot.now tree.now.lights }
    ensures small { IsRgbWithin (20_000 * 65_536 * 10 ^ 21 * length tree.now.lights) result }
{
    let mut sum = Rgb::BLACK;
    for light in tree.lights() {
        let more = contribution::<K, T>(spot, light, scene);
        sum = Rgb {
            r: sum.r + more.r,
            g: sum.g + more.g,
            b: sum.b + more.b,
        };
    }
    sum
}

/// The sum over all lights of a forest.
fn plain_at<T: Triangles>(forest: &Forest, spot: &Spot, scene: &T) -> Rgb
    requires spot { IsSpot spot.now }
    ensures value { result ≡ plain (T.list scene.now) spot.now (lights_of forest.now) }
    ensures small { IsRgbWithin (2 ^ 117 - 1) result }
{
    let omni = plain_of(&forest.omni, spot, scene);
    let oriented = plain_of(&forest.oriented, spot, scene);
    let sun = plain_of(&forest.sun, spot, scene);
    Rgb {
        r: omni.r + oriented.r + sun.r,
        g: omni.g + oriented.g + sun.g,
        b: omni.b + oriented.b + sun.b,
    }
}

/// The sum over all lights at the spot that a ray finds first, each with its own visibility against every triangle, and
/// zero where the ray hits nothing. It takes no memory.
pub fn plain_sample(scene: &Scene, ray: Ray) -> Rgb
    requires ray { IsRay ray }
    ensures value { result ≡ light_of scene.now ray }
    ensures small { IsRgbWithin (2 ^ 117 - 1) result }
{
    match spot_seen(scene, ray) {
        None => Rgb::BLACK,
        Some(spot) => plain_at(&scene.forest, &spot, &scene.triangles),
    }
}
