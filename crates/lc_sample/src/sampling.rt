// The light at a ray.
ghost use Rattle.std.specs.Prelude.{◌≡◌, ◌+◌, ◌-◌, ◌*◌, ◌^◌, ◌≤◌, ◌⊎◌, IfSome};
ghost use Rattle.lc_num.specs.Channels.{IsRgbWithin};
ghost use Rattle.lc_terms.specs.Spot.{IsSpot};
ghost use Rattle.lc_rated.specs.Cuts.{IsFraction, IsNear};
ghost use Rattle.lc_view.specs.Camera.{IsRay};
ghost use Rattle.lc_sample.specs.Scenes.{IsScene};
ghost use Rattle.lc_sample.specs.Sampled.{light_of, no_answer, sample_of, spot_seen};

use crate::scene::Scene;
use crate::spot::spot_of;
use lc_cut::{Answer, Ask, Bench, cut};
use lc_geom::Triangles;
use lc_num::{Rgb, Steps};
use lc_terms::Spot;
use lc_view::Ray;
use std::sync::ledger::Ledger;

fn no_answer() -> Answer
    ensures { result ≡ no_answer }
{
    Answer {
        size: 0,
        evals: 0,
        est: Rgb::BLACK,
        bound: Rgb::BLACK,
    }
}

/// The spot of a ray's nearest hit.
pub fn spot_seen(scene: &Scene, ray: Ray) -> Option<Spot>
    requires ray { IsRay ray }
    ensures value { result ≡ spot_seen scene.now ray }
    ensures valid { IfSome result IsSpot }
{
    match scene.triangles.nearest(ray.e, ray.d) {
        None => None,
        Some(hit) => Some(spot_of(scene, ray, hit)),
    }
}

/// The light at the spot that a ray finds first, by the best-first cut through the trees of a scene's lights, and
/// zero where the ray hits nothing. Each representative that is evaluated counts one step. It takes no memory.
pub fn sample<L: Ledger>(
    scene: &Scene,
    bench: &mut Bench,
    ray: Ray,
    ask: Ask,
    steps: &mut Steps<L>,
) -> Answer
    requires ray { IsRay ray }
    requires bench { bench.old ≡ ask.size }
    requires least { 3 ≤ ask.size }
    requires most { ask.size ≤ 65536 }
    requires permille { ask.permille ≤ 1000 }
    ensures valid { IsScene scene.now }
    ensures value { result ≡ sample_of ask.size ask.permille ask.rule scene.now ray }
    ensures near { IsNear (light_of scene.now ray) result }
    ensures fraction { (result.size ≡ ask.size) ⊎ IsFraction ask.permille result }
    ensures size { result.size ≤ ask.size }
    ensures evals { result.evals ≤ 2 * ask.size }
    ensures each { result.evals ≡ result.size }
    ensures est { IsRgbWithin (2 ^ 117 - 1) result.est }
    ensures bound { IsRgbWithin (2 ^ 117 - 1) result.bound }
    ensures steps { steps.new ≡ steps.old + result.evals }
    ensures bench { bench.new ≡ bench.old }
{
    match spot_seen(scene, ray) {
        None => no_answer(),
        Some(spot) => cut(bench, &scene.forest, &spot, &scene.triangles, ask, steps),
    }
}
