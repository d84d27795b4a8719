// What the sample at a ray says of the sum over all lights, by the definitions alone. The function does nothing: it
// states laws by its contract.
ghost use Rattle.std.specs.Prelude.{◌≡◌, ◌-◌, ◌*◌, ◌^◌, ◌≤◌, ◌⊎◌, ℕ};
ghost use Rattle.lc_num.specs.Channels.{IsRgbWithin};
ghost use Rattle.lc_num.specs.declared.rules.Rule.{Rule};
ghost use Rattle.lc_rated.specs.Cuts.{IsFraction, IsNear};
ghost use Rattle.lc_view.specs.declared.ray.Ray.{Ray};
ghost use Rattle.lc_sample.specs.Scenes.{IsScene, SceneParts};
ghost use Rattle.lc_sample.specs.Sampled.{light_of, sample_of};

/// In every valid scene, for every ray and under each rule, the estimate differs from the sum over all lights at the
/// spot that the ray finds, each with its own visibility against every triangle, by at most the bound in each
/// channel. The bound is within the permille of the estimate, unless the cut has the greatest size. The numbers are
/// those of a record: at most the greatest size, one evaluation for each cluster, and sums below 2^117.
pub fn sampled_light()
    ensures near { (size permille : ℕ) (r : Rule) (scene : SceneParts) (ray : Ray) → IsScene scene
        → IsNear (light_of scene ray) (sample_of size permille r scene ray) }
    ensures fraction { (size permille : ℕ) (r : Rule) (scene : SceneParts) (ray : Ray) → 3 ≤ size
        → ((sample_of size permille r scene ray).size ≡ size)
        ⊎ IsFraction permille (sample_of size permille r scene ray) }
    ensures size { (size permille : ℕ) (r : Rule) (scene : SceneParts) (ray : Ray) → 3 ≤ size
        → (sample_of size permille r scene ray).size ≤ size }
    ensures evals { (size permille : ℕ) (r : Rule) (scene : SceneParts) (ray : Ray) → 3 ≤ size
        → (sample_of size permille r scene ray).evals ≤ 2 * size }
    ensures each { (size permille : ℕ) (r : Rule) (scene : SceneParts) (ray : Ray)
        → (sample_of size permille r scene ray).evals ≡ (sample_of size permille r scene ray).size }
    ensures est { (size permille : ℕ) (r : Rule) (scene : SceneParts) (ray : Ray) → IsScene scene
        → IsRgbWithin (2 ^ 117 - 1) (sample_of size permille r scene ray).est }
    ensures bound { (size permille : ℕ) (r : Rule) (scene : SceneParts) (ray : Ray) → IsScene scene
        → IsRgbWithin (2 ^ 117 - 1) (sample_of size permille r scene ray).bound }
{}
