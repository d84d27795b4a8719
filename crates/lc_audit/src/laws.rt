// What the verdict on a record says, by the definitions alone. The function does nothing: it states laws by its
// contract.
ghost use Rattle.std.specs.Prelude.{◌≡◌, ◌%◌, ◌≤◌, ℕ, List, map, length};
ghost use Rattle.lc_num.specs.declared.rules.Rule.{Rule};
ghost use Rattle.lc_rated.specs.declared.answer.Answer.{Answer};
ghost use Rattle.lc_view.specs.Samples.{sample_rays};
ghost use Rattle.lc_job.specs.declared.job.Job.{Job};
ghost use Rattle.lc_sample.specs.Scenes.{IsScene, SceneParts};
ghost use Rattle.lc_sample.specs.Sampled.{sample_of};
ghost use Rattle.lc_audit.specs.declared.verdict.Miss.{Miss};
ghost use Rattle.lc_audit.specs.declared.verdict.Verdict.TheVariants.{Yes, No};
ghost use Rattle.lc_audit.specs.Verdicts.{LineFails, LineHolds, looked_at, verdict};

/// Where the verdict with the step 1 is yes, every line of the record holds by the sum over all lights at the ray of
/// its sample. With any step, every line does whose number the step divides. Where the verdict is no, the line of the
/// sample that it names does not hold. A record whose lines are the answers of a render of this scene and job, under
/// either rule, has the verdict yes with every step.
pub fn verdicts()
    ensures every { (scene : SceneParts) (job : Job) (lines : List Answer) (checked k : ℕ)
        → verdict scene job lines 1 ≡ Yes checked → LineHolds scene job lines k }
    ensures some { (scene : SceneParts) (job : Job) (lines : List Answer) (step checked k : ℕ)
        → verdict scene job lines step ≡ Yes checked → k % step ≡ 0 → LineHolds scene job lines k }
    ensures no { (scene : SceneParts) (job : Job) (lines : List Answer) (step : ℕ) (miss : Miss)
        → verdict scene job lines step ≡ No miss → LineFails scene job lines miss.sample }
    ensures own { (r : Rule) (scene : SceneParts) (job : Job) (lines : List Answer) (step : ℕ) → IsScene scene
        → 3 ≤ job.cut
        → lines ≡ map (sample_of job.cut job.permille r scene) (sample_rays job.camera)
        → verdict scene job lines step ≡ Yes (length (looked_at scene job lines step)) }
{}
