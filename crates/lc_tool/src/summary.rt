// The line by which `make` tells its picture in short.
ghost use Rattle.std.specs.Prelude.{◌≡◌, [], ◌∷◌, OnOk, IfErr, List};
ghost use Rattle.lc_rated.specs.declared.answer.Answer.{Answer as Recorded};
ghost use Rattle.lc_desk.specs.Calls.{Made};
ghost use Rattle.lc_desk.specs.Calls as call;
ghost use Rattle.lc_desk.specs.declared.desk.Slot.TheVariants.{Report};
ghost use Rattle.lc_frame.specs.Frames.{summary_of};
ghost use Rattle.lc_frame.specs.Stops.{Broke};
ghost use Rattle.lc_tool.specs.Summaries.{summary_bytes};

use crate::fixed::append;
use crate::write::put_report;
use arrayvec::ArrayString;
use itoa::Buffer;
use lc_desk::Desk;
use lc_frame::{FrameStop, Summary};
use lc_make::{light_count, sample_count, triangle_count};

/// Puts on Report how many lights, triangles and samples the scene of a number has, how many nodes the cuts have in
/// all, and their greatest bound.
#[tactic(auto, unfolding(crate::specs::Summaries::summary_bytes))]
pub fn put_summary<D: Desk>(number: u32, summary: &Summary, desk: &mut D) -> Result<(), FrameStop>
    ensures made { OnOk result (Made (call.put Report (summary_bytes number summary.now) ∷ [])
        (D.state desk.old) (D.state desk.new)) }
    ensures broke { IfErr result (λ stop. Broke stop (call.put Report (summary_bytes number summary.now) ∷ [])
        (D.state desk.old) (D.state desk.new)) }
{
    let mut digits = Buffer::new();
    let mut line = ArrayString::<192>::new();
    append(&mut line, "lights ");
    append(&mut line, digits.format(light_count(number)));
    append(&mut line, " triangles ");
    append(&mut line, digits.format(triangle_count(number)));
    append(&mut line, " samples ");
    append(&mut line, digits.format(sample_count()));
    append(&mut line, " cut ");
    append(&mut line, digits.format(summary.sizes));
    append(&mut line, "/");
    append(&mut line, digits.format(sample_count()));
    append(&mut line, " bound ");
    append(&mut line, digits.format(summary.largest));
    append(&mut line, "\n");
    put_report(desk, line.as_str().as_bytes())
}
