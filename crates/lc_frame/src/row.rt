// A row of pixels.
ghost use Rattle.std.specs.Prelude.{◌≡◌, ◌+◌, ◌*◌, ◌≤◌, ◌<◌, ◌^◌, OnOk, IfErr, IsTrue, flat_map, vec_capacity};
ghost use Rattle.lc_desk.specs.Calls.{Made};
ghost use Rattle.lc_job.specs.Jobs.{IsJob};
ghost use Rattle.lc_view.specs.Samples.{flat};
ghost use Rattle.lc_frame.specs.Frames.{evals_of, lines_of, row_bytes, row_calls};
ghost use Rattle.lc_frame.specs.Parts.{row_answers, with_more};
ghost use Rattle.lc_frame.specs.Stops.{Broke};

use crate::calls::put;
use crate::pixel::render_pixel;
use crate::room::Room;
use crate::stop::FrameStop;
use crate::summary::Summary;
use lc_desk::{Desk, Slot};
use lc_job::Job;
use lc_num::Steps;
use lc_sample::Scene;
use std::sync::ledger::Ledger;

/// Puts the lines of the record for the samples of a row, and makes the row of pixels.
fn render_pixels<D: Desk, L: Ledger>(
    scene: &Scene,
    job: &Job,
    row: u32,
    desk: &mut D,
    room: &mut Room,
    summary: &mut Summary,
    steps: &mut Steps<L>,
) -> Result<(), FrameStop>
    requires job { IsJob job.now }
    requires row { row < job.now.camera.height }
    requires bench { room.old.bench ≡ job.now.cut }
    requires space { 3 * job.now.camera.width ≤ vec_capacity room.old.row }
    requires bounds { IsTrue (D.state desk.old).slots.bounds.begun }
    requires samples { summary.old.samples + 2 ^ 20 ≤ 2 ^ 32 }
    requires sizes { summary.old.sizes ≤ 65536 * summary.old.samples }
    ensures made { OnOk result (Made (flat_map lines_of (row_answers job.now scene.now row)) (D.state desk.old)
        (D.state desk.new)) }
    ensures broke { IfErr result (λ stop. Broke stop (flat_map lines_of (row_answers job.now scene.now row))
        (D.state desk.old) (D.state desk.new)) }
    ensures bytes { OnOk result (room.new.row.items ≡ row_bytes job.now.white (row_answers job.now scene.now row)) }
    ensures space { OnOk result (vec_capacity room.old.row ≤ vec_capacity room.new.row) }
    ensures bench { OnOk result (room.new.bench ≡ room.old.bench) }
    ensures summary { OnOk result (summary.new ≡ with_more (flat (row_answers job.now scene.now row)) summary.old) }
    ensures few { OnOk result (summary.new.samples ≤ summary.old.samples + 2 ^ 20) }
    ensures sizes { OnOk result (summary.new.sizes ≤ 65536 * summary.new.samples) }
    ensures steps { OnOk result (steps.new ≡ steps.old + evals_of (flat (row_answers job.now scene.now row))) }
{
    room.row.clear();
    for col in 0..job.camera.width {
        render_pixel(scene, job, row, col, desk, room, summary, steps)?;
    }
    Ok(())
}

/// Puts the lines of the record for the samples of a row, and then the row of pixels.
pub fn render_row<D: Desk, L: Ledger>(
    scene: &Scene,
    job: &Job,
    row: u32,
    desk: &mut D,
    room: &mut Room,
    summary: &mut Summary,
    steps: &mut Steps<L>,
) -> Result<(), FrameStop>
    requires job { IsJob job.now }
    requires row { row < job.now.camera.height }
    requires bench { room.old.bench ≡ job.now.cut }
    requires space { 3 * job.now.camera.width ≤ vec_capacity room.old.row }
    requires picture { IsTrue (D.state desk.old).slots.picture.begun }
    requires bounds { IsTrue (D.state desk.old).slots.bounds.begun }
    requires samples { summary.old.samples + 2 ^ 20 ≤ 2 ^ 32 }
    requires sizes { summary.old.sizes ≤ 65536 * summary.old.samples }
    ensures made { OnOk result (Made (row_calls job.now.white (row_answers job.now scene.now row))
        (D.state desk.old) (D.state desk.new)) }
    ensures broke { IfErr result (λ stop. Broke stop (row_calls job.now.white (row_answers job.now scene.now row))
        (D.state desk.old) (D.state desk.new)) }
    ensures space { OnOk result (vec_capacity room.old.row ≤ vec_capacity room.new.row) }
    ensures bench { OnOk result (room.new.bench ≡ room.old.bench) }
    ensures summary { OnOk result (summary.new ≡ with_more (flat (row_answers job.now scene.now row)) summary.old) }
    ensures few { OnOk result (summary.new.samples ≤ summary.old.samples + 2 ^ 20) }
    ensures sizes { OnOk result (summary.new.sizes ≤ 65536 * summary.new.samples) }
    ensures steps { OnOk result (steps.new ≡ steps.old + evals_of (flat (row_answers job.now scene.now row))) }
{
    render_pixels(scene, job, row, desk, room, summary, steps)?;
    put(desk, Slot::Picture, &room.row)
}
