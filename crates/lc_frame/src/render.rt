// A picture and its record, row by row.
ghost use Rattle.std.specs.Prelude.{◌≡◌, ◌+◌, ◌*◌, ◌≤◌, [], ◌∷◌, OnOk, IfOk, IfErr, IsTrue, flat_map, vec_capacity};
ghost use Rattle.lc_desk.specs.Calls.{Made};
ghost use Rattle.lc_desk.specs.Calls as call;
ghost use Rattle.lc_desk.specs.Desk.{CanPut};
ghost use Rattle.lc_job.specs.Jobs.{IsJob};
ghost use Rattle.lc_tone.specs.Tone.{header_bytes as picture_header};
ghost use Rattle.lc_record.specs.Record.{record_header};
ghost use Rattle.lc_frame.specs.Frames.{answers_of, evals_of, header_of, opening, render_calls, row_calls, samples, summary_of};
ghost use Rattle.lc_frame.specs.Stops.{Broke, StoppedIn};

use crate::calls::{begin, put};
use crate::room::Room;
use crate::row::render_row;
use crate::stop::FrameStop;
use crate::summary::Summary;
use lc_desk::{Desk, Slot};
use lc_job::Job;
use lc_num::Steps;
use lc_sample::Scene;
use std::alloc::Global;
use std::sync::ledger::Ledger;

/// Begins a file, with its header.
pub fn start<D: Desk>(desk: &mut D, slot: Slot, name: &str, header: &[u8]) -> Result<(), FrameStop>
    ensures made { OnOk result (Made (call.begin slot name.now ∷ call.put slot header.now ∷ []) (D.state desk.old)
        (D.state desk.new)) }
    ensures open { OnOk result (CanPut (D.state desk.new).slots slot) }
    ensures broke { IfErr result (λ stop. Broke stop (call.begin slot name.now ∷ call.put slot header.now ∷ [])
        (D.state desk.old) (D.state desk.new)) }
{
    begin(desk, slot, name)?;
    put(desk, slot, header)
}

/// Begins both files, each with its header.
fn open<D: Desk>(job: &Job, room: &Room, desk: &mut D) -> Result<(), FrameStop>
    requires picture { room.now.picture ≡ picture_header job.now.camera.width job.now.camera.height }
    requires record { room.now.record ≡ record_header (header_of job.now) }
    ensures made { OnOk result (Made (opening job.now) (D.state desk.old) (D.state desk.new)) }
    ensures picture { OnOk result (IsTrue (D.state desk.new).slots.picture.begun) }
    ensures bounds { OnOk result (IsTrue (D.state desk.new).slots.bounds.begun) }
    ensures broke { IfErr result (λ stop. Broke stop (opening job.now) (D.state desk.old) (D.state desk.new)) }
{
    start(
        desk,
        Slot::Picture,
        job.picture.as_str(),
        room.picture.as_slice(),
    )?;
    start(
        desk,
        Slot::Bounds,
        job.bounds.as_str(),
        room.record.as_slice(),
    )
}

/// Puts the lines and the pixels of all rows.
fn render_all<D: Desk, L: Ledger>(
    scene: &Scene,
    job: &Job,
    desk: &mut D,
    room: &mut Room,
    steps: &mut Steps<L>,
) -> Result<Summary, FrameStop>
    requires job { IsJob job.now }
    requires bench { room.old.bench ≡ job.now.cut }
    requires space { 3 * job.now.camera.width ≤ vec_capacity room.old.row }
    requires picture { IsTrue (D.state desk.old).slots.picture.begun }
    requires bounds { IsTrue (D.state desk.old).slots.bounds.begun }
    ensures made { OnOk result (Made (flat_map (row_calls job.now.white) (answers_of job.now scene.now))
        (D.state desk.old) (D.state desk.new)) }
    ensures broke { IfErr result (λ stop. Broke stop
        (flat_map (row_calls job.now.white) (answers_of job.now scene.now)) (D.state desk.old) (D.state desk.new)) }
    ensures summary { IfOk result (λ summary. summary ≡ summary_of (samples (answers_of job.now scene.now))) }
    ensures steps { OnOk result (steps.new ≡ steps.old + evals_of (samples (answers_of job.now scene.now))) }
{
    let mut summary = Summary::new();
    for row in 0..job.camera.height {
        render_row(scene, job, row, desk, room, &mut summary, steps)?;
    }
    Ok(summary)
}

/// Writes the picture and the record of a job, by the answer at each sample of the picture: the picture is begun with
/// its header and then the record with its header, and for each row the lines of its samples are put one by one, and
/// then its pixels. All memory is taken before the first begin. Each representative that is evaluated counts one
/// step.
pub fn render_rows<D: Desk, L: Ledger>(
    alloc: Global,
    scene: &Scene,
    job: &Job,
    desk: &mut D,
    steps: &mut Steps<L>,
) -> Result<Summary, FrameStop>
    requires { IsJob job.now }

    // Exactly these begins and puts are made, in this order.
    ensures made { OnOk result (Made (render_calls job.now (answers_of job.now scene.now)) (D.state desk.old)
        (D.state desk.new)) }
    ensures summary { IfOk result (λ summary. summary ≡ summary_of (samples (answers_of job.now scene.now))) }
    ensures steps { OnOk result (steps.new ≡ steps.old + evals_of (samples (answers_of job.now scene.now))) }

    // After a stop they were made up to one that was refused, whose count rose; or there was no memory before the
    // first.
    ensures stopped { IfErr result (λ stop. StoppedIn stop (render_calls job.now (answers_of job.now scene.now))
        (D.state desk.old) (D.state desk.new)) }
{
    let mut room = Room::new(alloc, job)?;
    open(job, &room, desk)?;
    render_all(scene, job, desk, &mut room, steps)
}
