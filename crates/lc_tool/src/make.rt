// The command `make`.
ghost use Rattle.std.specs.Prelude.{IfOk, Ok, Some};
ghost use Rattle.lc_job.specs.Jobs.{IsJob};
ghost use Rattle.lc_make.specs.Made.{AreShort};
ghost use Rattle.lc_tool.specs.Course.{at_once};
ghost use Rattle.lc_tool.specs.Ends.{Counts, Ends};
ghost use Rattle.lc_tool.specs.Outcome.{made_files, made_world, make_course, make_work};
ghost use Rattle.lc_tool.specs.Stopped.{GoesAs, StopsAs};

use crate::note::note_memory;
use crate::parse::{parse_job, parse_library, parse_lights, parse_scene};
use crate::ranges::SceneNumber;
use crate::status::{Status, Stop};
use crate::summary::put_summary;
use crate::world::{World, join_world};
use crate::write::settle;
use lc_desk::Desk;
use lc_frame::render_rows;
use lc_make::Made;
use lc_mtl::Materials;
use lc_num::Steps;
use std::alloc::Global;
use std::sync::ledger::Ledger;

/// The world of made texts, which stand in the place of files. A refusal is told on Note.
fn made_world<D: Desk>(alloc: Global, made: &Made, desk: &mut D) -> Result<World, Stop>
    requires { AreShort made.now }
    ensures went { GoesAs result (Some (made_world made.now)) (D.state desk.old) (D.state desk.new) }
    ensures valid { IfOk result (λ world. IsJob world.job) }
    ensures stopped { StopsAs result (Some (made_world made.now)) (D.state desk.old) (D.state desk.new) }
{
    let job = parse_job(alloc, "made.txt", made.job.as_slice(), desk)?;
    let mesh = parse_scene(alloc, "made.obj", made.obj.as_slice(), desk)?;
    let mut materials = Materials::new(alloc);
    parse_library(alloc, "made.mtl", made.mtl.as_slice(), &mut materials, desk)?;
    let lights = parse_lights(alloc, "made.lights", job.seed, made.lights.as_slice(), desk)?;
    join_world(alloc, job, mesh, &materials, lights, desk)
}

/// Writes the picture and the record of a made world, and tells them in short on Report.
fn write_made<D: Desk, L: Ledger>(
    alloc: Global,
    number: u32,
    world: &World,
    desk: &mut D,
    steps: &mut Steps<L>,
) -> Status
    requires { IsJob world.now.job }
    ensures ends { Ends result made_files (Some (at_once (Ok (make_work number world.now))))
        (D.state desk.old) (D.state desk.new) }
    ensures counted { Counts result (Some (at_once (Ok (make_work number world.now)))) steps.old steps.new }
{
    let summary = match render_rows(alloc, &world.scene, &world.job, desk, steps) {
        Ok(summary) => summary,
        Err(stop) => return settle(desk, stop),
    };
    match put_summary(number, &summary, desk) {
        Ok(()) => Status::Done,
        Err(stop) => settle(desk, stop),
    }
}

/// Writes the picture and the record of the scene that is made of a number, and tells them in short on Report. It reads
/// no file.
pub fn make<D: Desk, L: Ledger>(
    alloc: Global,
    number: SceneNumber,
    desk: &mut D,
    steps: &mut Steps<L>,
) -> Status
    ensures ends { Ends result made_files (Some (make_course number)) (D.state desk.old) (D.state desk.new) }
    ensures counted { Counts result (Some (make_course number)) steps.old steps.new }
{
    let SceneNumber { number } = number;
    let Ok(made) = lc_make::make(alloc, number) else {
        note_memory(desk);
        return Status::Stopped(Stop::Memory);
    };
    match made_world(alloc, &made, desk) {
        Ok(world) => write_made(alloc, number, &world, desk, steps),
        Err(stop) => Status::Stopped(stop),
    }
}
