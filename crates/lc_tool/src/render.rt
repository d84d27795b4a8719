// The command `render`.
ghost use Rattle.std.specs.Prelude.{Ok, Some};
ghost use Rattle.lc_job.specs.Jobs.{IsJob};
ghost use Rattle.lc_frame.specs.Files.{files};
ghost use Rattle.lc_tool.specs.Course.{at_once, told};
ghost use Rattle.lc_tool.specs.Ends.{Counts, Ends, EndsAs};
ghost use Rattle.lc_tool.specs.Outcome.{render_course, render_work};

use crate::status::Status;
use crate::world::{World, read_world};
use crate::write::settle;
use lc_desk::Desk;
use lc_frame::render_rows;
use lc_num::Steps;
use std::alloc::Global;
use std::sync::ledger::Ledger;

/// Writes the picture and the record of a world.
fn write_frame<D: Desk, L: Ledger>(
    alloc: Global,
    world: &World,
    desk: &mut D,
    steps: &mut Steps<L>,
) -> Status
    requires { IsJob world.now.job }
    ensures ends { Ends result files (Some (at_once (Ok (render_work world.now))))
        (D.state desk.old) (D.state desk.new) }
    ensures counted { Counts result (Some (at_once (Ok (render_work world.now)))) steps.old steps.new }
{
    match render_rows(alloc, &world.scene, &world.job, desk, steps) {
        Ok(_summary) => Status::Done,
        Err(stop) => settle(desk, stop),
    }
}

/// Writes the picture of a job's file, and the record of its samples.
pub fn render<D: Desk, L: Ledger>(
    alloc: Global,
    name: &str,
    desk: &mut D,
    steps: &mut Steps<L>,
) -> Status
    ensures ends { EndsAs result files (render_course name.now) (D.state desk.old) (D.state desk.new) }
    ensures counted { Counts result (told (render_course name.now) (D.state desk.old).held) steps.old steps.new }
{
    match read_world(alloc, name, desk) {
        Ok(world) => write_frame(alloc, &world, desk, steps),
        Err(stop) => Status::Stopped(stop),
    }
}
