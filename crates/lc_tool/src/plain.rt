// The command `plain`.
ghost use Rattle.std.specs.Prelude.{Ok, Some};
ghost use Rattle.lc_job.specs.Jobs.{IsJob};
ghost use Rattle.lc_frame.specs.Files.{picture_file};
ghost use Rattle.lc_tool.specs.Course.{at_once};
ghost use Rattle.lc_tool.specs.Ends.{Ends, EndsAs};
ghost use Rattle.lc_tool.specs.Outcome.{plain_course, plain_work};

use crate::status::Status;
use crate::world::{World, read_world};
use crate::write::settle;
use lc_desk::Desk;
use lc_frame::plain_rows;
use std::alloc::Global;

/// Writes the picture of a world by the sum over all lights.
fn write_picture<D: Desk>(alloc: Global, world: &World, desk: &mut D) -> Status
    requires { IsJob world.now.job }
    ensures ends { Ends result picture_file (Some (at_once (Ok (plain_work world.now))))
        (D.state desk.old) (D.state desk.new) }
{
    match plain_rows(alloc, &world.scene, &world.job, desk) {
        Ok(()) => Status::Done,
        Err(stop) => settle(desk, stop),
    }
}

/// Writes the picture of a job's file by the sum over all lights at each sample, each with its own visibility.
pub fn plain<D: Desk>(alloc: Global, name: &str, desk: &mut D) -> Status
    ensures ends { EndsAs result picture_file (plain_course name.now) (D.state desk.old) (D.state desk.new) }
{
    match read_world(alloc, name, desk) {
        Ok(world) => write_picture(alloc, &world, desk),
        Err(stop) => Status::Stopped(stop),
    }
}
