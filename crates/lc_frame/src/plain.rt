// A picture by the sums over all lights, row by row.
ghost use Rattle.std.specs.Prelude.{◌≡◌, ◌*◌, ◌≤◌, ◌<◌, OnOk, IfErr, IsTrue, flat_map, vec_capacity};
ghost use Rattle.lc_desk.specs.Calls.{Made};
ghost use Rattle.lc_job.specs.Jobs.{IsJob};
ghost use Rattle.lc_frame.specs.Parts.{pixel_lights, row_lights, sums_of};
ghost use Rattle.lc_frame.specs.PlainFrames.{plain_bytes, plain_calls, plain_lights, plain_put};
ghost use Rattle.lc_frame.specs.Stops.{Broke, StoppedIn};

use crate::calls::put;
use crate::pixel::{plus, push_pixel};
use crate::render::start;
use crate::room::{picture_head, row_room};
use crate::stop::FrameStop;
use lc_desk::{Desk, Slot};
use lc_job::Job;
use lc_num::Rgb;
use lc_sample::{Scene, plain_sample};
use lc_view::ray_of;
use std::alloc::Global;

/// Adds up the sums over all lights at the samples of a pixel.
fn plain_sums(scene: &Scene, job: &Job, row: u32, col: u32) -> Rgb
    requires job { IsJob job.now }
    requires row { row < job.now.camera.height }
    requires col { col < job.now.camera.width }
    ensures { result ≡ sums_of (pixel_lights job.now scene.now row col) }
{
    let camera = &job.camera;
    let mut sums = Rgb { r: 0, g: 0, b: 0 };
    for k in 0..camera.grid * camera.grid {
        let ray = ray_of(camera, col, row, k % camera.grid, k / camera.grid);
        sums = plus(sums, plain_sample(scene, ray));
    }
    sums
}

/// Makes a row of pixels, in a vector that has room for it.
fn plain_row(scene: &Scene, job: &Job, row: u32, bytes: &mut Vec<u8>)
    requires job { IsJob job.now }
    requires row { row < job.now.camera.height }
    requires space { 3 * job.now.camera.width ≤ vec_capacity bytes.old }
    ensures bytes { bytes.new.items ≡ plain_bytes job.now.white (row_lights job.now scene.now row) }
    ensures space { vec_capacity bytes.old ≤ vec_capacity bytes.new }
{
    let count = job.camera.grid * job.camera.grid;
    bytes.clear();
    for col in 0..job.camera.width {
        let sums = plain_sums(scene, job, row, col);
        push_pixel(bytes, sums, count, job.white);
    }
}

/// Puts all rows of pixels.
fn plain_all<D: Desk>(
    scene: &Scene,
    job: &Job,
    desk: &mut D,
    bytes: &mut Vec<u8>,
) -> Result<(), FrameStop>
    requires job { IsJob job.now }
    requires space { 3 * job.now.camera.width ≤ vec_capacity bytes.old }
    requires begun { IsTrue (D.state desk.old).slots.picture.begun }
    ensures made { OnOk result (Made (flat_map (plain_put job.now.white) (plain_lights job.now scene.now))
        (D.state desk.old) (D.state desk.new)) }
    ensures broke { IfErr result (λ stop. Broke stop
        (flat_map (plain_put job.now.white) (plain_lights job.now scene.now)) (D.state desk.old) (D.state desk.new)) }
{
    for row in 0..job.camera.height {
        plain_row(scene, job, row, bytes);
        put(desk, Slot::Picture, bytes)?;
    }
    Ok(())
}

/// Writes the picture of a job by the sum over all lights at each sample, each light with its own visibility: the
/// picture is begun with its header, and its rows of pixels are put one by one. All memory is taken before the begin.
pub fn plain_rows<D: Desk>(
    alloc: Global,
    scene: &Scene,
    job: &Job,
    desk: &mut D,
) -> Result<(), FrameStop>
    requires { IsJob job.now }

    // Exactly these begins and puts are made, in this order.
    ensures made { OnOk result (Made (plain_calls job.now (plain_lights job.now scene.now)) (D.state desk.old)
        (D.state desk.new)) }

    // After a stop they were made up to one that was refused, whose count rose; or there was no memory before the
    // first.
    ensures stopped { IfErr result (λ stop. StoppedIn stop (plain_calls job.now (plain_lights job.now scene.now))
        (D.state desk.old) (D.state desk.new)) }
{
    let head = picture_head(alloc, job)?;
    let mut bytes = row_room(alloc, job)?;
    start(desk, Slot::Picture, job.picture.as_str(), head.as_slice())?;
    plain_all(scene, job, desk, &mut bytes)
}
