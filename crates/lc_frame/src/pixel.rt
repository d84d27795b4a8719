// The samples of a pixel.
ghost use Rattle.std.specs.Prelude.{◌≡◌, ◌+◌, ◌*◌, ◌≤◌, ◌<◌, ◌^◌, [], ◌∷◌, ◌++◌, OnOk, IfOk, IfErr, IsTrue, vec_len, vec_capacity};
ghost use Rattle.lc_num.specs.Channels.{IsRgbWithin, plus};
ghost use Rattle.lc_desk.specs.Calls.{Made};
ghost use Rattle.lc_job.specs.Jobs.{IsJob};
ghost use Rattle.lc_tone.specs.Picture.{pixel_bytes};
ghost use Rattle.lc_frame.specs.Frames.{estimates, evals_of, lines_of};
ghost use Rattle.lc_frame.specs.Parts.{bytes_of_sums, pixel_answers, sums_of, with_more};
ghost use Rattle.lc_frame.specs.Stops.{Broke};

use crate::calls::put;
use crate::room::Room;
use crate::stop::FrameStop;
use crate::summary::Summary;
use lc_cut::{Ask, Bench};
use lc_desk::{Desk, Slot};
use lc_job::Job;
use lc_num::{Rgb, Steps};
use lc_record::{Line, line_text};
use lc_sample::{Scene, sample};
use lc_tone::byte;
use lc_view::ray_of;
use std::sync::ledger::Ledger;

/// The sum in each channel.
pub(crate) fn plus(a: Rgb, b: Rgb) -> Rgb
    requires a { IsRgbWithin (2 ^ 126) a }
    requires b { IsRgbWithin (2 ^ 126) b }
    ensures { result ≡ plus a b }
{
    Rgb {
        r: a.r + b.r,
        g: a.g + b.g,
        b: a.b + b.b,
    }
}

/// Puts a line of the record for each sample of a pixel, and adds up their estimates.
fn render_samples<D: Desk, L: Ledger>(
    scene: &Scene,
    job: &Job,
    row: u32,
    col: u32,
    desk: &mut D,
    bench: &mut Bench,
    summary: &mut Summary,
    steps: &mut Steps<L>,
) -> Result<Rgb, FrameStop>
    requires job { IsJob job.now }
    requires row { row < job.now.camera.height }
    requires col { col < job.now.camera.width }
    requires bench { bench.old ≡ job.now.cut }
    requires begun { IsTrue (D.state desk.old).slots.bounds.begun }
    requires samples { summary.old.samples + 256 ≤ 2 ^ 32 }
    requires sizes { summary.old.sizes ≤ 65536 * summary.old.samples }
    ensures made { OnOk result (Made (lines_of (pixel_answers job.now scene.now row col)) (D.state desk.old)
        (D.state desk.new)) }
    ensures broke { IfErr result (λ stop. Broke stop (lines_of (pixel_answers job.now scene.now row col))
        (D.state desk.old) (D.state desk.new)) }
    ensures sums { IfOk result (λ sums. sums ≡ sums_of (estimates (pixel_answers job.now scene.now row col))) }
    ensures within { IfOk result (IsRgbWithin (2 ^ 126)) }
    ensures summary { OnOk result (summary.new ≡ with_more (pixel_answers job.now scene.now row col) summary.old) }
    ensures few { OnOk result (summary.new.samples ≤ summary.old.samples + 256) }
    ensures sizes { OnOk result (summary.new.sizes ≤ 65536 * summary.new.samples) }
    ensures steps { OnOk result (steps.new ≡ steps.old + evals_of (pixel_answers job.now scene.now row col)) }
    ensures bench { bench.new ≡ bench.old }
{
    let camera = &job.camera;
    let ask = Ask {
        permille: job.permille,
        size: job.cut,
        rule: job.rule,
    };
    let mut line = Line::new();
    let mut sums = Rgb { r: 0, g: 0, b: 0 };
    for k in 0..camera.grid * camera.grid {
        let ray = ray_of(camera, col, row, k % camera.grid, k / camera.grid);
        let answer = sample(scene, bench, ray, ask, steps);
        line_text(&answer, &mut line);
        put(desk, Slot::Bounds, line.as_slice())?;
        sums = plus(sums, answer.est);
        summary.take(&answer);
    }
    Ok(sums)
}

/// Adds a byte to a row that has room for it.
fn push_byte(row: &mut Vec<u8>, byte: u8)
    requires { vec_len row.old < vec_capacity row.old }
    ensures items { row.new.items ≡ row.old.items ++ byte ∷ [] }
    ensures len { vec_len row.new ≡ vec_len row.old + 1 }
    ensures room { vec_capacity row.old ≤ vec_capacity row.new }
{
    let _ = row.push(byte);
}

/// Adds the bytes of a pixel to the row, by the sums over its samples.
pub(crate) fn push_pixel(row: &mut Vec<u8>, sums: Rgb, count: u32, white: u64)
    requires room { vec_len row.old + 3 ≤ vec_capacity row.old }
    requires count { 0 < count }
    requires white { white ≤ 100_000_000 }
    ensures items { row.new.items ≡ row.old.items ++ bytes_of_sums white count sums }
    ensures len { vec_len row.new ≡ vec_len row.old + 3 }
    ensures room { vec_capacity row.old ≤ vec_capacity row.new }
{
    let count = u128::from(count);
    push_byte(row, byte(sums.r / count, white));
    push_byte(row, byte(sums.g / count, white));
    push_byte(row, byte(sums.b / count, white));
}

/// Puts a line of the record for each sample of a pixel, and adds the pixel's bytes to the row.
pub fn render_pixel<D: Desk, L: Ledger>(
    scene: &Scene,
    job: &Job,
    row: u32,
    col: u32,
    desk: &mut D,
    room: &mut Room,
    summary: &mut Summary,
    steps: &mut Steps<L>,
) -> Result<(), FrameStop>
    requires job { IsJob job.now }
    requires row { row < job.now.camera.height }
    requires col { col < job.now.camera.width }
    requires bench { room.old.bench ≡ job.now.cut }
    requires space { vec_len room.old.row + 3 ≤ vec_capacity room.old.row }
    requires begun { IsTrue (D.state desk.old).slots.bounds.begun }
    requires samples { summary.old.samples + 256 ≤ 2 ^ 32 }
    requires sizes { summary.old.sizes ≤ 65536 * summary.old.samples }
    ensures made { OnOk result (Made (lines_of (pixel_answers job.now scene.now row col)) (D.state desk.old)
        (D.state desk.new)) }
    ensures broke { IfErr result (λ stop. Broke stop (lines_of (pixel_answers job.now scene.now row col))
        (D.state desk.old) (D.state desk.new)) }
    ensures bytes { OnOk result (room.new.row.items
        ≡ room.old.row.items ++ pixel_bytes job.now.white (estimates (pixel_answers job.now scene.now row col))) }
    ensures len { OnOk result (vec_len room.new.row ≡ vec_len room.old.row + 3) }
    ensures space { OnOk result (vec_capacity room.old.row ≤ vec_capacity room.new.row) }
    ensures bench { OnOk result (room.new.bench ≡ room.old.bench) }
    ensures summary { OnOk result (summary.new ≡ with_more (pixel_answers job.now scene.now row col) summary.old) }
    ensures few { OnOk result (summary.new.samples ≤ summary.old.samples + 256) }
    ensures sizes { OnOk result (summary.new.sizes ≤ 65536 * summary.new.samples) }
    ensures steps { OnOk result (steps.new ≡ steps.old + evals_of (pixel_answers job.now scene.now row col)) }
{
    let sums = render_samples(scene, job, row, col, desk, &mut room.bench, summary, steps)?;
    let count = job.camera.grid * job.camera.grid;
    push_pixel(&mut room.row, sums, count, job.white);
    Ok(())
}
