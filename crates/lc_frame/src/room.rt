// The memory of a render, all of which is taken before its first call on the desk.
ghost use Rattle.std.specs.Prelude.{◌≡◌, ◌*◌, ◌≤◌, [], IfOk, vec_capacity};
ghost use Rattle.lc_job.specs.Jobs.{IsJob};
ghost use Rattle.lc_tone.specs.Tone.{header_bytes as picture_header};
ghost use Rattle.lc_record.specs.Record.{record_header};
ghost use Rattle.lc_frame.specs.Frames.{header_of};

use lc_cut::Bench;
use lc_job::Job;
use lc_num::{Memory, Text};
use lc_record::{Header, header_text};
use lc_tone::header;
use std::alloc::Global;

/// The headers of both files, room for one row of pixels, and the working memory of a cut.
#[derive(Drop)]
pub struct Room {
    pub picture: Text,
    pub record: Text,
    pub row: Vec<u8>,
    pub bench: Bench,
}

/// The header of the job's record.
pub fn header_of(job: &Job) -> Header
    ensures { result ≡ header_of job.now }
{
    Header {
        width: job.camera.width,
        height: job.camera.height,
        grid: job.camera.grid,
        cut: job.cut,
        permille: job.permille,
        rule: job.rule,
    }
}

/// The header of the job's picture.
pub fn picture_head(alloc: Global, job: &Job) -> Result<Text, Memory>
    ensures { IfOk result (λ head. head ≡ picture_header job.now.camera.width job.now.camera.height) }
{
    let mut head = Text::new(alloc);
    header(job.camera.width, job.camera.height, &mut head)?;
    Ok(head)
}

/// Room for one row of pixels.
pub fn row_room(alloc: Global, job: &Job) -> Result<Vec<u8>, Memory>
    requires { IsJob job.now }
    ensures empty { IfOk result (λ row. row.items ≡ []) }
    ensures space { IfOk result (λ row. 3 * job.now.camera.width ≤ vec_capacity row) }
{
    Ok(Vec::with_capacity(alloc, 3 * job.camera.width as usize)?)
}

impl Room {
    /// The memory for a render of the job.
    pub fn new(alloc: Global, job: &Job) -> Result<Room, Memory>
        requires { IsJob job.now }
        ensures picture { IfOk result (λ room. room.picture
            ≡ picture_header job.now.camera.width job.now.camera.height) }
        ensures record { IfOk result (λ room. room.record ≡ record_header (header_of job.now)) }
        ensures row { IfOk result (λ room. room.row.items ≡ []) }
        ensures space { IfOk result (λ room. 3 * job.now.camera.width ≤ vec_capacity room.row) }
        ensures bench { IfOk result (λ room. room.bench ≡ job.now.cut) }
    {
        let picture = picture_head(alloc, job)?;
        let mut record = Text::new(alloc);
        header_text(&header_of(job), &mut record)?;
        let row = row_room(alloc, job)?;
        let bench = Bench::new(alloc, job.cut)?;
        Ok(Room {
            picture,
            record,
            row,
            bench,
        })
    }
}
