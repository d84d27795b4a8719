// A map of a record, row by row, over a desk.
ghost use Rattle.std.specs.Prelude.{◌≡◌, ◌+◌, ◌*◌, ◌≤◌, ◌<◌, [], ◌++◌, All, OnOk, IfOk, IfErr, IsTrue, length, vec_capacity, vec_len};
ghost use Rattle.lc_desk.specs.Calls.{Made};
ghost use Rattle.lc_frame.specs.Stops.{Broke, StoppedIn};
ghost use Rattle.lc_record.specs.Record.{IsHeader, IsSample};
ghost use Rattle.lc_tone.specs.Tone.{header_bytes};
ghost use Rattle.lc_tool.specs.Audited.{IsRecord};
ghost use Rattle.lc_map.specs.Map.{grey, per_pixel, row_bytes, samples_at};
ghost use Rattle.lc_map.specs.Outcome.{map_calls, rows_put};

use crate::kind::Kind;
use crate::pixel::byte_of;
use lc_desk::{Desk, Slot};
use lc_frame::{FrameStop, put, start};
use lc_num::{Memory, Text};
use lc_rated::Answer;
use lc_record::{Header, Record};
use lc_tone::header;
use std::alloc::Global;

/// The samples of a pixel.
fn samples_at(kept: &Record, row: u32, col: u32) -> &[Answer]
    requires kept { IsRecord kept.now }
    requires row { row < kept.now.header.height }
    requires col { col < kept.now.header.width }
    ensures value { result.now ≡ samples_at kept.now row col }
    ensures count { length result.now ≡ per_pixel kept.now.header }
    ensures valid { All (IsSample kept.now.header.cut) result.now }
{
    let each = kept.header.grid as usize * kept.header.grid as usize;
    let pixel = row as usize * kept.header.width as usize + col as usize;
    &kept.lines.as_slice()[pixel * each..(pixel + 1) * each]
}

/// Adds a grey pixel to a row that has room for it.
fn push_grey(row: &mut Vec<u8>, byte: u8)
    requires { vec_len row.old + 3 ≤ vec_capacity row.old }
    ensures items { row.new.items ≡ row.old.items ++ grey byte }
    ensures len { vec_len row.new ≡ vec_len row.old + 3 }
    ensures room { vec_capacity row.old ≤ vec_capacity row.new }
{
    let _ = row.push(byte);
    let _ = row.push(byte);
    let _ = row.push(byte);
}

/// Makes a row of pixels, in a vector that has room for it.
fn map_row(kind: Kind, kept: &Record, row: u32, bytes: &mut Vec<u8>)
    requires kept { IsRecord kept.now }
    requires row { row < kept.now.header.height }
    requires space { 3 * kept.now.header.width ≤ vec_capacity bytes.old }
    ensures bytes { bytes.new.items ≡ row_bytes kind kept.now row }
    ensures space { vec_capacity bytes.old ≤ vec_capacity bytes.new }
{
    bytes.clear();
    for col in 0..kept.header.width {
        let byte = byte_of(kind, &kept.header, samples_at(kept, row, col));
        push_grey(bytes, byte);
    }
}

/// Puts all rows of pixels.
fn map_all<D: Desk>(
    kind: Kind,
    kept: &Record,
    desk: &mut D,
    bytes: &mut Vec<u8>,
) -> Result<(), FrameStop>
    requires kept { IsRecord kept.now }
    requires space { 3 * kept.now.header.width ≤ vec_capacity bytes.old }
    requires begun { IsTrue (D.state desk.old).slots.picture.begun }
    ensures made { OnOk result (Made (rows_put kind kept.now) (D.state desk.old) (D.state desk.new)) }
    ensures broke { IfErr result (λ stop. Broke stop (rows_put kind kept.now) (D.state desk.old) (D.state desk.new)) }
{
    for row in 0..kept.header.height {
        map_row(kind, kept, row, bytes);
        put(desk, Slot::Picture, bytes)?;
    }
    Ok(())
}

/// The header of the picture.
fn picture_head(alloc: Global, of: &Header) -> Result<Text, Memory>
    ensures { IfOk result (λ head. head ≡ header_bytes of.now.width of.now.height) }
{
    let mut head = Text::new(alloc);
    header(of.width, of.height, &mut head)?;
    Ok(head)
}

/// Room for one row of pixels.
fn row_room(alloc: Global, of: &Header) -> Result<Vec<u8>, Memory>
    requires { IsHeader of.now }
    ensures { IfOk result (λ row. 3 * of.now.width ≤ vec_capacity row) }
{
    Ok(Vec::with_capacity(alloc, 3 * of.width as usize)?)
}

/// Writes the picture that maps a record: it is begun with its header, and its rows of pixels are put one by one. All
/// memory is taken before the begin.
pub(crate) fn map_rows<D: Desk>(
    alloc: Global,
    name: &str,
    kind: Kind,
    kept: &Record,
    desk: &mut D,
) -> Result<(), FrameStop>
    requires { IsRecord kept.now }
    ensures made { OnOk result (Made (map_calls name.now kind kept.now) (D.state desk.old) (D.state desk.new)) }
    ensures stopped { IfErr result (λ stop.
        StoppedIn stop (map_calls name.now kind kept.now) (D.state desk.old) (D.state desk.new)) }
{
    let head = picture_head(alloc, &kept.header)?;
    let mut bytes = row_room(alloc, &kept.header)?;
    start(desk, Slot::Picture, name, head.as_slice())?;
    map_all(kind, kept, desk, &mut bytes)
}
