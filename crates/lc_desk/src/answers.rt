// What the answers of the system's calls tell the desk.
ghost use Rattle.std.specs.Prelude.{◌≡◌, MatchResult, Err};
ghost use Rattle.std.specs.IoError.{error_kind};
ghost use Rattle.lc_desk.specs.System.{NoSignal, StopsOpen, StopsPut, TellsLength, TellsPut, TellsRead};

use crate::{PutStop, ReadStop};
use std::fs::Metadata;
use std::io;
use std::io::ErrorKind;

// Why a file that was to be read was not opened.
pub(crate) fn open_stop(error: &io::Error) -> ReadStop
    ensures { StopsOpen error.now result }
{
    match error.kind() {
        ErrorKind::NotFound => ReadStop::Absent,
        _ => ReadStop::Failed,
    }
}

// The room to take for the bytes of an open file, or why it is not read.
pub(crate) fn room_for(found: io::Result<Metadata>, limit: u64) -> Result<u64, ReadStop>
    ensures { MatchResult found (λ file. TellsLength limit file result) (λ _. result ≡ Err ReadStop.Failed) }
{
    let Ok(found) = found else {
        return Err(ReadStop::Failed);
    };
    if !found.is_file() {
        return Ok(0);
    }
    if found.len() > limit {
        return Err(ReadStop::Long);
    }
    Ok(found.len())
}

// How many bytes a read gave.
pub(crate) fn bytes_read(answer: io::Result<usize>) -> Result<usize, ReadStop>
    requires { NoSignal answer }
    ensures { TellsRead answer result }
{
    match answer {
        Ok(count) => Ok(count),
        Err(_) => Err(ReadStop::Failed),
    }
}

// Why a slot was not begun, or did not take a piece.
pub(crate) fn put_stop(error: &io::Error) -> PutStop
    ensures { StopsPut error.now result }
{
    match error.kind() {
        ErrorKind::OutOfMemory => PutStop::Memory,
        _ => PutStop::Failed,
    }
}

// How many bytes a write took.
pub(crate) fn bytes_written(answer: io::Result<usize>) -> Result<usize, PutStop>
    requires { NoSignal answer }
    ensures { TellsPut answer result }
{
    match answer {
        Ok(0) => Err(PutStop::Failed),
        Ok(count) => Ok(count),
        Err(error) => Err(put_stop(&error)),
    }
}
