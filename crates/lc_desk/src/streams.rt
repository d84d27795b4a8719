// Whole reads and writes over the single ones of std.
ghost use Rattle.std.specs.Prelude.{◌≡◌, ◌≢◌, ◌≤◌, ◌<◌, ◌++◌, ◌+◌, ℕ, length, take, OnOk, OnErr, IsErrOf, IfOk, IfSome};
ghost use Rattle.std.specs.Io.{ReadsAtMost, WritesAtMost};
ghost use Rattle.std.specs.Io.KnownBytes.{Appends, Consumes, IsAtEnd, Keeps};
ghost use Rattle.lc_desk.specs.System.{NoSignal};

use crate::answers::{bytes_read, bytes_written};
use crate::{PutStop, ReadStop};
use std::io;
use std::io::{ErrorKind, Read, Write};

// How many bytes one read asks for.
const CHUNK: usize = 65536;

// One read, tried again while a signal interrupts it.
fn read_some<F: Read>(file: &mut F, buffer: &mut [u8]) -> io::Result<usize>
    ensures bound { ReadsAtMost result buffer.new }
    ensures consumed { IfOk result (λ n. Consumes (F.remaining file.old) (F.remaining file.new) (take n buffer.new)) }
    ensures end { IfOk result (λ n. n ≡ 0 → 0 < length buffer.old → IsAtEnd (F.remaining file.new)) }
    ensures kept { OnErr result (Keeps (F.remaining file.old) (F.remaining file.new)) }
    ensures retried { NoSignal result }
{
    for _ in 0..u64::MAX {
        match file.read(buffer) {
            Err(error) if error.kind() == ErrorKind::Interrupted => {}
            answer => return answer,
        }
    }
    Err(io::Error::from(ErrorKind::TimedOut))
}

// One write, tried again while a signal interrupts it.
fn write_some<W: Write>(to: &mut W, piece: &[u8]) -> io::Result<usize>
    ensures bound { WritesAtMost result piece.now }
    ensures appended { IfOk result (λ n. Appends (W.contents to.old) (W.contents to.new) (take n piece.now)) }
    ensures kept { OnErr result (Keeps (W.contents to.old) (W.contents to.new)) }
    ensures retried { NoSignal result }
{
    for _ in 0..u64::MAX {
        match to.write(piece) {
            Err(error) if error.kind() == ErrorKind::Interrupted => {}
            answer => return answer,
        }
    }
    Err(io::Error::from(ErrorKind::TimedOut))
}

// Appends what is left of a file, if that is at most `limit` bytes with those that are there.
pub(crate) fn read_within<F: Read>(
    file: &mut F,
    limit: u64,
    into: &mut Vec<u8>,
) -> Result<(), ReadStop>
    requires { length into.old.items ≤ limit }
    ensures within { OnOk result (length into.new.items ≤ limit) }
    ensures bytes { OnOk result (IfSome (F.remaining file.old) (λ left. into.new.items ≡ into.old.items ++ left)) }
    ensures long { IsErrOf result ReadStop.Long
        → IfSome (F.remaining file.old) (λ left. limit < length into.old.items + length left) }
    ensures present { IsErrOf result ReadStop.Absent → ⊥ }
{
    let mut buffer = [0u8; CHUNK];
    loop {
        let count = bytes_read(read_some(file, &mut buffer))?;
        if count == 0 {
            return Ok(());
        }
        if count as u64 > limit - into.len() as u64 {
            return Err(ReadStop::Long);
        }
        if into.extend_from_slice(&buffer[..count]).is_err() {
            return Err(ReadStop::Memory);
        }
    }
}

// One write for a put. A refused one took nothing.
fn put_some<W: Write>(to: &mut W, piece: &[u8]) -> Result<usize, PutStop>
    ensures bound { WritesAtMost result piece.now }
    ensures some { IfOk result (λ n. 0 < n) }
    ensures appended { IfOk result (λ n. Appends (W.contents to.old) (W.contents to.new) (take n piece.now)) }
    ensures kept { OnErr result (Keeps (W.contents to.old) (W.contents to.new)) }
{
    bytes_written(write_some(to, piece))
}

// Writes all of a piece.
pub(crate) fn write_piece<W: Write>(to: &mut W, piece: &[u8]) -> Result<(), PutStop>
    ensures ok { OnOk result (Appends (W.contents to.old) (W.contents to.new) piece.now) }
    ensures part { OnErr result ((count : ℕ) × Appends (W.contents to.old) (W.contents to.new) (take count piece.now)) }
{
    let mut rest = piece;
    while !rest.is_empty() {
        match put_some(to, rest) {
            Ok(count) => rest = &rest[count..],
            Err(stop) => return Err(stop),
        }
    }
    Ok(())
}
