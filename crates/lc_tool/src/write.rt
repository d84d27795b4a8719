// Puts on Report, and the status where a begin or a put is refused.
ghost use Rattle.std.specs.Prelude.{◌≡◌, [], ◌∷◌, OnOk, IfErr};
ghost use Rattle.lc_desk.specs.Calls.{Made};
ghost use Rattle.lc_desk.specs.Calls as call;
ghost use Rattle.lc_desk.specs.declared.desk.Slot.TheVariants.{Report};
ghost use Rattle.lc_frame.specs.Stops.{Broke};
ghost use Rattle.lc_tool.specs.Ends.{write_line};
ghost use Rattle.lc_tool.specs.Noted.{Noted};

use crate::note::{note_memory, note_write_fault};
use crate::status::Status;
use lc_desk::{Desk, PutStop, Slot};
use lc_frame::FrameStop;

/// Puts a line on Report.
pub fn put_report<D: Desk>(desk: &mut D, line: &[u8]) -> Result<(), FrameStop>
    ensures made { OnOk result (Made (call.put Report line.now ∷ []) (D.state desk.old) (D.state desk.new)) }
    ensures broke { IfErr result (λ stop. Broke stop (call.put Report line.now ∷ [])
        (D.state desk.old) (D.state desk.new)) }
{
    match desk.put(Slot::Report, line) {
        Ok(()) => Ok(()),
        Err(PutStop::Failed) => Err(FrameStop::Write(Slot::Report)),
        Err(PutStop::Memory) => Err(FrameStop::Memory),
    }
}

/// The status where a begin or a put was refused, which is told on Note.
pub fn settle<D: Desk>(desk: &mut D, stop: FrameStop) -> Status
    ensures status { result ≡ Status.Unwritten stop }
    ensures noted { Noted (write_line stop) (D.state desk.old) (D.state desk.new) }
    ensures asked { (D.state desk.new).asked ≡ (D.state desk.old).asked }
{
    match stop {
        FrameStop::Write(slot) => note_write_fault(desk, slot),
        FrameStop::Memory => note_memory(desk),
    }
    Status::Unwritten(stop)
}
