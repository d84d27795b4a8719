// Single calls on a desk, as a frame sees them.
ghost use Rattle.std.specs.Prelude.{◌≡◌, ◌∷◌, [], OnOk, IfErr};
ghost use Rattle.lc_desk.specs.Calls.{Made};
ghost use Rattle.lc_desk.specs.Calls as call;
ghost use Rattle.lc_desk.specs.Desk.{CanPut};
ghost use Rattle.lc_frame.specs.Stops.{Broke, stop_at};

use crate::stop::FrameStop;
use lc_desk::{Desk, PutStop, Slot};

/// What a refusal on a slot means for a frame.
fn stop_at(slot: Slot, stop: PutStop) -> FrameStop
    ensures { result ≡ stop_at slot stop }
{
    match stop {
        PutStop::Failed => FrameStop::Write(slot),
        PutStop::Memory => FrameStop::Memory,
    }
}

/// Begins a slot under a name.
pub fn begin<D: Desk>(desk: &mut D, slot: Slot, name: &str) -> Result<(), FrameStop>
    ensures made { OnOk result (Made (call.begin slot name.now ∷ []) (D.state desk.old) (D.state desk.new)) }
    ensures open { OnOk result (CanPut (D.state desk.new).slots slot) }
    ensures broke { IfErr result (λ stop. Broke stop (call.begin slot name.now ∷ []) (D.state desk.old)
        (D.state desk.new)) }
{
    match desk.begin(slot, name) {
        Ok(()) => Ok(()),
        Err(stop) => Err(stop_at(slot, stop)),
    }
}

/// Puts a piece on a slot.
pub fn put<D: Desk>(desk: &mut D, slot: Slot, piece: &[u8]) -> Result<(), FrameStop>
    requires { CanPut (D.state desk.old).slots slot }
    ensures made { OnOk result (Made (call.put slot piece.now ∷ []) (D.state desk.old) (D.state desk.new)) }
    ensures broke { IfErr result (λ stop. Broke stop (call.put slot piece.now ∷ []) (D.state desk.old)
        (D.state desk.new)) }
{
    match desk.put(slot, piece) {
        Ok(()) => Ok(()),
        Err(stop) => Err(stop_at(slot, stop)),
    }
}
