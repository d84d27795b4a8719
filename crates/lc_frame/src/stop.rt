// Why a frame stops.
use lc_desk::Slot;
use lc_num::Memory;

/// Why a picture was not written whole, or its record.
#[derive(Clone, Copy, Debug, PartialEq, Eq)]
pub enum FrameStop {
    /// A begin or a put of this slot was refused: Picture or Bounds.
    Write(Slot),
    /// There was no memory.
    Memory,
}

impl From<Memory> for FrameStop {
    ghost use Rattle.std.specs.Prelude.{◌≡◌};
    ghost use Rattle.lc_frame.specs.declared.stop.FrameStop.TheVariants.{Memory};

    ghost from_gives = { λ _ e. e ≡ Memory };

    fn from(_memory: Memory) -> FrameStop {
        FrameStop::Memory
    }
}
