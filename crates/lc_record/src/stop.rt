// Why a record is refused.
use lc_num::Memory;

/// Want of memory, or the first faulty line, counted from 1, and the kind of its fault: 1 the first line is no header,
/// 2 a line is none of a sample, 3 the text ends before this line should stand or goes on after the last.
#[derive(Clone, Copy, Debug, PartialEq, Eq)]
pub enum RecordStop {
    Memory,
    Fault { line: u32, kind: u8 },
}

impl From<Memory> for RecordStop {
    ghost use Rattle.std.specs.Prelude.{◌≡◌};
    ghost use Rattle.lc_record.specs.declared.stop.RecordStop.TheVariants.{Memory};

    ghost from_gives = { λ _ e. e ≡ Memory };

    fn from(_memory: Memory) -> RecordStop {
        RecordStop::Memory
    }
}
