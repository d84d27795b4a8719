// Why an OBJ file is refused.
use crate::fault_kind::FaultKind;
use lc_num::Memory;

/// Want of memory, or the first faulty line and the kind of the first test that it fails.
#[derive(Clone, Copy, Debug, PartialEq, Eq)]
pub enum ObjStop {
    Memory,
    Fault { line: u32, kind: u8 },
}

/// Want of memory, or the first test that a line fails.
#[derive(Clone, Copy, Debug, PartialEq, Eq)]
pub enum LineStop {
    Memory,
    Fault(FaultKind),
}

impl From<Memory> for LineStop {
    ghost use Rattle.std.specs.Prelude.{◌≡◌};
    ghost use Rattle.lc_obj.specs.declared.stop.LineStop.TheVariants.{Memory};

    ghost from_gives = { λ _ e. e ≡ Memory };

    fn from(_memory: Memory) -> LineStop {
        LineStop::Memory
    }
}

impl From<FaultKind> for LineStop {
    ghost use Rattle.std.specs.Prelude.{◌≡◌};
    ghost use Rattle.lc_obj.specs.declared.stop.LineStop.TheVariants.{Fault};

    ghost from_gives = { λ kind e. e ≡ Fault kind };

    fn from(kind: FaultKind) -> LineStop {
        LineStop::Fault(kind)
    }
}
