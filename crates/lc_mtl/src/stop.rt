// Why a material library is refused.
use lc_num::Memory;

/// Want of memory, or the first faulty line and the kind of the first test that it fails.
#[derive(Clone, Copy, Debug, PartialEq, Eq)]
pub enum MtlStop {
    Memory,
    Fault { line: u32, kind: u8 },
}

impl From<Memory> for MtlStop {
    ghost use Rattle.std.specs.Prelude.{◌≡◌};
    ghost use Rattle.lc_mtl.specs.declared.stop.MtlStop.TheVariants.{Memory};

    ghost from_gives = { λ _ e. e ≡ Memory };

    fn from(_memory: Memory) -> MtlStop {
        MtlStop::Memory
    }
}
