// Why a light file is refused.
use lc_num::Memory;

/// Want of memory, or the first faulty line and the kind of the first test that it fails.
#[derive(Clone, Copy, Debug, PartialEq, Eq)]
pub enum LightStop {
    Memory,
    Fault { line: u32, kind: u8 },
}

impl From<Memory> for LightStop {
    ghost use Rattle.std.specs.Prelude.{◌≡◌};
    ghost use Rattle.lc_light.specs.declared.stop.LightStop.TheVariants.{Memory};

    ghost from_gives = { λ _ e. e ≡ Memory };

    fn from(_memory: Memory) -> LightStop {
        LightStop::Memory
    }
}
