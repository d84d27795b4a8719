// Why a job file is refused.
ghost use Rattle.std.specs.Prelude.{◌≡◌};
ghost use Rattle.lc_job.specs.Stops.{stop_at};

use crate::fault_kind::FaultKind;
use crate::key::Key;
use lc_num::Memory;

/// Want of memory; the first faulty line and the kind of the first test that it fails, with line 0 for a test of the
/// whole file; or, where no line is faulty, the first keyword that is missing.
#[derive(Clone, Copy, Debug, PartialEq, Eq)]
pub enum JobStop {
    Memory,
    Fault { line: u32, kind: u8 },
    Missing { key: Key },
}

impl From<Memory> for JobStop {
    ghost use Rattle.std.specs.Prelude.{◌≡◌};
    ghost use Rattle.lc_job.specs.declared.stop.JobStop.TheVariants.{Memory};

    ghost from_gives = { λ _ e. e ≡ Memory };

    fn from(_memory: Memory) -> JobStop {
        JobStop::Memory
    }
}

/// Why a line is refused.
#[derive(Clone, Copy)]
pub enum LineStop {
    Memory,
    Fault(FaultKind),
}

impl LineStop {
    /// The same of a line of this number.
    pub fn at(self, line: u32) -> JobStop
        ensures { result ≡ stop_at line self }
    {
        match self {
            LineStop::Memory => JobStop::Memory,
            LineStop::Fault(kind) => JobStop::Fault {
                line,
                kind: kind.number(),
            },
        }
    }
}

impl From<Memory> for LineStop {
    ghost use Rattle.std.specs.Prelude.{◌≡◌};
    ghost use Rattle.lc_job.specs.declared.stop.LineStop.TheVariants.{Memory};

    ghost from_gives = { λ _ e. e ≡ Memory };

    fn from(_memory: Memory) -> LineStop {
        LineStop::Memory
    }
}

impl From<FaultKind> for LineStop {
    ghost use Rattle.std.specs.Prelude.{◌≡◌};
    ghost use Rattle.lc_job.specs.declared.stop.LineStop.TheVariants.{Fault};

    ghost from_gives = { λ kind e. e ≡ Fault kind };

    fn from(kind: FaultKind) -> LineStop {
        LineStop::Fault(kind)
    }
}
