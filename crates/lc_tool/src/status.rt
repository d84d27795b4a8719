// How a run ends.
ghost use Rattle.std.specs.Prelude.{◌≡◌};
ghost use Rattle.lc_tool.specs.Status.{write_code};

use lc_frame::FrameStop;

/// A text that can be faulty.
#[derive(Clone, Copy, Debug, PartialEq, Eq)]
pub enum Source {
    Job,
    Scene,
    Library,
    Lights,
    Record,
}

/// Why a run stops before anything is written.
#[derive(Clone, Copy, Debug, PartialEq, Eq)]
pub enum Stop {
    Memory,
    Faulty(Source),
    Absent,
    ReadFault,
    Long,
    /// A recorded bound does not hold.
    Refuted,
}

/// How a run ends.
#[derive(Clone, Copy, Debug, PartialEq, Eq)]
pub enum Status {
    Done,
    Usage,
    Stopped(Stop),
    Unwritten(FrameStop),
}

impl Source {
    ghost use Rattle.lc_tool.specs.Status.{source_code};

    fn code(self) -> u8
        ensures { result ≡ source_code self }
    {
        match self {
            Source::Job => 3,
            Source::Scene => 4,
            Source::Library => 5,
            Source::Lights => 6,
            Source::Record => 12,
        }
    }
}

impl Stop {
    ghost use Rattle.lc_tool.specs.Status.{stop_code};

    fn code(self) -> u8
        ensures { result ≡ stop_code self }
    {
        match self {
            Stop::Memory => 1,
            Stop::Faulty(text) => text.code(),
            Stop::Absent => 7,
            Stop::ReadFault => 8,
            Stop::Long => 10,
            Stop::Refuted => 11,
        }
    }
}

/// The exit status of a begin or a put that was refused.
fn write_code(stop: FrameStop) -> u8
    ensures { result ≡ write_code stop }
{
    match stop {
        FrameStop::Memory => 1,
        FrameStop::Write(_) => 9,
    }
}

impl Status {
    ghost use Rattle.lc_tool.specs.Status.{code};

    /// The exit status.
    pub fn code(self) -> u8
        ensures { result ≡ code self }
    {
        match self {
            Status::Done => 0,
            Status::Usage => 2,
            Status::Stopped(stop) => stop.code(),
            Status::Unwritten(stop) => write_code(stop),
        }
    }
}
