// The kinds of fault of a job file.
ghost use Rattle.std.specs.Prelude.{◌≡◌};
ghost use Rattle.lc_job.specs.FaultKinds.{kind_number};

/// The test that a line fails, or the whole file. A keyword that is missing has no kind here.
#[derive(Clone, Copy, Debug, PartialEq, Eq)]
pub enum FaultKind {
    /// The keyword is not known.
    Keyword = 1,
    /// The keyword stood before.
    Repeated = 2,
    /// A name is missing, a field is no such number, or the line has another number of fields than its keyword wants.
    Form = 3,
    /// A number is out of its range.
    Range = 4,
    /// The camera looks along its upward direction, or at its own place.
    NoView = 6,
    /// Two of the four names are equal.
    SameNames = 7,
    /// A name is not UTF-8.
    Utf8 = 8,
}

impl FaultKind {
    pub fn number(self) -> u8
        ensures { result ≡ kind_number self }
    {
        self as u8
    }
}
