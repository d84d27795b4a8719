// The kinds of fault of a record's text.
ghost use Rattle.std.specs.Prelude.{◌≡◌};
ghost use Rattle.lc_record.specs.Reading.{kind_number};

/// Where a text first differs from the text of every record.
#[derive(Clone, Copy, Debug, PartialEq, Eq)]
pub(crate) enum FaultKind {
    /// The first line is no header.
    Header = 1,
    /// A line that should stand is no line of a sample.
    Line = 2,
    /// The text ends before a line that should stand, or goes on after the last.
    Count = 3,
}

impl FaultKind {
    pub(crate) fn number(self) -> u8
        ensures { result ≡ kind_number self }
    {
        self as u8
    }
}
