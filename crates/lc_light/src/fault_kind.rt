// The kinds of fault of a line.
ghost use Rattle.std.specs.Prelude.{◌≡◌};
ghost use Rattle.lc_light.specs.FaultKinds.{kind_number};

/// The test that a line fails.
#[derive(Clone, Copy, Debug, PartialEq, Eq)]
pub enum FaultKind {
    /// The keyword is not known.
    Keyword = 1,
    /// A field is no number.
    Number = 2,
    /// The line has another number of fields than its keyword wants.
    FieldCount = 3,
    /// A number or a corner of an area light is out of its range.
    Range = 4,
    /// An intensity is below 0.
    Negative = 5,
    /// The direction of a sun is zero.
    NoDirection = 6,
    /// The sides of an area light have one direction, or one is zero.
    NoArea = 7,
    /// The number of samples of an area light is out of its range.
    SampleCount = 8,
    /// There are more lights than a file may have.
    TooMany = 9,
}

impl FaultKind {
    pub fn number(self) -> u8
        ensures { result ≡ kind_number self }
    {
        self as u8
    }
}
