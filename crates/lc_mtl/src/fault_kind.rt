// The kinds of fault of a line.
ghost use Rattle.std.specs.Prelude.{◌≡◌};
ghost use Rattle.lc_mtl.specs.FaultKinds.{kind_number};

/// The test that a line fails.
#[derive(Clone, Copy, Debug, PartialEq, Eq)]
pub enum FaultKind {
    /// A field is no number, or a number is missing.
    Number = 1,
    /// A number is below 0.
    Negative = 2,
    /// A colour or an exponent stands before the first material of its text.
    NoMaterial = 3,
    /// A colour is given by no number, by two, by a spectral file or in XYZ.
    Colour = 4,
    /// There are more materials than a scene may have.
    TooMany = 5,
    /// A material has no name.
    Name = 6,
}

impl FaultKind {
    pub fn number(self) -> u8
        ensures { result ≡ kind_number self }
    {
        self as u8
    }
}
