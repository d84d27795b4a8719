// The kinds of fault of a line.
ghost use Rattle.std.specs.Prelude.{◌≡◌};
ghost use Rattle.lc_obj.specs.FaultKinds.{kind_number};

/// The test that a line fails.
#[derive(Clone, Copy, Debug, PartialEq, Eq)]
pub enum FaultKind {
    /// A field is no number, or a number is out of its range, or a corner has none of the four forms.
    Number = 1,
    /// The line has too few fields.
    Words = 2,
    /// An index is 0.
    IndexZero = 3,
    /// An index names no item given so far.
    Index = 4,
    /// A face has fewer than three corners.
    Face = 5,
    /// The line belongs to a free-form curve or surface.
    FreeForm = 6,
    /// There are more places, texture places or normals than a file may have.
    Vertices = 7,
    /// There are more triangles than a file may have.
    Triangles = 8,
    /// The name of a library is not UTF-8.
    Utf8 = 9,
}

impl FaultKind {
    pub fn number(self) -> u8
        ensures { result ≡ kind_number self }
    {
        self as u8
    }
}
