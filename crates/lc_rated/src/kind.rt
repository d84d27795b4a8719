// The kinds of light, each with a tree of its own.
ghost use Rattle.std.specs.Prelude.{◌≡◌};
ghost use Rattle.lc_rated.specs.declared.kind.LightKind.{LightKind};
ghost use Rattle.lc_rated.specs.LitTrees.{kind_number};

/// A kind of light. The order of the kinds is that of the variants.
#[derive(Clone, Copy, Debug, PartialEq, Eq)]
pub enum LightKind {
    /// Shines alike in all directions.
    Omni,
    /// Shines about a normal, as a sample of an area light.
    Oriented,
    /// Shines from one direction.
    Sun,
}

/// The number of a kind in the order of the kinds.
pub(crate) fn number_of(kind: LightKind) -> u8
    ensures { result ≡ kind_number kind }
{
    match kind {
        LightKind::Omni => 0,
        LightKind::Oriented => 1,
        LightKind::Sun => 2,
    }
}

/// The kind of a number.
pub(crate) fn kind_of(number: u8) -> LightKind
    ensures { (kind : LightKind) → number ≡ kind_number kind → result ≡ kind }
{
    match number {
        0 => LightKind::Omni,
        1 => LightKind::Oriented,
        _ => LightKind::Sun,
    }
}
