// Numbers and places at the end of a text. On `Memory` the text may end in a part of what was to be appended: it is
// given up then, so no clause speaks of it.
ghost use Rattle.std.specs.Prelude.{◌≡◌, ◌++◌, OnOk};
ghost use Rattle.lc_make.specs.Made.{place_bytes};

use itoa::{Buffer, Integer};
use lc_num::{Memory, Text};

/// A place in whole units.
#[derive(Clone, Copy)]
pub(crate) struct Place {
    pub(crate) x: i32,
    pub(crate) y: i32,
    pub(crate) z: i32,
}

/// Appends a number.
pub(crate) fn push_number<I: Integer>(into: &mut Text, number: I) -> Result<(), Memory>
    ensures ok { OnOk result (into.new ≡ into.old ++ I.text number) }
{
    into.append(Buffer::new().format(number).as_bytes())
}

/// Appends the coordinates of a place, with blanks between them.
#[tactic(auto, unfolding(crate::specs::Made::place_bytes))]
pub(crate) fn push_place(into: &mut Text, place: Place) -> Result<(), Memory>
    ensures ok { OnOk result (into.new ≡ into.old ++ place_bytes place.x place.y place.z) }
{
    push_number(into, place.x)?;
    into.append(b" ")?;
    push_number(into, place.y)?;
    into.append(b" ")?;
    push_number(into, place.z)
}
