// The header of a picture's file.
ghost use Rattle.std.specs.Prelude.{◌≡◌, ◌++◌, OnOk, OnErr};
ghost use Rattle.lc_tone.specs.Tone.{header_bytes};

use arrayvec::ArrayString;
use itoa::Buffer;
use lc_num::{Memory, Text};

// Two numbers of at most ten digits, and nine bytes beside them.
const ROOM: usize = 29;

/// Appends the header of a binary PPM picture (Netpbm's `P6`) of so many columns and rows (1 to 4096 each), whose
/// greatest byte is 255. On `Memory` the text stays as it was.
#[tactic(auto, unfolding(crate::specs::Tone::header_bytes))]
pub fn header(width: u32, height: u32, into: &mut Text) -> Result<(), Memory>
    ensures ok { OnOk result (into.new ≡ into.old ++ header_bytes width height) }
    ensures memory { OnErr result (into.new ≡ into.old) }
{
    let mut digits = Buffer::new();
    let mut text = ArrayString::<ROOM>::new();
    text.push_str("P6\n");
    text.push_str(digits.format(width));
    text.push_str(" ");
    text.push_str(digits.format(height));
    text.push_str("\n255\n");
    into.append(text.as_str().as_bytes())
}
