// Text in a fixed room, which takes no memory.
ghost use Rattle.std.specs.Prelude.{◌≡◌, ◌++◌, ◌+◌, ◌≤◌, length};
ghost use Rattle.arrayvec.specs.ArrayString.{array_string_len};

use arrayvec::ArrayString;

/// Appends a piece for which there is room.
pub fn append<const N: usize>(text: &mut ArrayString<N>, piece: &str)
    requires { array_string_len text.old + length piece.now ≤ N }
    ensures bytes { text.new.bytes ≡ text.old.bytes ++ piece.now }
    ensures len { array_string_len text.new ≡ array_string_len text.old + length piece.now }
{
    let _ = text.try_push_str(piece);
}
