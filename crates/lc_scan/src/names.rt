// Names of files and materials, from the bytes of a text.
ghost use Rattle.std.specs.Prelude.{◌≡◌, ◌↔◌, IfOk, IsSome, IsUtf8};
ghost use Rattle.lc_scan.specs.Names.{name_in};

use bstr::ByteSlice;
use lc_num::{Memory, Name};
use std::alloc::Global;

/// The name of these bytes, and `None` where they are not UTF-8.
pub fn name_of(alloc: Global, bytes: &[u8]) -> Result<Option<Name>, Memory>
    ensures value { IfOk result (λ name. name ≡ name_in bytes.now) }
    ensures utf8 { IfOk result (λ name. IsSome name ↔ IsUtf8 bytes.now) }
{
    match bytes.to_str() {
        Ok(text) => Ok(Some(Name::from_text(alloc, text)?)),
        Err(_) => Ok(None),
    }
}
