// Bytes that grow, seen by contracts as a list.
ghost use Rattle.std.specs.Prelude.{◌≡◌, [], ◌++◌, OnOk, OnErr, length};

use crate::memory::Memory;
use std::alloc::Global;
use std::marker::Model;

/// Bytes that grow at their end, as the text of a file that is written.
#[derive(Debug, Drop)]
pub struct Text {
    held: Vec<u8>,
}

impl Model for Text {
    ghost use Rattle.std.specs.Prelude.{List as Items, ℕ};

    ghost Value = { Items ℕ };

    ghost view = { λ t. t.held.items };
}

impl Text {
    /// No bytes. It takes no memory before the first `append`.
    pub fn new(alloc: Global) -> Text
        ensures { result ≡ [] }
    {
        Text {
            held: Vec::new(alloc),
        }
    }

    /// Puts bytes at the end. On `Memory` the text stays as it was.
    pub fn append(&mut self, piece: &[u8]) -> Result<(), Memory>
        ensures ok { OnOk result (self.new ≡ self.old ++ piece.now) }
        ensures memory { OnErr result (self.new ≡ self.old) }
    {
        self.held.extend_from_slice(piece)?;
        Ok(())
    }

    /// The number of bytes.
    pub fn len(&self) -> usize
        ensures { result ≡ length self.now }
    {
        self.held.len()
    }

    /// The bytes, in order.
    pub fn as_slice(&self) -> &[u8]
        ensures { result.now ≡ self.now }
    {
        self.held.as_slice()
    }
}
