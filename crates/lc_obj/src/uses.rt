// Names, each once.
ghost use Rattle.std.specs.Prelude.{◌≡◌, ◌≤◌, [], not, length, IfOk, OnOk};
ghost use Rattle.std.specs.List.{list_any, position_or_len};
ghost use Rattle.std.specs.Str.{bytes_eq};
ghost use Rattle.indexmap.specs.IndexSet.{insert_key};

use indexmap::IndexSet;
use lc_num::Memory;
use std::alloc::Global;
use std::marker::Model;

/// The names that a text has used so far, each once, in the order of first use.
#[derive(Drop)]
pub struct Uses<'a> {
    set: IndexSet<&'a [u8]>,
}

impl<'a> Model for Uses<'a> {
    ghost use Rattle.std.specs.Prelude.{List, ℕ, map};

    ghost Value = { List (List ℕ) };

    ghost view = { λ s. map (λ name. name.now) s.set.keys };
}

impl<'a> Uses<'a> {
    pub fn new(alloc: Global) -> Uses<'a>
        ensures { result ≡ [] }
    {
        Uses {
            set: IndexSet::new(alloc),
        }
    }

    /// Adds a name, unless it was used before: its place, and whether it is new.
    pub fn insert(&mut self, name: &'a [u8]) -> Result<(usize, bool), Memory>
        ensures uses { OnOk result (self.new ≡ insert_key bytes_eq self.old name.now) }
        ensures place { IfOk result (λ r. r.0 ≡ position_or_len (bytes_eq name.now) self.new) }
        ensures within { IfOk result (λ r. r.0 ≤ length self.old) }
        ensures is_new { IfOk result (λ r. r.1 ≡ not (list_any (bytes_eq name.now) self.old)) }
    {
        let added = self.set.insert_full(name)?;
        Ok(added)
    }
}
