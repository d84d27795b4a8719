// What a desk was asked, which only contracts read.
ghost use Rattle.std.specs.Prelude.{◌≡◌, ◌++◌, ◌∷◌, ℕ, [], List};
ghost use Rattle.std.specs.Borrow.{ftrue};
ghost use Rattle.lc_desk.specs.declared.desk.Slot.{Slot as SlotValue};

use crate::Slot;
use std::marker::Model;

// The names of the reads, and the slots and names of the begins, each in order. It takes no bytes, so that a desk
// never wants memory for it. A body cannot write what it tells, so each function here is proved by hand.
#[derive(Drop)]
pub(crate) struct Log {
    pub ghost asked: { List (List ℕ) },
    pub ghost begins: { List (SlotValue × List ℕ) },
}

impl Model for Log {
    ghost also_owns = { λ _. ftrue };
}

impl Log {
    pub(crate) fn new() -> Log
        ensures { result ≡ record { asked = []; begins = [] } }
    {
        Log {}
    }

    // One more read of this name.
    pub(crate) fn read(&mut self, _name: &str)
        ensures { self.new ≡ record self.old { asked = self.old.asked ++ _name.now ∷ [] } }
    {}

    // One more begin of this slot, under this name.
    pub(crate) fn begin(&mut self, _slot: &Slot, _name: &str)
        ensures { self.new ≡ record self.old { begins = self.old.begins ++ (_slot.now, _name.now) ∷ [] } }
    {}
}
