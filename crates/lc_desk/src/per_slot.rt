// One value for each slot.
ghost use Rattle.std.specs.Prelude.{◌≡◌};
ghost use Rattle.std.specs.Borrow.{sem};
ghost use Rattle.lc_desk.specs.Slots.{slot_at};
ghost use Rattle.lc_desk.specs.SlotLends.{LendsSlot};

use crate::Slot;

#[derive(Drop)]
pub(crate) struct PerSlot<T> {
    pub(crate) picture: T,
    pub(crate) bounds: T,
    pub(crate) report: T,
    pub(crate) note: T,
}

impl<T> PerSlot<T> {
    pub(crate) fn at(&self, slot: Slot) -> &T
        ensures { result.now ≡ slot_at self.now slot }
    {
        match slot {
            Slot::Picture => &self.picture,
            Slot::Bounds => &self.bounds,
            Slot::Report => &self.report,
            Slot::Note => &self.note,
        }
    }

    pub(crate) fn at_mut(&mut self, slot: Slot) -> &mut T
        ensures* writes_back { sem 𝓛 (LendsSlot T.row self.entry slot result) }
        ensures value { result.now ≡ slot_at self.old slot }
    {
        match slot {
            Slot::Picture => &mut self.picture,
            Slot::Bounds => &mut self.bounds,
            Slot::Report => &mut self.report,
            Slot::Note => &mut self.note,
        }
    }
}
