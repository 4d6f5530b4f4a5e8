//! The slots of a desk, one for each page.
ghost use Rattle.std.specs.Prelude.{◌≡◌, OnSome, IfNone};
ghost use Rattle.commit_desk.specs.Slots.{is_finished, piece_in};
ghost use Rattle.commit_desk.specs.declared.slot.Slot.TheVariants.{Emptied};

use std::mem;

/// What a desk has of one page.
#[derive(Drop)]
pub enum Slot<C> {
    /// The page isn't finished.
    Vacant,
    /// The page's piece lies here.
    Filled(C),
    /// The page's piece was taken.
    Emptied,
}

impl<C: Drop> Slot<C> {
    /// Whether a piece was laid here, still there or not.
    pub fn is_finished(&self) -> bool
        ensures { result ≡ is_finished self.now }
    {
        !matches!(self, Slot::Vacant)
    }

    /// Takes the piece that lies here.
    pub fn take(&mut self) -> Option<C>
        ensures answer { result ≡ piece_in self.old }
        ensures some { OnSome result (self.new ≡ Emptied) }
        ensures none { IfNone result (self.new ≡ self.old) }
    {
        if !matches!(self, Slot::Filled(_)) {
            return None;
        }
        match mem::replace(self, Slot::Emptied) {
            Slot::Filled(piece) => Some(piece),
            _ => unreachable!(),
        }
    }
}
