//! The lines of a history.
ghost use Rattle.std.specs.Prelude.{◌≡◌};
ghost use Rattle.rp_model.specs.states.State.{is_alive_after};
ghost use Rattle.rp_history.specs.Lots.{lot_of};

use rp_lists::{Name, Names};

/// An entry of the history of a lot: its layer, the lines of its birth and of its end, and the lots from which it was
/// made.
#[derive(Drop)]
pub struct LotLine {
    pub id: Name,
    pub layer: Name,
    pub born: u32,
    pub ended: Option<u32>,
    pub origins: Names,
}

impl LotLine {
    /// Returns whether the lot was born at `line` or before, and was not ended at `line` or before.
    pub fn is_alive_after(&self, line: u32) -> bool
        ensures { result ≡ is_alive_after line (lot_of self.now) }
    {
        self.born <= line
            && match self.ended {
                Some(end) => line < end,
                None => true,
            }
    }
}

/// A lot to be born: its id, its layer and the lots from which it is made.
#[derive(Drop)]
pub struct Birth {
    pub id: Name,
    pub layer: Name,
    pub origins: Names,
}
