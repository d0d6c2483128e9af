//! The numbers that one number is linked to.
ghost use Rattle.std.specs.Prelude.{◌≡◌, IsOk, OnOk, OnErr, List, ℕ, [], ◌∷◌, ◌++◌, ◌≤◌, ◌<◌, ◌+◌};

use std::alloc::{AllocError, Global};
use std::marker::Model;

/// The numbers that one number is linked to, in the order in which they were linked.
#[derive(Drop)]
pub(crate) struct Neighbours {
    numbers: Vec<u32>,
}

impl Model for Neighbours {
    ghost use Rattle.std.specs.Prelude.{List, ℕ};

    ghost Value = { List ℕ };

    ghost view = { λ s. s.numbers.items };
}

impl Neighbours {
    /// Returns an empty list.
    pub(crate) fn new(alloc: Global) -> Neighbours
        ensures { result ≡ [] }
    {
        Neighbours {
            numbers: Vec::new(alloc),
        }
    }

    /// Appends a number. After `AllocError` nothing has changed.
    pub(crate) fn push(&mut self, number: u32) -> Result<(), AllocError>
        ensures ok { OnOk result (self.new ≡ self.old ++ number ∷ []) }
        ensures err { OnErr result (self.new ≡ self.old) }
    {
        self.numbers.push(number)?;
        Ok(())
    }

    /// Removes the last number.
    pub(crate) fn pop(&mut self) -> Option<u32>
        ensures { (ns : List ℕ) (n : ℕ) → self.old ≡ ns ++ n ∷ [] → self.new ≡ ns }
    {
        self.numbers.pop()
    }

    /// Returns the numbers in order.
    pub(crate) fn numbers(&self) -> &[u32]
        ensures { result.now ≡ self.now }
    {
        &self.numbers
    }
}
