//! Chains, as lists of numbers.
ghost use Rattle.std.specs.Prelude.{◌≡◌, IsOk, OnOk, OnErr, [], ◌∷◌, ◌++◌, ◌≤◌, ◌<◌, ◌+◌};

use std::alloc::{AllocError, Global};
use std::marker::Model;

/// A list of numbers that grows at its end. A contract sees its `items`, and in `spare` the number of further items for
/// which it has room.
#[derive(Drop)]
pub struct Route {
    numbers: Vec<u32>,
}

impl Model for Route {
    ghost use Rattle.std.specs.Prelude.{◌-◌, vec_len, vec_capacity};
    ghost use Rattle.rp_access.specs.Route.{Numbers};

    ghost Value = { Numbers };

    ghost view = { λ s. record { items = s.numbers.items; spare = vec_capacity s.numbers - vec_len s.numbers } };
}

impl Route {
    /// Returns the empty list, which stores the allocator. Takes no memory.
    pub fn new(alloc: Global) -> Route
        ensures { result.items ≡ [] }
    {
        Route {
            numbers: Vec::new(alloc),
        }
    }

    /// Appends a number. After `AllocError` the numbers are as they were. If there is room, the call succeeds and uses
    /// at most one place of it.
    pub fn push(&mut self, number: u32) -> Result<(), AllocError>
        ensures ok { OnOk result (self.new.items ≡ self.old.items ++ number ∷ []) }
        ensures err { OnErr result (self.new.items ≡ self.old.items) }
        ensures room { 0 < self.old.spare → IsOk result }
        ensures spare { OnOk result (self.old.spare ≤ self.new.spare + 1) }
    {
        self.numbers.push(number)?;
        Ok(())
    }

    /// Reserves room for `n` more numbers. The numbers do not change, even after `AllocError`.
    pub fn reserve(&mut self, n: usize) -> Result<(), AllocError>
        ensures items { self.new.items ≡ self.old.items }
        ensures ok { OnOk result (n ≤ self.new.spare) }
    {
        self.numbers.reserve(n)
    }

    /// Returns the numbers in order.
    pub fn items(&self) -> &[u32]
        ensures { result.now ≡ self.now.items }
    {
        &self.numbers
    }
}
