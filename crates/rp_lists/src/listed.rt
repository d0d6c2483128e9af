//! Lists that grow. A contract sees their room.
ghost use Rattle.std.specs.Prelude.{◌≡◌, IfOk, IsOk, OnOk, OnErr, [], ◌∷◌, ◌++◌, ◌≤◌, ◌<◌, ◌+◌, length};

use crate::name::Name;
use std::alloc::{AllocError, Global};
use std::marker::Model;

/// A list that grows at its end. A contract sees its `items`, and in `spare` the number of further items for which it
/// has room.
#[derive(Debug, Drop)]
pub struct Listed<T> {
    items: Vec<T>,
}

impl<T> Model for Listed<T> {
    ghost use Rattle.std.specs.Prelude.{◌-◌, vec_len, vec_capacity};
    ghost use Rattle.rp_lists.specs.Listed.{Listed};

    ghost Value = { Listed T };

    ghost view = { λ a. record { items = a.items.items; spare = vec_capacity a.items - vec_len a.items } };
}

impl<T: Drop> Listed<T> {
    /// Returns the empty list, which stores the allocator. Takes no memory.
    pub fn new(alloc: Global) -> Listed<T>
        ensures { result.items ≡ [] }
    {
        Listed {
            items: Vec::new(alloc),
        }
    }

    /// Appends an item. After `AllocError` the items are as they were. If there is room, the call succeeds and uses at
    /// most one place of it. Each of the first two items takes memory for itself alone, since most lists have no more.
    pub fn push(&mut self, x: T) -> Result<(), AllocError>
        ensures ok { OnOk result (self.new.items ≡ self.old.items ++ x ∷ []) }
        ensures err { OnErr result (self.new.items ≡ self.old.items) }
        ensures room { 0 < self.old.spare → IsOk result }
        ensures spare { OnOk result (self.old.spare ≤ self.new.spare + 1) }
    {
        if self.items.capacity() < 2 {
            self.items.reserve_exact(1)?;
        }
        self.items.push(x)?;
        Ok(())
    }

    /// Appends all items of `other` in order; they are moved. After `AllocError` the items are as they were. If there
    /// is room for all of them, the call succeeds and uses at most as many places of it.
    pub fn append(&mut self, other: Listed<T>) -> Result<(), AllocError>
        ensures ok { OnOk result (self.new.items ≡ self.old.items ++ other.items) }
        ensures err { OnErr result (self.new.items ≡ self.old.items) }
        ensures room { length other.items ≤ self.old.spare → IsOk result }
        ensures spare { OnOk result (self.old.spare ≤ self.new.spare + length other.items) }
    {
        let mut items = other.into_items();
        self.items.append(&mut items)
    }

    /// Reserves room for `n` more items. The items and the room that there was stay, even after `AllocError`.
    pub fn reserve(&mut self, n: usize) -> Result<(), AllocError>
        ensures items { self.new.items ≡ self.old.items }
        ensures ok { OnOk result (n ≤ self.new.spare) }
        ensures spare { self.old.spare ≤ self.new.spare }
    {
        self.items.reserve(n)
    }

    /// Returns the items in order.
    pub fn items(&self) -> &[T]
        ensures { result.now ≡ self.now.items }
    {
        &self.items
    }

    /// Returns the items in order. Takes no memory.
    pub fn into_items(self) -> Vec<T>
        ensures { result.items ≡ self.items }
    {
        self.items
    }
}

impl<T: Copy + Drop> Listed<T> {
    /// Returns the list of `items`.
    ///
    /// # Errors
    ///
    /// `AllocError` for want of memory.
    pub fn copy_of(alloc: Global, items: &[T]) -> Result<Listed<T>, AllocError>
        ensures { IfOk result (λ list. list.items ≡ items.now) }
    {
        let items = Vec::from_slice(alloc, items)?;
        Ok(Listed { items })
    }
}

/// A list of names.
pub type Names = Listed<Name>;

/// A list of numbers.
pub type Numbers = Listed<u32>;
