//! Lists with a fixed room.
ghost use Rattle.std.specs.Prelude.{◌≡◌, [], ◌∷◌, ◌++◌, length, ◌<◌, ◌≤◌};

use crate::copied::Copied;
use arrayvec::ArrayVec;
use std::marker::Model;

/// A list of at most `N` items, which takes no memory. A contract sees the list of its items.
#[derive(Debug, Drop)]
pub struct Short<T, const N: usize> {
    items: ArrayVec<T, N>,
}

impl<T, const N: usize> Model for Short<T, N> {
    ghost use Rattle.std.specs.Prelude.{List};

    ghost Value = { List T };

    ghost view = { λ a. a.items.items };
}

impl<T: Default, const N: usize> Default for Short<T, N> {
    /// Returns the empty list.
    fn default() -> Short<T, N> {
        Short::new()
    }
}

impl<T: Default, const N: usize> Short<T, N> {
    /// Returns the empty list.
    pub fn new() -> Short<T, N>
        ensures { result ≡ [] }
    {
        Short {
            items: ArrayVec::new(),
        }
    }
}

impl<T: Drop, const N: usize> Short<T, N> {
    /// Appends an item. The list has fewer than `N`.
    pub fn push(&mut self, x: T)
        requires { length self.old < N }
        ensures { self.new ≡ self.old ++ x ∷ [] }
    {
        self.items.push(x);
    }

    /// Returns the items in order, at most `N`.
    pub fn items(&self) -> &[T]
        ensures value { result.now ≡ self.now }
        ensures fits { length result.now ≤ N }
    {
        self.items.as_slice()
    }

    /// Returns the items in order, by value.
    pub fn into_items(self) -> ArrayVec<T, N>
        ensures value { result.items ≡ self }
        ensures fits { length self ≤ N }
    {
        self.items
    }
}

impl<T: Copied, const N: usize> Copied for Short<T, N> {
    /// Returns a copy, with equal items in the same order.
    fn copy(&self) -> Short<T, N> {
        let items = self.items();
        let mut copy = Short::new();
        for item in items {
            copy.push(item.copy());
        }
        copy
    }
}
