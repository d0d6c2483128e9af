//! The least corner of the box under each id.
ghost use Rattle.std.specs.Prelude.{◌≡◌, ◌<◌, ◌^◌, [], length, is_some, IfSome, IfNone, OnOk, OnErr};
ghost use Rattle.std.specs.BTreeMap.{is_at, insert_entry};
ghost use Rattle.std.specs.List.Sorted.{IsStrictlySortedBy};
ghost use Rattle.std.specs.Map.{keys_of, lookup, remove_entry};
ghost use Rattle.std.specs.Ordering.{nat_cmp};

use crate::place::Corner;
use std::alloc::{AllocError, Global};
use std::collections::BTreeMap;

/// The least corner of the box under each id, by which the trees find an id.
///
/// No function goes through the ids, or reads a corner without removing it. So what a search reads of the boxes is
/// counted in steps: only `Tree::visit` and `Cells::visit` show a node outside its module.
#[derive(Drop)]
pub(crate) struct Lows {
    map: BTreeMap<u32, Corner>,
}

impl Lows {
    /// Returns the map of no ids. Takes no memory.
    pub(crate) fn new(alloc: Global) -> Lows
        ensures { result.map.entries ≡ [] }
    {
        Lows {
            map: BTreeMap::new(alloc),
        }
    }

    /// Adds `id` with its corner. After `AllocError` nothing has changed.
    pub(crate) fn insert(&mut self, id: u32, low: Corner) -> Result<(), AllocError>
        ensures entries { OnOk result (self.new.map.entries ≡ insert_entry nat_cmp self.old.map.entries id low) }
        ensures ordered { OnOk result (IsStrictlySortedBy nat_cmp (keys_of self.new.map.entries)) }
        ensures err { OnErr result (self.new.map.entries ≡ self.old.map.entries) }
    {
        self.map.insert(id, low)?;
        Ok(())
    }

    /// Puts another corner under an id, and answers the one that it had, where the id is there. Takes no memory.
    pub(crate) fn change(&mut self, id: u32, low: Corner) -> Option<Corner>
        ensures value { result ≡ lookup (is_at (nat_cmp id)) self.old.map.entries }
        ensures entries { IfSome result (λ _. self.new.map.entries ≡ insert_entry nat_cmp self.old.map.entries id low) }
        ensures unchanged { IfNone result (self.new.map.entries ≡ self.old.map.entries) }
    {
        if !self.contains(id) {
            return None;
        }
        match self.map.insert(id, low) {
            Ok(old) => old,
            Err(_) => unreachable!(),
        }
    }

    /// Takes an id out and answers its corner, where the id is there. Takes no memory.
    pub(crate) fn remove(&mut self, id: u32) -> Option<Corner>
        ensures value { result ≡ lookup (is_at (nat_cmp id)) self.old.map.entries }
        ensures entries { self.new.map.entries ≡ remove_entry (is_at (nat_cmp id)) self.old.map.entries }
        ensures unchanged { IfNone result (self.new.map.entries ≡ self.old.map.entries) }
    {
        self.map.remove(&id)
    }

    /// Returns whether an id is there.
    pub(crate) fn contains(&self, id: u32) -> bool
        ensures { result ≡ is_some (lookup (is_at (nat_cmp id)) self.now.map.entries) }
    {
        self.map.contains_key(&id)
    }

    /// Does nothing; makes known that there are fewer than 2^63 ids, and none twice.
    pub(crate) fn show_order(&self)
        ensures small { length self.now.map.entries < 2 ^ 63 }
        ensures ordered { IsStrictlySortedBy nat_cmp (keys_of self.now.map.entries) }
    {
        let _ = self.map.len();
    }
}
