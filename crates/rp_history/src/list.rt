//! A list of lots with an index by id. A contract sees its spare capacity.
ghost use Rattle.std.specs.Prelude.{◌≡◌, ◌+◌, ◌-◌, ◌<◌, ◌≤◌, [], ◌∷◌, ◌++◌, false, None, map, length, slice_get, vec_len, vec_capacity, IfSome, OnOk};
ghost use Rattle.std.specs.List.{AllByRecursion};
ghost use Rattle.std.specs.Option.{option_and_then};
ghost use Rattle.rp_language.specs.Name.{is_among};
ghost use Rattle.rp_model.specs.states.State.{lot_with_id, live_lot, ids_of, ended_at};
ghost use Rattle.rp_history.specs.Lots.{lot_of};
ghost use Rattle.rp_history.specs.Places.{live_places, AreRising, AreWithout, IsOneOf};

use crate::lot::LotLine;
use indexmap::IndexSet;
use rp_lists::Name;
use std::alloc::{AllocError, Global};
use std::marker::Model;

/// Lots in the order of their births. A contract sees lots without parts, and in `spare` how many more lots there is
/// room for.
#[derive(Drop)]
pub(crate) struct LotList {
    lots: Vec<LotLine>,
    // The ids in the order of the lots, so the index of an id is the index of its lot.
    places: IndexSet<Name>,
    // The indexes of the live lots, in rising order.
    live: Vec<usize>,
}

impl Model for LotList {
    ghost use Rattle.std.specs.Prelude.{◌-◌, map, min, vec_len, vec_capacity};
    ghost use Rattle.indexmap.specs.IndexSet.{spare};
    ghost use Rattle.rp_history.specs.Lots.{lot_of};
    ghost use Rattle.rp_history.specs.Kept.{Roomy, AreFound};

    ghost Value = { Roomy };

    ghost view = { λ a. record { lots = map lot_of a.lots.items; spare = min (min (vec_capacity a.lots - vec_len a.lots) (spare a.places)) (vec_capacity a.live - vec_len a.live) } };

    ghost invariant = { λ a. AreFound (map lot_of a.lots.items) a.places.keys a.live.items };
}

impl LotList {
    /// Returns the empty list. Takes no memory.
    pub(crate) fn new(alloc: Global) -> LotList
        ensures { result.lots ≡ [] }
    {
        LotList {
            lots: Vec::new(alloc),
            places: IndexSet::new(alloc),
            live: Vec::new(alloc),
        }
    }

    /// Makes room for `n` more lots. The lots stay in any case.
    pub(crate) fn reserve(&mut self, n: usize) -> Result<(), AllocError>
        ensures lots { self.new.lots ≡ self.old.lots }
        ensures ok { OnOk result (n ≤ self.new.spare) }
    {
        self.lots.reserve(n)?;
        self.places.reserve(n)?;
        self.live.reserve(n)
    }

    /// Appends `lot`, which is live and has a new id. The caller has made room for it.
    pub(crate) fn push(&mut self, lot: LotLine)
        requires room { 0 < self.old.spare }
        requires live { lot.ended ≡ None }
        requires fresh { is_among lot.id (ids_of self.old.lots) ≡ false }
        ensures lots { self.new.lots ≡ self.old.lots ++ lot_of lot ∷ [] }
        ensures spare { self.old.spare ≤ self.new.spare + 1 }
    {
        self.live.push(self.lots.len()).unwrap();
        self.places.insert(lot.id).unwrap();
        self.lots.push(lot).unwrap();
    }

    /// Ends the lot `id` at `line`, if it is live. The spare capacity stays.
    pub(crate) fn end(&mut self, line: u32, id: &Name)
        ensures lots { self.new.lots ≡ map (ended_at line (id.now ∷ [])) self.old.lots }
        ensures spare { self.old.spare ≤ self.new.spare }
    {
        if let Some(place) = self.live_place(id) {
            self.lots[place].ended = Some(line);
            take_out(&mut self.live, place);
        }
    }

    /// Returns the lots in order.
    pub(crate) fn lots(&self) -> &[LotLine]
        ensures { map lot_of result.now ≡ self.now.lots }
    {
        &self.lots
    }

    /// Returns the indexes of the live lots, in rising order.
    pub(crate) fn live(&self) -> &[usize]
        ensures { result.now ≡ live_places None 0 self.now.lots }
    {
        &self.live
    }

    /// Returns the index of the lot `id`; `None` iff there is none.
    pub(crate) fn place_of(&self, id: &Name) -> Option<usize>
        ensures lot { option_and_then (λ k. slice_get self.now.lots k) result ≡ lot_with_id id.now self.now.lots }
        ensures within { IfSome result (λ k. k < length self.now.lots) }
    {
        self.places.get_index_of(id)
    }

    /// Returns the index of the live lot `id`; `None` iff it is not live.
    pub(crate) fn live_place(&self, id: &Name) -> Option<usize>
        ensures lot { option_and_then (λ k. slice_get self.now.lots k) result ≡ live_lot id.now self.now.lots }
        ensures within { IfSome result (λ k. k < length self.now.lots) }
    {
        let place = self.place_of(id)?;
        if self.lots[place].ended.is_none() {
            Some(place)
        } else {
            None
        }
    }
}

/// Removes `place` from the rising list `places`, in which it is. The spare capacity stays.
fn take_out(places: &mut Vec<usize>, place: usize)
    requires rising { AreRising places.old.items }
    requires there { IsOneOf places.old.items place }
    ensures rest { AreWithout places.old.items places.new.items place }
    ensures room { vec_capacity places.old - vec_len places.old ≤ vec_capacity places.new - vec_len places.new }
{
    match places.binary_search(&place) {
        Ok(number) => {
            places.remove(number);
        }
        Err(_) => unreachable!(),
    }
}
