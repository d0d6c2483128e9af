//! The history of lots and its queries.
ghost use Rattle.std.specs.Prelude.{◌≡◌, ◌<◌, ◌≤◌, [], ◌∷◌, None, map, length, slice_get, IsTrue, IfSome, IfOk, OnOk, OnErr};
ghost use Rattle.std.specs.Option.{option_and_then};
ghost use Rattle.rp_language.specs.Name.{is_among};
ghost use Rattle.rp_model.specs.states.State.{lot_with_id, live_lot, live_lots, alive_after, ids_of, lineage, lots_replaced, ended_at};
ghost use Rattle.rp_model.specs.states.Sound.{are_distinct};
ghost use Rattle.rp_history.specs.Lots.{lot_of, new_lot_of, lots_after, AreBornBefore, AreKeptWell, AreNew};
ghost use Rattle.rp_history.specs.Places.{live_places};

use crate::births::{append, end_all, lots_born};
use crate::lineage::lineage_ids;
use crate::list::LotList;
use crate::lot::{Birth, LotLine};
use rp_lists::{Name, Names};
use std::alloc::{AllocError, Global};
use std::marker::Model;

/// All lots that were ever registered, in the order of their births. A contract sees lots without parts.
#[derive(Drop)]
pub struct History {
    list: LotList,
}

impl Model for History {
    ghost use Rattle.std.specs.Prelude.{List};
    ghost use Rattle.rp_model.specs.states.State.{Lot};
    ghost use Rattle.rp_history.specs.Lots.{AreKeptWell};

    ghost Value = { List (Lot (Unit {0})) };

    ghost view = { λ a. a.list.lots };

    ghost invariant = { λ a. AreKeptWell a.list.lots };
}

impl History {
    /// Returns the history of no lots. Takes no memory.
    pub fn new(alloc: Global) -> History
        ensures { result ≡ [] }
    {
        History {
            list: LotList::new(alloc),
        }
    }

    /// Ends the lots `ends` at `line`, each if it is live, and appends `births` as lots born at `line`, in order. All
    /// lots of the history were born before `line`. The new ids are new and distinct, and their origins are in the
    /// history.
    ///
    /// # Errors
    ///
    /// `AllocError` if memory runs out. The history is then as before.
    pub fn note(
        &mut self,
        alloc: Global,
        line: u32,
        births: &[Birth],
        ends: &[Name],
    ) -> Result<(), AllocError>
        requires later { AreBornBefore line self.old }
        requires new { AreNew self.old (map new_lot_of births.now) }
        ensures ok { OnOk result (self.new ≡ lots_after line self.old (lots_replaced ends.now (map new_lot_of births.now))) }
        ensures err { OnErr result (self.new ≡ self.old) }
        ensures well { OnOk result (AreKeptWell self.new) }
    {
        let born = lots_born(alloc, line, births)?;
        self.list.reserve(born.items().len())?;
        end_all(&mut self.list, line, ends);
        append(&mut self.list, born);
        Ok(())
    }

    /// Ends the lot `id` at `line`, if it is live. All lots were born before `line`. Takes no memory.
    pub fn end(&mut self, line: u32, id: Name)
        requires { AreBornBefore line self.old }
        ensures lots { self.new ≡ map (ended_at line (id ∷ [])) self.old }
        ensures well { AreKeptWell self.new }
    {
        self.list.end(line, &id);
    }

    /// Returns all lots in the order of their births.
    pub fn lots(&self) -> &[LotLine]
        ensures value { map lot_of result.now ≡ self.now }
        ensures well { AreKeptWell self.now }
    {
        self.list.lots()
    }

    /// Returns the indexes of the live lots among all lots, in rising order, without a walk over the others.
    pub fn live(&self) -> &[usize]
        ensures { result.now ≡ live_places None 0 self.now }
    {
        self.list.live()
    }

    /// Returns the number of live lots.
    pub fn live_count(&self) -> usize
        ensures value { result ≡ length (live_lots self.now) }
        ensures few { result ≤ length self.now }
    {
        self.live().len()
    }

    /// Returns the index of the lot `id` among all lots; `None` iff it was never registered. No walk over all lots is
    /// made.
    pub fn place_of(&self, id: &Name) -> Option<usize>
        ensures lot { option_and_then (λ k. slice_get self.now k) result ≡ lot_with_id id.now self.now }
        ensures within { IfSome result (λ k. k < length self.now) }
        ensures distinct { IsTrue (are_distinct (ids_of self.now)) }
    {
        self.list.place_of(id)
    }

    /// Returns the index of the live lot `id` among all lots; `None` iff it is not live. No walk over all lots is made.
    pub fn live_place(&self, id: &Name) -> Option<usize>
        ensures lot { option_and_then (λ k. slice_get self.now k) result ≡ live_lot id.now self.now }
        ensures within { IfSome result (λ k. k < length self.now) }
        ensures distinct { IsTrue (are_distinct (ids_of self.now)) }
    {
        self.list.live_place(id)
    }

    /// Returns whether `id` was born at `line` or before, and was not ended at `line` or before.
    pub fn alive(&self, id: Name, line: u32) -> bool
        ensures { result ≡ is_among id (ids_of (alive_after line self.now)) }
    {
        match self.place_of(&id) {
            Some(place) => self.lots()[place].is_alive_after(line),
            None => false,
        }
    }

    /// Returns the ids of the lot `id` and of all lots from which it descends through origins, in the order of their
    /// births. Returns no ids if `id` was never registered. Other lots are not read.
    pub fn lineage(&self, alloc: Global, id: Name) -> Result<Names, AllocError>
        ensures { IfOk result (λ ids. ids.items ≡ ids_of (lineage id self.now)) }
    {
        lineage_ids(alloc, self, &id)
    }
}
