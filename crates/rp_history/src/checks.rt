//! The checks on names that a command makes before anything else. Their contracts hold for each state whose lots are
//! this history.
ghost use Rattle.std.specs.Prelude.{◌≡◌, ◌<◌, [], None, length, slice_get, option_map, IfOk, IfErr, IsSome};
ghost use Rattle.rp_model.specs.states.State.{live_lot, layer_with_id, layer_of_first};
ghost use Rattle.rp_model.specs.commands.Verdict.{repeated};
ghost use Rattle.rp_model.specs.commands.Checks.{check_new, check_live, check_each, check_repeated, check_cut, check_subdivide, check_layer, check_consolidate, check_access};
ghost use Rattle.rp_history.specs.Checks.{InEach, ChecksNames, refusal_of_names};
ghost use Rattle.rp_history.specs.declared.fault.NameFault.TheVariants.{Known, Unknown};

use crate::fault::NameFault;
use crate::history::History;
use indexmap::IndexSet;
use rp_lists::Name;
use std::alloc::{AllocError, Global};

impl History {
    /// Checks that `id` is new.
    ///
    /// # Errors
    ///
    /// `Known(id)` iff it was ever registered.
    pub fn check_new(&self, id: Name) -> Result<(), NameFault>
        ensures checks { InEach self.now (λ s. ChecksNames result (check_new s id)) }
        ensures fault { IfErr result (λ e. e ≡ Known id) }
    {
        match self.place_of(&id) {
            Some(_) => Err(NameFault::Known(id)),
            None => Ok(()),
        }
    }

    /// Checks that all of `ids` are new. `Known` with the first that was ever registered.
    fn check_all_new(&self, ids: &[Name]) -> Result<(), NameFault>
        ensures { InEach self.now (λ s. ChecksNames result (check_each (check_new s) ids.now)) }
    {
        for id in ids {
            self.check_new(*id)?;
        }
        Ok(())
    }

    /// Returns the index of the live lot `id` among all lots.
    ///
    /// # Errors
    ///
    /// `Unknown(id)` iff it is not live.
    pub fn check_live(&self, id: Name) -> Result<usize, NameFault>
        ensures checks { InEach self.now (λ s. ChecksNames result (check_live s id)) }
        ensures lot { InEach self.now (λ s. IfOk result (λ k. slice_get s.lots k ≡ live_lot id s.lots)) }
        ensures within { InEach self.now (λ s. IfOk result (λ k. k < length s.lots)) }
        ensures fault { IfErr result (λ e. e ≡ Unknown id) }
    {
        match self.live_place(&id) {
            Some(place) => Ok(place),
            None => Err(NameFault::Unknown(id)),
        }
    }

    /// Checks that all of `ids` are live. `Unknown` with the first that is not.
    fn check_all_live(&self, ids: &[Name]) -> Result<(), NameFault>
        ensures { InEach self.now (λ s. ChecksNames result (check_each (check_live s) ids.now)) }
    {
        for id in ids {
            self.check_live(*id)?;
        }
        Ok(())
    }

    /// Checks the names of a cut of `id` into `first` and `second`. Returns the index of `id` among all lots. Takes no
    /// memory.
    ///
    /// # Errors
    ///
    /// The first of these, in this order:
    ///
    /// * `Unknown(id)` if `id` is not live;
    /// * `Known` with the first of the two new ids that was ever registered;
    /// * `Same` if the two new ids are equal.
    pub fn check_cut(&self, id: Name, first: Name, second: Name) -> Result<usize, NameFault>
        ensures checks { InEach self.now (λ s. ChecksNames result (check_cut s id first second)) }
        ensures lot { InEach self.now (λ s. IfOk result (λ k. slice_get s.lots k ≡ live_lot id s.lots)) }
        ensures within { InEach self.now (λ s. IfOk result (λ k. k < length s.lots)) }
        ensures fault { IfErr result (λ e. IsSome (refusal_of_names e)) }
    {
        let place = self.check_live(id)?;
        self.check_new(first)?;
        self.check_new(second)?;
        if first == second {
            return Err(NameFault::Same);
        }
        Ok(place)
    }

    /// Checks the names of a subdivision of `id` into `ids`. Returns the index of `id` among all lots.
    ///
    /// # Errors
    ///
    /// The first of these, in this order:
    ///
    /// * `Few` if there are fewer than two `ids`;
    /// * `Unknown(id)` if `id` is not live;
    /// * `Known` with the first of `ids` that was ever registered;
    /// * `Repeated` with the first of `ids` that equals an earlier one.
    ///
    /// `Memory` if memory runs out.
    pub fn check_subdivide(&self, alloc: Global, id: Name, ids: &[Name]) -> Result<usize, NameFault>
        ensures checks { InEach self.now (λ s. ChecksNames result (check_subdivide s id ids.now)) }
        ensures lot { InEach self.now (λ s. IfOk result (λ k. slice_get s.lots k ≡ live_lot id s.lots)) }
        ensures within { InEach self.now (λ s. IfOk result (λ k. k < length s.lots)) }
    {
        if ids.len() < 2 {
            return Err(NameFault::Few);
        }
        let place = self.check_live(id)?;
        self.check_all_new(ids)?;
        check_repeated(alloc, ids)?;
        Ok(place)
    }

    /// Checks the names of a consolidation of `ids` into `new`. Returns the layer of `ids`.
    ///
    /// # Errors
    ///
    /// The first of these, in this order:
    ///
    /// * `Few` if there are fewer than two `ids`;
    /// * `Unknown` with the first of `ids` that is not live;
    /// * `Repeated` with the first of `ids` that equals an earlier one;
    /// * `Layers` with the first of `ids` whose layer differs from that of the first;
    /// * `Known(new)` if `new` was ever registered.
    ///
    /// `Memory` if memory runs out.
    pub fn check_consolidate(
        &self,
        alloc: Global,
        new: Name,
        ids: &[Name],
    ) -> Result<Name, NameFault>
        ensures checks { InEach self.now (λ s. ChecksNames result (check_consolidate s new ids.now)) }
        ensures layer { InEach self.now (λ s. IfOk result (λ y. y ≡ layer_of_first s ids.now)) }
    {
        if ids.len() < 2 {
            return Err(NameFault::Few);
        }
        self.check_all_live(ids)?;
        check_repeated(alloc, ids)?;
        let layer = self.layer_of(&ids[0]);
        self.check_layers(ids, &layer)?;
        self.check_new(new)?;
        Ok(layer)
    }

    /// Checks the ids of a query for access from `from` to `to`. Returns the layer of both. Takes no memory.
    ///
    /// # Errors
    ///
    /// The first of these, in this order:
    ///
    /// * `Unknown` with the first of the two that is not live;
    /// * `Layers(to)` if their layers differ.
    pub fn check_access(&self, from: Name, to: Name) -> Result<Name, NameFault>
        ensures checks { InEach self.now (λ s. ChecksNames result (check_access s from to)) }
        ensures layer { InEach self.now (λ s. IfOk result (λ y. y ≡ layer_with_id s from)) }
        ensures fault { IfErr result (λ e. IsSome (refusal_of_names e)) }
    {
        self.check_live(from)?;
        self.check_live(to)?;
        let layer = self.layer_of(&from);
        if self.layer_of(&to) != layer {
            return Err(NameFault::Layers(to));
        }
        Ok(layer)
    }

    /// Returns the layer of the live lot `id`.
    pub fn layer_of(&self, id: &Name) -> Name
        requires { InEach self.now (λ s. check_live s id.now ≡ None) }
        ensures { InEach self.now (λ s. result ≡ layer_with_id s id.now) }
    {
        let lots = self.lots();
        match self.live_place(id) {
            Some(place) => lots[place].layer,
            None => unreachable!(),
        }
    }

    /// Checks that the live lots `ids` are all of `layer`. `Layers` with the first that is not.
    fn check_layers(&self, ids: &[Name], layer: &Name) -> Result<(), NameFault>
        requires { InEach self.now (λ s. check_each (check_live s) ids.now ≡ None) }
        ensures { InEach self.now (λ s. ChecksNames result (check_each (check_layer s layer.now) ids.now)) }
    {
        for id in ids {
            if self.layer_of(id) != *layer {
                return Err(NameFault::Layers(*id));
            }
        }
        Ok(())
    }
}

/// Checks that `ids` are distinct. `Repeated` with the first that equals an earlier one.
fn check_repeated(alloc: Global, ids: &[Name]) -> Result<(), NameFault>
    ensures { ChecksNames result (check_repeated [] ids.now) }
{
    match first_repeated(alloc, ids)? {
        Some(id) => Err(NameFault::Repeated(id)),
        None => Ok(()),
    }
}

/// Returns the first of `ids` that equals an earlier one; `None` iff they are distinct.
fn first_repeated(alloc: Global, ids: &[Name]) -> Result<Option<Name>, AllocError>
    ensures { IfOk result (λ o. option_map repeated o ≡ check_repeated [] ids.now) }
{
    let mut before = IndexSet::new(alloc);
    first_known(&mut before, ids)
}

/// Inserts `ids` into the empty set `before`, up to the first that is already there. Returns this id; `None` iff `ids`
/// are distinct.
fn first_known(before: &mut IndexSet<Name>, ids: &[Name]) -> Result<Option<Name>, AllocError>
    requires { before.old.keys ≡ [] }
    ensures { IfOk result (λ o. option_map repeated o ≡ check_repeated [] ids.now) }
{
    for id in ids {
        if !before.insert(*id)? {
            return Ok(Some(*id));
        }
    }
    Ok(None)
}
