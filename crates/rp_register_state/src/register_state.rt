//! What is kept: the present layer, what names stand for, and the lots.
ghost use Rattle.std.specs.Prelude.{◌≡◌, ◌+◌, ◌<◌, ◌≤◌, ◌&&◌, length, map, filter, drop, nat_le, option_copied, option_map, IfOk, OnOk, OnErr};
ghost use Rattle.std.specs.List.{AllByRecursion};
ghost use Rattle.rp_geometry.specs.parts.Parts.{IsCheckedPart, most_parts};
ghost use Rattle.rp_model.specs.states.State.{opening, base_layer, parts_in, state_of_parts, bare_lot, lots_of_layer, changed, parts_under_names, parts_under_lots, most_names, most_kept_parts};
ghost use Rattle.rp_model.specs.states.Sound.{IsLaterThan};
ghost use Rattle.rp_model.specs.commands.Parts.{lot_parts};
ghost use Rattle.rp_model.specs.commands.At.{owner_line};
ghost use Rattle.rp_proximity.specs.Near.{others_in, is_near, lots_at, AreWithin};
ghost use Rattle.rp_proximity.specs.There.{is_there, owner_verdict};
ghost use Rattle.rp_oracle.specs.Short.{StandShort};
ghost use Rattle.rp_lots.specs.Changes.{change_of};
ghost use Rattle.rp_register_state.specs.Kept.{IsSoundByParts};
ghost use Rattle.rp_register_state.specs.Taken.{IsTaken};

use crate::replaced::replace;
use rp_boxindex::VisitCount;
use rp_history::History;
use rp_lists::{Listed, Name};
use rp_lots::Change;
use rp_proximity::{Moment, Reach};
use rp_space::Point;
use rp_store::{Forms, Lots, NamedForms};
use std::alloc::{AllocError, Global};
use std::marker::Model;

/// The present layer, what names stand for, and all lots that were ever registered. A contract sees it as a sound state
/// of parts: names and ids are distinct, live lots of one layer share no point, and the limits of numbers and parts are
/// kept.
#[derive(Drop)]
pub struct RegisterState<F: Forms> {
    layer: Name,
    names: NamedForms<F>,
    lots: Lots<F>,
    // Is told of the nodes of the index that questions visit.
    visits: VisitCount,
}

impl<F: Forms> Model for RegisterState<F> {
    ghost use Rattle.rp_model.specs.states.State.{PlainState};
    ghost use Rattle.rp_store.specs.Kept.{state_with};
    ghost use Rattle.rp_register_state.specs.Kept.{IsSoundByParts};

    ghost Value = { PlainState };

    ghost view = { λ a. state_with a.layer a.names a.lots };

    ghost invariant = { λ a. IsSoundByParts (state_with a.layer a.names a.lots) };
}

/// Returns the layer that a script begins with.
fn base_layer() -> Name
    ensures { result ≡ base_layer }
{
    Name::new(b"base").unwrap()
}

impl<F: Forms> RegisterState<F> {
    /// Returns a register_state that keeps nothing yet, and the layer is the one that a script begins with. Takes no
    /// memory.
    pub fn new(alloc: Global) -> RegisterState<F>
        ensures { result ≡ opening }
    {
        RegisterState::opened(alloc, VisitCount::uncounted())
    }

    /// Opens the register_state of `new`, which counts the nodes of the index of lots that its questions visit, so that
    /// a test can tell a search from a walk over all lots. Takes no memory.
    pub fn counting(alloc: Global) -> RegisterState<F>
        ensures { result ≡ opening }
    {
        RegisterState::opened(alloc, VisitCount::counted())
    }

    /// Opens the register_state of `new`, whose questions tell `visits` of each node that they visit.
    fn opened(alloc: Global, visits: VisitCount) -> RegisterState<F>
        ensures { result ≡ opening }
    {
        RegisterState {
            layer: base_layer(),
            names: NamedForms::new(alloc),
            lots: Lots::new(alloc),
            visits,
        }
    }

    /// Returns how many nodes of the index of lots all questions have visited: 0 for a register_state that does not
    /// count.
    pub fn visits(&self) -> u64 {
        self.visits.count()
    }

    /// Does nothing: what is kept is a sound state, and this makes it known.
    pub fn keep_sound(&self)
        ensures { IsSoundByParts self.now }
    {
        let _ = &self.names;
    }

    /// Does nothing: names and live lots stand for short lists of parts, and this makes it known.
    pub fn keep_short(&self)
        ensures { StandShort (parts_in self.now) }
    {
        self.keep_sound();
    }

    /// Returns the present layer.
    pub fn layer(&self) -> Name
        ensures { result ≡ self.now.layer }
    {
        self.layer
    }

    /// Returns the form that a name stands for, found without a walk over all names.
    pub fn form_named(&self, name: &Name) -> Option<&F::Form>
        ensures { option_map F.parts_of (option_copied result) ≡ (parts_in self.now).of_name name.now }
    {
        self.names.find(name)
    }

    /// Returns the form of a live lot, found without a walk over all lots.
    pub fn form_of_lot(&self, id: &Name) -> Option<&F::Form>
        ensures { option_map F.parts_of (option_copied result) ≡ (parts_in self.now).of_lot id.now }
    {
        self.lots.find(id)
    }

    /// Returns the births and ends of all lots, ended ones included.
    pub fn history(&self) -> &History
        ensures value { result.now ≡ map bare_lot self.now.lots }
        ensures few { length self.now.lots ≤ most_kept_parts }
        ensures short { AllByRecursion (λ l. length l.parts ≤ most_parts) self.now.lots }
    {
        self.keep_sound();
        self.lots.history()
    }

    /// Returns the forms of all lots, by their places.
    pub fn forms(&self) -> &[F::Form]
        ensures { map F.parts_of result.now ≡ lot_parts self.now.lots }
    {
        self.lots.forms()
    }

    /// Returns the places, in rising order, of live lots of `layer`, from the place `from` on, that have another id
    /// than `id`: of all those that have a part which may meet one of `form`, as `reach` says, and maybe of others.
    pub fn near(
        &self,
        alloc: Global,
        form: &F::Form,
        layer: &Name,
        id: &Name,
        from: usize,
        reach: Reach,
    ) -> Result<Listed<usize>, AllocError>
        requires { from ≤ length self.now.lots }
        ensures near { IfOk result (λ places. filter (is_near reach (F.parts_of form.now)) (lots_at self.now.lots places.items) ≡ filter (is_near reach (F.parts_of form.now)) (others_in layer.now id.now (drop from self.now.lots))) }
        ensures within { IfOk result (λ places. AreWithin self.now.lots places.items) }
        ensures few { IfOk result (λ places. length places.items ≤ most_kept_parts) }
    {
        self.lots
            .near(alloc, &self.visits, form, layer, id, from, reach)
    }

    /// Returns the first lot of the present layer, of those that are there at `moment`, that has `point`; it is found
    /// without a walk over all lots. `None` exactly where there is none.
    pub fn owner(&self, moment: Moment, point: &Point) -> Option<Name>
        ensures { owner_verdict result ≡ owner_line (lots_of_layer self.now.layer (filter (is_there moment) self.now.lots)) point.now }
    {
        self.lots.owner(&self.visits, &self.layer, moment, point)
    }

    /// Returns whether one more name may stand for the form.
    pub fn have_room_for_name(&self, form: &F::Form) -> bool
        ensures { result ≡ (nat_le (length self.now.names + 1) most_names && nat_le (parts_under_names self.now.names + length (F.parts_of form.now)) most_kept_parts) }
    {
        self.names.have_room_for(form)
    }

    /// Returns whether all lots together may keep so many more parts.
    pub fn have_room_for(&self, parts: usize) -> bool
        ensures { result ≡ nat_le (parts_under_lots self.now.lots + parts) most_kept_parts }
    {
        self.lots.have_room_for(parts)
    }

    /// Makes `change` at line `n`, which is above every birth and every end; a sound state comes of it. After
    /// `AllocError` all is as before.
    pub fn apply(
        &mut self,
        alloc: Global,
        n: u32,
        change: Change<F::Form>,
    ) -> Result<(), AllocError>
        requires later { IsLaterThan n (state_of_parts self.old) }
        requires taken { IsTaken IsCheckedPart n self.old (change_of F.parts_of change) }
        ensures ok { OnOk result (self.new ≡ changed n self.old (change_of F.parts_of change)) }
        ensures err { OnErr result (self.new ≡ self.old) }
    {
        match change {
            Change::Named(name, form) => self.names.keep(name, form),
            Change::Replaced(change) => replace(&mut self.lots, alloc, n, change),
            Change::Layer(layer) => {
                self.layer = layer;
                Ok(())
            }
        }
    }
}
