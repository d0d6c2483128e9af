//! What keeps lots.
ghost use Rattle.std.specs.Prelude.{◌≡◌, ◌<◌, ◌≤◌, ◌+◌, ℕ, IfOk, length, map, filter, drop, nat_le};
ghost use Rattle.std.specs.List.{AllByRecursion};
ghost use Rattle.rp_geometry.specs.parts.Parts.{most_parts};
ghost use Rattle.rp_space.specs.Boxes.{integer_box};
ghost use Rattle.rp_semantics.specs.Walk.{stopped, limit_met, most_tests};
ghost use Rattle.rp_model.specs.states.State.{PlainState, bare_lot, parts_under_lots, most_kept_parts};
ghost use Rattle.rp_model.specs.commands.Parts.{lot_parts};
ghost use Rattle.rp_proximity.specs.Near.{others_in, is_near, lots_at, AreWithin};

use rp_history::History;
use rp_lists::{Listed, Name};
use rp_oracle::Oracle;
use rp_proximity::Reach;
use rp_space::IntBox;
use std::alloc::{AllocError, Global};

/// What keeps all lots that were ever registered, in the order of registration, with their forms.
///
/// A contract sees in `state` the state as the model has it.
pub trait Keeper<T: Oracle> {
    ghost state: { Self → PlainState };

    /// Does nothing: more tests than a command may make are never counted, and this makes it known.
    fn keep_limit(&self)
        ensures { (n : ℕ) (w : T) → most_tests < n → T.tester.count n w ≡ stopped limit_met w };

    /// Returns the box of a part.
    fn bounds(part: &T::Part) -> &IntBox
        ensures { integer_box result.now ≡ (T.seen part.now).bounds };

    /// Returns the births and ends of all lots. They are few, and each has few parts.
    fn history(&self) -> &History
        ensures value { result.now ≡ map bare_lot (state self.now).lots }
        ensures few { length (state self.now).lots ≤ most_kept_parts }
        ensures short { AllByRecursion (λ l. length l.parts ≤ most_parts) (state self.now).lots };

    /// Returns the forms of all lots, by their places.
    fn forms(&self) -> &[T::Form]
        ensures { map T.parts_of result.now ≡ lot_parts (state self.now).lots };

    /// Returns the places, in rising order, of live lots of `layer` from the place `from` on, that have another id than
    /// `id`: of all those that have a part which may meet one of `form`'s, and maybe of others.
    fn near(
        &self,
        alloc: Global,
        form: &T::Form,
        layer: &Name,
        id: &Name,
        from: usize,
        reach: Reach,
    ) -> Result<Listed<usize>, AllocError>
        requires { from ≤ length (state self.now).lots }
        ensures near { IfOk result (λ places. filter (is_near reach (T.parts_of form.now)) (lots_at (state self.now).lots places.items) ≡ filter (is_near reach (T.parts_of form.now)) (others_in layer.now id.now (drop from (state self.now).lots))) }
        ensures within { IfOk result (λ places. AreWithin (state self.now).lots places.items) }
        ensures few { IfOk result (λ places. length places.items ≤ most_kept_parts) };

    /// Returns whether all lots together may keep so many more parts.
    fn have_room_for(&self, parts: usize) -> bool
        ensures { result ≡ nat_le (parts_under_lots (state self.now).lots + parts) most_kept_parts };
}
