//! What keeps a register, for the rows that change it.
ghost use Rattle.std.specs.Prelude.{◌≡◌, ◌+◌, ◌&&◌, filter, length, nat_le};
ghost use Rattle.rp_semantics.specs.Form.{common_nearby};
ghost use Rattle.rp_model.specs.states.State.{lots_of_layer, parts_in, parts_under_names, most_names, most_kept_parts};
ghost use Rattle.rp_model.specs.commands.At.{owner_line};
ghost use Rattle.rp_proximity.specs.There.{is_there, owner_verdict};
ghost use Rattle.rp_oracle.specs.Refines.{Refines};

use crate::keeper::Keeper;
use rp_lists::Name;
use rp_oracle::{Named, Oracle, Stopped};
use rp_proximity::Moment;
use rp_space::Point;
use std::alloc::Global;

/// What keeps lots and finds whether forms overlap.
pub trait Overlaps<T: Oracle>: Keeper<T> {
    /// Returns whether `form` and `other` share a point: only those pairs of parts are tested whose boxes share more
    /// than boundary, up to the first that does, and nothing is counted.
    fn overlap(
        alloc: Global,
        form: &T::Form,
        other: &T::Form,
        tests: &mut T,
    ) -> Result<bool, Stopped>
        ensures { Refines (λ found. found) result tests.new (common_nearby T.tester (T.parts_of form.now) (T.parts_of other.now) tests.old) };
}

/// What keeps a whole register: lots, names and the present layer.
pub trait Registry<T: Oracle>: Overlaps<T> + Named<T> {
    /// Does nothing: names and live lots stand for the parts that the state has, and this makes it known.
    fn keep_meaning(&self)
        ensures { Self.meaning self.now ≡ parts_in (Self.state self.now) };

    /// Returns the present layer.
    fn layer(&self) -> Name
        ensures { result ≡ (Self.state self.now).layer };

    /// Returns the first lot of the present layer, of those that are there at `moment`, that has `point`. `None`
    /// exactly where there is none.
    fn owner(&self, moment: Moment, point: &Point) -> Option<Name>
        ensures { owner_verdict result ≡ owner_line (lots_of_layer (Self.state self.now).layer (filter (is_there moment) (Self.state self.now).lots)) point.now };

    /// Returns whether one more name may stand for the form.
    fn have_room_for_name(&self, form: &T::Form) -> bool
        ensures { result ≡ (nat_le (length (Self.state self.now).names + 1) most_names && nat_le (parts_under_names (Self.state self.now).names + length (T.parts_of form.now)) most_kept_parts) };
}
