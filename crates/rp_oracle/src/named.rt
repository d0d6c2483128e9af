//! The forms of names and lots.
ghost use Rattle.std.specs.Prelude.{◌≡◌, List, option_copied, option_map};
ghost use Rattle.rp_geometry.specs.sets.Shape.{Part};
ghost use Rattle.rp_language.specs.Expression.{Meaning};
ghost use Rattle.rp_oracle.specs.Short.{StandShort};

use crate::oracle::Oracle;
use rp_lists::Name;

/// A map from names and live lots to their forms.
pub trait Named<T: Oracle> {
    ghost meaning: { Self → Meaning (List Part) };

    /// Does nothing; makes it known that names and lots have short lists of parts.
    fn keep_short(&self)
        ensures { StandShort (meaning self.now) };

    /// Returns the form of `name`; `None` iff it has none.
    fn form_named(&self, name: &Name) -> Option<&T::Form>
        ensures { option_map T.parts_of (option_copied result) ≡ (meaning self.now).of_name name.now };

    /// Returns the form of the lot `lot`; `None` iff it is not live.
    fn form_of_lot(&self, lot: &Name) -> Option<&T::Form>
        ensures { option_map T.parts_of (option_copied result) ≡ (meaning self.now).of_lot lot.now };
}
