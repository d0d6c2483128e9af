//! The forms of names.
ghost use Rattle.std.specs.Prelude.{◌≡◌, ◌+◌, ◌&&◌, [], ◌∷◌, ◌++◌, length, nat_le, option_copied, option_map, OnOk, OnErr};
ghost use Rattle.rp_model.specs.states.State.{kept_named, parts_of_kept, parts_under_names, most_names, most_kept_parts, kept_under};
ghost use Rattle.rp_store.specs.Kept.{IsNewName};

use crate::forms::Forms;
use crate::limits::MAX_NAMES;
use indexmap::IndexMap;
use rp_lists::Name;
use rp_oracle::MAX_KEPT_PARTS;
use std::alloc::{AllocError, Global};
use std::fmt;
use std::marker::Model;

/// The forms of names, in the order of their definition: at most 65,536 names, with at most 65,536 parts of all forms
/// together.
#[derive(Drop)]
pub struct NamedForms<F: Forms> {
    forms: IndexMap<Name, F::Form>,
    // The number of parts that the forms have together.
    parts: usize,
}

impl<F: Forms> fmt::Debug for NamedForms<F> {
    fn fmt<W: fmt::Write>(&self, f: &mut fmt::Formatter<W>) -> fmt::Result {
        f.debug_struct("NamedForms").finish_non_exhaustive()
    }
}

impl<F: Forms> Model for NamedForms<F> {
    ghost use Rattle.std.specs.Prelude.{List, map};
    ghost use Rattle.rp_model.specs.states.State.{Kept};
    ghost use Rattle.rp_model.specs.states.State.{kept_under};
    ghost use Rattle.rp_store.specs.Kept.{AreNamed};

    ghost Value = { List (Kept (Unit {0})) };

    ghost view = { λ a. map (λ e. kept_under e.0 (F.parts_of e.1)) a.forms.entries };

    ghost invariant = { λ a. AreNamed a.parts (map (λ e. kept_under e.0 (F.parts_of e.1)) a.forms.entries) };
}

impl<F: Forms> NamedForms<F> {
    /// Returns the map without names. Takes no memory.
    pub fn new(alloc: Global) -> NamedForms<F>
        ensures { result ≡ [] }
    {
        NamedForms {
            forms: IndexMap::new(alloc),
            parts: 0,
        }
    }

    /// Returns the form of `name`, without a walk over all names; `None` iff it has none.
    pub fn find(&self, name: &Name) -> Option<&F::Form>
        ensures { option_map F.parts_of (option_copied result) ≡ parts_of_kept (kept_named name.now self.now) }
    {
        self.forms.get(name)
    }

    /// Returns whether one more name may have `form`.
    pub fn have_room_for(&self, form: &F::Form) -> bool
        ensures { result ≡ (nat_le (length self.now + 1) most_names && nat_le (parts_under_names self.now + length (F.parts_of form.now)) most_kept_parts) }
    {
        self.forms.len() < MAX_NAMES && F::parts(form).len() <= MAX_KEPT_PARTS - self.parts
    }

    /// Stores `form` under the new `name`, for which there is room.
    ///
    /// # Errors
    ///
    /// `AllocError` if memory runs out. All is then as before.
    pub fn keep(&mut self, name: Name, form: F::Form) -> Result<(), AllocError>
        requires { IsNewName self.old name (F.parts_of form) }
        ensures ok { OnOk result (self.new ≡ self.old ++ kept_under name (F.parts_of form) ∷ []) }
        ensures err { OnErr result (self.new ≡ self.old) }
    {
        let parts = self.parts + F::parts(&form).len();
        self.forms.insert(name, form)?;
        self.parts = parts;
        Ok(())
    }
}
