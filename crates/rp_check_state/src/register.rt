//! What the check keeps between two answers.
ghost use Rattle.std.specs.Prelude.{◌≡◌, OnOk};
ghost use Rattle.rp_command.specs.Views.{expression_of};
ghost use Rattle.rp_geometry.specs.parts.Parts.{IsCheckedPart};
ghost use Rattle.rp_language.specs.Expression.{first_unknown};
ghost use Rattle.rp_model.specs.states.State.{opening, parts_in, state_of_parts, changed};
ghost use Rattle.rp_model.specs.states.Sound.{IsLaterThan};
ghost use Rattle.rp_register_state.specs.Kept.{IsSoundByParts};
ghost use Rattle.rp_register_state.specs.Taken.{IsTaken};
ghost use Rattle.rp_check_state.specs.Followed.{shown_change};

use crate::shown::Shown;
use rp_command::Expr;
use rp_eval::first_unknown;
use rp_lists::Name;
use rp_lots::Change;
use rp_register_state::RegisterState;
use rp_trail::{Form, Trail};
use std::alloc::{AllocError, Global};
use std::marker::Model;

/// What the check keeps between two answers. A contract sees it as a sound state of parts, as the lines of the report
/// show them: names and ids are distinct, live lots of one layer share no point, and the limits of numbers and parts
/// are kept.
#[derive(Drop)]
pub struct Register {
    register_state: RegisterState<Shown>,
}

impl Model for Register {
    ghost use Rattle.rp_model.specs.states.State.{PlainState};

    ghost Value = { PlainState };

    ghost view = { λ a. a.register_state };
}

impl Register {
    /// Returns a register that keeps nothing yet, and the layer is the one that a script begins with. Takes no memory.
    pub fn new(alloc: Global) -> Register
        ensures { result ≡ opening }
    {
        Register {
            register_state: RegisterState::new(alloc),
        }
    }

    /// Returns the register of `new`, which counts the nodes of the index of lots that its questions visit, so that a
    /// test can tell a search from a walk over all lots. Takes no memory.
    pub fn counting(alloc: Global) -> Register
        ensures { result ≡ opening }
    {
        Register {
            register_state: RegisterState::counting(alloc),
        }
    }

    /// Returns how many nodes of the index of lots all questions have visited: 0 for a register that does not count.
    pub fn visits(&self) -> u64 {
        self.register_state.visits()
    }

    /// Does nothing: what is kept is a sound state, and this makes it known.
    pub fn keep_sound(&self)
        ensures { IsSoundByParts self.now }
    {
        self.register_state.keep_sound();
    }

    /// Returns what is kept.
    pub(crate) fn register_state(&self) -> &RegisterState<Shown>
        ensures { result.now ≡ self.now }
    {
        &self.register_state
    }

    /// Returns the first name or lot of `region`, in reading order, that isn't there.
    pub fn first_unknown(&self, region: &Expr) -> Option<Name>
        ensures { result ≡ first_unknown (parts_in self.now) (expression_of region.now) }
    {
        first_unknown::<Trail<'_>, Register>(self, region)
    }

    /// Makes `change` at line `n`, which is above every birth and every end; a sound state comes of it. After
    /// `AllocError` the register isn't used further.
    pub fn apply(&mut self, alloc: Global, n: u32, change: Change<Form>) -> Result<(), AllocError>
        requires later { IsLaterThan n (state_of_parts self.old) }
        requires taken { IsTaken IsCheckedPart n self.old (shown_change change) }
        ensures { OnOk result (self.new ≡ changed n self.old (shown_change change)) }
    {
        self.register_state.apply(alloc, n, change)
    }
}
