//! What a machine keeps between the lines of a script.
ghost use Rattle.std.specs.Prelude.{◌≡◌, OnOk, OnErr, length};
ghost use Rattle.rp_geometry.specs.parts.Parts.{IsPart};
ghost use Rattle.rp_semantics.specs.FormLaws.{MeaningsAgree};
ghost use Rattle.rp_model.specs.states.State.{opening, parts_in, state_of_parts, live_lots, changed};
ghost use Rattle.rp_model.specs.states.Sound.{IsSound, IsLaterThan};
ghost use Rattle.rp_model.specs.commands.Parts.{shapes_of_parts};
ghost use Rattle.rp_register_state.specs.Taken.{IsTaken};
ghost use Rattle.rp_machine.specs.Replies.{made};

use rp_lots::Change;
use rp_region::{Region, Scratch};
use rp_regionlots::Regions;
use rp_register_state::RegisterState;
use std::alloc::{AllocError, Global};
use std::marker::Model;

/// What a machine keeps between the lines of a script: the present layer, what names stand for, and all lots that were
/// ever registered. That is a sound state: names and ids are distinct, each stands for a region, live lots of one layer
/// share no point, and the limits of numbers and of parts are kept.
#[derive(Drop)]
pub(crate) struct State {
    register_state: RegisterState<Regions>,
    /// Room for the tests of the next line.
    room: Scratch,
}

impl Model for State {
    ghost use Rattle.rp_model.specs.states.State.{PlainState, state_of_parts};
    ghost use Rattle.rp_model.specs.states.Sound.{IsSound};

    ghost Value = { PlainState };

    ghost view = { λ a. a.register_state };

    ghost invariant = { λ a. IsSound (state_of_parts a.register_state) };
}

impl State {
    /// Returns the opening state. Takes no memory.
    pub(crate) fn new(alloc: Global) -> State
        ensures { result ≡ opening }
    {
        State {
            register_state: RegisterState::new(alloc),
            room: Scratch::new(),
        }
    }

    /// Returns the opening state, which counts the nodes of the index of lots that its lines visit. Takes no memory.
    pub(crate) fn counting(alloc: Global) -> State
        ensures { result ≡ opening }
    {
        State {
            register_state: RegisterState::counting(alloc),
            room: Scratch::new(),
        }
    }

    /// Does nothing: what is kept is a sound state, whose names and lots stand for regions, and this makes it known.
    pub(crate) fn keep_sound(&self)
        ensures sound { IsSound (state_of_parts self.now) }
        ensures regions { MeaningsAgree IsPart (parts_in self.now) (shapes_of_parts (parts_in self.now)) }
    {
        let _ = &self.register_state;
    }

    /// Returns what is kept.
    pub(crate) fn register_state(&self) -> &RegisterState<Regions>
        ensures { result.now ≡ self.now }
    {
        &self.register_state
    }

    /// Lends the room for the tests of a line. All stays as it is.
    pub(crate) fn lend_room(&mut self) -> Scratch
        ensures { self.new ≡ self.old }
    {
        self.room.take()
    }

    /// Keeps the room for the tests of further lines. All stays as it is.
    pub(crate) fn keep_room(&mut self, room: Scratch)
        ensures { self.new ≡ self.old }
    {
        self.room = room;
    }

    /// Returns how many lots of all layers are live.
    pub(crate) fn count_live(&self) -> u32
        ensures { result ≡ length (live_lots self.now.lots) }
    {
        self.register_state.history().live_count() as u32
    }

    /// Makes `change` at line `n`, which is above every birth and every end; a sound state comes of it. After
    /// `AllocError` all is as before.
    pub(crate) fn apply(
        &mut self,
        alloc: Global,
        n: u32,
        change: Change<Region>,
    ) -> Result<(), AllocError>
        requires later { IsLaterThan n (state_of_parts self.old) }
        requires taken { IsTaken IsPart n self.old (made change) }
        ensures ok { OnOk result (self.new ≡ changed n self.old (made change)) }
        ensures err { OnErr result (self.new ≡ self.old) }
    {
        self.register_state.apply(alloc, n, change)
    }
}
