//! One line of a script after the other.
ghost use Rattle.std.specs.Prelude.{◌≡◌, ◌+◌, Err, IfSome, IfOk, IsNone, OnOk, OnErr, length};
ghost use Rattle.rp_command.specs.Versions.{version_of};
ghost use Rattle.rp_command.specs.Views.{command_of, expression_of};
ghost use Rattle.rp_geometry.specs.sets.Shape.{shape_of_parts};
ghost use Rattle.rp_geometry.specs.sets.Sets.{SameMembers};
ghost use Rattle.std.specs.List.{AllByRecursion};
ghost use Rattle.rp_geometry.specs.sections.Trace.{IsHeight};
ghost use Rattle.rp_language.specs.Expression.{IsKeptExpression, expressions_of, heights_of, resolve_names, first_unknown, HasFewChildren};
ghost use Rattle.rp_language.specs.Grammar.{command};
ghost use Rattle.rp_semantics.specs.Walk.{first_tester};
ghost use Rattle.rp_semantics.specs.Form.{form};
ghost use Rattle.rp_model.specs.states.State.{opening, live_lots, parts_in, state_of_parts};
ghost use Rattle.rp_model.specs.states.Sound.{IsSound, IsLaterThan};
ghost use Rattle.rp_model.specs.commands.Parts.{shapes_of_parts};
ghost use Rattle.rp_reports.specs.Machine.{step_answer, after_line, answer_read, state_read};
ghost use Rattle.rp_answer.specs.Views.{answer_of};
ghost use Rattle.rp_machine.specs.Forms.{MakesForm};

use crate::fault::FormFault;
use crate::state::State;
use crate::step::bad_line;
use rp_answer::Answer;
use rp_command::{Command, Expr, Line, Version};
use rp_region::{Region, Work};
use rp_syntax::read_line;
use std::alloc::{AllocError, Global};
use std::marker::Model;
use std::thread::Threads;

/// The machine that answers the lines of a script. A contract sees the version of the script, which no line changes,
/// and what is kept between the lines: a sound state.
#[derive(Drop)]
pub struct Machine {
    version: Version,
    state: State,
}

impl Model for Machine {
    ghost use Rattle.rp_reports.specs.Machine.{Running};
    ghost use Rattle.rp_command.specs.Versions.{version_of};

    ghost Value = { Running };

    ghost view = { λ a. record { version = version_of a.version; state = a.state } };
}

impl Machine {
    /// Returns the machine for a script of a version, in its opening state.
    pub fn new(alloc: Global, version: Version) -> Result<Machine, AllocError>
        ensures { IfOk result (λ m. m ≡ record { version = version_of version; state = opening }) }
    {
        Ok(Machine {
            version,
            state: State::new(alloc),
        })
    }

    /// Returns the machine for a script of `version`, in its opening state. It counts the nodes of the index of lots
    /// that its lines visit, so that a test can tell a search from a walk over all lots. Takes no memory.
    pub fn counting(alloc: Global, version: Version) -> Machine
        ensures { result ≡ record { version = version_of version; state = opening } }
    {
        Machine {
            version,
            state: State::counting(alloc),
        }
    }

    /// Returns how many nodes of the index of lots all lines have visited: 0 for a machine that does not count.
    pub fn visits(&self) -> u64 {
        self.state.register_state().visits()
    }

    /// Returns the form of `region`: its parts, made test by test of `work` in reading order, with the parts kept for
    /// names. The members of the parts are those of the expression, in which each name stands for its region.
    ///
    /// Every number of `region` keeps the bounds of half-spaces, boxes and prisms, as those of a line that was read do.
    /// `Unknown` exactly for the first name or lot, in reading order, that isn't there; it comes before any test.
    /// `Limit` exactly where the operations on regions say so.
    pub fn form(&self, alloc: Global, region: &Expr, work: &mut Work) -> Result<Region, FormFault>
        requires { IsKeptExpression (expression_of region.now) }
        ensures unknown { IfSome (first_unknown (parts_in self.now.state) (expression_of region.now)) (λ x. (result ≡ Err (FormFault.Unknown x)) × (work.new ≡ work.old)) }
        ensures makes { IsNone (first_unknown (parts_in self.now.state) (expression_of region.now)) → MakesForm (λ form. form) result work.old work.new (form first_tester (parts_in self.now.state) (expression_of region.now)) }
        ensures members { IfOk result (λ form. SameMembers (shape_of_parts form) (resolve_names (shapes_of_parts (parts_in self.now.state)) (expression_of region.now))) }
        ensures sound { IsSound (state_of_parts self.now.state) }
    {
        self.state.form(alloc, region, work)
    }

    /// Returns how many lots of all layers are live.
    pub fn count_live(&self) -> u32
        ensures { result ≡ length (live_lots self.now.state.lots) }
    {
        self.state.count_live()
    }

    /// Returns the answer to the line with the number `n`, which is above every birth and every end of a lot, and what
    /// it changes. The line is read by the version. A blank line has an answer without echo and verdicts. A line that
    /// is refused changes nothing. After `AllocError` the machine is as it was. The next number is above every birth
    /// and every end again.
    pub fn step<R: Threads + Sync>(
        &mut self,
        rt: &R,
        alloc: Global,
        n: u32,
        line: &[u8],
    ) -> Result<Answer, AllocError>
        requires { IsLaterThan n (state_of_parts self.old.state) }
        ensures answer { IfOk result (λ a. answer_of a ≡ step_answer self.old.version self.old.state n line.now) }
        ensures state { OnOk result (self.new ≡ after_line self.old n line.now) }
        ensures unchanged { OnErr result (self.new ≡ self.old) }
        ensures later { OnOk result (IsLaterThan (n + 1) (state_of_parts self.new.state)) }
    {
        match read_line(alloc, self.version, line)? {
            Line::Blank => Ok(Answer::blank(alloc, n)),
            Line::Cmd(asked) => self.answer(rt, alloc, n, line, &asked),
            Line::Bad(why) => bad_line(alloc, n, line, why),
        }
    }

    /// Returns the answer to a line that reads as the command, and what it changes.
    fn answer<R: Threads + Sync>(
        &mut self,
        rt: &R,
        alloc: Global,
        n: u32,
        line: &[u8],
        asked: &Command,
    ) -> Result<Answer, AllocError>
        requires later { IsLaterThan n (state_of_parts self.old.state) }
        requires kept { AllByRecursion IsKeptExpression (expressions_of (command_of asked.now)) }
        requires heights { AllByRecursion IsHeight (heights_of (command_of asked.now)) }
        requires few { HasFewChildren (command_of asked.now) }
        ensures answer { IfOk result (λ a. answer_of a ≡ answer_read self.old.state n line.now (command (command_of asked.now))) }
        ensures state { OnOk result (self.new ≡ record { version = self.old.version; state = state_read self.old.state n (command (command_of asked.now)) }) }
        ensures unchanged { OnErr result (self.new ≡ self.old) }
    {
        self.state.answer(rt, alloc, n, line, asked)
    }
}
