//! The row of each command.
ghost use Rattle.std.specs.Prelude.{◌≡◌, ◌≤◌, length};
ghost use Rattle.std.specs.List.{AllByRecursion};
ghost use Rattle.rp_command.specs.Views.{command_of};
ghost use Rattle.rp_geometry.specs.parts.Parts.{most_parts};
ghost use Rattle.rp_geometry.specs.sections.Trace.{IsHeight};
ghost use Rattle.rp_language.specs.Expression.{IsKeptExpression, expressions_of, heights_of, HasFewChildren};
ghost use Rattle.rp_semantics.specs.Walk.{first_tester};
ghost use Rattle.rp_model.specs.commands.Row.{row};
ghost use Rattle.rp_model.specs.commands.Access.{row_access};
ghost use Rattle.rp_model.specs.commands.Audit.{row_audit};
ghost use Rattle.rp_model.specs.commands.Neighbours.{row_neighbours};
ghost use Rattle.rp_model.specs.commands.Section.{row_section};
ghost use Rattle.rp_answer.specs.Replies.{Tells};
ghost use Rattle.rp_register_state.specs.Rows.{Replies, reply_told};

use crate::state::State;
use rp_answer::{RowEnd, Verdict, Verdicts, one_line};
use rp_boxindex::Quiet;
use rp_command::Command;
use rp_lists::Name;
use rp_region::{Region, Work};
use rp_regionlots::{access, audit, neighbours};
use rp_register_state::{Reply, Row, carry_out};
use rp_rows::{access_lines, neighbour_lines, slice_lines};
use rp_section::section;
use std::alloc::Global;
use std::thread::Threads;

/// A run of at most so many pairs of lots is not split.
const GRAIN: usize = 16;

/// Returns the reply to a question.
fn told(asked: Result<Verdicts, RowEnd>) -> Result<Reply<Region>, RowEnd>
    ensures { result ≡ reply_told asked }
{
    Ok(Reply::Told(asked?))
}

/// Returns the slices of the parts of a form at a height.
fn slices(alloc: Global, form: &Region, z: i32) -> Result<Verdicts, RowEnd>
    requires few { length form.now ≤ most_parts }
    requires height { IsHeight z }
    ensures { (w : Work) → Tells result w (row_section first_tester z form.now w) }
{
    let slices = section(alloc, form, z)?;
    Ok(slice_lines(alloc, slices)?)
}

impl State {
    /// Carries out a command: its reply, or why there is none. Nothing is changed yet.
    pub(crate) fn carry_out<R: Threads + Sync>(
        &self,
        rt: &R,
        alloc: Global,
        command: &Command,
        work: &mut Work,
    ) -> Result<Reply<Region>, RowEnd>
        requires kept { AllByRecursion IsKeptExpression (expressions_of (command_of command.now)) }
        requires heights { AllByRecursion IsHeight (heights_of (command_of command.now)) }
        requires few { HasFewChildren (command_of command.now) }
        ensures { Replies (λ form. form) result work.new (row first_tester self.now (command_of command.now) work.old) }
    {
        match carry_out(alloc, self, command, work)? {
            Row::Replied(reply) => Ok(reply),
            Row::Neighbours(id) => told(self.neighbours(rt, alloc, id, work)),
            Row::Audit => told(self.audit(rt, alloc, work)),
            Row::Access(from, to) => told(self.access(rt, alloc, from, to, work)),
            Row::Section(form, z) => told(slices(alloc, &form, z)),
        }
    }

    /// Returns the other live lots of the lot's layer in contact with it.
    fn neighbours<R: Threads + Sync>(
        &self,
        rt: &R,
        alloc: Global,
        id: Name,
        work: &mut Work,
    ) -> Result<Verdicts, RowEnd>
        ensures { Tells result work.new (row_neighbours first_tester self.now id work.old) }
    {
        let ids = neighbours(rt, alloc, &Quiet, GRAIN, self, id, work)?;
        Ok(neighbour_lines(alloc, ids.items())?)
    }

    /// Returns how many live lots there are, of which no two of one layer share a point.
    fn audit<R: Threads + Sync>(
        &self,
        rt: &R,
        alloc: Global,
        work: &mut Work,
    ) -> Result<Verdicts, RowEnd>
        ensures { Tells result work.new (row_audit first_tester self.now work.old) }
    {
        self.keep_sound();
        let live = audit(rt, alloc, &Quiet, GRAIN, self, work)?;
        Ok(one_line(alloc, Verdict::Clear(live))?)
    }

    /// Returns a shortest chain of live lots of one layer from one to another, each in contact with the next, and the
    /// level of each lot of the layer that has one.
    fn access<R: Threads + Sync>(
        &self,
        rt: &R,
        alloc: Global,
        from: Name,
        to: Name,
        work: &mut Work,
    ) -> Result<Verdicts, RowEnd>
        ensures { Tells result work.new (row_access first_tester self.now from to work.old) }
    {
        let access = access(rt, alloc, &Quiet, GRAIN, self, from, to, work)?;
        Ok(access_lines(alloc, &access)?)
    }
}
