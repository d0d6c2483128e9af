//! The row of each command, followed on the next lines of a report.
ghost use Rattle.std.specs.Prelude.{◌≡◌};
ghost use Rattle.std.specs.List.{AllByRecursion};
ghost use Rattle.rp_command.specs.Views.{command_of};
ghost use Rattle.rp_geometry.specs.sections.Trace.{IsHeight};
ghost use Rattle.rp_language.specs.Expression.{IsKeptExpression, expressions_of, heights_of, HasFewChildren};
ghost use Rattle.rp_model.specs.commands.Row.{row};
ghost use Rattle.rp_reports.specs.Check.{line_tester};
ghost use Rattle.rp_check_state.specs.Followed.{IsFollowed, followed_told};

use rp_answer::{RowEnd, Verdicts};
use rp_check_queries::{access, audit, neighbours};
use rp_check_state::{Followed, Register, section};
use rp_command::Command;
use rp_register_state::{Reply, Row, carry_out};
use rp_trail::Trail;
use std::alloc::Global;

/// Returns the reply to a question.
fn told(asked: Result<Verdicts, RowEnd>) -> Result<Followed, RowEnd>
    ensures { result ≡ followed_told asked }
{
    Ok(Followed::Replied(Reply::Told(asked?)))
}

/// Follows the row of `command` on the next lines. Returns its result, or the reason why it has no reply. Nothing is
/// changed yet.
pub(crate) fn carried_out(
    alloc: Global,
    register: &Register,
    command: &Command,
    trail: &mut Trail<'_>,
) -> Result<Followed, RowEnd>
    requires kept { AllByRecursion IsKeptExpression (expressions_of (command_of command.now)) }
    requires heights { AllByRecursion IsHeight (heights_of (command_of command.now)) }
    requires few { HasFewChildren (command_of command.now) }
    ensures { IsFollowed result trail.new (row line_tester register.now (command_of command.now) trail.old) }
{
    match carry_out(alloc, register, command, trail)? {
        Row::Replied(reply) => Ok(Followed::Replied(reply)),
        Row::Neighbours(id) => told(neighbours(alloc, register, id, trail)),
        Row::Audit => told(audit(alloc, register, trail)),
        Row::Access(from, to) => told(access(alloc, register, from, to, trail)),
        Row::Section(form, z) => section(alloc, &form, z, trail),
    }
}
