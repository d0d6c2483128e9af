//! The row of each command: its checks and tests in order.
ghost use Rattle.std.specs.Prelude.{◌≡◌, IfOk};
ghost use Rattle.std.specs.List.{AllByRecursion};
ghost use Rattle.rp_command.specs.Views.{command_of, expression_of};
ghost use Rattle.rp_geometry.specs.sections.Trace.{IsHeight};
ghost use Rattle.rp_language.specs.Expression.{IsKeptExpression, expressions_of, heights_of, ask_section, HasFewChildren};
ghost use Rattle.rp_model.specs.commands.Row.{row};
ghost use Rattle.rp_answer.specs.Replies.{GoesOn};
ghost use Rattle.rp_register_state.specs.Rows.{rest_of, row_told, row_changed, IsReadyRow};

use crate::lots::{live_list, origins, owner, owner_then};
use crate::reply::{Reply, Row};
use rp_answer::{RowEnd, Verdicts, row_form};
use rp_changes::{consolidation, cutting, definition, registration, retirement};
use rp_command::{Command, Expr};
use rp_eval::Question;
use rp_lots::{Change, Registry};
use rp_oracle::Oracle;
use rp_rows::{comparison, emptiness, membership, piece_numbers, related, shown_parts};
use rp_subdivide::subdivision;
use std::alloc::Global;

/// Returns the row of a question that is answered.
fn told<F: Drop>(asked: Result<Verdicts, RowEnd>) -> Result<Row<F>, RowEnd>
    ensures { result ≡ row_told asked }
{
    Ok(Row::Replied(Reply::Told(asked?)))
}

/// Returns the row of a command that changes something.
fn changed<F: Drop>(change: Result<Change<F>, RowEnd>) -> Result<Row<F>, RowEnd>
    ensures { result ≡ row_changed change }
{
    Ok(Row::Replied(Reply::Changed(change?)))
}

/// Makes the checks of `command` and its tests, by `tests`, in order, up to its reply; nothing is changed in `keeper`
/// yet. Where pairs of lots are to be judged, or slices to be told, the question is left; of `section` the form is
/// made.
pub fn carry_out<T: Oracle, K: Registry<T>>(
    alloc: Global,
    keeper: &K,
    command: &Command,
    tests: &mut T,
) -> Result<Row<T::Form>, RowEnd>
    requires kept { AllByRecursion IsKeptExpression (expressions_of (command_of command.now)) }
    requires heights { AllByRecursion IsHeight (heights_of (command_of command.now)) }
    requires few { HasFewChildren (command_of command.now) }
    ensures goes_on { GoesOn (λ x. x) result tests.new (rest_of T.tester T.parts_of (K.state keeper.now)) (row T.tester (K.state keeper.now) (command_of command.now) tests.old) }
    ensures ready { IfOk result (IsReadyRow T.parts_of) }
{
    keeper.keep_meaning();
    match command {
        Command::Let(name, region) => changed(definition(alloc, keeper, *name, region, tests)),
        Command::Member(region, point) => told(membership::<T, K>(alloc, keeper, region, point)),
        Command::Empty(region) => told(emptiness(alloc, keeper, region, tests)),
        Command::Pieces(region) => told(piece_numbers(alloc, keeper, region, tests)),
        Command::Show(region) => told(shown_parts(alloc, keeper, region, tests)),
        Command::Equal(a, b) => told(comparison(alloc, keeper, Question::Equal, a, b, tests)),
        Command::Within(a, b) => told(comparison(alloc, keeper, Question::Within, a, b, tests)),
        Command::Overlap(a, b) => told(comparison(alloc, keeper, Question::Overlap, a, b, tests)),
        Command::Contact(a, b) => told(comparison(alloc, keeper, Question::Contact, a, b, tests)),
        Command::Rcc(a, b) => told(related(alloc, keeper, a, b, tests)),
        Command::Register(id, region) => changed(registration(alloc, keeper, *id, region, tests)),
        Command::Cut(id, by, first, second) => {
            changed(cutting(alloc, keeper, *id, by, *first, *second, tests))
        }
        Command::Subdivide(id, entries) => {
            changed(subdivision(alloc, keeper, *id, entries.items(), tests))
        }
        Command::Consolidate(new, ids) => {
            changed(consolidation(alloc, keeper, *new, ids.items(), tests))
        }
        Command::Retire(id) => changed(retirement::<T, K>(alloc, keeper, *id)),
        Command::Neighbours(id) => Ok(Row::Neighbours(*id)),
        Command::History(id) => told(origins::<T, K>(alloc, keeper, *id)),
        Command::At(point) => told(owner::<T, K>(alloc, keeper, point)),
        Command::Asof(line, point) => told(owner_then::<T, K>(alloc, keeper, *line, point)),
        Command::Audit => Ok(Row::Audit),
        Command::List => told(live_list::<T, K>(alloc, keeper)),
        Command::Layer(layer) => Ok(Row::Replied(Reply::Changed(Change::Layer(*layer)))),
        Command::Section(region, z) => formed(alloc, keeper, region, *z, tests),
        Command::Access(from, to) => Ok(Row::Access(*from, *to)),
    }
}

/// Begins `section`: returns the form of the expression, whose slices at the height are to be told.
fn formed<T: Oracle, K: Registry<T>>(
    alloc: Global,
    keeper: &K,
    region: &Expr,
    z: i32,
    tests: &mut T,
) -> Result<Row<T::Form>, RowEnd>
    requires kept { IsKeptExpression (expression_of region.now) }
    requires height { IsHeight z }
    ensures goes_on { GoesOn (λ x. x) result tests.new (rest_of T.tester T.parts_of (K.state keeper.now)) (row T.tester (K.state keeper.now) (ask_section (expression_of region.now) z) tests.old) }
    ensures ready { IfOk result (IsReadyRow T.parts_of) }
{
    keeper.keep_meaning();
    let form = row_form(alloc, keeper, region, tests)?;
    Ok(Row::Section(form, z))
}
