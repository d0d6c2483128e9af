//! The rows of the questions that a history of lots answers. They make no test.
ghost use Rattle.std.specs.Prelude.{◌≡◌, ◌≤◌, ◌++◌, IfOk, OnOk, length, map};
ghost use Rattle.rp_model.specs.states.State.{most_kept_parts, live_lots};
ghost use Rattle.rp_model.specs.commands.Verdict.{lot_lines};
ghost use Rattle.rp_answer.specs.Views.{verdict_of};
ghost use Rattle.rp_rows.specs.Lots.{list_lines, TellsHistory};

use crate::lot_lines::{add_each, lot_line};
use rp_answer::{Refusal, RowEnd, Verdict, Verdicts, one_line};
use rp_history::History;
use rp_lists::Name;
use std::alloc::{AllocError, Global};

/// Answers `history`: returns the verdict lines of the lot `id` and of all lots from which it was made.
///
/// # Errors
///
/// `Refused(Unknown(id))` iff `id` was never registered; otherwise only want of memory.
pub fn lineage(alloc: Global, history: &History, id: Name) -> Result<Verdicts, RowEnd>
    requires { length history.now ≤ most_kept_parts }
    ensures { TellsHistory result id history.now }
{
    if history.place_of(&id).is_none() {
        return Err(RowEnd::Refused(Refusal::Unknown(id)));
    }
    let ids = history.lineage(alloc, id)?;
    let mut lines = one_line(alloc, Verdict::Lots(ids.items().len() as u32))?;
    add_each(alloc, history, ids.items(), &mut lines)?;
    Ok(lines)
}

/// Answers `list`: returns the verdict lines of the live lots of `history`.
///
/// # Errors
///
/// `AllocError` if memory runs out.
pub fn list(alloc: Global, history: &History) -> Result<Verdicts, AllocError>
    requires { length history.now ≤ most_kept_parts }
    ensures { IfOk result (λ lines. map verdict_of lines.items ≡ list_lines history.now) }
{
    let mut lines = one_line(alloc, Verdict::Parcels(history.live_count() as u32))?;
    add_live(alloc, history, &mut lines)?;
    Ok(lines)
}

/// Appends the lines of the live lots of `history` to `lines`.
fn add_live(alloc: Global, history: &History, lines: &mut Verdicts) -> Result<(), AllocError>
    ensures { OnOk result (map verdict_of lines.new.items ≡ map verdict_of lines.old.items ++ lot_lines (live_lots history.now)) }
{
    let lots = history.lots();
    for place in history.live() {
        lines.push(lot_line(alloc, &lots[*place])?)?;
    }
    Ok(())
}
