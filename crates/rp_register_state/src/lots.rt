//! The questions about lots that make no test.
ghost use Rattle.rp_language.specs.Expression.{ask_history, ask_at, ask_as_of, ask_list};
ghost use Rattle.rp_model.specs.commands.Row.{row};
ghost use Rattle.rp_answer.specs.Replies.{Tells};

use rp_answer::{RowEnd, Verdicts, one_line};
use rp_lists::Name;
use rp_lots::{Keeper, Registry};
use rp_oracle::Oracle;
use rp_proximity::Moment;
use rp_rows::{lineage, list, owner_verdict};
use rp_space::Point;
use std::alloc::Global;

/// Answers `at`: the live lot of the present layer that has the point.
pub(crate) fn owner<T: Oracle, K: Registry<T>>(
    alloc: Global,
    keeper: &K,
    point: &Point,
) -> Result<Verdicts, RowEnd>
    ensures { (w : T) → Tells result w (row T.tester (K.state keeper.now) (ask_at point.now) w) }
{
    let owner = keeper.owner(Moment::Now, point);
    Ok(one_line(alloc, owner_verdict(owner))?)
}

/// Answers `asof`: the lot of the present layer that had the point after a line.
pub(crate) fn owner_then<T: Oracle, K: Registry<T>>(
    alloc: Global,
    keeper: &K,
    line: u32,
    point: &Point,
) -> Result<Verdicts, RowEnd>
    ensures { (w : T) → Tells result w (row T.tester (K.state keeper.now) (ask_as_of line point.now) w) }
{
    let owner = keeper.owner(Moment::After(line), point);
    Ok(one_line(alloc, owner_verdict(owner))?)
}

/// Answers `list`: the live lots.
pub(crate) fn live_list<T: Oracle, K: Registry<T>>(
    alloc: Global,
    keeper: &K,
) -> Result<Verdicts, RowEnd>
    ensures { (w : T) → Tells result w (row T.tester (K.state keeper.now) ask_list w) }
{
    Ok(list(alloc, keeper.history())?)
}

/// Answers `history`: the lot and all lots that it was made from.
pub(crate) fn origins<T: Oracle, K: Registry<T>>(
    alloc: Global,
    keeper: &K,
    id: Name,
) -> Result<Verdicts, RowEnd>
    ensures { (w : T) → Tells result w (row T.tester (K.state keeper.now) (ask_history id) w) }
{
    lineage(alloc, keeper.history(), id)
}
