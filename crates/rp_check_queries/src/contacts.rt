//! Commands that ask which lots are in contact, and whether all are apart.
ghost use Rattle.std.specs.Prelude.{◌≡◌, length, map, IfOk};
ghost use Rattle.rp_language.specs.Expression.{ask_access};
ghost use Rattle.rp_model.specs.commands.Access.{access_by_links};
ghost use Rattle.rp_model.specs.commands.Row.{row};
ghost use Rattle.rp_model.specs.commands.Audit.{row_audit};
ghost use Rattle.rp_model.specs.commands.Neighbours.{row_neighbours};
ghost use Rattle.rp_reports.specs.Check.{line_tester};
ghost use Rattle.rp_answer.specs.Replies.{Tells};
ghost use Rattle.rp_answer.specs.Views.{verdict_of};
ghost use Rattle.rp_contacts.specs.Asked.{IsReady};
ghost use Rattle.rp_contacts.specs.Numbers.{links_met};

use crate::turn::{meet_in_turn, show_apart_in_turn};
use rp_answer::{RowEnd, Verdict, Verdicts, one_line};
use rp_contacts::{
    AccessLeft, access_left, access_told, audit_left, contact_ids, pending_contacts,
};
use rp_lists::Name;
use rp_lots::Keeper;
use rp_proximity::Reach;
use rp_rows::{access_lines, neighbour_lines};
use rp_trail::Trail;
use std::alloc::{AllocError, Global};

/// Answers `neighbours`: the other live lots in contact with the lot `id`, of its layer, as the next lines of `trail`
/// show.
pub fn neighbours<'a, K: Keeper<Trail<'a>>>(
    alloc: Global,
    keeper: &K,
    id: Name,
    trail: &mut Trail<'a>,
) -> Result<Verdicts, RowEnd>
    ensures { Tells result trail.new (row_neighbours line_tester (K.state keeper.now) id trail.old) }
{
    let left = pending_contacts::<Trail<'a>, K>(alloc, keeper, id, trail)?;
    let met = meet_in_turn(alloc, keeper.forms(), &left.pairs, Reach::Touch, trail)?;
    let ids = contact_ids(alloc, keeper.history().lots(), left.places.items(), &met)?;
    Ok(neighbour_lines(alloc, ids.items())?)
}

/// Answers `access`: a shortest chain of live lots of one layer from `from` to `to`, each in contact with the next, and
/// the level of each lot of the layer that has one, as the next lines of `trail` show.
pub fn access<'a, K: Keeper<Trail<'a>>>(
    alloc: Global,
    keeper: &K,
    from: Name,
    to: Name,
    trail: &mut Trail<'a>,
) -> Result<Verdicts, RowEnd>
    ensures { Tells result trail.new (row line_tester (K.state keeper.now) (ask_access from to) trail.old) }
{
    let left = access_left::<Trail<'a>, K>(alloc, keeper, from, to, trail)?;
    let met = meet_in_turn(alloc, keeper.forms(), &left.pairs, Reach::Touch, trail)?;
    Ok(access_answer(alloc, &left, &met)?)
}

/// Returns the verdict lines of `access`, as `left` has it, where those of its pairs meet for which `met` says yes.
fn access_answer(alloc: Global, left: &AccessLeft, met: &[bool]) -> Result<Verdicts, AllocError>
    requires ready { IsReady left.now }
    requires each { length met.now ≡ length left.now.pairs.items }
    ensures { IfOk result (λ lines. map verdict_of lines.items ≡ access_by_links left.now.ids.items (links_met left.now.numbers.items met.now) left.now.from left.now.to) }
{
    let access = access_told(alloc, left, met)?;
    access_lines(alloc, &access)
}

/// Answers `audit`: how many live lots `keeper` has, of which no two of one layer share a point, as the next lines of
/// `trail` show. `TakenWrong` where a line shows that two do.
pub fn audit<'a, K: Keeper<Trail<'a>>>(
    alloc: Global,
    keeper: &K,
    trail: &mut Trail<'a>,
) -> Result<Verdicts, RowEnd>
    ensures { Tells result trail.new (row_audit line_tester (K.state keeper.now) trail.old) }
{
    let left = audit_left::<Trail<'a>, K>(alloc, keeper, trail)?;
    show_apart_in_turn(keeper.forms(), &left.pairs, trail)?;
    Ok(one_line(alloc, Verdict::Clear(left.live))?)
}
