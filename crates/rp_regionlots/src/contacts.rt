//! The questions which lots are in contact.
ghost use Rattle.std.specs.Prelude.{◌≤◌, IfOk, length};
ghost use Rattle.rp_semantics.specs.Walk.{first_tester};
ghost use Rattle.rp_model.specs.states.State.{most_kept_parts};
ghost use Rattle.rp_model.specs.commands.Verdict.{neighbour_lines};
ghost use Rattle.rp_model.specs.commands.Reply.{reply_lines};
ghost use Rattle.rp_model.specs.commands.Access.{row_access};
ghost use Rattle.rp_model.specs.commands.Neighbours.{row_neighbours};
ghost use Rattle.rp_rows.specs.Access.{told_access};
ghost use Rattle.rp_contacts.specs.Asked.{Answers};

use crate::halves::meet_in_halves;
use rp_answer::RowEnd;
use rp_boxindex::Watch;
use rp_contacts::{access_left, access_told, contact_ids, pending_contacts};
use rp_lists::{Name, Names};
use rp_lots::Keeper;
use rp_proximity::Reach;
use rp_region::Work;
use rp_rows::Access;
use std::alloc::Global;
use std::thread::Threads;

/// Answers `neighbours`: the other live lots of the layer of the lot `id` in contact with it, in the order of
/// registration. `Unknown(id)` where it isn't live; `Limit` where more pairs of their parts have boxes that meet, the
/// boundary included, than may be tested.
///
/// The other live lots that have such a pair with it are judged in halves, of which one of at most `grain` is not
/// split; `watch` is told of each as its tests begin.
pub fn neighbours<R: Threads + Sync, W: Watch, K: Keeper<Work>>(
    rt: &R,
    alloc: Global,
    watch: &W,
    grain: usize,
    keeper: &K,
    id: Name,
    work: &mut Work,
) -> Result<Names, RowEnd>
    requires { 1 ≤ grain }
    ensures row { Answers (λ ids. reply_lines (neighbour_lines ids.items)) result work.new (row_neighbours first_tester (K.state keeper.now) id work.old) }
    ensures few { IfOk result (λ ids. length ids.items ≤ most_kept_parts) }
{
    let left = pending_contacts::<Work, K>(alloc, keeper, id, work)?;
    let met = meet_in_halves(
        rt,
        alloc,
        watch,
        grain,
        keeper.forms(),
        &left.pairs,
        Reach::Touch,
        work,
    )?;
    let lots = keeper.history().lots();
    Ok(contact_ids(alloc, lots, left.places.items(), &met)?)
}

/// Answers `access`: a shortest chain of live lots of one layer from the lot `from` to the lot `to`, each in contact
/// with the next, and the level of each lot of the layer that has one. Refusals, in this order: `Unknown(from)` and
/// `Unknown(to)` where one isn't live; `Layers(to)` where the layers differ. `Limit` where more pairs of parts of lots
/// of the layer have boxes that meet, the boundary included, than may be tested.
///
/// The pairs of live lots of the layer that have such a pair of parts are judged in halves, of which one of at most
/// `grain` is not split; `watch` is told of each as its tests begin.
pub fn access<R: Threads + Sync, W: Watch, K: Keeper<Work>>(
    rt: &R,
    alloc: Global,
    watch: &W,
    grain: usize,
    keeper: &K,
    from: Name,
    to: Name,
    work: &mut Work,
) -> Result<Access, RowEnd>
    requires { 1 ≤ grain }
    ensures { Answers (λ access. reply_lines (told_access access)) result work.new (row_access first_tester (K.state keeper.now) from to work.old) }
{
    let left = access_left::<Work, K>(alloc, keeper, from, to, work)?;
    let met = meet_in_halves(
        rt,
        alloc,
        watch,
        grain,
        keeper.forms(),
        &left.pairs,
        Reach::Touch,
        work,
    )?;
    Ok(access_told(alloc, &left, &met)?)
}
