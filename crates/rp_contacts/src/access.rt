//! Access from one lot to another, from each to one in contact with it: before the pairs of lots are judged, and
//! behind.
ghost use Rattle.std.specs.Prelude.{◌≡◌, ◌<◌, ◌≤◌, None, length, map, IfOk};
ghost use Rattle.std.specs.List.{AllByRecursion};
ghost use Rattle.rp_model.specs.states.State.{ids_of, place_among, layer_with_id, most_kept_parts};
ghost use Rattle.rp_model.specs.commands.Checks.{check_access};
ghost use Rattle.rp_model.specs.commands.Access.{access_by_links, row_access};
ghost use Rattle.rp_history.specs.Lots.{lot_of};
ghost use Rattle.rp_history.specs.Places.{AreRising};
ghost use Rattle.rp_rows.specs.Access.{told_access};
ghost use Rattle.rp_proximity.specs.Near.{lots_at, AreWithin};
ghost use Rattle.rp_contacts.specs.Meets.{IsPairWithin};
ghost use Rattle.rp_contacts.specs.Numbers.{IsPairOf, AreBelow, placed, links_met};
ghost use Rattle.rp_contacts.specs.Asked.{IsReady, LeavesAccess, LeavesLinks};

use crate::behind::{later_pairs, live_places};
use crate::links::{AccessLeft, ids_at, met_pairs, numbered_pairs};
use crate::pair::Pair;
use rp_answer::RowEnd;
use rp_history::LotLine;
use rp_lists::{Name, Names};
use rp_lots::{Keeper, count_tests};
use rp_oracle::{Oracle, Stopped};
use rp_proximity::Reach;
use rp_rows::Access;
use std::alloc::{AllocError, Global};

/// Begins `access` from the lot `from` to the lot `to`, up to the tests of pairs, which are counted in `tests`.
/// Refusals, in this order: `Unknown(from)` and `Unknown(to)` where one isn't live; `Layers(to)` where the layers
/// differ. `Limit` where more pairs of parts of lots of the layer have boxes that meet, the boundary included, than may
/// be tested.
pub fn access_left<T: Oracle, K: Keeper<T>>(
    alloc: Global,
    keeper: &K,
    from: Name,
    to: Name,
    tests: &mut T,
) -> Result<AccessLeft, RowEnd>
    ensures within { IfOk result (λ left. AllByRecursion (IsPairWithin (K.state keeper.now).lots) left.pairs.items) }
    ensures ready { IfOk result (λ left. IsReady left) }
    ensures left { LeavesLinks result (K.state keeper.now).lots T.tester tests.new (row_access T.tester (K.state keeper.now) from to tests.old) }
{
    let layer = keeper.history().check_access(from, to)?;
    Ok(layer_left::<T, K>(alloc, keeper, layer, from, to, tests)?)
}

/// Begins `access` from `from` to `to`, as `access_left`, behind the checks on both ids: they are live lots of `layer`.
fn layer_left<T: Oracle, K: Keeper<T>>(
    alloc: Global,
    keeper: &K,
    layer: Name,
    from: Name,
    to: Name,
    tests: &mut T,
) -> Result<AccessLeft, Stopped>
    requires checks { check_access (K.state keeper.now) from to ≡ None }
    requires layer { layer ≡ layer_with_id (K.state keeper.now) from }
    ensures within { IfOk result (λ left. AllByRecursion (IsPairWithin (K.state keeper.now).lots) left.pairs.items) }
    ensures ready { IfOk result (λ left. IsReady left) }
    ensures left { LeavesAccess result (K.state keeper.now).lots T.tester tests.new (row_access T.tester (K.state keeper.now) from to tests.old) }
{
    keeper.keep_limit();
    let history = keeper.history();
    let places = live_places(alloc, history, Some(layer))?;
    let near = later_pairs::<T, K>(alloc, keeper, &places, Reach::Touch)?;
    count_tests(tests, near.tests)?;
    let lots = history.lots();
    Ok(links_left(alloc, lots, &places, near.pairs, from, to)?)
}

/// Returns what is left where these pairs of lots at some rising places are to be judged.
fn links_left(
    alloc: Global,
    lots: &[LotLine],
    places: &[usize],
    pairs: Vec<Pair>,
    from: Name,
    to: Name,
) -> Result<AccessLeft, AllocError>
    requires places { AreWithin lots.now places.now }
    requires few { length places.now ≤ most_kept_parts }
    requires rising { AreRising places.now }
    requires pairs { AllByRecursion (IsPairOf places.now) pairs.items }
    requires from_there { place_among from (ids_of (lots_at (map lot_of lots.now) places.now)) < length (ids_of (lots_at (map lot_of lots.now) places.now)) }
    requires to_there { place_among to (ids_of (lots_at (map lot_of lots.now) places.now)) < length (ids_of (lots_at (map lot_of lots.now) places.now)) }
    ensures ready { IfOk result (λ left. IsReady left) }
    ensures ids { IfOk result (λ left. left.ids.items ≡ ids_of (lots_at (map lot_of lots.now) places.now)) }
    ensures from { IfOk result (λ left. left.from ≡ from) }
    ensures to { IfOk result (λ left. left.to ≡ to) }
    ensures pairs { IfOk result (λ left. left.pairs.items ≡ pairs.items) }
    ensures placed { IfOk result (λ left. map (placed places.now) left.numbers.items ≡ pairs.items) }
    ensures below { IfOk result (λ left. AllByRecursion (AreBelow (length places.now)) left.numbers.items) }
{
    let numbers = numbered_pairs(alloc, places, &pairs)?;
    let ids = ids_at(alloc, lots, places)?;
    Ok(AccessLeft {
        from,
        to,
        ids,
        numbers,
        pairs,
    })
}

/// Access, as `left` has it, where those of its pairs meet for which `met` says yes.
pub fn access_told(alloc: Global, left: &AccessLeft, met: &[bool]) -> Result<Access, AllocError>
    requires ready { IsReady left.now }
    requires each { length met.now ≡ length left.now.pairs.items }
    ensures { IfOk result (λ access. told_access access ≡ access_by_links left.now.ids.items (links_met left.now.numbers.items met.now) left.now.from left.now.to) }
{
    let links = met_pairs(alloc, &left.numbers, met)?;
    Access::along(alloc, left.ids.items(), &links, &left.from, &left.to)
}
