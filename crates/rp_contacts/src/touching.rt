//! Which lots are in contact with one: before its pairs are judged, and behind.
ghost use Rattle.std.specs.Prelude.{◌≡◌, ◌<◌, ◌≤◌, IfOk, length, map};
ghost use Rattle.std.specs.List.{AllByRecursion};
ghost use Rattle.rp_model.specs.states.State.{most_kept_parts};
ghost use Rattle.rp_model.specs.commands.Neighbours.{row_neighbours};
ghost use Rattle.rp_history.specs.Lots.{lot_of};
ghost use Rattle.rp_proximity.specs.Near.{others_in, AreWithin};
ghost use Rattle.rp_contacts.specs.Asked.{LeavesContacts, touch_counted, LeavesPairs};
ghost use Rattle.rp_contacts.specs.Meets.{pair_of, parts_at, contact_ids, IsPairWithin};

use crate::pair::Pair;
use rp_answer::RowEnd;
use rp_history::LotLine;
use rp_lists::{Listed, Name, Names};
use rp_lots::{Keeper, count_tests, form_at, lots_near};
use rp_oracle::{Oracle, Stopped};
use rp_proximity::Reach;
use std::alloc::{AllocError, Global};

/// What is left of `neighbours` once its tests are counted: the places of the lots that may touch the one that is asked
/// for, and its pairs with them, in order, which are to be judged. [`contact_ids`] tells the neighbours by the answers.
#[derive(Drop)]
pub struct TouchLeft {
    pub places: Listed<usize>,
    pub pairs: Vec<Pair>,
}

/// Begins `neighbours`, up to the tests of pairs: the other live lots of the layer of the lot `id` that have a part
/// which may touch one of its own. `Unknown(id)` where it isn't live; `Limit` where more pairs of their parts have
/// boxes that meet, the boundary included, than may be tested.
pub fn pending_contacts<T: Oracle, K: Keeper<T>>(
    alloc: Global,
    keeper: &K,
    id: Name,
    tests: &mut T,
) -> Result<TouchLeft, RowEnd>
    ensures places { IfOk result (λ left. AreWithin (K.state keeper.now).lots left.places.items) }
    ensures within { IfOk result (λ left. AllByRecursion (IsPairWithin (K.state keeper.now).lots) left.pairs.items) }
    ensures each { IfOk result (λ left. length left.pairs.items ≡ length left.places.items) }
    ensures few { IfOk result (λ left. length left.places.items ≤ most_kept_parts) }
    ensures left { LeavesContacts result (K.state keeper.now).lots T.tester tests.new (row_neighbours T.tester (K.state keeper.now) id tests.old) }
{
    let history = keeper.history();
    let place = history.check_live(id)?;
    let layer = history.layer_of(&id);
    Ok(contacts_left::<T, K>(alloc, keeper, place, &layer, &id, tests)?)
}

/// Begins `neighbours` of the lot at `place`, as `pending_contacts`, behind the check on its id: the live lots of
/// `layer` with another id than `id` that have a part which may touch one of its own.
fn contacts_left<T: Oracle, K: Keeper<T>>(
    alloc: Global,
    keeper: &K,
    place: usize,
    layer: &Name,
    id: &Name,
    tests: &mut T,
) -> Result<TouchLeft, Stopped>
    requires { place < length (K.state keeper.now).lots }
    ensures places { IfOk result (λ left. AreWithin (K.state keeper.now).lots left.places.items) }
    ensures within { IfOk result (λ left. AllByRecursion (IsPairWithin (K.state keeper.now).lots) left.pairs.items) }
    ensures each { IfOk result (λ left. length left.pairs.items ≡ length left.places.items) }
    ensures few { IfOk result (λ left. length left.places.items ≤ most_kept_parts) }
    ensures left { LeavesPairs result (K.state keeper.now).lots T.tester tests.new (touch_counted T.tester (parts_at (K.state keeper.now).lots place) (others_in layer.now id.now (K.state keeper.now).lots) tests.old) }
{
    keeper.keep_limit();
    // Only so that it is known that each lot has few parts.
    let history = keeper.history();
    let form = form_at::<T, K>(keeper, place);
    let near = lots_near::<T, K>(alloc, keeper, form, layer, id, 0, Reach::Touch)?;
    count_tests(tests, near.pairs)?;
    let _ = history;
    let pairs = pairs_with(alloc, place, near.places.items())?;
    Ok(TouchLeft {
        places: near.places,
        pairs,
    })
}

/// Returns the pairs of a lot with each of some others, by their places.
fn pairs_with(alloc: Global, first: usize, others: &[usize]) -> Result<Vec<Pair>, AllocError>
    ensures { IfOk result (λ pairs. pairs.items ≡ map (pair_of first) others.now) }
{
    let mut pairs = Vec::new(alloc);
    for second in others {
        pairs.push(Pair {
            first,
            second: *second,
        })?;
    }
    Ok(pairs)
}

/// Returns the ids of the lots, of `lots`, at those of `places` for which `met` says yes, in order.
pub fn contact_ids(
    alloc: Global,
    lots: &[LotLine],
    places: &[usize],
    met: &[bool],
) -> Result<Names, AllocError>
    requires within { AreWithin lots.now places.now }
    requires each { length met.now ≡ length places.now }
    ensures ids { IfOk result (λ ids. ids.items ≡ contact_ids (map lot_of lots.now) places.now met.now) }
    ensures few { IfOk result (λ ids. length ids.items ≤ length places.now) }
{
    let mut ids = Names::new(alloc);
    for i in 0..places.len() {
        if met[i] {
            ids.push(lots[places[i]].id)?;
        }
    }
    Ok(ids)
}
