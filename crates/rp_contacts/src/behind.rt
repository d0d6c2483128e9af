//! Live lots by their places, and the pairs of each with those behind it, in its layer, that may meet it.
ghost use Rattle.std.specs.Prelude.{◌≡◌, ◌&&◌, ◌<◌, ◌≤◌, ◌++◌, length, map, IfOk, OnOk};
ghost use Rattle.rp_history.specs.Lots.{lot_of};
ghost use Rattle.rp_history.specs.Places.{is_asked, live_places};
ghost use Rattle.rp_proximity.specs.Near.{pairs_with, AreWithin};
ghost use Rattle.rp_contacts.specs.Meets.{pair_of, parts_at};
ghost use Rattle.rp_lots.specs.Counted.{CountsUpTo};
ghost use Rattle.rp_contacts.specs.Behind.{lots_behind, tests_behind, AreNearBehind, ArePairsBehind};

use crate::pair::Pair;
use rp_history::History;
use rp_lists::Name;
use rp_lots::{Keeper, Near, form_at, lots_near};
use rp_oracle::{MAX_TESTS, Oracle, Stopped};
use rp_proximity::Reach;
use std::alloc::{AllocError, Global};

/// Pairs of lots, by their places, and how many pairs of their parts may meet.
#[derive(Drop)]
pub(crate) struct NearPairs {
    pub tests: u64,
    pub pairs: Vec<Pair>,
}

/// Returns the places of the live lots of `history`, in order: of those of `layer`, where one is given, and else of
/// all.
pub(crate) fn live_places(
    alloc: Global,
    history: &History,
    layer: Option<Name>,
) -> Result<Vec<usize>, AllocError>
    ensures places { IfOk result (λ places. places.items ≡ live_places layer 0 history.now) }
    ensures few { IfOk result (λ places. length places.items ≤ length history.now) }
{
    let lots = history.lots();
    let mut places = Vec::new(alloc);
    for place in history.live() {
        if is_asked(&lots[*place].layer, &layer) {
            places.push(*place)?;
        }
    }
    Ok(places)
}

/// Returns whether a layer is the one that is asked for, if one is.
fn is_asked(layer: &Name, asked: &Option<Name>) -> bool
    ensures { result ≡ is_asked asked.now layer.now }
{
    match asked {
        None => true,
        Some(one) => *layer == *one,
    }
}

/// Returns the live lots behind a live one, of its layer, that have a part that may meet one of its own. `Limit`
/// exactly where there are more pairs of such parts than a command may test.
fn later_near<T: Oracle, K: Keeper<T>>(
    alloc: Global,
    keeper: &K,
    place: usize,
    reach: Reach,
) -> Result<Near, Stopped>
    requires { place < length (K.state keeper.now).lots }
    ensures pairs { CountsUpTo (λ near. near.pairs) result (pairs_with reach (parts_at (K.state keeper.now).lots place) (lots_behind (K.state keeper.now).lots place)) }
    ensures near { IfOk result (λ near. AreNearBehind reach (K.state keeper.now).lots place near.places.items) }
{
    let lot = &keeper.history().lots()[place];
    let form = form_at::<T, K>(keeper, place);
    lots_near::<T, K>(alloc, keeper, form, &lot.layer, &lot.id, place + 1, reach)
}

/// Returns the pairs of each lot at `places` with the live lots of its layer behind it that have a part which may meet
/// one of its own, as `reach` says, in the order of the first and then of the second; and how many pairs of such parts
/// there are. `Limit` exactly where these are more than a command may test.
pub(crate) fn later_pairs<T: Oracle, K: Keeper<T>>(
    alloc: Global,
    keeper: &K,
    places: &[usize],
    reach: Reach,
) -> Result<NearPairs, Stopped>
    requires { AreWithin (K.state keeper.now).lots places.now }
    ensures tests { CountsUpTo (λ near. near.tests) result (tests_behind reach (K.state keeper.now).lots places.now) }
    ensures pairs { IfOk result (λ near. ArePairsBehind reach (K.state keeper.now).lots places.now near.pairs.items) }
{
    let mut tests = 0;
    let mut pairs = Vec::new(alloc);
    for place in places {
        let near = later_near::<T, K>(alloc, keeper, *place, reach)?;
        tests += near.pairs;
        if tests > MAX_TESTS as u64 {
            return Err(Stopped::Limit);
        }
        add_pairs(&mut pairs, *place, near.places.items())?;
    }
    Ok(NearPairs { tests, pairs })
}

/// Appends the pairs of a lot with each of some others, by their places.
fn add_pairs(pairs: &mut Vec<Pair>, first: usize, others: &[usize]) -> Result<(), AllocError>
    ensures { OnOk result (pairs.new.items ≡ pairs.old.items ++ map (pair_of first) others.now) }
{
    for second in others {
        pairs.push(Pair {
            first,
            second: *second,
        })?;
    }
    Ok(())
}
