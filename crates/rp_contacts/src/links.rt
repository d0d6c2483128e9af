//! Pairs of lots as pairs of the numbers of their places.
ghost use Rattle.std.specs.Prelude.{◌≡◌, ◌<◌, get_or, length, map, IfOk};
ghost use Rattle.std.specs.List.{AllByRecursion};
ghost use Rattle.rp_model.specs.states.State.{ids_of, most_kept_parts};
ghost use Rattle.rp_history.specs.Lots.{lot_of};
ghost use Rattle.rp_history.specs.Places.{AreRising, IsOneOf};
ghost use Rattle.rp_proximity.specs.Near.{lots_at, AreWithin};
ghost use Rattle.rp_contacts.specs.Numbers.{IsPairOf, AreBelow, placed, links_met};

use crate::pair::Pair;
use rp_history::LotLine;
use rp_lists::{Name, Names};
use std::alloc::{AllocError, Global};

/// What is left of `access` once its tests are counted: the ids of the live lots of the layer, and those pairs of them,
/// in order, that have parts which may touch, by their numbers among the ids and by their places among all lots. The
/// latter are to be judged, and [`access_told`](crate::access_told) tells the rest by the answers.
#[derive(Drop)]
pub struct AccessLeft {
    pub from: Name,
    pub to: Name,
    pub ids: Names,
    pub numbers: Vec<Pair>,
    pub pairs: Vec<Pair>,
}

/// Pairs of some rising places, as pairs of the numbers of these places.
pub(crate) fn numbered_pairs(
    alloc: Global,
    places: &[usize],
    pairs: &[Pair],
) -> Result<Vec<Pair>, AllocError>
    requires rising { AreRising places.now }
    requires there { AllByRecursion (IsPairOf places.now) pairs.now }
    ensures placed { IfOk result (λ made. map (placed places.now) made.items ≡ pairs.now) }
    ensures below { IfOk result (λ made. AllByRecursion (AreBelow (length places.now)) made.items) }
{
    let mut made = Vec::new(alloc);
    for pair in pairs {
        made.push(Pair {
            first: number_in(places, pair.first),
            second: number_in(places, pair.second),
        })?;
    }
    Ok(made)
}

/// Returns the number of a place among rising ones, of which it is one.
fn number_in(places: &[usize], place: usize) -> usize
    requires rising { AreRising places.now }
    requires there { IsOneOf places.now place }
    ensures below { result < length places.now }
    ensures there { get_or places.now result 0 ≡ place }
{
    match places.binary_search(&place) {
        Ok(number) => number,
        Err(_) => unreachable!(),
    }
}

/// Returns the pairs of numbers for which `met` says yes.
pub(crate) fn met_pairs(
    alloc: Global,
    pairs: &[Pair],
    met: &[bool],
) -> Result<Vec<(u32, u32)>, AllocError>
    requires below { AllByRecursion (AreBelow most_kept_parts) pairs.now }
    requires each { length pairs.now ≡ length met.now }
    ensures { IfOk result (λ links. links.items ≡ links_met pairs.now met.now) }
{
    let mut links = Vec::new(alloc);
    for i in 0..pairs.len() {
        if met[i] {
            links.push((pairs[i].first as u32, pairs[i].second as u32))?;
        }
    }
    Ok(links)
}

/// Returns the ids of the lots at some places.
pub(crate) fn ids_at(alloc: Global, lots: &[LotLine], places: &[usize]) -> Result<Names, AllocError>
    requires { AreWithin lots.now places.now }
    ensures { IfOk result (λ ids. ids.items ≡ ids_of (lots_at (map lot_of lots.now) places.now)) }
{
    let mut ids = Names::new(alloc);
    for place in places {
        ids.push(lots[*place].id)?;
    }
    Ok(ids)
}
