//! The lots from which a lot descends.
ghost use Rattle.std.specs.Prelude.{◌≡◌, ◌∷◌, [], reverse, IfOk, OnOk};
ghost use Rattle.rp_model.specs.states.State.{ids_of, lineage};
ghost use Rattle.rp_history.specs.Pending.{AddsPlaces};

use crate::history::History;
use rp_lists::{Name, Names};
use std::alloc::{AllocError, Global};
use std::collections::BTreeSet;

/// Returns the ids of the lot `id` and of all lots from which it descends, in the order of their births.
pub(crate) fn lineage_ids(alloc: Global, history: &History, id: &Name) -> Result<Names, AllocError>
    ensures { IfOk result (λ ids. ids.items ≡ ids_of (lineage id.now history.now)) }
{
    let mut ids = ids_down(alloc, history, id)?;
    ids.reverse();
    Names::copy_of(alloc, &ids)
}

/// Returns the ids of the lot `id` and of all lots from which it descends, from the last birth to the first. The
/// origins of a lot come before it, so a pending index that was removed never comes back.
fn ids_down(alloc: Global, history: &History, id: &Name) -> Result<Vec<Name>, AllocError>
    ensures { IfOk result (λ ids. reverse ids.items ≡ ids_of (lineage id.now history.now)) }
{
    let lots = history.lots();
    let mut ids = Vec::new(alloc);
    let mut pending = BTreeSet::new(alloc);
    add_place(&mut pending, history, id)?;
    while let Some(place) = pending.pop_last() {
        let lot = &lots[place];
        ids.push(lot.id)?;
        add_places(&mut pending, history, lot.origins.items())?;
    }
    Ok(ids)
}

/// Adds the indexes of the lots `ids` to `places`, each if it is in `history`.
fn add_places(
    places: &mut BTreeSet<usize>,
    history: &History,
    ids: &[Name],
) -> Result<(), AllocError>
    ensures { OnOk result (AddsPlaces ids.now history.now places.old.keys places.new.keys) }
{
    for id in ids {
        add_place(places, history, id)?;
    }
    Ok(())
}

/// Adds the index of the lot `id` to `places`, if it is in `history`.
fn add_place(places: &mut BTreeSet<usize>, history: &History, id: &Name) -> Result<(), AllocError>
    ensures { OnOk result (AddsPlaces (id.now ∷ []) history.now places.old.keys places.new.keys) }
{
    if let Some(place) = history.place_of(id) {
        places.insert(place)?;
    }
    Ok(())
}
