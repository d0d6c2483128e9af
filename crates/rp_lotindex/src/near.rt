//! The lots that may meet a shape, found by their boxes.
ghost use Rattle.std.specs.Prelude.{◌≡◌, ◌/◌, ◌<◌, ◌≤◌, nat_le, filter, length, map, IfOk};
ghost use Rattle.std.specs.List.Sorted.{IsStrictlySortedBy};
ghost use Rattle.std.specs.Ordering.{nat_cmp};
ghost use Rattle.rp_space.specs.Boxes.{integer_box};
ghost use Rattle.rp_history.specs.Lots.{lot_of};
ghost use Rattle.rp_lotindex.specs.Indexed.{index_of, NoneBehind};
ghost use Rattle.rp_lotindex.specs.Cubes.{live_number, in_turns};
ghost use Rattle.rp_proximity.specs.Near.{is_other_in, is_other_at, AreWithin};
ghost use Rattle.rp_lotindex.specs.Near.{places_by, places_each, places_met, AreOthers, AreNear};

use crate::axis::Axis;
use crate::bounded::Bounded;
use crate::boxes::{LotBoxes, place_of};
use crate::cube::{LIVE, moved_in};
use rp_boxindex::{Index, Steps, Watch};
use rp_history::{History, LotLine};
use rp_lists::{Listed, Name};
use rp_proximity::Reach;
use rp_space::IntBox;
use std::alloc::{AllocError, Global};
use std::marker::Brand;
use std::sync::ledger::{Blank, Ledger};

impl LotBoxes {
    /// Returns places of live lots in `history`, in rising order. A place is among them iff it is at or after `from`,
    /// its lot is of `layer` and is not `id`, and two boxes meet: one of the lot and one of `boxes`. Both are moved
    /// into the cube of live lots, and `reach` says when they meet. So every such lot with a part that may meet a part
    /// within `boxes` is among them. `watch` is called at each visited node, all of them nodes of the index of `layer`.
    ///
    /// # Errors
    ///
    /// `AllocError` if memory runs out.
    pub fn near<W: Watch, B: Bounded>(
        &self,
        alloc: Global,
        watch: &W,
        history: &History,
        boxes: &B,
        layer: &Name,
        id: &Name,
        from: usize,
        reach: Reach,
    ) -> Result<Listed<usize>, AllocError>
        requires from { from ≤ length history.now }
        requires behind { NoneBehind (index_of self.now layer.now) (length history.now) }
        ensures exact { IfOk result (λ places. AreOthers reach (B.boxes boxes.now) layer.now id.now from history.now (index_of self.now) places.items) }
        ensures near { IfOk result (λ places. AreNear reach (B.boxes boxes.now) layer.now id.now from history.now (index_of self.now) places.items) }
        ensures within { IfOk result (λ places. AreWithin history.now places.items) }
        ensures rising { IfOk result (λ places. IsStrictlySortedBy nat_cmp places.items) }
        ensures few { IfOk result (λ places. length places.items ≤ length history.now) }
    {
        let mut places = self.met(alloc, watch, boxes, layer, from, reach)?;
        places.sort_unstable();
        places.dedup();
        others(alloc, history, &places, layer, id)
    }

    /// Returns the places at or after `from` of the lots of `layer` of which a box meets one of `boxes`, as `reach`
    /// says. The boxes are moved into the cube of live lots.
    fn met<W: Watch, B: Bounded>(
        &self,
        alloc: Global,
        watch: &W,
        boxes: &B,
        layer: &Name,
        from: usize,
        reach: Reach,
    ) -> Result<Vec<usize>, AllocError>
        ensures { IfOk result (λ places. places.items ≡ places_met reach from (index_of self.now layer.now) (B.boxes boxes.now)) }
    {
        match self.index_of(layer) {
            Some(index) => met_each(alloc, watch, index, boxes, from, reach),
            None => Ok(Vec::new(alloc)),
        }
    }
}

/// Returns the places at or after `from` of the lots of which a box meets one of `boxes`, moved into the cube of live
/// lots. The places are in the order of `boxes`.
fn met_each<W: Watch, B: Bounded>(
    alloc: Global,
    watch: &W,
    index: &Index,
    boxes: &B,
    from: usize,
    reach: Reach,
) -> Result<Vec<usize>, AllocError>
    ensures { IfOk result (λ places. places.items ≡ places_met reach from index.now (B.boxes boxes.now)) }
{
    let mut places = Vec::new(alloc);
    for number in 0..boxes.count() {
        let bounds = boxes.bounds(number);
        let mut more = met_turned(alloc, watch, index, &bounds, from, reach)?;
        places.append(&mut more)?;
    }
    Ok(places)
}

/// Returns the places at or after `from` of the lots of which a box meets `bounds`, in each turn moved into the cube of
/// live lots.
fn met_turned<W: Watch>(
    alloc: Global,
    watch: &W,
    index: &Index,
    bounds: &IntBox,
    from: usize,
    reach: Reach,
) -> Result<Vec<usize>, AllocError>
    ensures { IfOk result (λ places. places.items ≡ places_each reach from index.now (in_turns live_number (integer_box bounds.now))) }
{
    let x = moved_in(Axis::X, LIVE, bounds);
    let y = moved_in(Axis::Y, LIVE, bounds);
    let z = moved_in(Axis::Z, LIVE, bounds);
    let mut places = met_by::<W, Brand>(alloc, watch, index, &x, from, reach, Blank::new(1))?;
    let mut beside = met_by::<W, Brand>(alloc, watch, index, &y, from, reach, Blank::new(1))?;
    let mut above = met_by::<W, Brand>(alloc, watch, index, &z, from, reach, Blank::new(1))?;
    places.append(&mut beside)?;
    places.append(&mut above)?;
    Ok(places)
}

/// Returns the places at or after `from` of the lots of which a box meets `bounds` as it is.
fn met_by<W: Watch, L: Ledger>(
    alloc: Global,
    watch: &W,
    index: &Index,
    bounds: &IntBox,
    from: usize,
    reach: Reach,
    blank: Blank,
) -> Result<Vec<usize>, AllocError>
    requires name { blank.name ≡ L.name }
    requires parts { blank.parts ≡ L.parts }
    requires some { 0 < L.parts }
    ensures { IfOk result (λ places. places.items ≡ places_by reach from index.now (integer_box bounds.now)) }
{
    let closed = matches!(reach, Reach::Touch);
    let mut steps = Steps::<L>::new(blank);
    let ids = index.meeting(alloc, bounds, closed, watch, &mut steps)?;
    places_from(alloc, &ids, from)
}

/// Returns the places at or after `from` of the lots whose boxes have `ids`.
fn places_from(alloc: Global, ids: &[u32], from: usize) -> Result<Vec<usize>, AllocError>
    ensures { IfOk result (λ places. places.items ≡ filter (λ k. nat_le from k) (map (λ id. id / 16) ids.now)) }
{
    ids.iter()
        .map(|id| place_of(*id))
        .filter(|place| from <= *place)
        .collect(alloc)
}

/// Returns whether `lot` is live, of `layer` and not `id`.
fn is_other(lot: &LotLine, layer: &Name, id: &Name) -> bool
    ensures { result ≡ is_other_in layer.now id.now (lot_of lot.now) }
{
    lot.ended.is_none() && lot.layer == *layer && *id != lot.id
}

/// Returns those of `places` whose lots are live, of `layer` and not `id`.
fn others(
    alloc: Global,
    history: &History,
    places: &[usize],
    layer: &Name,
    id: &Name,
) -> Result<Listed<usize>, AllocError>
    requires { AreWithin history.now places.now }
    ensures { IfOk result (λ list. list.items ≡ filter (is_other_at layer.now id.now history.now) places.now) }
{
    let mut list = Listed::new(alloc);
    let lots = history.lots();
    for place in places {
        if is_other(&lots[*place], layer, id) {
            list.push(*place)?;
        }
    }
    Ok(list)
}
