//! The boxes of lots: an index for each layer. Live lots of a layer have their boxes in one cube; lots that ended, in
//! the cubes of the stretches of lines in which they lived.
ghost use Rattle.std.specs.Prelude.{◌≡◌, ℕ, List, ◌+◌, ◌*◌, ◌/◌, ◌<◌, ◌≤◌, ◌∷◌, [], false, true, is_some, length, map, option_copied, unwrap_or, OnOk, OnErr};
ghost use Rattle.std.specs.FinMap as map;
ghost use Rattle.std.specs.Map.{lookup};
ghost use Rattle.rp_language.specs.Name.{label_eq};
ghost use Rattle.rp_model.specs.states.State.{most_kept_parts};
ghost use Rattle.rp_boxindex.specs.Fault.{is_known};
ghost use Rattle.rp_history.specs.Lots.{lot_of};
ghost use Rattle.rp_space.specs.Boxes.{integer_box};
ghost use Rattle.rp_lotindex.specs.Indexed.{all_moved, box_by, boxes_by, index_of, NoneBehind, OthersStay, ArePut, StaySame, IsTakenOut, IsSettled, AreRemoved};

use crate::bounded::Bounded;
use crate::cube::{moved, moved_past};
use crate::stretch::Stretch;
use indexmap::IndexMap;
use rp_boxindex::{Index, IndexFault};
use rp_history::{Birth, LotLine};
use rp_lists::Name;
use rp_space::IntBox;
use std::alloc::{AllocError, Global};
use std::fmt;

/// The number of ids of each place of a lot, one for each box that it may have.
const IDS: usize = 16;

/// The boxes of lots, under ids that their places in the history give. Each layer has an index of its own, so a search
/// in one layer visits no box of another one.
#[derive(Drop)]
pub struct LotBoxes {
    // A layer without an index has no boxes.
    pub(crate) layers: IndexMap<Name, Index>,
}

impl fmt::Debug for LotBoxes {
    fn fmt<W: fmt::Write>(&self, f: &mut fmt::Formatter<W>) -> fmt::Result {
        f.debug_struct("LotBoxes").finish_non_exhaustive()
    }
}

/// Returns the fault of memory for which a box was not added; its id had no box before.
fn want_of_memory(fault: IndexFault) -> AllocError
    requires { is_known fault ≡ false }
{
    match fault {
        IndexFault::Memory(error) => error,
        IndexFault::Known => unreachable!(),
    }
}

impl LotBoxes {
    /// Returns the table without boxes. Takes no memory.
    pub fn new(alloc: Global) -> LotBoxes
        ensures { (y : List ℕ) → index_of result y ≡ map.empty }
    {
        LotBoxes {
            layers: IndexMap::new(alloc),
        }
    }

    /// Returns the index of `layer`; `None` if the layer has no index, and so no boxes.
    pub(crate) fn index_of(&self, layer: &Name) -> Option<&Index>
        ensures { unwrap_or (option_copied result) map.empty ≡ index_of self.now layer.now }
    {
        self.layers.get(layer)
    }

    /// Adds `boxes`, those of a new live lot of `layer`, at `place`. The layer has no box at `place` or later. Each box
    /// is moved into the cube of live lots.
    ///
    /// # Errors
    /// `AllocError` if memory runs out. All boxes are then as before.
    pub fn add<B: Bounded>(
        &mut self,
        alloc: Global,
        place: usize,
        layer: &Name,
        boxes: &B,
    ) -> Result<(), AllocError>
        requires small { place ≤ most_kept_parts }
        requires free { NoneBehind (index_of self.old layer.now) place }
        ensures ok { OnOk result (ArePut (index_of self.old layer.now) (index_of self.new layer.now) place (all_moved (B.boxes boxes.now) ∷ [])) }
        ensures err { OnErr result (StaySame (index_of self.old layer.now) (index_of self.new layer.now)) }
        ensures others { OthersStay layer.now (index_of self.old) (index_of self.new) }
    {
        self.open(alloc, layer)?;
        match self.layers.get_mut(layer) {
            Some(index) => put_all(index, alloc, place, boxes),
            None => unreachable!(),
        }
    }

    /// Adds an empty index for `layer`, if it has none.
    fn open(&mut self, alloc: Global, layer: &Name) -> Result<(), AllocError>
        ensures there { OnOk result (is_some (lookup (label_eq layer.now) self.new.layers.entries) ≡ true) }
        ensures same { (y : List ℕ) → index_of self.new y ≡ index_of self.old y }
    {
        if !self.layers.contains_key(layer) {
            self.layers.insert(*layer, Index::new(alloc))?;
        }
        Ok(())
    }

    /// Removes the boxes of the lots of `births`, which are at the places from `first` on, in order. Takes no memory.
    pub fn remove_all(&mut self, first: usize, births: &[Birth])
        requires { first + length births.now ≤ most_kept_parts + 1 }
        ensures { AreRemoved (index_of self.old) (index_of self.new) first (map (λ b. b.layer) births.now) }
    {
        for i in 0..births.len() {
            self.remove(first + i, &births[i].layer);
        }
    }

    /// Removes the boxes of the lot of `layer` at `place`. Takes no memory.
    fn remove(&mut self, place: usize, layer: &Name)
        requires { place ≤ most_kept_parts }
        ensures gone { IsTakenOut (index_of self.old layer.now) (index_of self.new layer.now) place }
        ensures others { OthersStay layer.now (index_of self.old) (index_of self.new) }
    {
        if let Some(index) = self.layers.get_mut(layer) {
            take_out(index, place);
        }
    }

    /// Moves `boxes`, those of the lot at `place`, which is `lot` in its history. A live lot has its boxes in the cube
    /// of live lots; a lot that ended, in the cube for the lines in which it lived. If the index has none of the boxes,
    /// nothing changes. Takes no memory.
    pub fn settle<B: Bounded>(&mut self, place: usize, lot: &LotLine, boxes: &B)
        requires small { place ≤ most_kept_parts }
        ensures settled { IsSettled (index_of self.old lot.now.layer) (index_of self.new lot.now.layer) place (boxes_by (lot_of lot.now) (B.boxes boxes.now)) }
        ensures others { OthersStay lot.now.layer (index_of self.old) (index_of self.new) }
    {
        if let Some(index) = self.layers.get_mut(&lot.layer) {
            change_all(index, place, lot, boxes);
        }
    }
}

/// Adds `boxes` of the live lot at `place` to the index of its layer. After `AllocError` all boxes are as before.
fn put_all<B: Bounded>(
    index: &mut Index,
    alloc: Global,
    place: usize,
    boxes: &B,
) -> Result<(), AllocError>
    requires small { place ≤ most_kept_parts }
    requires free { NoneBehind index.old place }
    ensures ok { OnOk result (ArePut index.old index.new place (all_moved (B.boxes boxes.now) ∷ [])) }
    ensures err { OnErr result (StaySame index.old index.new) }
{
    for number in 0..boxes.count() {
        let bounds = moved(&boxes.bounds(number));
        if let Err(fault) = index.insert(alloc, id_of(place, number), bounds) {
            take_out(index, place);
            return Err(want_of_memory(fault));
        }
    }
    Ok(())
}

/// Removes the boxes of the lot at `place` from the index of its layer.
fn take_out(index: &mut Index, place: usize)
    requires { place ≤ most_kept_parts }
    ensures { IsTakenOut index.old index.new place }
{
    for id in place * IDS..(place + 1) * IDS {
        let _ = index.remove(id as u32);
    }
}

/// Moves `boxes` of `lot`, which is at `place`, to the cubes that [`settled`] gives.
fn change_all<B: Bounded>(index: &mut Index, place: usize, lot: &LotLine, boxes: &B)
    requires small { place ≤ most_kept_parts }
    ensures { IsSettled index.old index.new place (boxes_by (lot_of lot.now) (B.boxes boxes.now)) }
{
    for number in 0..boxes.count() {
        let bounds = settled(lot, &boxes.bounds(number));
        let _ = index.change(id_of(place, number), bounds);
    }
}

/// Returns the id of the box `number` of the lot at `place`.
fn id_of(place: usize, number: usize) -> u32
    requires small { place ≤ most_kept_parts }
    requires few { number < 16 }
    ensures { result ≡ place * 16 + number }
{
    (place * IDS + number) as u32
}

/// Returns the place of the lot whose box has `id`.
pub(crate) fn place_of(id: u32) -> usize
    ensures { result ≡ id / 16 }
{
    id as usize / IDS
}

/// Returns `bounds`, a box of `lot`, moved into the cube of live lots if the lot is live. Otherwise it is moved into
/// the cube for the lines in which the lot lived.
fn settled(lot: &LotLine, bounds: &IntBox) -> IntBox
    ensures { integer_box result ≡ box_by (lot_of lot.now) (integer_box bounds.now) }
{
    match lot.ended {
        None => moved(bounds),
        Some(line) => moved_past(&Stretch::of(lot.born, line), bounds),
    }
}
