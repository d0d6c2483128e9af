//! An entry more, or an entry less.
ghost use Rattle.std.specs.Prelude.{◌≡◌, ◌∷◌, ◌++◌, MatchOption, true, IfOk};
ghost use Rattle.std.specs.Option.{option_to_list};
ghost use Rattle.rp_space.specs.Boxes.{integer_box};
ghost use Rattle.rp_boxindex.specs.cells.Halves.{AreHalves};
ghost use Rattle.rp_boxindex.specs.cells.Nodes.{cell_entries, cell_entry, IsCell};
ghost use Rattle.rp_boxindex.specs.Counts.{count, SameCounts};
ghost use Rattle.rp_boxindex.specs.tree.Nodes.{is_within, AreWithin};
ghost use Rattle.rp_boxindex.specs.tree.Order.{is_at_place};

use super::{CellNode, Cells};
use crate::middle::Middle;
use crate::place::{Entry, Place};
use rp_space::IntBox;
use std::alloc::{AllocError, Global};

impl CellNode {
    /// Returns a node for an entry, with nothing below it; its middle and its hull are set where it is put into a tree.
    ///
    /// # Errors
    ///
    /// `AllocError` for want of memory.
    pub(crate) fn alone(alloc: Global, entry: Entry) -> Result<Box<CellNode>, AllocError>
        ensures { IfOk result (λ node. node.value.entry ≡ entry) }
    {
        let node = Box::new(
            alloc,
            CellNode {
                lower: Cells::new(),
                entry,
                middle: Middle::of_all(),
                hull: entry.1,
                upper: Cells::new(),
            },
        )?;
        Ok(node)
    }

    /// Puts another entry in the node; its middle and its hull are set where it is put into a tree.
    pub(crate) fn hold(&mut self, entry: Entry)
        ensures { self.new.entry ≡ entry }
    {
        self.entry = entry;
    }
}

impl Cells {
    /// Puts the entry of a node into the tree. `middle` is that of the tree's cell. Takes no memory.
    ///
    /// Each node on the way down keeps its place and the side that does not change. Its hull grows by the new box.
    pub(crate) fn put(&mut self, new: Box<CellNode>, middle: Middle)
        ensures { SameCounts self.new.entries (new.value.entry ∷ self.old.entries) }
    {
        let Some(mut node) = self.root.take() else {
            *self = join(Cells::new(), middle, new, Cells::new());
            return;
        };
        let place = Place::of(&new.entry);
        let next = node.middle.next(&place);
        node.hull = node.hull.union(&new.entry.1);
        if node.middle.is_upper(&place) {
            node.upper.put(new, next);
            self.root = Some(node);
            return;
        }
        node.lower.put(new, next);
        self.root = Some(node);
    }

    /// Returns the tree without the entry at a place, and the node of that entry, if there is one. Takes no memory.
    pub(crate) fn without(self, place: &Place) -> (Cells, Option<Box<CellNode>>)
        ensures entries { SameCounts self.entries (option_to_list (cell_entry result.1) ++ result.0.entries) }
        ensures gone { MatchOption (cell_entry result.1) (count (is_at_place place.now) self.entries ≡ 0) (λ e. is_at_place place.now e ≡ true) }
    {
        let Some((lower, node, upper)) = self.into_parts() else {
            return (Cells::new(), None);
        };
        let middle = node.middle;
        if node.is_at(place) {
            return (unite(lower, middle, upper), Some(node));
        }
        if middle.is_upper(place) {
            let (upper, gone) = upper.without(place);
            (join(lower, middle, node, upper), gone)
        } else {
            let (lower, gone) = lower.without(place);
            (join(lower, middle, node, upper), gone)
        }
    }
}

impl CellNode {
    /// Returns whether the entry is at a place.
    fn is_at(&self, place: &Place) -> bool
        ensures { result ≡ is_at_place place.now self.now.entry }
    {
        let own = Place::of(&self.entry);
        !place.precedes(&own) && !own.precedes(place)
    }
}

/// Returns the tree of the two halves of a cell, whose own node is gone. A half gives a node in its place, and so on
/// down to a leaf: so each node that stays keeps the middle of its cell.
fn unite(lower: Cells, middle: Middle, upper: Cells) -> Cells
    requires { AreHalves lower.entries middle upper.entries }
    ensures { SameCounts result.entries (lower.entries ++ upper.entries) }
{
    if let Some((first, node, second)) = lower.into_parts() {
        let rest = unite(first, node.middle, second);
        return join(rest, middle, node, upper);
    }
    let Some((first, node, second)) = upper.into_parts() else {
        return Cells::new();
    };
    let rest = unite(first, node.middle, second);
    join(Cells::new(), middle, node, rest)
}

/// Returns the tree of a node and of the two halves of its cell.
fn join(lower: Cells, middle: Middle, mut node: Box<CellNode>, upper: Cells) -> Cells
    requires { AreHalves lower.entries middle upper.entries }
    ensures { result.entries ≡ node.value.entry ∷ (lower.entries ++ upper.entries) }
{
    fill(&mut node, lower, middle, upper);
    Cells { root: Some(node) }
}

/// Puts two halves of a cell under its node.
fn fill(node: &mut CellNode, lower: Cells, middle: Middle, upper: Cells)
    requires { AreHalves lower.entries middle upper.entries }
    ensures settled { IsCell node.new }
    ensures entries { cell_entries node.new ≡ node.old.entry ∷ (lower.entries ++ upper.entries) }
{
    let hull = hull_with(&node.entry.1, &lower);
    node.hull = hull_with(&hull, &upper);
    node.middle = middle;
    node.lower = lower;
    node.upper = upper;
}

/// Returns a box around a box and the boxes of a tree.
fn hull_with(hull: &IntBox, cells: &Cells) -> IntBox
    ensures first { is_within (integer_box result) (integer_box hull.now) ≡ true }
    ensures all { AreWithin (integer_box result) cells.now.entries }
{
    match cells.hull() {
        None => *hull,
        Some(other) => hull.union(&other),
    }
}
