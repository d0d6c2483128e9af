//! A search tree over boxes by the cells of space in which their least corners are. Each node has one box of its cell,
//! two sides with the others, one for each half of the cell, and a box around all, the hull. It is a digital search
//! tree (Knuth, The Art of Computer Programming, volume 3, 6.3) over the digits of the corner and then of the id, as an
//! octree takes them (Finkel and Bentley, Quad trees: a data structure for retrieval on composite keys, 1974). So it is
//! at most 129 nodes high, though no contract needs to know.
ghost use Rattle.std.specs.Prelude.{◌≡◌, ◌+◌, MatchOption, true};
ghost use Rattle.rp_space.specs.Boxes.{integer_box};
ghost use Rattle.rp_boxindex.specs.cells.Nodes.{AreSides, IsShown};
ghost use Rattle.rp_boxindex.specs.cells.Views.{CellsView, empty_cells};
ghost use Rattle.rp_boxindex.specs.tree.Nodes.{AreWithin};

mod change;

use crate::middle::Middle;
use crate::place::Entry;
use crate::steps::Steps;
use crate::watch::Watch;
use rp_space::IntBox;
use std::marker::Model;
use std::mem;
use std::sync::ledger::Ledger;

/// A tree of cells. A contract sees its entries, each before those below it.
#[cycle(cells)]
#[derive(Drop)]
pub(crate) struct Cells {
    root: Option<Box<CellNode>>,
}

/// An entry with the sides below it, the middle of the cell and a box around the boxes here and below.
#[cycle(cells)]
#[derive(Drop)]
pub(crate) struct CellNode {
    lower: Cells,
    entry: Entry,
    middle: Middle,
    hull: IntBox,
    upper: Cells,
}

impl Model for Cells {
    ghost use Rattle.std.specs.Prelude.{length};
    ghost use Rattle.rp_boxindex.specs.cells.Views.{CellsView};

    ghost Value = { CellsView };

    // Behind the value, since they name the node, which has trees.
    ghost use Rattle.rp_boxindex.specs.cells.Nodes.{AreCells, cells_view};
    ghost use Rattle.std.proofs.Common.{arith, length-append};

    ghost view = { λ t. cells_view t.root };

    ghost invariant = { λ t. AreCells t.root };

    ghost size = { λ d. length d.entries };

    ghost size_decreases = { λ a h. Prim.grind (arith, length-append) };
}

/// What a node shows: its entry, a box around all boxes there and below, and its sides.
#[derive(Clone, Copy)]
pub(crate) struct CellVisit<'a> {
    pub(crate) entry: Entry,
    pub(crate) hull: IntBox,
    pub(crate) lower: &'a Cells,
    pub(crate) upper: &'a Cells,
}

impl Cells {
    /// Returns the tree with no entry.
    pub(crate) fn new() -> Cells
        ensures { result ≡ empty_cells }
    {
        Cells { root: None }
    }

    /// Returns whether there is no entry.
    pub(crate) fn is_empty(&self) -> bool
        ensures { result ≡ true → self.now ≡ empty_cells }
    {
        match &self.root {
            None => true,
            Some(_) => false,
        }
    }

    /// Visits the node at the root, if there is one. This is the one call that shows a node outside this module.
    pub(crate) fn visit<W: Watch, L: Ledger>(
        &self,
        watch: &W,
        steps: &mut Steps<L>,
    ) -> Option<CellVisit<'_>>
        ensures step { MatchOption result (steps.new ≡ steps.old) (λ _. steps.new ≡ steps.old + 1) }
        ensures shown { MatchOption result (self.now ≡ empty_cells) (λ v. IsShown self.now v.entry (integer_box v.hull) v.lower.now v.upper.now) }
    {
        let node = self.root.as_ref()?;
        watch.node();
        steps.tick();
        Some(CellVisit {
            entry: node.entry,
            hull: node.hull,
            lower: &node.lower,
            upper: &node.upper,
        })
    }

    /// Takes the tree out and leaves an empty one.
    pub(crate) fn take(&mut self) -> Cells
        ensures taken { result ≡ self.old }
        ensures left { self.new ≡ empty_cells }
    {
        mem::replace(self, Cells::new())
    }

    /// Returns a box around all boxes, if there is one.
    fn hull(&self) -> Option<IntBox>
        ensures { MatchOption result (self.now ≡ empty_cells) (λ hull. AreWithin (integer_box hull) self.now.entries) }
    {
        match &self.root {
            None => None,
            Some(node) => Some(node.hull),
        }
    }

    /// Returns the lower side of the root, its node without its sides, and the upper side.
    fn into_parts(self) -> Option<(Cells, Box<CellNode>, Cells)>
        ensures { MatchOption result (self ≡ empty_cells) (λ p. AreSides self p.0 p.1.value.middle p.1.value.entry p.2) }
    {
        let mut node = self.root?;
        let lower = node.lower.take();
        let upper = node.upper.take();
        Some((lower, node, upper))
    }
}
