//! An index over boxes.
ghost use Rattle.std.specs.Prelude.{◌≡◌, ℕ, ◌+◌, ◌*◌, ◌≤◌, true, false, IfOk, IfErr, OnOk, OnErr};
ghost use Rattle.std.specs.FinMap as map;
ghost use Rattle.rp_space.specs.Boxes.{integer_box};
ghost use Rattle.rp_boxindex.specs.Bound.{count_on_x, IsGreatestExponent};
ghost use Rattle.rp_boxindex.specs.Fault.{is_known};
ghost use Rattle.rp_boxindex.specs.Meeting.{first_that, meeting_ids};

use crate::cells::{CellNode, Cells};
use crate::choice::Choice;
use crate::fault::IndexFault;
use crate::lows::Lows;
use crate::middle::Middle;
use crate::place::{Corner, Place};
use crate::query::Query;
use crate::search::collect;
use crate::steps::Steps;
use crate::take::{Ids, Least};
use crate::tree::{Node, Tree};
use crate::walk::Walk;
use crate::watch::Watch;
use rp_space::IntBox;
use std::alloc::{AllocError, Global};
use std::marker::Model;
use std::sync::ledger::Ledger;

/// Boxes under their ids. A contract sees the finite map from the ids to the boxes.
///
/// The boxes are in two trees, one by x and one by cells of space. Next to them is the least corner of each box, by
/// which the trees find an id.
#[derive(Drop)]
pub struct Index {
    lows: Lows,
    tree: Tree,
    cells: Cells,
}

impl Model for Index {
    ghost use Rattle.std.specs.FinMap as map;
    ghost use Rattle.std.specs.Coded.{coded_ℕ};
    ghost use Rattle.rp_boxindex.specs.Boxes.{Boxes, coded_box};
    ghost use Rattle.rp_boxindex.specs.Trees.{AreTrees};

    ghost Value = { Boxes };

    ghost coded = { map.code coded_ℕ coded_box };

    ghost view = { λ a. map.from_entries a.tree.entries };

    ghost invariant = { λ a. AreTrees a.tree.entries a.cells.entries a.lows.map.entries };
}

impl Index {
    /// Returns the index with no box. Takes no memory.
    pub fn new(alloc: Global) -> Index
        ensures { result ≡ map.empty }
    {
        Index {
            lows: Lows::new(alloc),
            tree: Tree::new(),
            cells: Cells::new(),
        }
    }

    /// Adds `bounds` under `id`, which has no box.
    ///
    /// # Errors
    ///
    /// `Known` iff `id` has a box; `Memory` only for want of memory. The index is then as it was.
    pub fn insert(&mut self, alloc: Global, id: u32, bounds: IntBox) -> Result<(), IndexFault>
        ensures new { OnOk result (map.contains_key self.old id ≡ false) }
        ensures ok { OnOk result (self.new ≡ map.insert self.old id bounds) }
        ensures known { IfErr result (λ fault. is_known fault ≡ map.contains_key self.old id) }
        ensures err { OnErr result (self.new ≡ self.old) }
    {
        // Fewer than 2^63 ids, so the tree is not too high, and none twice.
        self.lows.show_order();
        if self.lows.contains(id) {
            return Err(IndexFault::Known);
        }
        let entry = (id, bounds);
        let low = Corner::of(&entry);
        let node = Node::alone(alloc, entry)?;
        let cell = CellNode::alone(alloc, entry)?;
        self.lows.insert(id, low)?;
        let tree = self.tree.take();
        self.tree = tree.with(node);
        self.cells.put(cell, Middle::of_all());
        Ok(())
    }

    /// Puts `bounds` in the place of the box that `id` has. Returns whether it has one; otherwise the index is as it
    /// was. Takes no memory.
    pub fn change(&mut self, id: u32, bounds: IntBox) -> bool
        ensures there { result ≡ map.contains_key self.old id }
        ensures changed { result ≡ true → self.new ≡ map.insert self.old id bounds }
        ensures stays { result ≡ false → self.new ≡ self.old }
    {
        // Fewer than 2^63 ids, so the tree is not too high, and none twice.
        self.lows.show_order();
        let entry = (id, bounds);
        let Some(low) = self.lows.change(id, Corner::of(&entry)) else {
            return false;
        };
        let place = Place { low, id };
        let tree = self.tree.take();
        let (rest, node) = tree.without(&place);
        let Some(mut node) = node else { unreachable!() };
        node.hold(entry);
        self.tree = rest.with(node);
        let cells = self.cells.take();
        let (others, cell) = cells.without(&place);
        let Some(mut cell) = cell else { unreachable!() };
        cell.hold(entry);
        self.cells = others;
        self.cells.put(cell, Middle::of_all());
        true
    }

    /// Removes the box of `id`. Returns whether it had one. Takes no memory.
    pub fn remove(&mut self, id: u32) -> bool
        ensures there { result ≡ map.contains_key self.old id }
        ensures gone { self.new ≡ map.remove self.old id }
    {
        // Fewer than 2^63 ids, so the tree is not too high, and none twice.
        self.lows.show_order();
        let Some(low) = self.lows.remove(id) else {
            return false;
        };
        let place = Place { low, id };
        let tree = self.tree.take();
        let (rest, _) = tree.without(&place);
        self.tree = rest;
        let cells = self.cells.take();
        let (others, _) = cells.without(&place);
        self.cells = others;
        true
    }

    /// Returns the ids of the boxes that meet `bounds`, in rising order. Half-open boxes meet iff each begins before
    /// the other ends, on each axis; if `closed`, also if one begins where the other ends. `watch` is told of each node
    /// that is visited.
    ///
    /// One of `steps` is one node that is visited. Let h be the greatest number with 2^h <= (n + 1)^2 for n boxes, of
    /// which k meet `bounds` on the x axis. Then there are at most (k + 1) * (2h + 2).
    ///
    /// # Errors
    ///
    /// `AllocError` for want of memory.
    pub fn meeting<W: Watch, L: Ledger>(
        &self,
        alloc: Global,
        bounds: &IntBox,
        closed: bool,
        watch: &W,
        steps: &mut Steps<L>,
    ) -> Result<Vec<u32>, AllocError>
        ensures exact { IfOk result (λ ids. ids.items ≡ meeting_ids closed (integer_box bounds.now) self.now) }
        ensures rises { steps.old ≤ steps.new }
        ensures few { (h : ℕ) → IsGreatestExponent (map.len self.now) h → steps.new ≤ steps.old + (count_on_x closed (integer_box bounds.now) self.now + 1) * (2 * h + 2) }
    {
        // No id twice.
        self.lows.show_order();
        let query = Query {
            bounds: *bounds,
            closed,
        };
        let mut ids = Ids {
            list: Vec::new(alloc),
        };
        let others = Ids {
            list: Vec::new(alloc),
        };
        let mut walk = Walk::new(&self.cells, others);
        collect(&self.tree, &query, watch, steps, &mut ids, &mut walk)?;
        if walk.is_done() {
            return Ok(walk.into_taker().into_sorted());
        }
        Ok(ids.into_sorted())
    }

    /// Returns the least id that passes the test of `choice` and whose box meets `bounds`, if `closed` with boundaries,
    /// as [`Index::meeting`] says; `None` iff there is none. Takes no memory, and at most as many `steps` as
    /// [`Index::meeting`].
    pub fn first<C: Choice, W: Watch, L: Ledger>(
        &self,
        bounds: &IntBox,
        closed: bool,
        choice: &C,
        watch: &W,
        steps: &mut Steps<L>,
    ) -> Option<u32>
        ensures first { result ≡ first_that (C.passes choice.now) (meeting_ids closed (integer_box bounds.now) self.now) }
        ensures rises { steps.old ≤ steps.new }
        ensures few { (h : ℕ) → IsGreatestExponent (map.len self.now) h → steps.new ≤ steps.old + (count_on_x closed (integer_box bounds.now) self.now + 1) * (2 * h + 2) }
    {
        // No id twice.
        self.lows.show_order();
        let query = Query {
            bounds: *bounds,
            closed,
        };
        let mut least = Least { choice, id: None };
        let other = Least { choice, id: None };
        let mut walk = Walk::new(&self.cells, other);
        match collect(&self.tree, &query, watch, steps, &mut least, &mut walk) {
            Ok(()) => {}
            Err(never) => match never {},
        }
        if walk.is_done() {
            walk.into_taker().id
        } else {
            least.id
        }
    }
}
