//! A walk through a tree of cells, which makes one step when it is told to.
ghost use Rattle.std.specs.Prelude.{◌≡◌, ◌+◌, ◌≤◌, ◌∷◌, [], ◌++◌, Bool, true, false, MatchOption};
ghost use Rattle.rp_geometry.specs.Geometry.{IntegerBox};
ghost use Rattle.rp_space.specs.Boxes.{integer_box};
ghost use Rattle.rp_boxindex.specs.cells.Walks.{pending_entries, are_none, is_done, IsFurther};
ghost use Rattle.rp_boxindex.specs.Meeting.{ids_that_meet};
ghost use Rattle.rp_boxindex.specs.tree.Taking.{taken};

use crate::cells::Cells;
use crate::place::Entry;
use crate::query::Query;
use crate::steps::Steps;
use crate::take::{Take, collect_one};
use crate::watch::Watch;
use arrayvec::ArrayVec;
use std::sync::ledger::Ledger;

/// A walk that hands the ids of the boxes that are looked for to its own taker. It leaves out the subtrees around which
/// the hull does not meet the box asked about.
///
/// Its first turns pass with no step: most searches by x end before.
///
/// It is lost where more trees are pending than it has room for, which no height of a tree of cells leads to, or where
/// its taker does not take an id. Then its taker tells nothing.
#[derive(Drop)]
pub(crate) struct Walk<'a, T> {
    pending: Pending<'a>,
    is_lost: bool,
    /// How many turns are still to pass.
    pauses: u8,
    taker: T,
}

/// The trees that a walk still has to go through. Room for more than one takes 2 KB to set up, and most walks make no
/// step. So the room is made before the first step.
#[derive(Drop)]
pub(crate) enum Pending<'a> {
    /// The whole tree, before the first step.
    Whole(&'a Cells),
    /// The trees that are left, the next one last.
    Trees(ArrayVec<Option<&'a Cells>, 130>),
}

impl<'a> Pending<'a> {
    /// Returns whether no tree is pending.
    fn is_empty(&self) -> bool
        ensures { result ≡ are_none self.now }
    {
        match self {
            Pending::Whole(_) => false,
            Pending::Trees(trees) => trees.is_empty(),
        }
    }
}

/// How many turns pass with no step.
const PAUSES: u8 = 20;

impl<'a, T: Take> Walk<'a, T> {
    /// Returns a walk that begins at the root of a tree.
    pub(crate) fn new(cells: &'a Cells, taker: T) -> Walk<'a, T>
        ensures pending { result.is_lost ≡ false → pending_entries result.pending ≡ cells.now.entries }
        ensures taker { result.taker ≡ taker }
    {
        Walk {
            pending: Pending::Whole(cells),
            is_lost: false,
            pauses: PAUSES,
            taker,
        }
    }

    /// Returns whether the walk has gone through the whole tree.
    pub(crate) fn is_done(&self) -> bool
        ensures { result ≡ is_done self.now }
    {
        !self.is_lost && self.pending.is_empty()
    }

    /// Returns the taker.
    pub(crate) fn into_taker(self) -> T
        ensures { result ≡ self.entry.taker }
    {
        self.taker
    }

    /// Makes two steps, unless this turn is one of the first.
    pub(crate) fn turn<W: Watch, L: Ledger>(
        &mut self,
        query: &Query,
        watch: &W,
        steps: &mut Steps<L>,
    )
        ensures rises { steps.old ≤ steps.new }
        ensures few { steps.new ≤ steps.old + 2 }
        ensures further { IsFurther T.after query.now.closed (integer_box query.now.bounds) self.old self.new }
    {
        if self.pauses > 0 {
            self.pauses -= 1;
            return;
        }
        self.begin();
        self.step(query, watch, steps);
        self.step(query, watch, steps);
    }

    /// Makes room for the pending trees if there is none yet. The whole tree is then the one that is pending.
    fn begin(&mut self)
        ensures further { (closed : Bool) (bounds : IntegerBox) → IsFurther T.after closed bounds self.old self.new }
    {
        let Pending::Whole(cells) = self.pending else {
            return;
        };
        self.pending = Pending::Trees(ArrayVec::new());
        self.add(cells);
    }

    /// Visits one node, if one is left.
    fn step<W: Watch, L: Ledger>(&mut self, query: &Query, watch: &W, steps: &mut Steps<L>)
        ensures rises { steps.old ≤ steps.new }
        ensures few { steps.new ≤ steps.old + 1 }
        ensures further { IsFurther T.after query.now.closed (integer_box query.now.bounds) self.old self.new }
    {
        let Some(cells) = self.next() else {
            return;
        };
        let Some(node) = cells.visit(watch, steps) else {
            return;
        };
        if !query.is_met_by(&node.hull) {
            return;
        }
        self.add(node.upper);
        self.add(node.lower);
        self.hand(&node.entry, query);
    }

    /// Hands the id of an entry whose box is looked for to the taker.
    fn hand(&mut self, entry: &Entry, query: &Query)
        ensures pending { self.new.pending ≡ self.old.pending }
        ensures lost { self.new.is_lost ≡ false → self.old.is_lost ≡ false }
        ensures taken { self.new.is_lost ≡ false → self.new.taker ≡ taken T.after self.old.taker (ids_that_meet query.now.closed (integer_box query.now.bounds) (entry.now ∷ [])) }
    {
        match collect_one(entry, query, &mut self.taker) {
            Ok(()) => {}
            Err(_) => self.is_lost = true,
        }
    }

    /// Removes the last of the pending trees and returns it. Returns `None` if there is none, or before room is made.
    fn next(&mut self) -> Option<&'a Cells>
        ensures pending { MatchOption result (pending_entries self.new.pending ≡ pending_entries self.old.pending) (λ cells. pending_entries self.old.pending ≡ cells.now.entries ++ pending_entries self.new.pending) }
        ensures done { are_none self.old.pending ≡ true → are_none self.new.pending ≡ true }
        ensures some { MatchOption result (self.new.is_lost ≡ self.old.is_lost) (λ _. are_none self.old.pending ≡ false) }
        ensures lost { self.new.is_lost ≡ self.old.is_lost }
        ensures taker { self.new.taker ≡ self.old.taker }
    {
        let Pending::Trees(trees) = &mut self.pending else {
            return None;
        };
        match trees.pop() {
            Some(Some(cells)) => Some(cells),
            Some(None) => None,
            None => None,
        }
    }

    /// Adds a tree after the pending ones. The walk is lost if there is no room.
    fn add(&mut self, cells: &'a Cells)
        ensures pending { self.new.is_lost ≡ false → pending_entries self.new.pending ≡ cells.now.entries ++ pending_entries self.old.pending }
        ensures lost { self.new.is_lost ≡ false → self.old.is_lost ≡ false }
        ensures taker { self.new.taker ≡ self.old.taker }
    {
        if cells.is_empty() {
            return;
        }
        let Pending::Trees(trees) = &mut self.pending else {
            self.is_lost = true;
            return;
        };
        match trees.try_push(Some(cells)) {
            Ok(()) => {}
            Err(_) => self.is_lost = true,
        }
    }
}
