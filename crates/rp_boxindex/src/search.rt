//! The search of an index for the boxes that meet a box. It goes through two trees in turn.
//!
//! In the tree by x it leaves out the subtrees in which no box can meet: those that end before the box begins on the x
//! axis, those around which the hull does not meet it, and what stands behind a box that begins after its end. For each
//! box that it sees to meet on the x axis, a walk through the tree of cells has a turn of two steps. The search ends
//! with the one that ends first. So the walk makes few steps where few boxes meet on the x axis, and there are few in
//! all where many do.
ghost use Rattle.std.specs.Prelude.{◌≡◌, ◌+◌, ◌*◌, ◌≤◌, ◌∷◌, [], false, length, OnOk};
ghost use Rattle.rp_space.specs.Boxes.{integer_box};
ghost use Rattle.rp_boxindex.specs.Bound.{meets_on_x};
ghost use Rattle.rp_boxindex.specs.cells.Walks.{is_done, IsFurther};
ghost use Rattle.rp_boxindex.specs.Counts.{count};
ghost use Rattle.rp_boxindex.specs.Meeting.{ids_that_meet};
ghost use Rattle.rp_boxindex.specs.tree.Cost.{AllLow, most_steps, most_steps_low};
ghost use Rattle.rp_boxindex.specs.tree.Nodes.{IsSlender};
ghost use Rattle.rp_boxindex.specs.tree.Taking.{taken};

use crate::place::Entry;
use crate::query::Query;
use crate::steps::Steps;
use crate::take::{Take, collect_one};
use crate::tree::Tree;
use crate::walk::Walk;
use crate::watch::Watch;
use std::sync::ledger::Ledger;

/// Hands the ids of the boxes of a tree that are looked for to a taker, in the order of the tree, up to one that isn't
/// taken, or until `walk` is done. In any case the steps keep within the bound.
pub(crate) fn collect<T: Take, W: Watch, L: Ledger>(
    tree: &Tree,
    query: &Query,
    watch: &W,
    steps: &mut Steps<L>,
    taker: &mut T,
    walk: &mut Walk<'_, T>,
) -> Result<(), T::Fault>
    ensures found { OnOk result (is_done walk.new ≡ false → taker.new ≡ taken T.after taker.old (ids_that_meet query.now.closed (integer_box query.now.bounds) tree.now.entries)) }
    ensures further { IsFurther T.after query.now.closed (integer_box query.now.bounds) walk.old walk.new }
    ensures slender { IsSlender (length tree.now.entries) tree.now.height }
    ensures rises { steps.old ≤ steps.new }
    ensures most { steps.new ≤ steps.old + most_steps (count (meets_on_x query.now.closed (integer_box query.now.bounds)) tree.now.entries) tree.now.height }
    ensures most_low { AllLow query.now.closed (integer_box query.now.bounds) tree.now.entries → steps.new ≤ steps.old + most_steps_low (count (meets_on_x query.now.closed (integer_box query.now.bounds)) tree.now.entries) tree.now.height }
{
    if tree.is_empty() {
        return Ok(());
    }
    if walk.is_done() {
        return Ok(());
    }
    let node = tree.visit(watch, steps);
    if !query.is_reached_from(node.top) {
        return Ok(());
    }
    take_turn(&node.entry, query, watch, steps, walk);
    if !query.is_met_by(&node.hull) {
        return Ok(());
    }
    collect(node.left, query, watch, steps, taker, walk)?;
    if !query.reaches(node.entry.1.lo[0]) {
        return Ok(());
    }
    collect_one(&node.entry, query, taker)?;
    collect(node.right, query, watch, steps, taker, walk)
}

/// Gives the walk a turn of at most two steps if the box of an entry meets the one asked about on the x axis.
fn take_turn<T: Take, W: Watch, L: Ledger>(
    entry: &Entry,
    query: &Query,
    watch: &W,
    steps: &mut Steps<L>,
    walk: &mut Walk<'_, T>,
)
    ensures further { IsFurther T.after query.now.closed (integer_box query.now.bounds) walk.old walk.new }
    ensures rises { steps.old ≤ steps.new }
    ensures few { steps.new ≤ steps.old + 2 * count (meets_on_x query.now.closed (integer_box query.now.bounds)) (entry.now ∷ []) }
{
    if query.is_met_on_x(entry) {
        walk.turn(query, watch, steps);
    }
}
