//! A search tree over boxes by their least corners, balanced after Adelson-Velsky and Landis (An algorithm for the
//! organization of information, 1962). Each node has the greatest x of the boxes there and below, as in the interval
//! trees of Cormen, Leiserson, Rivest and Stein (Introduction to Algorithms, Augmenting Data Structures), and a box
//! around them, the hull, as in the R-trees of Guttman (A dynamic index structure for spatial searching, 1984).
ghost use Rattle.std.specs.Prelude.{◌≡◌, ◌+◌, ◌<◌, length, MatchOption, true, false};
ghost use Rattle.rp_space.specs.Boxes.{integer_box};
ghost use Rattle.rp_boxindex.specs.tree.Nodes.{IsTop, AreWithin, IsSlender, AreParts};
ghost use Rattle.rp_boxindex.specs.tree.Views.{TreeView, empty_tree};

mod balance;
mod change;

use crate::place::Entry;
use crate::steps::Steps;
use crate::watch::Watch;
use rp_space::IntBox;
use std::marker::Model;
use std::mem;
use std::sync::ledger::Ledger;

/// A tree. A contract sees its entries in order, and its height.
#[cycle(tree)]
#[derive(Drop)]
pub(crate) struct Tree {
    root: Option<Box<Node>>,
}

/// An entry with the two sides below it, the height from here down, and of the boxes here and below the greatest x and
/// a box around them.
#[cycle(tree)]
#[derive(Drop)]
pub(crate) struct Node {
    left: Tree,
    entry: Entry,
    height: u8,
    top: i32,
    hull: IntBox,
    right: Tree,
}

impl Model for Tree {
    ghost use Rattle.std.specs.Prelude.{length};
    ghost use Rattle.rp_boxindex.specs.tree.Views.{TreeView};

    ghost Value = { TreeView };

    // Behind the value, since they name the node, which has trees.
    ghost use Rattle.rp_boxindex.specs.tree.Nodes.{IsTree, view_of};
    ghost use Rattle.std.proofs.Common.{arith, length-append};

    ghost view = { λ t. view_of t.root };

    ghost invariant = { λ t. IsTree t.root };

    ghost size = { λ d. length d.entries };

    ghost size_decreases = { λ a h. Prim.grind (arith, length-append) };
}

/// What a node shows: its sides, its entry, and of the boxes there and below the greatest x and a box around them.
#[derive(Clone, Copy)]
pub(crate) struct Visit<'a> {
    pub(crate) left: &'a Tree,
    pub(crate) entry: Entry,
    pub(crate) top: i32,
    pub(crate) hull: IntBox,
    pub(crate) right: &'a Tree,
}

impl Tree {
    /// Returns the tree with no entry.
    pub(crate) fn new() -> Tree
        ensures { result ≡ empty_tree }
    {
        Tree { root: None }
    }

    /// Returns whether there is no entry.
    pub(crate) fn is_empty(&self) -> bool
        ensures empty { result ≡ true → self.now ≡ empty_tree }
        ensures nonempty { result ≡ false → 0 < length self.now.entries }
        ensures slender { IsSlender (length self.now.entries) self.now.height }
    {
        match &self.root {
            None => true,
            Some(_) => false,
        }
    }

    /// Returns the height: the number of nodes on the longest way down.
    fn height(&self) -> u8
        ensures value { result ≡ self.now.height }
        ensures slender { IsSlender (length self.now.entries) self.now.height }
    {
        match &self.root {
            None => 0,
            Some(node) => node.height,
        }
    }

    /// Returns the greatest x of all boxes, if there is a box.
    fn top(&self) -> Option<i32>
        ensures { MatchOption result (self.now ≡ empty_tree) (λ top. IsTop top self.now.entries) }
    {
        match &self.root {
            None => None,
            Some(node) => Some(node.top),
        }
    }

    /// Returns a box around all boxes, if there is a box.
    fn hull(&self) -> Option<IntBox>
        ensures { MatchOption result (self.now ≡ empty_tree) (λ hull. AreWithin (integer_box hull) self.now.entries) }
    {
        match &self.root {
            None => None,
            Some(node) => Some(node.hull),
        }
    }

    /// Visits the node at the root. This is the one call that shows a node outside this module.
    pub(crate) fn visit<W: Watch, L: Ledger>(&self, watch: &W, steps: &mut Steps<L>) -> Visit<'_>
        requires nonempty { 0 < length self.now.entries }
        ensures step { steps.new ≡ steps.old + 1 }
        ensures parts { AreParts self.now result.left.now result.entry result.right.now }
        ensures top { IsTop result.top self.now.entries }
        ensures hull { AreWithin (integer_box result.hull) self.now.entries }
    {
        let Some(node) = &self.root else {
            unreachable!()
        };
        watch.node();
        steps.tick();
        Visit {
            left: &node.left,
            entry: node.entry,
            top: node.top,
            hull: node.hull,
            right: &node.right,
        }
    }

    /// Takes the tree out and leaves an empty one.
    pub(crate) fn take(&mut self) -> Tree
        ensures taken { result ≡ self.old }
        ensures left { self.new ≡ empty_tree }
        ensures slender { IsSlender (length self.old.entries) self.old.height }
    {
        // Only for what `height` ensures, that the tree is not too high for its entries.
        let _ = self.height();
        mem::replace(self, Tree::new())
    }

    /// Returns the left side of the root, its node without its sides, and the right side.
    fn into_parts(self) -> Option<(Tree, Box<Node>, Tree)>
        ensures { MatchOption result (self ≡ empty_tree) (λ p. AreParts self p.0 p.1.value.entry p.2) }
    {
        let mut node = self.root?;
        let left = node.left.take();
        let right = node.right.take();
        Some((left, node, right))
    }
}
