//! An entry more, or an entry less.
ghost use Rattle.std.specs.Prelude.{◌≡◌, ◌+◌, ◌≤◌, max, ◌∷◌, ◌++◌, MatchOption, true, IfOk};
ghost use Rattle.std.specs.Option.{option_to_list};
ghost use Rattle.rp_boxindex.specs.Boxes.{Entry};
ghost use Rattle.rp_boxindex.specs.Counts.{count, SameCounts};
ghost use Rattle.rp_boxindex.specs.tree.Nodes.{DifferByAtMost, IsSplit, entry_of};
ghost use Rattle.rp_boxindex.specs.tree.Order.{place_of, is_at_place, IsBetween};
ghost use Rattle.rp_boxindex.specs.tree.Views.{empty_tree};

use super::balance::balance;
use super::{Node, Tree};
use crate::place::{Entry, Place};
use std::alloc::{AllocError, Global};

impl Node {
    /// Returns a node for an entry, with nothing below it; its height, top and hull are set where it is put into a
    /// tree.
    pub(crate) fn alone(alloc: Global, entry: Entry) -> Result<Box<Node>, AllocError>
        ensures { IfOk result (λ node. node.value.entry ≡ entry) }
    {
        let top = entry.1.hi[0];
        let node = Box::new(
            alloc,
            Node {
                left: Tree::new(),
                entry,
                height: 1,
                top,
                hull: entry.1,
                right: Tree::new(),
            },
        )?;
        Ok(node)
    }

    /// Puts another entry in the node; its height, top and hull are set where it is put into a tree.
    pub(crate) fn hold(&mut self, entry: Entry)
        ensures { self.new.entry ≡ entry }
    {
        self.entry = entry;
    }
}

impl Tree {
    /// Returns the tree with the entry of a node put in its place, which is free. Takes no memory.
    pub(crate) fn with(self, new: Box<Node>) -> Tree
        requires fits { self.height ≤ 198 }
        requires free { count (is_at_place (place_of new.value.entry)) self.entries ≡ 0 }
        ensures entries { SameCounts result.entries (new.value.entry ∷ self.entries) }
        ensures not_lower { self.height ≤ result.height }
        ensures at_most_one_higher { result.height ≤ self.height + 1 }
    {
        match self.into_parts() {
            None => balance(Tree::new(), new, Tree::new()),
            Some((left, node, right)) => {
                if Place::of(&new.entry).precedes(&Place::of(&node.entry)) {
                    balance(left.with(new), node, right)
                } else {
                    balance(left, node, right.with(new))
                }
            }
        }
    }

    /// Returns the tree without the entry at a place, and the node of that entry, if there is one. Takes no memory.
    pub(crate) fn without(self, place: &Place) -> (Tree, Option<Box<Node>>)
        requires fits { self.height ≤ 198 }
        ensures entries { SameCounts self.entries (option_to_list (entry_of result.1) ++ result.0.entries) }
        ensures gone { MatchOption (entry_of result.1) (count (is_at_place place.now) self.entries ≡ 0) (λ e. is_at_place place.now e ≡ true) }
        ensures not_higher { result.0.height ≤ self.height }
        ensures at_most_one_lower { self.height ≤ result.0.height + 1 }
    {
        let Some((left, node, right)) = self.into_parts() else {
            return (Tree::new(), None);
        };
        let own = Place::of(&node.entry);
        if place.precedes(&own) {
            let (left, gone) = left.without(place);
            (balance(left, node, right), gone)
        } else if own.precedes(place) {
            let (right, gone) = right.without(place);
            (balance(left, node, right), gone)
        } else {
            (concat(left, right), Some(node))
        }
    }

    /// Returns the node of the first entry, and the tree of the others.
    fn split_first(self) -> Option<(Box<Node>, Tree)>
        requires fits { self.height ≤ 198 }
        ensures { MatchOption result (self ≡ empty_tree) (λ p. IsSplit self p.0.value.entry p.1) }
    {
        let (left, node, right) = self.into_parts()?;
        match left.split_first() {
            None => Some((node, right)),
            Some((first, rest)) => Some((first, balance(rest, node, right))),
        }
    }
}

/// Returns the tree of the two sides of a node that is gone.
fn concat(left: Tree, right: Tree) -> Tree
    requires between { (e : Entry) × IsBetween left.entries e right.entries }
    requires level { DifferByAtMost 1 left.height right.height }
    requires fits { max left.height right.height ≤ 198 }
    ensures entries { result.entries ≡ left.entries ++ right.entries }
    ensures not_lower { max left.height right.height ≤ result.height }
    ensures at_most_one_higher { result.height ≤ max left.height right.height + 1 }
{
    match right.split_first() {
        None => left,
        Some((first, rest)) => balance(left, first, rest),
    }
}
