//! Two sides and a node between them, put together by rotations.
ghost use Rattle.std.specs.Prelude.{◌≡◌, ◌+◌, ◌<◌, ◌≤◌, max, ◌∷◌, ◌++◌, ◌⊎◌, int_lt, int_le, true};
ghost use Rattle.rp_space.specs.Boxes.{integer_box};
ghost use Rattle.rp_boxindex.specs.Counts.{count};
ghost use Rattle.rp_boxindex.specs.tree.Nodes.{high, is_within, AreWithin, DifferByAtMost, IsSettled, entries_of};
ghost use Rattle.rp_boxindex.specs.tree.Order.{IsBetween};

use super::{Node, Tree};
use rp_space::IntBox;

/// Returns the tree of two sides that differ by at most two in height, and of a node between them.
pub(super) fn balance(left: Tree, node: Box<Node>, right: Tree) -> Tree
    requires between { IsBetween left.entries node.value.entry right.entries }
    requires level { DifferByAtMost 2 left.height right.height }
    requires fits { max left.height right.height ≤ 199 }
    ensures entries { result.entries ≡ left.entries ++ node.value.entry ∷ right.entries }
    ensures not_lower { max left.height right.height ≤ result.height }
    ensures at_most_one_higher { result.height ≤ max left.height right.height + 1 }
    ensures exact { DifferByAtMost 1 left.height right.height → result.height ≡ max left.height right.height + 1 }
{
    let (l, r) = (left.height(), right.height());
    if l > r + 1 {
        rotate_right(left, node, right)
    } else if r > l + 1 {
        rotate_left(left, node, right)
    } else {
        join(left, node, right)
    }
}

/// Returns the tree of `left`, `node` and `right`, in this order, where `left` is two levels higher than `right`.
fn rotate_right(left: Tree, node: Box<Node>, right: Tree) -> Tree
    requires between { IsBetween left.entries node.value.entry right.entries }
    requires leans { left.height ≡ right.height + 2 }
    requires fits { left.height ≤ 199 }
    ensures entries { result.entries ≡ left.entries ++ node.value.entry ∷ right.entries }
    ensures not_lower { left.height ≤ result.height }
    ensures at_most_one_higher { result.height ≤ left.height + 1 }
{
    let Some((a, j, b)) = left.into_parts() else {
        unreachable!()
    };
    if a.height() >= b.height() {
        return join(a, j, join(b, node, right));
    }
    let Some((u, i, v)) = b.into_parts() else {
        unreachable!()
    };
    join(join(a, j, u), i, join(v, node, right))
}

/// Returns the tree of `left`, `node` and `right`, in this order, where `right` is two levels higher than `left`.
fn rotate_left(left: Tree, node: Box<Node>, right: Tree) -> Tree
    requires between { IsBetween left.entries node.value.entry right.entries }
    requires leans { right.height ≡ left.height + 2 }
    requires fits { right.height ≤ 199 }
    ensures entries { result.entries ≡ left.entries ++ node.value.entry ∷ right.entries }
    ensures not_lower { right.height ≤ result.height }
    ensures at_most_one_higher { result.height ≤ right.height + 1 }
{
    let Some((b, j, c)) = right.into_parts() else {
        unreachable!()
    };
    if c.height() >= b.height() {
        return join(join(left, node, b), j, c);
    }
    let Some((u, i, v)) = b.into_parts() else {
        unreachable!()
    };
    join(join(left, node, u), i, join(v, j, c))
}

/// Returns the tree of `left`, `node` and `right`, in this order, where the sides differ by at most one level.
fn join(left: Tree, mut node: Box<Node>, right: Tree) -> Tree
    requires between { IsBetween left.entries node.value.entry right.entries }
    requires level { DifferByAtMost 1 left.height right.height }
    requires fits { max left.height right.height ≤ 200 }
    ensures entries { result.entries ≡ left.entries ++ node.value.entry ∷ right.entries }
    ensures height { result.height ≡ max left.height right.height + 1 }
{
    fill(&mut node, left, right);
    Tree { root: Some(node) }
}

/// Puts two sides under a node.
fn fill(node: &mut Node, left: Tree, right: Tree)
    requires between { IsBetween left.entries node.old.entry right.entries }
    requires level { DifferByAtMost 1 left.height right.height }
    requires fits { max left.height right.height ≤ 200 }
    ensures settled { IsSettled node.new }
    ensures entries { entries_of node.new ≡ left.entries ++ node.old.entry ∷ right.entries }
    ensures height { node.new.height ≡ max left.height right.height + 1 }
{
    node.height = left.height().max(right.height()) + 1;
    node.top = top_with(top_with(node.entry.1.hi[0], &left), &right);
    let hull = hull_with(&node.entry.1, &left);
    node.hull = hull_with(&hull, &right);
    node.left = left;
    node.right = right;
}

/// Returns the greatest of a number and the x of a tree's boxes.
fn top_with(top: i32, tree: &Tree) -> i32
    ensures above { int_le top result ≡ true }
    ensures all { count (λ e. int_lt result (high e)) tree.now.entries ≡ 0 }
    ensures one { (result ≡ top) ⊎ (0 < count (λ e. int_le result (high e)) tree.now.entries) }
{
    match tree.top() {
        None => top,
        Some(x) => { if x < top { top } else { x } }
    }
}

/// Returns a box around a box and the boxes of a tree.
fn hull_with(hull: &IntBox, tree: &Tree) -> IntBox
    ensures first { is_within (integer_box result) (integer_box hull.now) ≡ true }
    ensures all { AreWithin (integer_box result) tree.now.entries }
{
    match tree.hull() {
        None => *hull,
        Some(other) => hull.union(&other),
    }
}
