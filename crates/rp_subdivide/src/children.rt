//! The checks of the children of a subdivision.
ghost use Rattle.std.specs.Prelude.{◌≡◌, ◌+◌, ◌*◌, ◌≤◌, length, map, not, option_map, IfOk};
ghost use Rattle.std.specs.List.{AllByRecursion};
ghost use Rattle.rp_semantics.specs.Walk.{Walk};
ghost use Rattle.rp_semantics.specs.Compare.{is_covered};
ghost use Rattle.rp_semantics.specs.Form.{near_pair, subtract};
ghost use Rattle.rp_model.specs.commands.Verdict.{empty_child, outside_lot, children_overlap};
ghost use Rattle.rp_model.specs.commands.Reply.{Reply};
ghost use Rattle.rp_model.specs.commands.Subdivide.{child_parts, first_empty_child, first_outside_child, first_overlapping_child, first_overlapping_children};
ghost use Rattle.rp_model.specs.commands.Parts.{joined_parts, count_with_each, count_among};
ghost use Rattle.rp_answer.specs.Replies.{GoesOn};
ghost use Rattle.rp_oracle.specs.Refines.{Refines};
ghost use Rattle.rp_subdivide.specs.Children.{formed_child, IsShort};
ghost use Rattle.rp_subdivide.specs.Steps.{inside_tested, apart_tested, cover_tested};

use crate::child::Child;
use rp_answer::{Refusal, RowEnd};
use rp_eval::{is_empty, within};
use rp_lists::Names;
use rp_lots::{Keeper, Overlaps, count_pairs, count_parts, count_tests};
use rp_oracle::{Oracle, Stopped};
use rp_proximity::Reach;
use std::alloc::{AllocError, Global};

/// Returns the ids of `children`, in order.
pub(crate) fn child_ids<T: Oracle>(
    alloc: Global,
    children: &[Child<T::Form>],
) -> Result<Names, AllocError>
    ensures { IfOk result (λ ids. ids.items ≡ map (λ c. c.id) (map (formed_child T.parts_of) children.now)) }
{
    let mut ids = Names::new(alloc);
    for child in children {
        ids.push(child.id)?;
    }
    Ok(ids)
}

/// Returns the number of the first child that has no part.
pub(crate) fn first_empty<T: Oracle>(children: &[Child<T::Form>]) -> Option<u32>
    requires { length children.now ≤ 1024 }
    ensures { option_map empty_child result ≡ first_empty_child 1 (map (formed_child T.parts_of) children.now) }
{
    let mut number = 1;
    for child in children {
        if count_parts::<T>(&child.form) == 0 {
            return Some(number);
        }
        number += 1;
    }
    None
}

/// Returns the number of parts that `children` have together.
pub(crate) fn count_all<T: Oracle>(children: &[Child<T::Form>]) -> usize
    requires few { length children.now ≤ 1024 }
    requires short { AllByRecursion (IsShort T.parts_of) children.now }
    ensures { result ≡ length (joined_parts (child_parts (map (formed_child T.parts_of) children.now))) }
{
    let mut count = 0;
    for child in children {
        count += count_parts::<T>(&child.form);
    }
    count
}

/// Checks that each of `children` is within `whole`. `Outside` with the number of the first that is not.
pub(crate) fn check_inside<T: Oracle>(
    alloc: Global,
    whole: &T::Form,
    children: &[Child<T::Form>],
    tests: &mut T,
) -> Result<(), RowEnd>
    requires { length children.now ≤ 1024 }
    ensures { (rest : Walk T Reply) → GoesOn (λ x. x) result tests.new (λ _. rest) (inside_tested T.tester (T.parts_of whole.now) (map (formed_child T.parts_of) children.now) rest tests.old) }
{
    match first_outside(alloc, whole, children, tests)? {
        Some(number) => Err(RowEnd::Refused(Refusal::Outside(number))),
        None => Ok(()),
    }
}

/// Returns the number of the first child that has a point outside `whole`.
fn first_outside<T: Oracle>(
    alloc: Global,
    whole: &T::Form,
    children: &[Child<T::Form>],
    tests: &mut T,
) -> Result<Option<u32>, Stopped>
    requires { length children.now ≤ 1024 }
    ensures { Refines (option_map outside_lot) result tests.new (first_outside_child T.tester (T.parts_of whole.now) 1 (map (formed_child T.parts_of) children.now) tests.old) }
{
    let mut number = 1;
    for child in children {
        if !within(alloc, &child.form, whole, tests)? {
            return Ok(Some(number));
        }
        number += 1;
    }
    Ok(None)
}

/// Checks that no two of `children` share a point. As many tests are counted as there are pairs of parts of two
/// children whose boxes share more than boundary.
pub(crate) fn check_apart<T: Oracle, K: Overlaps<T>>(
    alloc: Global,
    children: &[Child<T::Form>],
    tests: &mut T,
) -> Result<(), RowEnd>
    requires few { length children.now ≤ 1024 }
    requires short { AllByRecursion (IsShort T.parts_of) children.now }
    ensures { (rest : Walk T Reply) → GoesOn (λ x. x) result tests.new (λ _. rest) (apart_tested T.tester (map (formed_child T.parts_of) children.now) rest tests.old) }
{
    count_tests(tests, count_near::<T, K>(children))?;
    match first_overlapping::<T, K>(alloc, children, tests)? {
        Some((first, second)) => Err(RowEnd::Refused(Refusal::ChildrenOverlap(first, second))),
        None => Ok(()),
    }
}

/// Returns the number of pairs of parts of two children whose boxes share more than boundary.
fn count_near<T: Oracle, K: Keeper<T>>(children: &[Child<T::Form>]) -> u64
    requires few { length children.now ≤ 1024 }
    requires short { AllByRecursion (IsShort T.parts_of) children.now }
    ensures { result ≡ count_among near_pair (child_parts (map (formed_child T.parts_of) children.now)) }
{
    let mut pairs = 0;
    for place in 0..children.len() {
        pairs += count_near_with::<T, K>(&children[place], &children[place + 1..]);
    }
    pairs
}

/// Returns the number of pairs of a part of `child` and a part of one of `others` whose boxes share more than boundary.
fn count_near_with<T: Oracle, K: Keeper<T>>(
    child: &Child<T::Form>,
    others: &[Child<T::Form>],
) -> u64
    requires one { IsShort T.parts_of child.now }
    requires few { length others.now ≤ 1024 }
    requires short { AllByRecursion (IsShort T.parts_of) others.now }
    ensures value { result ≡ count_with_each near_pair (T.parts_of child.now.form) (child_parts (map (formed_child T.parts_of) others.now)) }
    ensures few { result ≤ 1048576 * 1024 }
{
    let mut pairs = 0;
    for other in others {
        pairs += count_pairs::<T, K>(&child.form, &other.form, Reach::Overlap);
    }
    pairs
}

/// Returns the numbers of the first two children that share a point. Only pairs of parts whose boxes share more than
/// boundary are tested, and no test is counted.
fn first_overlapping<T: Oracle, K: Overlaps<T>>(
    alloc: Global,
    children: &[Child<T::Form>],
    tests: &mut T,
) -> Result<Option<(u32, u32)>, Stopped>
    requires { length children.now ≤ 1024 }
    ensures { Refines (option_map (λ p. children_overlap p.0 p.1)) result tests.new (first_overlapping_children T.tester 1 (map (formed_child T.parts_of) children.now) tests.old) }
{
    for place in 0..children.len() {
        let first = place as u32 + 1;
        let child = &children[place];
        let behind = &children[place + 1..];
        let found = first_overlapping_with::<T, K>(alloc, first, child, behind, tests)?;
        if let Some(second) = found {
            return Ok(Some((first, second)));
        }
    }
    Ok(None)
}

/// Returns the number of the first child of `behind` that shares a point with `child`, whose number is `first`.
fn first_overlapping_with<T: Oracle, K: Overlaps<T>>(
    alloc: Global,
    first: u32,
    child: &Child<T::Form>,
    behind: &[Child<T::Form>],
    tests: &mut T,
) -> Result<Option<u32>, Stopped>
    requires { first + length behind.now ≤ 1024 }
    ensures { Refines (option_map (λ n. children_overlap first n)) result tests.new (first_overlapping_child T.tester first (T.parts_of child.now.form) (first + 1) (map (formed_child T.parts_of) behind.now) tests.old) }
{
    let mut number = first + 1;
    for other in behind {
        if K::overlap(alloc, &child.form, &other.form, tests)? {
            return Ok(Some(number));
        }
        number += 1;
    }
    Ok(None)
}

/// Checks that the children cover every point of `whole`. `Gap` if they do not.
pub(crate) fn check_covered<T: Oracle>(
    alloc: Global,
    whole: &T::Form,
    children: &[Child<T::Form>],
    tests: &mut T,
) -> Result<(), RowEnd>
    ensures { (rest : Walk T Reply) → GoesOn (λ x. x) result tests.new (λ _. rest) (cover_tested T.tester (T.parts_of whole.now) (map (formed_child T.parts_of) children.now) rest tests.old) }
{
    if has_gap(alloc, whole, children, tests)? {
        return Err(RowEnd::Refused(Refusal::Gap));
    }
    Ok(())
}

/// Returns whether `whole` has a point that no child has: the children are subtracted one after another.
fn has_gap<T: Oracle>(
    alloc: Global,
    whole: &T::Form,
    children: &[Child<T::Form>],
    tests: &mut T,
) -> Result<bool, Stopped>
    ensures { Refines not result tests.new (is_covered T.tester (T.parts_of whole.now) (joined_parts (child_parts (map (formed_child T.parts_of) children.now))) tests.old) }
{
    let left = left_of(alloc, whole, children, tests)?;
    Ok(!is_empty(alloc, &left, tests)?)
}

/// Returns the rest of `whole` outside all children.
fn left_of<T: Oracle>(
    alloc: Global,
    whole: &T::Form,
    children: &[Child<T::Form>],
    tests: &mut T,
) -> Result<T::Form, Stopped>
    ensures { Refines T.parts_of result tests.new (subtract T.tester (T.parts_of whole.now) (joined_parts (child_parts (map (formed_child T.parts_of) children.now))) tests.old) }
{
    let mut left = T::copy(alloc, whole)?;
    for child in children {
        left = tests.into_minus(alloc, left, &child.form)?;
    }
    Ok(left)
}
