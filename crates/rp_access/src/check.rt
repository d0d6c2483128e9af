//! The four tests of a list of levels.
ghost use Rattle.std.specs.Prelude.{◌≡◌, ◌<◌, ◌↔◌, IsTrue, length};
ghost use Rattle.rp_access.specs.Chain.{PassesTests};
ghost use Rattle.rp_access.specs.Searching.{AreBelow};
ghost use Rattle.rp_access.specs.Tests.{AreClose, IsCloseToAll, IsRight};

use crate::links::Links;
use crate::way::first_of_level;

/// Returns whether `own` and `other` are both levels that differ by at most 1, or both `None`.
fn are_close(own: Option<u32>, other: Option<u32>) -> bool
    ensures { IsTrue result ↔ AreClose own other }
{
    match own {
        None => other.is_none(),
        Some(level) => match other {
            None => false,
            Some(next) => level.abs_diff(next) <= 1,
        },
    }
}

/// Returns whether `own` is close to the level of each of `numbers`, as [`are_close`] says.
fn is_close_to_all(levels: &[Option<u32>], own: Option<u32>, numbers: &[u32]) -> bool
    requires { AreBelow (length levels.now) numbers.now }
    ensures { IsTrue result ↔ IsCloseToAll levels.now own numbers.now }
{
    for j in numbers {
        if !are_close(own, levels[*j as usize]) {
            return false;
        }
    }
    true
}

/// Returns whether `own` is the level 0 iff `is_last`, and, if it is above 0, one more than the level of some of
/// `numbers`.
fn is_right(levels: &[Option<u32>], is_last: bool, own: Option<u32>, numbers: &[u32]) -> bool
    requires { AreBelow (length levels.now) numbers.now }
    ensures { IsTrue result ↔ IsRight levels.now is_last own numbers.now }
{
    let Some(level) = own else {
        return !is_last;
    };
    if level == 0 {
        return is_last;
    }
    if is_last {
        return false;
    }
    first_of_level(levels, level - 1, numbers).is_some()
}

/// Returns whether the four tests pass at a number with the level `own` that is linked to `numbers`.
fn passes_at(levels: &[Option<u32>], is_last: bool, own: Option<u32>, numbers: &[u32]) -> bool
    requires { AreBelow (length levels.now) numbers.now }
    ensures { IsTrue result ↔ (IsRight levels.now is_last own numbers.now × IsCloseToAll levels.now own numbers.now) }
{
    is_right(levels, is_last, own, numbers) && is_close_to_all(levels, own, numbers)
}

/// Returns whether `levels` passes four tests:
///
/// - the number `to` has the level 0, and no other number has it;
/// - linked numbers both have a level, or neither has;
/// - levels of linked numbers differ by at most 1;
/// - each number of a level above 0 is linked to a number of the level below.
///
/// A list that passes is the list of the levels. Takes no memory.
pub fn check_levels(g: &Links, to: u32, levels: &[Option<u32>]) -> bool
    requires to_below { to < length g.now }
    requires as_many { length levels.now ≡ length g.now }
    ensures { IsTrue result ↔ PassesTests g.now to levels.now }
{
    for i in 0..g.count() {
        if !passes_at(levels, i == to as usize, levels[i], g.linked_to(i)) {
            return false;
        }
    }
    true
}
