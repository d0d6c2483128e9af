//! The search for a refutation by the last half-space of a cell, alone or with one other.
ghost use Rattle.std.specs.Prelude.{◌≡◌, ◌++◌, ◌∷◌, [], Some, IfSome};
ghost use Rattle.rp_geometry.specs.Geometry.{RationalPoint};
ghost use Rattle.rp_geometry.specs.laws.CellLaws.{IsSolution};
ghost use Rattle.rp_geometry.specs.searches.Search.{first_of};
ghost use Rattle.rp_geometry.specs.searches.Elimination.{refutation_of_two, first_outside};
ghost use Rattle.rp_elim.specs.FewTerms.{first_with_last};
ghost use Rattle.rp_elim.specs.Written.{if_found};

use crate::refutation::if_found;
use crate::search::{are_passed_over, first_two_with, refutation_of_one, refutation_of_two};
use rp_space::{Half, Outside, cube, keep_bounds};

/// Returns the first outside certificate of `others` followed by `last`, for strict or weak sides, if it has at most
/// two terms. `others` have a solution, so one term is of `last`, and no other two half-spaces are tried. After `None`
/// it is open whether there is a solution.
pub fn first_outside_with_last(others: &[Half], last: &Half, strict: bool) -> Option<Outside>
    requires { (p : RationalPoint) × IsSolution strict others.now p }
    ensures first { IfSome result (λ terms. first_outside strict (others.now ++ last.now ∷ []) ≡ Some terms) }
    ensures none { IfSome result (λ terms. (p : RationalPoint) → ¬ IsSolution strict (others.now ++ last.now ∷ []) p) }
{
    // The two calls make it known that all half-spaces keep their bounds.
    keep_bounds(others);
    let _ = last.numbers();
    let mut found = Outside::new();
    let is_found = first_with_last(strict, others, last, &mut found);
    if_found(is_found, found)
}

/// Writes to `found` the first refutation by `last` alone, by `last` and one of `others`, or by `last` and one of the
/// cube's half-spaces. Returns whether there is one.
fn first_with_last(strict: bool, others: &[Half], last: &Half, found: &mut Outside) -> bool
    ensures { if_found result found.new ≡ first_with_last strict others.now last.now }
{
    if refutation_of_one(strict, last, found) {
        return true;
    }
    if first_two_before(strict, others, last, found) {
        return true;
    }
    first_two_with(strict, last, &cube(), found)
}

/// Writes to `found` the first refutation by one of `gs` and `h`, which has a later place. Returns whether there is
/// one.
fn first_two_before(strict: bool, gs: &[Half], h: &Half, found: &mut Outside) -> bool
    ensures { if_found result found.new ≡ first_of (λ g. refutation_of_two strict g h.now) gs.now }
{
    for g in gs {
        if are_passed_over(g, h) {
            continue;
        }
        if refutation_of_two(strict, g, h, found) {
            return true;
        }
    }
    false
}
