//! Certificates made of multiples of half-spaces (Motzkin, Farkas).
ghost use Rattle.std.specs.Prelude.{◌≡◌, true, false, ◌&&◌, IsTrue};
ghost use Rattle.std.specs.List.{list_all};
ghost use Rattle.rp_geometry.specs.Geometry.{RationalPoint, is_listed, with_cube};
ghost use Rattle.rp_geometry.specs.sets.Shape.{shape_of_cell};
ghost use Rattle.rp_geometry.specs.sets.Sets.{IsEmpty};
ghost use Rattle.rp_geometry.specs.laws.CellLaws.{IsSolution};
ghost use Rattle.rp_geometry.specs.searches.Certificate.{is_multiplier, is_outside_certificate};

use crate::inside::is_one_to_four;
use rp_space::{Half, Term, cube, is_balanced, is_contradiction, is_multiplier, keep_bounds};

/// Returns whether `terms` show that `cell` has no member (`strict`), or that its weak system has no point:
///
/// - there are one to four terms, each with a multiplier from 1 to 2^75 - 1;
/// - each half-space is one of the cell or of the domain cube;
/// - the multiples of `a`, of `b` and of `c` add up to 0, and those of `d` to at most 0 (`strict`) or to less than 0.
///
/// The counts and the bounds are tested before any product, so every sum stays within 128 bits.
pub fn check_outside(cell: &[Half], terms: &[Term], strict: bool) -> bool
    ensures value { result ≡ is_outside_certificate strict cell.now terms.now }
    ensures empty { strict ≡ true → IsTrue result → IsEmpty (shape_of_cell cell.now) }
    ensures apart { strict ≡ false → IsTrue result → (p : RationalPoint) → ¬ IsSolution false cell.now p }
{
    keep_bounds(cell);
    if !is_one_to_four(terms.len()) {
        return false;
    }
    if !are_multiples_of(cell, terms) {
        return false;
    }
    is_balanced(terms) && is_contradiction(terms, strict)
}

/// Returns whether each of `terms` has a multiplier from 1 to 2^75 - 1 and a half-space of `cell` or of the domain
/// cube.
fn are_multiples_of(cell: &[Half], terms: &[Term]) -> bool
    ensures { result ≡ list_all (λ t. is_multiplier t.factor && is_listed t.of (with_cube cell.now)) terms.now }
{
    terms.iter().all(|term| is_multiplier(term.by) && is_listed_with_cube(&term.half, cell))
}

/// Returns whether `half` is one of `cell` or of the domain cube.
fn is_listed_with_cube(half: &Half, cell: &[Half]) -> bool
    ensures { result ≡ is_listed half.now (with_cube cell.now) }
{
    is_listed(half, cell) || is_listed(half, &cube())
}

/// Returns whether `half` is one of `halves`.
pub(crate) fn is_listed(half: &Half, halves: &[Half]) -> bool
    ensures { result ≡ is_listed half.now halves.now }
{
    halves.iter().any(|other| half == other)
}
