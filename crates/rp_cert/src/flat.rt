//! Flat certificates: multiples of half-spaces that show that a cell has no point at a height.
ghost use Rattle.std.specs.Prelude.{◌≡◌, ◌&&◌, ◌||◌, true, not, length, ◌≤◌, ◌*◌, ◌^◌, ◌*ℤ◌};
ghost use Rattle.std.specs.List.{list_all};
ghost use Rattle.rp_algebra.specs.Within.{IsWithin};
ghost use Rattle.rp_geometry.specs.Geometry.{is_listed};
ghost use Rattle.rp_geometry.specs.searches.Certificate.{weighted_sum, is_multiplier};
ghost use Rattle.rp_geometry.specs.sections.Trace.{IsHeight, has_trace, with_sides};
ghost use Rattle.rp_geometry.specs.sections.Flat.{is_one_to_three, is_level_kind, is_trace_kind, is_flat};
ghost use Rattle.rp_cert.specs.Section.{cancels_at};
ghost use Rattle.rp_cert.specs.LevelNumbers.{number_at};

use crate::outside::is_listed;
use crate::trace::{has_trace, holds_level, offset_at};
use rp_space::{Half, Term, cube, is_multiplier};

/// A choice of one of the three numbers of a half-space on the plane of a height.
#[derive(Clone, Copy)]
enum Number {
    A,
    B,
    Offset,
}

/// Returns whether `terms` are a flat certificate of `cell` at the height `z`:
///
/// - there are one to three terms, each with a multiplier from 1 to 2^75 - 1;
/// - each half-space is one of the cell or a vertical side of the domain cube;
/// - the multiples of `a` and of `b` add up to 0;
/// - the terms are of one of the two kinds of [`cancels_at`].
pub(crate) fn is_flat(cell: &[Half], z: i32, terms: &[Term]) -> bool
    requires { IsHeight z }
    ensures { result ≡ is_flat z cell.now terms.now }
{
    if !is_one_to_three(terms.len()) {
        return false;
    }
    if !are_multiples_of(cell, terms) {
        return false;
    }
    cancels_at(terms, z)
}

/// Returns whether `n` is from 1 to 3.
fn is_one_to_three(n: usize) -> bool
    ensures { result ≡ is_one_to_three n }
{
    1 <= n && n <= 3
}

/// Returns whether each of `terms` has a multiplier from 1 to 2^75 - 1 and a half-space of `cell` or a vertical side of
/// the cube.
fn are_multiples_of(cell: &[Half], terms: &[Term]) -> bool
    ensures { result ≡ list_all (λ t. is_multiplier t.factor && is_listed t.of (with_sides cell.now)) terms.now }
{
    terms.iter().all(|term| is_multiplier(term.by) && is_listed_with_sides(&term.half, cell))
}

/// Returns whether `half` is one of `cell` or a vertical side of the domain cube.
fn is_listed_with_sides(half: &Half, cell: &[Half]) -> bool
    ensures { result ≡ is_listed half.now (with_sides cell.now) }
{
    is_listed(half, cell) || is_listed(half, &cube()[..4])
}

/// Returns whether `terms`, at most three multiples with multipliers from 1 to 2^75 - 1, show that no point of the
/// height `z` is in all half-spaces. The multiples of `a` and of `b` add up to 0, and one of these is the case:
///
/// - There is one half-space. It has no trace and does not contain the points of the height.
/// - Each half-space has a trace, and the offsets at the height add up to at most 0.
pub fn cancels_at(terms: &[Term], z: i32) -> bool
    requires height { IsHeight z }
    requires few { length terms.now ≤ 3 }
    requires multipliers { list_all (λ t. is_multiplier t.factor) terms.now ≡ true }
    ensures { result ≡ cancels_at z terms.now }
{
    weighted_sum(terms, Number::A, z) == 0
        && weighted_sum(terms, Number::B, z) == 0
        && (is_level_kind(terms, z) || is_trace_kind(terms, z))
}

/// Returns whether `terms` are one half-space without a trace that does not contain the points of the height `z`.
fn is_level_kind(terms: &[Term], z: i32) -> bool
    requires { IsHeight z }
    ensures { result ≡ is_level_kind z terms.now }
{
    match terms {
        [term] => !has_trace(&term.half) && !holds_level(&term.half, z),
        _ => false,
    }
}

/// Returns whether each half-space of `terms`, at most three, has a trace, and the multiples of the offsets at the
/// height `z` add up to at most 0.
fn is_trace_kind(terms: &[Term], z: i32) -> bool
    requires height { IsHeight z }
    requires few { length terms.now ≤ 3 }
    requires multipliers { list_all (λ t. is_multiplier t.factor) terms.now ≡ true }
    ensures { result ≡ is_trace_kind z terms.now }
{
    have_traces(terms) && weighted_sum(terms, Number::Offset, z) <= 0
}

/// Returns whether each half-space of `terms` has a trace.
fn have_traces(terms: &[Term]) -> bool
    ensures { result ≡ list_all (λ t. has_trace t.of) terms.now }
{
    terms.iter().all(|term| has_trace(&term.half))
}

/// Returns the sum of the multiples of the number `which` at the height `z`, over `terms`, at most three.
fn weighted_sum(terms: &[Term], which: Number, z: i32) -> i128
    requires height { IsHeight z }
    requires few { length terms.now ≤ 3 }
    requires multipliers { list_all (λ t. is_multiplier t.factor) terms.now ≡ true }
    ensures { result ≡ weighted_sum (number_at which z) terms.now }
{
    let mut sum = 0;
    for term in terms {
        sum += multiple(term, which, z);
    }
    sum
}

/// Returns the multiple of the number `which` of the half-space of `term` at the height `z`.
fn multiple(term: &Term, which: Number, z: i32) -> i128
    requires height { IsHeight z }
    requires multiplier { is_multiplier term.now.factor ≡ true }
    ensures value { result ≡ term.now.factor *ℤ number_at which z term.now.of }
    ensures small { IsWithin (2 ^ 75 * 2 ^ 50) result }
{
    term.by * number_at(&term.half, which, z) as i128
}

/// Returns the number `which` of `half` on the plane of the height `z`, within 2^50.
fn number_at(half: &Half, which: Number, z: i32) -> i64
    requires { IsHeight z }
    ensures value { result ≡ number_at which z half.now }
    ensures small { IsWithin (2 ^ 50) result }
{
    let (a, b, _, _) = half.numbers();
    match which {
        Number::A => a,
        Number::B => b,
        Number::Offset => offset_at(half, z),
    }
}
