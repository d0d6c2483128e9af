//! Searches over one, two, three and four half-spaces, in the order of their places. A refutation is a list of positive
//! multiples of half-spaces that cancel and contradict. Each search writes the refutation that it finds to `found`, and
//! returns whether there is one: so no list of terms is moved between functions.
ghost use Rattle.std.specs.Prelude.{◌≡◌, ◌↔◌, ◌≤◌, ◌++◌, Bool, true, length, None, Some, IsNone, IfSome, IsTrue};
ghost use Rattle.rp_geometry.specs.Geometry.{RationalPoint, with_cube};
ghost use Rattle.rp_geometry.specs.laws.CellLaws.{IsSolution};
ghost use Rattle.rp_geometry.specs.searches.Certificate.{is_outside_certificate};
ghost use Rattle.rp_geometry.specs.searches.Search.{first_of, first_of_pairs, first_of_triples, first_of_quadruples};
ghost use Rattle.rp_geometry.specs.searches.Elimination.{refutation_of_one, refutation_of_two, refutation_of_three, refutation_of_four, first_refutation, first_outside};
ghost use Rattle.rp_elim.specs.FewTerms.{first_of_two};
ghost use Rattle.rp_elim.specs.Written.{if_found};

use crate::couple::Couple;
use crate::cross::Cross;
use crate::minors::{are_parallel, is_without_normal, may_cancel, minors_of_two};
use crate::refutation::{if_found, positive_refutation, refutation};
use crate::triple::Triple;
use rp_space::{Half, Outside, Term, keep_bounds, with_cube};

/// Returns the first outside certificate of `cell` (Farkas, Motzkin): the first few of its half-spaces and the cube's
/// six, by their number and then by their places. Each has a positive multiplier, in lowest terms. The multiples
/// cancel, and their offsets add up to at most 0 (`strict`) or to less than 0. It has at most four terms
/// (Carathéodory).
///
/// Returns `None` iff there is a point at which all the half-spaces are positive (`strict`), or none is negative.
/// `cell` has at most 64 half-spaces.
pub fn first_outside(cell: &[Half], strict: bool) -> Option<Outside>
    requires { length cell.now ≤ 64 }
    ensures first { result ≡ first_outside strict cell.now }
    ensures passes { IfSome result (λ terms. IsTrue (is_outside_certificate strict cell.now terms)) }
    ensures none { IsNone result ↔ ((p : RationalPoint) × IsSolution strict cell.now p) }
{
    let system = with_cube(cell);
    let mut found = Outside::new();
    let is_found = first_refutation(strict, system.as_slice(), &mut found);
    if_found(is_found, found)
}

/// Returns the first outside certificate of `cell`, `strict` or not, as [`first_outside`] finds it, if it has at most
/// two terms. Then one half-space contains no point, or two look away from one another. It tries few sets, so it may
/// come before a search for points. After `None` it is open whether there is a point. `cell` has at most 64
/// half-spaces.
pub fn first_outside_of_two(cell: &[Half], strict: bool) -> Option<Outside>
    requires { length cell.now ≤ 64 }
    ensures found { result ≡ first_of_two strict (with_cube cell.now) }
    ensures first { IfSome result (λ terms. first_outside strict cell.now ≡ Some terms) }
    ensures passes { IfSome result (λ terms. IsTrue (is_outside_certificate strict cell.now terms)) }
    ensures none { IfSome result (λ terms. (p : RationalPoint) → ¬ IsSolution strict cell.now p) }
{
    let system = with_cube(cell);
    let mut found = Outside::new();
    let is_found = first_of_two(strict, system.as_slice(), &mut found);
    if_found(is_found, found)
}

/// Returns the first outside certificate of `first` and `second` together, for strict or weak sides, if it has at most
/// two terms, as [`first_outside_of_two`] finds it. Each of the two cells has a solution. So only one half-space of
/// `first` with one of `second` may refute, and no other two are tried.
pub fn first_outside_between(first: &[Half], second: &[Half], strict: bool) -> Option<Outside>
    requires first { (p : RationalPoint) × IsSolution strict first.now p }
    requires second { (p : RationalPoint) × IsSolution strict second.now p }
    ensures found { result ≡ first_of_two strict (with_cube (first.now ++ second.now)) }
    ensures first { IfSome result (λ terms. first_outside strict (first.now ++ second.now) ≡ Some terms) }
    ensures passes { IfSome result (λ terms. IsTrue (is_outside_certificate strict (first.now ++ second.now) terms)) }
    ensures none { IfSome result (λ terms. (p : RationalPoint) → ¬ IsSolution strict (first.now ++ second.now) p) }
{
    // The two calls make it known that all half-spaces keep their bounds.
    keep_bounds(first);
    keep_bounds(second);
    let mut found = Outside::new();
    let is_found = first_between(strict, first, second, &mut found);
    if_found(is_found, found)
}

/// Writes to `found` the first refutation by one of `gs` and one of `hs`; returns whether there is one.
fn first_between(strict: bool, gs: &[Half], hs: &[Half], found: &mut Outside) -> bool
    ensures { if_found result found.new ≡ first_of (λ g. first_of (refutation_of_two strict g) hs.now) gs.now }
{
    for g in gs {
        if first_two_with(strict, g, hs, found) {
            return true;
        }
    }
    false
}

/// Writes to `found` the first refutation among `halves`, by number of terms and then by places. Returns whether there
/// is one.
fn first_refutation(strict: bool, halves: &[Half], found: &mut Outside) -> bool
    ensures { if_found result found.new ≡ first_refutation strict halves.now }
{
    if first_of_two(strict, halves, found) {
        return true;
    }
    if first_three(strict, halves, found) {
        return true;
    }
    first_four(strict, halves, found)
}

/// Writes to `found` the first refutation by one of `halves`, otherwise by two; returns whether there is one.
fn first_of_two(strict: bool, halves: &[Half], found: &mut Outside) -> bool
    ensures { if_found result found.new ≡ first_of_two strict halves.now }
{
    if first_one(strict, halves, found) {
        return true;
    }
    first_two(strict, halves, found)
}

/// Writes to `found` the refutation by `h` alone; returns whether there is one. It refutes that `h` is positive
/// (`strict`), or that `h` is not negative. Only a half-space without a normal can cancel.
pub fn refutation_of_one(strict: bool, h: &Half, found: &mut Outside) -> bool
    ensures { if_found result found.new ≡ refutation_of_one strict h.now }
{
    if !is_without_normal(h) {
        return false;
    }
    positive_refutation(strict, &[Term { by: 1, half: *h }], found)
}

/// Writes to `found` the refutation by `g` and `h`; returns whether there is one. It refutes that both are positive
/// (`strict`), or that none is negative. Only two with dependent normals can cancel.
pub fn refutation_of_two(strict: bool, g: &Half, h: &Half, found: &mut Outside) -> bool
    ensures { if_found result found.new ≡ refutation_of_two strict g.now h.now }
{
    if !are_parallel(g, h) {
        return false;
    }
    refutation(strict, &minors_of_two(g, h), found)
}

/// Returns true only if the signs of the coefficients show that `g` and `h` do not refute. It rules out most pairs,
/// without room for terms.
pub fn are_passed_over(g: &Half, h: &Half) -> bool
    ensures { result ≡ true → (strict : Bool) → refutation_of_two strict g.now h.now ≡ None }
{
    !may_cancel(g, h)
}

/// Writes to `found` the first refutation by one of `hs`; returns whether there is one.
fn first_one(strict: bool, hs: &[Half], found: &mut Outside) -> bool
    ensures { if_found result found.new ≡ first_of (refutation_of_one strict) hs.now }
{
    for h in hs {
        if refutation_of_one(strict, h, found) {
            return true;
        }
    }
    false
}

/// Writes to `found` the first refutation by two of `gs`; returns whether there is one.
fn first_two(strict: bool, gs: &[Half], found: &mut Outside) -> bool
    ensures { if_found result found.new ≡ first_of_pairs (refutation_of_two strict) gs.now }
{
    for i in 0..gs.len() {
        if first_two_with(strict, &gs[i], &gs[i + 1..], found) {
            return true;
        }
    }
    false
}

/// Writes to `found` the first refutation by `g` and one of `hs`; returns whether there is one.
pub fn first_two_with(strict: bool, g: &Half, hs: &[Half], found: &mut Outside) -> bool
    ensures { if_found result found.new ≡ first_of (refutation_of_two strict g.now) hs.now }
{
    for h in hs {
        if are_passed_over(g, h) {
            continue;
        }
        if refutation_of_two(strict, g, h, found) {
            return true;
        }
    }
    false
}

/// Writes to `found` the first refutation by three of `fs`; returns whether there is one.
fn first_three(strict: bool, fs: &[Half], found: &mut Outside) -> bool
    ensures { if_found result found.new ≡ first_of_triples (refutation_of_three strict) fs.now }
{
    for i in 0..fs.len() {
        if first_three_with(strict, &fs[i], &fs[i + 1..], found) {
            return true;
        }
    }
    false
}

/// Writes to `found` the first refutation by `f` and two of `gs`; returns whether there is one.
fn first_three_with(strict: bool, f: &Half, gs: &[Half], found: &mut Outside) -> bool
    ensures { if_found result found.new ≡ first_of_pairs (refutation_of_three strict f.now) gs.now }
{
    for i in 0..gs.len() {
        if first_three_with_two(strict, f, &gs[i], &gs[i + 1..], found) {
            return true;
        }
    }
    false
}

/// Writes to `found` the first refutation by `f`, `g` and one of `hs`; returns whether there is one. If the normals of
/// `f` and `g` are dependent, the multipliers of three are not determined up to a factor. Then a term can be dropped,
/// and a smaller set comes first.
fn first_three_with_two(strict: bool, f: &Half, g: &Half, hs: &[Half], found: &mut Outside) -> bool
    ensures { if_found result found.new ≡ first_of (refutation_of_three strict f.now g.now) hs.now }
{
    match Couple::new(f, g) {
        None => false,
        Some(couple) => first_three_with_couple(strict, &couple, hs, found),
    }
}

/// Writes to `found` the first refutation by the two of `couple` and one of `hs`; returns whether there is one.
fn first_three_with_couple(strict: bool, couple: &Couple, hs: &[Half], found: &mut Outside) -> bool
    ensures { if_found result found.new ≡ first_of (refutation_of_three strict couple.now.first couple.now.second) hs.now }
{
    for h in hs {
        if couple.is_passed_over(h) {
            continue;
        }
        if couple.refutation(strict, h, found) {
            return true;
        }
    }
    false
}

/// Writes to `found` the first refutation by four of `es`; returns whether there is one.
fn first_four(strict: bool, es: &[Half], found: &mut Outside) -> bool
    ensures { if_found result found.new ≡ first_of_quadruples (refutation_of_four strict) es.now }
{
    for i in 0..es.len() {
        if first_four_with(strict, &es[i], &es[i + 1..], found) {
            return true;
        }
    }
    false
}

/// Writes to `found` the first refutation by `e` and three of `fs`; returns whether there is one.
fn first_four_with(strict: bool, e: &Half, fs: &[Half], found: &mut Outside) -> bool
    ensures { if_found result found.new ≡ first_of_triples (refutation_of_four strict e.now) fs.now }
{
    for i in 0..fs.len() {
        if first_four_with_two(strict, e, &fs[i], &fs[i + 1..], found) {
            return true;
        }
    }
    false
}

/// Writes to `found` the first refutation by `e`, `f` and two of `gs`; returns whether there is one.
fn first_four_with_two(strict: bool, e: &Half, f: &Half, gs: &[Half], found: &mut Outside) -> bool
    ensures { if_found result found.new ≡ first_of_pairs (refutation_of_four strict e.now f.now) gs.now }
{
    let ef = Cross::new(e, f);
    for i in 0..gs.len() {
        if first_four_with_three(strict, &ef, &gs[i], &gs[i + 1..], found) {
            return true;
        }
    }
    false
}

/// Writes to `found` the first refutation by the two of `ef`, `g` and one of `hs`; returns whether there is one. If the
/// normals of the three are dependent, the multipliers of four are not determined up to a factor. Then a term can be
/// dropped, and a smaller set comes first.
fn first_four_with_three(
    strict: bool,
    ef: &Cross,
    g: &Half,
    hs: &[Half],
    found: &mut Outside,
) -> bool
    ensures { if_found result found.new ≡ first_of (refutation_of_four strict ef.now.first ef.now.second g.now) hs.now }
{
    match Triple::new(ef, g) {
        None => false,
        Some(triple) => first_four_with_triple(strict, &triple, hs, found),
    }
}

/// Writes to `found` the first refutation by the three of `triple` and one of `hs`; returns whether there is one.
fn first_four_with_triple(strict: bool, triple: &Triple, hs: &[Half], found: &mut Outside) -> bool
    ensures { if_found result found.new ≡ first_of (refutation_of_four strict triple.now.first triple.now.second triple.now.third) hs.now }
{
    for h in hs {
        if triple.refutation(strict, h, found) {
            return true;
        }
    }
    false
}
