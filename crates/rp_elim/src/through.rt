//! The search for the first refutation that contains one given half-space. Each function writes the refutation to
//! `found` and returns whether there is one.
ghost use Rattle.std.specs.Prelude.{◌≡◌, ◌↔◌, ◌+◌, ◌<◌, ◌≤◌, ◌∷◌, ◌++◌, [], Bool, true, false, length, None, IsNone, IfSome, IsTrue};
ghost use Rattle.rp_geometry.specs.Geometry.{RationalPoint, with_cube};
ghost use Rattle.rp_geometry.specs.laws.CellLaws.{IsSolution};
ghost use Rattle.rp_geometry.specs.searches.Certificate.{is_outside_certificate};
ghost use Rattle.rp_geometry.specs.searches.Search.{first_of, first_of_pairs, first_of_triples};
ghost use Rattle.rp_geometry.specs.searches.Elimination.{refutation_of_two, refutation_of_three, refutation_of_four, first_outside};
ghost use Rattle.rp_space.specs.Places.{bits_of};
ghost use Rattle.rp_space.specs.TwoHalfSpaces.{two_of};
ghost use Rattle.rp_elim.specs.Sides.{three_of};
ghost use Rattle.rp_elim.specs.Written.{if_found};
ghost use Rattle.rp_elim.specs.HeldFast.{placed_list, two_in_order, three_in_order, four_in_order, first_through};
ghost use Rattle.rp_elim.specs.SignSets.{may_be_fourth, signs_of, signs_list};

use crate::couple::Couple;
use crate::cross::Cross;
use crate::minors::{may_three_cancel, minors_of_four};
use crate::placed::{Placed, place};
use crate::refutation::{if_found, refutation};
use crate::search::{are_passed_over, refutation_of_one, refutation_of_two};
use crate::sign_sets::Signs;
use crate::triple::Triple;
use arrayvec::ArrayVec;
use rp_space::{Half, Outside, keep_bounds, lowest_from};

/// The most other half-spaces for which a short list has room.
const FEW: usize = 14;

/// The length of a short list: 14 others and the cube's six half-spaces.
const FEW_PLACES: usize = 20;

/// The length of a long list: 63 others and the cube's six half-spaces.
const MOST_PLACES: usize = 69;

/// Returns the first outside certificate of the cell of `before`, `half` and `after`, in this order; `None` iff the
/// whole cell has a solution. It has at most 64 half-spaces.
///
/// `before` and `after` alone have a solution: a point at which all of them are positive (`strict`), or none is
/// negative. So no multiples of these and of the cube's six add up to a contradiction, and each certificate has a term
/// of `half` (Farkas, Motzkin). Only the sets that contain `half` are tried, with at most three others (Carathéodory),
/// in the order of their places.
pub fn first_outside_through(
    before: &[Half],
    half: &Half,
    after: &[Half],
    strict: bool,
) -> Option<Outside>
    requires few { length before.now + length after.now < 64 }
    requires others { (p : RationalPoint) × IsSolution strict (before.now ++ after.now) p }
    ensures first { result ≡ first_outside strict (before.now ++ half.now ∷ after.now) }
    ensures passes { IfSome result (λ terms. IsTrue (is_outside_certificate strict (before.now ++ half.now ∷ after.now) terms)) }
    ensures none { IsNone result ↔ ((p : RationalPoint) × IsSolution strict (before.now ++ half.now ∷ after.now) p) }
{
    keep_bounds(before);
    let _ = half.numbers();
    keep_bounds(after);
    let mut found = Outside::new();
    let is_found = first_beside(strict, before, &[], half, after, &mut found);
    if_found(is_found, found)
}

/// Returns the first outside certificate of the cell of `first`, `second` and `last`, in this order; `None` iff the
/// whole cell has a solution. It has at most 64 half-spaces. `first` and `second` alone have a solution of their strict
/// sides (`strict`) or of the weak ones. Only sets with `last` are tried, as [`first_outside_through`] says.
pub fn first_outside_behind(
    first: &[Half],
    second: &[Half],
    last: &Half,
    strict: bool,
) -> Option<Outside>
    requires few { length first.now + length second.now < 64 }
    requires others { (p : RationalPoint) × IsSolution strict (first.now ++ second.now) p }
    ensures first { result ≡ first_outside strict (first.now ++ second.now ++ last.now ∷ []) }
    ensures passes { IfSome result (λ terms. IsTrue (is_outside_certificate strict (first.now ++ second.now ++ last.now ∷ []) terms)) }
    ensures none { IsNone result ↔ ((p : RationalPoint) × IsSolution strict (first.now ++ second.now ++ last.now ∷ []) p) }
{
    keep_bounds(first);
    keep_bounds(second);
    let _ = last.numbers();
    let mut found = Outside::new();
    let is_found = first_beside(strict, first, second, last, &[], &mut found);
    if_found(is_found, found)
}

/// Writes to `found` the first refutation by `half` and others: `before` and `more` before it, `after` and the cube
/// after it. Returns whether there is one. Most cells have so few half-spaces that a short list has room.
fn first_beside(
    strict: bool,
    before: &[Half],
    more: &[Half],
    half: &Half,
    after: &[Half],
    found: &mut Outside,
) -> bool
    requires { length before.now + length more.now + length after.now < 64 }
    ensures { if_found result found.new ≡ first_through strict half.now (placed_list (before.now ++ more.now) (with_cube after.now)) }
{
    if before.len() + more.len() + after.len() <= FEW {
        return first_beside_few(strict, before, more, half, after, found);
    }
    first_beside_many(strict, before, more, half, after, found)
}

/// Writes to `found` the first refutation by `half` and the others, in a short list; returns whether there is one. It
/// is a function of its own so that no other function makes room for the list.
fn first_beside_few(
    strict: bool,
    before: &[Half],
    more: &[Half],
    half: &Half,
    after: &[Half],
    found: &mut Outside,
) -> bool
    requires { length before.now + length more.now + length after.now ≤ 14 }
    ensures { if_found result found.new ≡ first_through strict half.now (placed_list (before.now ++ more.now) (with_cube after.now)) }
{
    let mut others = ArrayVec::<Placed, FEW_PLACES>::new();
    let mut signs = ArrayVec::<Signs, FEW_PLACES>::new();
    place(&mut others, before, more, after);
    first_through(strict, half, others.as_slice(), &mut signs, found)
}

/// Writes to `found` the first refutation by `half` and the others, in a long list; returns whether there is one.
fn first_beside_many(
    strict: bool,
    before: &[Half],
    more: &[Half],
    half: &Half,
    after: &[Half],
    found: &mut Outside,
) -> bool
    requires { length before.now + length more.now + length after.now < 64 }
    ensures { if_found result found.new ≡ first_through strict half.now (placed_list (before.now ++ more.now) (with_cube after.now)) }
{
    let mut others = ArrayVec::<Placed, MOST_PLACES>::new();
    let mut signs = ArrayVec::<Signs, MOST_PLACES>::new();
    place(&mut others, before, more, after);
    first_through(strict, half, others.as_slice(), &mut signs, found)
}

/// Writes to `found` the first refutation by `k` and some of `others`, by number of terms and then by places. Returns
/// whether there is one. `signs` is empty and has room for one pair of sets for each of `others`.
fn first_through<const MOST: usize>(
    strict: bool,
    k: &Half,
    others: &[Placed],
    signs: &mut ArrayVec<Signs, MOST>,
    found: &mut Outside,
) -> bool
    requires room { length others.now ≤ MOST }
    requires few { length others.now ≤ 69 }
    requires empty { signs.old.items ≡ [] }
    ensures { if_found result found.new ≡ first_through strict k.now others.now }
{
    if refutation_of_one(strict, k, found) {
        return true;
    }
    if first_two(strict, k, others, found) {
        return true;
    }
    if first_three(strict, k, others, signs, found) {
        return true;
    }
    first_four(strict, k, others, signs.as_slice(), found)
}

/// Writes to `found` the first refutation by `k` and one of `ps`; returns whether there is one.
fn first_two(strict: bool, k: &Half, ps: &[Placed], found: &mut Outside) -> bool
    ensures { if_found result found.new ≡ first_of (two_in_order (refutation_of_two strict) k.now) ps.now }
{
    for p in ps {
        if is_passed_over(k, p) {
            continue;
        }
        if two_in_order(strict, k, p, found) {
            return true;
        }
    }
    false
}

/// Returns true only if the signs of the coefficients show that `k` and `p`, in the order of their places, do not
/// refute.
fn is_passed_over(k: &Half, p: &Placed) -> bool
    ensures { result ≡ true → (strict : Bool) → two_in_order (refutation_of_two strict) k.now p.now ≡ None }
{
    if p.before {
        return are_passed_over(&p.half, k);
    }
    are_passed_over(k, &p.half)
}

/// Writes to `found` the refutation by `k` and `p`, in the order of their places; returns whether there is one.
fn two_in_order(strict: bool, k: &Half, p: &Placed, found: &mut Outside) -> bool
    ensures { if_found result found.new ≡ two_in_order (refutation_of_two strict) k.now p.now }
{
    if p.before {
        return refutation_of_two(strict, &p.half, k, found);
    }
    refutation_of_two(strict, k, &p.half, found)
}

/// Writes to `found` the first refutation by `k` and two of `ps`; returns whether there is one. Otherwise `signs` has
/// the signs of the determinants of `k` with each two of `ps`.
fn first_three<const MOST: usize>(
    strict: bool,
    k: &Half,
    ps: &[Placed],
    signs: &mut ArrayVec<Signs, MOST>,
    found: &mut Outside,
) -> bool
    requires room { length ps.now ≤ MOST }
    requires few { length ps.now ≤ 69 }
    requires empty { signs.old.items ≡ [] }
    ensures first { if_found result found.new ≡ first_of_pairs (three_in_order (refutation_of_three strict) k.now) ps.now }
    ensures signs { result ≡ false → signs.new.items ≡ signs_list k.now ps.now }
{
    for i in 0..ps.len() {
        let p = &ps[i];
        let qs = &ps[i + 1..];
        let of = Signs::new(&Cross::new(k, &p.half), qs);
        signs.push(of);
        if first_three_with(strict, k, p, qs, of, found) {
            return true;
        }
    }
    false
}

/// Writes to `found` the first refutation by `k`, `p` and one of `qs`; returns whether there is one. Only three with
/// dependent normals have multiples that cancel. So only those of `qs` are tried whose determinant is 0.
fn first_three_with(
    strict: bool,
    k: &Half,
    p: &Placed,
    qs: &[Placed],
    signs: Signs,
    found: &mut Outside,
) -> bool
    requires few { length qs.now ≤ 69 }
    requires signs { signs ≡ signs_of k.now p.now.half qs.now }
    ensures { if_found result found.new ≡ first_of (three_in_order (refutation_of_three strict) k.now p.now) qs.now }
{
    // All places outside the two sets, which are disjoint.
    let flat = (1u128 << qs.len()) - 1 - signs.above - signs.below;
    let mut from = 0;
    while let Some(place) = lowest_from(flat, from) {
        if three_in_order(strict, k, p, &qs[place as usize], found) {
            return true;
        }
        from = place + 1;
    }
    false
}

/// Writes to `found` the refutation by `k`, `p` and `q`, in the order of their places; returns whether there is one.
fn three_in_order(strict: bool, k: &Half, p: &Placed, q: &Placed, found: &mut Outside) -> bool
    ensures { if_found result found.new ≡ three_in_order (refutation_of_three strict) k.now p.now q.now }
{
    if !p.before {
        return refutation_of_three(strict, k, &p.half, &q.half, found);
    }
    if !q.before {
        return refutation_of_three(strict, &p.half, k, &q.half, found);
    }
    refutation_of_three(strict, &p.half, &q.half, k, found)
}

/// Writes to `found` the refutation by `f`, `g` and `h`; returns whether there is one. There is none if the signs of
/// the coefficients show that the three do not cancel, or if the normals of `f` and `g` are dependent.
fn refutation_of_three(strict: bool, f: &Half, g: &Half, h: &Half, found: &mut Outside) -> bool
    ensures { if_found result found.new ≡ refutation_of_three strict f.now g.now h.now }
{
    if !may_three_cancel(f, g, h) {
        return false;
    }
    match Couple::new(f, g) {
        None => false,
        Some(couple) => couple.refutation(strict, h, found),
    }
}

/// Writes to `found` the first refutation by `k` and three of `ps`; returns whether there is one. `signs` has the signs
/// of `k` with each two of `ps`.
fn first_four(strict: bool, k: &Half, ps: &[Placed], signs: &[Signs], found: &mut Outside) -> bool
    requires few { length ps.now ≤ 69 }
    requires signs { signs.now ≡ signs_list k.now ps.now }
    ensures { if_found result found.new ≡ first_of_triples (four_in_order (refutation_of_four strict) k.now) ps.now }
{
    for i in 0..ps.len() {
        let behind = i + 1;
        if first_four_with(
            strict,
            k,
            &ps[i],
            &ps[behind..],
            signs[i],
            &signs[behind..],
            found,
        ) {
            return true;
        }
    }
    false
}

/// Writes to `found` the first refutation by `k`, `p` and two of `qs`; returns whether there is one. `own` has the
/// signs of `k` and `p` with each of `qs`, and `signs` those of `k` with each two of `qs`.
fn first_four_with(
    strict: bool,
    k: &Half,
    p: &Placed,
    qs: &[Placed],
    own: Signs,
    signs: &[Signs],
    found: &mut Outside,
) -> bool
    requires few { length qs.now ≤ 69 }
    requires own { own ≡ signs_of k.now p.now.half qs.now }
    requires signs { signs.now ≡ signs_list k.now qs.now }
    ensures { if_found result found.new ≡ first_of_pairs (four_in_order (refutation_of_four strict) k.now p.now) qs.now }
{
    let kp = Cross::new(k, &p.half);
    let mut rest = own;
    for i in 0..qs.len() {
        let q = &qs[i];
        let places = rest.fourth_places(signs[i]);
        rest = rest.behind();
        if places == 0 {
            continue;
        }
        if first_four_with_two(strict, &kp, k, p, q, &qs[i + 1..], places, found) {
            return true;
        }
    }
    false
}

/// Writes to `found` the first refutation by `k`, `p`, `q` and one at some `places` of `rs`; returns whether there is
/// one. The determinant of the first three is, up to its sign, the multiplier of the fourth: if it is 0, the four do
/// not refute.
fn first_four_with_two(
    strict: bool,
    kp: &Cross,
    k: &Half,
    p: &Placed,
    q: &Placed,
    rs: &[Placed],
    places: u128,
    found: &mut Outside,
) -> bool
    requires pair { kp.now ≡ two_of k.now p.now.half }
    requires few { length rs.now ≤ 69 }
    requires places { places ≡ bits_of (may_be_fourth k.now p.now.half q.now.half) rs.now }
    ensures { if_found result found.new ≡ first_of (four_in_order (refutation_of_four strict) k.now p.now q.now) rs.now }
{
    match Triple::new(kp, &q.half) {
        None => false,
        Some(triple) => first_four_with_triple(strict, &triple, k, p, q, rs, places, found),
    }
}

/// Writes to `found` the first refutation by `k`, `p`, `q`, whose determinant is not 0, and one at some `places` of
/// `rs`. Returns whether there is one.
fn first_four_with_triple(
    strict: bool,
    triple: &Triple,
    k: &Half,
    p: &Placed,
    q: &Placed,
    rs: &[Placed],
    places: u128,
    found: &mut Outside,
) -> bool
    requires triple { triple.now ≡ three_of k.now p.now.half q.now.half }
    requires few { length rs.now ≤ 69 }
    requires places { places ≡ bits_of (may_be_fourth k.now p.now.half q.now.half) rs.now }
    ensures { if_found result found.new ≡ first_of (four_in_order (refutation_of_four strict) k.now p.now q.now) rs.now }
{
    let mut from = 0;
    while let Some(place) = lowest_from(places, from) {
        if four_if_one_sign(strict, triple, k, p, q, &rs[place as usize], found) {
            return true;
        }
        from = place + 1;
    }
    false
}

/// Writes to `found` the refutation by `k`, `p`, `q` and `r`, in the order of their places; returns whether there is
/// one. The last sign and the sum of the offsets are tried first: if two signs differ, or the sum does not contradict,
/// the minors are not computed.
fn four_if_one_sign(
    strict: bool,
    triple: &Triple,
    k: &Half,
    p: &Placed,
    q: &Placed,
    r: &Placed,
    found: &mut Outside,
) -> bool
    requires { triple.now ≡ three_of k.now p.now.half q.now.half }
    ensures { if_found result found.new ≡ four_in_order (refutation_of_four strict) k.now p.now q.now r.now }
{
    if !triple.may_refute_last(strict, &r.half) {
        return false;
    }
    four_in_order(strict, k, p, q, r, found)
}

/// Writes to `found` the refutation by `k`, `p`, `q` and `r`, in the order of their places; returns whether there is
/// one.
fn four_in_order(
    strict: bool,
    k: &Half,
    p: &Placed,
    q: &Placed,
    r: &Placed,
    found: &mut Outside,
) -> bool
    ensures { if_found result found.new ≡ four_in_order (refutation_of_four strict) k.now p.now q.now r.now }
{
    if !p.before {
        return refutation_of_four(strict, k, &p.half, &q.half, &r.half, found);
    }
    if !q.before {
        return refutation_of_four(strict, &p.half, k, &q.half, &r.half, found);
    }
    if !r.before {
        return refutation_of_four(strict, &p.half, &q.half, k, &r.half, found);
    }
    refutation_of_four(strict, &p.half, &q.half, &r.half, k, found)
}

/// Writes to `found` the refutation by `e`, `f`, `g` and `h`; returns whether there is one.
fn refutation_of_four(
    strict: bool,
    e: &Half,
    f: &Half,
    g: &Half,
    h: &Half,
    found: &mut Outside,
) -> bool
    ensures { if_found result found.new ≡ refutation_of_four strict e.now f.now g.now h.now }
{
    refutation(strict, &minors_of_four(e, f, g, h), found)
}
