//! The first flat certificate: the first few multiples of half-spaces that show that a cell has no point at a height.
ghost use Rattle.std.specs.Prelude.{◌≡◌, ◌<◌, ◌≤◌, length, true};
ghost use Rattle.std.specs.List.{list_all};
ghost use Rattle.rp_geometry.specs.searches.Certificate.{is_multiplier};
ghost use Rattle.rp_geometry.specs.searches.Search.{first_of, first_of_pairs, first_of_triples};
ghost use Rattle.rp_geometry.specs.searches.Elimination.{reduced_terms, normal_terms};
ghost use Rattle.rp_geometry.specs.sections.Trace.{IsHeight};
ghost use Rattle.rp_geometry.specs.sections.Flat.{flat_terms_if, flat_of_one, flat_of_two, flat_of_three, first_flat};
ghost use Rattle.rp_elim.specs.Factors.{AreFactorsSmall};
ghost use Rattle.rp_section.specs.FlatList.{flat_in};

use rp_cert::cancels_at;
use rp_elim::{
    Axis, are_multipliers, are_negated_multipliers, lowest_terms, minors_of_two, minors_on_axes,
    negated,
};
use rp_space::{Half, Outside, Term, cube, joined};

/// Returns the first flat certificate of `cell` at the height `z`; `None` iff there is none. It is the first by the
/// number of its half-spaces and then by their places, among those of `cell` and the cube's vertical sides. The
/// multipliers are positive and in lowest terms. `cell` has at most 32 half-spaces.
pub fn first_flat(cell: &[Half], z: i32) -> Option<Outside>
    requires height { IsHeight z }
    requires few { length cell.now ≤ 32 }
    ensures { result ≡ first_flat z cell.now }
{
    let list = joined(cell, &cube()[..4]);
    first_in(list.as_slice(), z)
}

/// Returns the first flat certificate at the height `z` among `halves`; `None` iff there is none.
fn first_in(halves: &[Half], z: i32) -> Option<Outside>
    requires { IsHeight z }
    ensures { result ≡ flat_in z halves.now }
{
    if let Some(terms) = first_one(halves, z) {
        return Some(terms);
    }
    if let Some(terms) = first_two(halves, z) {
        return Some(terms);
    }
    first_three(halves, z)
}

/// Returns the first flat certificate at the height `z` by one of `hs`; `None` iff there is none.
fn first_one(hs: &[Half], z: i32) -> Option<Outside>
    requires { IsHeight z }
    ensures { result ≡ first_of (flat_of_one z) hs.now }
{
    for h in hs {
        if let Some(terms) = flat_of_one(h, z) {
            return Some(terms);
        }
    }
    None
}

/// Returns the first flat certificate at the height `z` by two of `gs`; `None` iff there is none.
fn first_two(gs: &[Half], z: i32) -> Option<Outside>
    requires { IsHeight z }
    ensures { result ≡ first_of_pairs (flat_of_two z) gs.now }
{
    for i in 0..gs.len() {
        if let Some(terms) = first_two_with(&gs[i], &gs[i + 1..], z) {
            return Some(terms);
        }
    }
    None
}

/// Returns the first flat certificate at the height `z` by `g` and one of `hs`; `None` iff there is none.
fn first_two_with(g: &Half, hs: &[Half], z: i32) -> Option<Outside>
    requires { IsHeight z }
    ensures { result ≡ first_of (flat_of_two z g.now) hs.now }
{
    for h in hs {
        if let Some(terms) = flat_of_two(g, h, z) {
            return Some(terms);
        }
    }
    None
}

/// Returns the first flat certificate at the height `z` by three of `fs`; `None` iff there is none.
fn first_three(fs: &[Half], z: i32) -> Option<Outside>
    requires { IsHeight z }
    ensures { result ≡ first_of_triples (flat_of_three z) fs.now }
{
    for i in 0..fs.len() {
        if let Some(terms) = first_three_with(&fs[i], &fs[i + 1..], z) {
            return Some(terms);
        }
    }
    None
}

/// Returns the first flat certificate at the height `z` by `f` and two of `gs`; `None` iff there is none.
fn first_three_with(f: &Half, gs: &[Half], z: i32) -> Option<Outside>
    requires { IsHeight z }
    ensures { result ≡ first_of_pairs (flat_of_three z f.now) gs.now }
{
    for i in 0..gs.len() {
        if let Some(terms) = first_three_with_two(f, &gs[i], &gs[i + 1..], z) {
            return Some(terms);
        }
    }
    None
}

/// Returns the first flat certificate at the height `z` by `f`, `g` and one of `hs`; `None` iff there is none.
fn first_three_with_two(f: &Half, g: &Half, hs: &[Half], z: i32) -> Option<Outside>
    requires { IsHeight z }
    ensures { result ≡ first_of (flat_of_three z f.now g.now) hs.now }
{
    for h in hs {
        if let Some(terms) = flat_of_three(f, g, h, z) {
            return Some(terms);
        }
    }
    None
}

/// Returns the flat certificate at the height `z` by `h` alone, if it makes one.
fn flat_of_one(h: &Half, z: i32) -> Option<Outside>
    requires { IsHeight z }
    ensures { result ≡ flat_of_one z h.now }
{
    positive_flat(&[Term { by: 1, half: *h }], z)
}

/// Returns the flat certificate at the height `z` by `g` and `h`, if they make one.
fn flat_of_two(g: &Half, h: &Half, z: i32) -> Option<Outside>
    requires { IsHeight z }
    ensures { result ≡ flat_of_two z g.now h.now }
{
    flat(&minors_of_two(g, h), z)
}

/// Returns the flat certificate at the height `z` by `f`, `g` and `h`, if they make one.
fn flat_of_three(f: &Half, g: &Half, h: &Half, z: i32) -> Option<Outside>
    requires { IsHeight z }
    ensures { result ≡ flat_of_three z f.now g.now h.now }
{
    flat(&minors_on_axes(f, g, h, Axis::X, Axis::Y), z)
}

/// Returns the 1 to 3 `terms` with positive multipliers in lowest terms, if they are a flat certificate at the height
/// `z`. The multipliers may have either sign; `None` if two have different signs or one is 0.
fn flat(terms: &[Term], z: i32) -> Option<Outside>
    requires height { IsHeight z }
    requires some { 0 < length terms.now }
    requires few { length terms.now ≤ 3 }
    requires small { AreFactorsSmall terms.now }
    ensures { result ≡ flat_terms_if z (normal_terms terms.now) }
{
    if are_multipliers(terms) {
        return positive_flat(terms, z);
    }
    if are_negated_multipliers(terms) {
        return positive_flat(negated(terms).items(), z);
    }
    None
}

/// Returns the 1 to 3 `terms` in lowest terms, if they are a flat certificate at the height `z`. All multipliers are
/// positive.
fn positive_flat(terms: &[Term], z: i32) -> Option<Outside>
    requires height { IsHeight z }
    requires some { 0 < length terms.now }
    requires few { length terms.now ≤ 3 }
    requires multipliers { list_all (λ t. is_multiplier t.factor) terms.now ≡ true }
    ensures { result ≡ flat_terms_if z (reduced_terms terms.now) }
{
    if !cancels_at(terms, z) {
        return None;
    }
    Some(lowest_terms(terms))
}
