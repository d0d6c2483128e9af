//! The first outside certificates of cells that are known to have no point.
ghost use Rattle.std.specs.Prelude.{◌≡◌, ◌+◌, ◌-◌, ◌<◌, ◌≤◌, ◌++◌, true, false, length, take, drop, Some, IsTrue};
ghost use Rattle.rp_geometry.specs.Geometry.{RationalPoint};
ghost use Rattle.rp_geometry.specs.laws.CellLaws.{IsSolution};
ghost use Rattle.rp_geometry.specs.sets.Shape.{shape_of_cell};
ghost use Rattle.rp_geometry.specs.sets.Sets.{IsEmpty, IsNonempty};
ghost use Rattle.rp_geometry.specs.searches.Certificate.{is_outside_certificate};
ghost use Rattle.rp_geometry.specs.searches.Elimination.{first_outside};
ghost use Rattle.rp_geometry.specs.searches.ProofLine.{strict_line, weak_line, out_line, apart_line};

use crate::decide::{refute_strict, refute_weak};
use crate::held::Held;
use rp_elim::first_outside_through;
use rp_space::{Half, Outside, keep_bounds};

/// The fewest half-spaces of a cell whose others are stored with their vertices to see that they have a point: with
/// fewer the search among all of them is as fast.
const FEW: usize = 16;

/// Returns the first outside certificate of `cell`, which has no point, as [`refute_strict`] does. If the others have a
/// point without the half-space at `place`, that half-space is in every refutation, and only the sets with it are
/// tried.
pub(crate) fn refute_strict_at(cell: &[Half], place: usize) -> Outside
    requires few { length cell.now ≤ 64 }
    requires empty { IsEmpty (shape_of_cell cell.now) }
    ensures first { first_outside true cell.now ≡ Some result }
    ensures passes { IsTrue (is_outside_certificate true cell.now result) }
    ensures line { out_line result ≡ strict_line cell.now }
{
    if !have_point_without(cell, place) {
        return refute_strict(cell);
    }
    // The call makes it known that all half-spaces keep their bounds.
    keep_bounds(cell);
    first_outside_through(&cell[..place], &cell[place], &cell[place + 1..], true).unwrap()
}

/// Returns the first outside certificate of `cell`, which has no point; all half-spaces but the last have one.
pub(crate) fn refute_last(cell: &[Half]) -> Outside
    requires few { length cell.now ≤ 64 }
    requires some { 0 < length cell.now }
    requires empty { IsEmpty (shape_of_cell cell.now) }
    requires others { IsNonempty (shape_of_cell (take (length cell.now - 1) cell.now)) }
    ensures first { first_outside true cell.now ≡ Some result }
    ensures passes { IsTrue (is_outside_certificate true cell.now result) }
    ensures line { out_line result ≡ strict_line cell.now }
{
    let last = cell.len() - 1;
    // The call makes it known that all half-spaces keep their bounds.
    keep_bounds(cell);
    first_outside_through(&cell[..last], &cell[last], &[], true).unwrap()
}

/// Returns true only if there is a half-space at `place`, and the others of `cell` have a point without it, as their
/// vertices show. Returns false if `cell` has fewer than 16 half-spaces.
fn have_point_without(cell: &[Half], place: usize) -> bool
    requires few { length cell.now ≤ 64 }
    ensures place { result ≡ true → place < length cell.now }
    ensures point { result ≡ true → IsNonempty (shape_of_cell (take place cell.now ++ drop (place + 1) cell.now)) }
{
    cell.len() >= FEW && place < cell.len() && is_held_without(cell, place)
}

/// Returns true only if the others of `cell` have a point without the half-space at `place`, as their vertices show. It
/// is a function of its own so that no other function makes room for the vertices.
fn is_held_without(cell: &[Half], place: usize) -> bool
    requires few { length cell.now ≤ 64 }
    requires place { place < length cell.now }
    ensures { result ≡ true → IsNonempty (shape_of_cell (take place cell.now ++ drop (place + 1) cell.now)) }
{
    let mut others = Held::new(&cell[..place]);
    others.extend(&cell[place + 1..]);
    others.has_point()
}

/// Returns the first outside certificate, not strict, of `cell`, whose weak system has no point, as [`refute_weak`]
/// does. If the weak system of the others has a point without the half-space at `place`, only the sets with that
/// half-space are tried.
pub(crate) fn refute_weak_at(cell: &[Half], place: usize) -> Outside
    requires few { length cell.now ≤ 64 }
    requires empty { (p : RationalPoint) → ¬ IsSolution false cell.now p }
    ensures first { first_outside false cell.now ≡ Some result }
    ensures passes { IsTrue (is_outside_certificate false cell.now result) }
    ensures line { apart_line result ≡ weak_line cell.now }
{
    if !have_weak_point_without(cell, place) {
        return refute_weak(cell);
    }
    // The call makes it known that all half-spaces keep their bounds.
    keep_bounds(cell);
    first_outside_through(&cell[..place], &cell[place], &cell[place + 1..], false).unwrap()
}

/// Returns true only if there is a half-space at `place`, and the weak system of the others of `cell` has a point
/// without it, as their vertices show. Returns false if `cell` has fewer than 16 half-spaces.
fn have_weak_point_without(cell: &[Half], place: usize) -> bool
    requires few { length cell.now ≤ 64 }
    ensures place { result ≡ true → place < length cell.now }
    ensures point { result ≡ true → (p : RationalPoint) × IsSolution false (take place cell.now ++ drop (place + 1) cell.now) p }
{
    cell.len() >= FEW && place < cell.len() && is_held_weakly_without(cell, place)
}

/// Returns true only if the weak system of the others of `cell` has a point without the half-space at `place`, as their
/// vertices show. It is a function of its own so that no other function makes room for the vertices.
fn is_held_weakly_without(cell: &[Half], place: usize) -> bool
    requires few { length cell.now ≤ 64 }
    requires place { place < length cell.now }
    ensures { result ≡ true → (p : RationalPoint) × IsSolution false (take place cell.now ++ drop (place + 1) cell.now) p }
{
    let mut others = Held::new(&cell[..place]);
    others.extend(&cell[place + 1..]);
    others.has_weak_point()
}
