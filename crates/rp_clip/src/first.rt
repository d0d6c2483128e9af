//! The first vertex of a table, in the order of the first three places of each vertex.
ghost use Rattle.std.specs.Prelude.{◌≡◌, true, IfSome, IfNone, Some};
ghost use Rattle.rp_clip.specs.Firsts.{AreOn, HasFirst, HasNoneBefore, IsBetter, IsFirstAt};
ghost use Rattle.rp_clip.specs.Masks.{HasLowPlaces};
ghost use Rattle.rp_clip.specs.Meetings.{IsVertexSet};
ghost use Rattle.rp_clip.specs.declared.first.Found.{Found};

use crate::meet::{Basis, first_basis};
use crate::planes::Planes;
use crate::table::Table;
use rp_space::lowest_from;

/// A vertex of a table and its first three places.
#[derive(Clone, Copy)]
pub(crate) struct Found {
    pub(crate) index: usize,
    pub(crate) basis: Basis,
}

/// Returns the row in `table` of the first vertex of the cell that is not on all planes of `set`; `None` iff each
/// vertex is on all of them. If the cell has a vertex off these planes, the first of them is in the table.
pub(crate) fn first_vertex<const MOST: usize>(
    planes: &Planes,
    table: &Table<MOST>,
    set: u128,
) -> Option<usize>
    requires { HasFirst MOST planes.now set table.now }
    ensures some { IfSome result (λ i. IsFirstAt planes.now set table.now.points i) }
    ensures none { IfNone result (AreOn planes.now set table.now.points) }
{
    let mut best: Option<Found> = None;
    let masks = table.planes();
    for i in 0..masks.len() {
        best = better(planes, set, best, i, masks[i]);
    }
    let found = best?;
    Some(found.index)
}

/// Returns `best` or the vertex at `index` with the places `mask`: the one whose first three places come first. The new
/// vertex is returned only if it is not on all planes of `set`.
fn better(
    planes: &Planes,
    set: u128,
    best: Option<Found>,
    index: usize,
    mask: u128,
) -> Option<Found>
    requires { IsVertexSet planes.now mask }
    ensures { IsBetter planes.now set best index mask result }
{
    if set & !mask == 0 {
        return best;
    }
    if is_behind(best, mask) {
        return best;
    }
    let Some(basis) = first_basis(planes, mask) else {
        return best;
    };
    let Some(found) = best else {
        return Some(Found { index, basis });
    };
    if !basis.is_before(&found.basis) {
        return best;
    }
    Some(Found { index, basis })
}

/// Returns true only if the three lowest places of a vertex show that its first three are not before those of the best.
/// Most vertices differ here.
fn is_behind(best: Option<Found>, mask: u128) -> bool
    requires { HasLowPlaces mask }
    ensures { result ≡ true → (f : Found) × (best ≡ Some f) × HasNoneBefore mask f.basis }
{
    match best {
        Some(found) => has_none_before(mask, &found.basis),
        None => false,
    }
}

/// Returns whether the three lowest places of a set are not before those of a basis, or there are no three.
fn has_none_before(set: u128, basis: &Basis) -> bool
    requires { HasLowPlaces set }
    ensures { result ≡ true → HasNoneBefore set basis.now }
{
    let Some(first) = lowest_from(set, 0) else {
        return true;
    };
    if first != basis.first {
        return first > basis.first;
    }
    let Some(second) = lowest_from(set, first + 1) else {
        return true;
    };
    if second != basis.second {
        return second > basis.second;
    }
    match lowest_from(set, second + 1) {
        Some(third) => third >= basis.third,
        None => true,
    }
}
