//! The vertices of a cell on the plane of one of its half-spaces.
ghost use Rattle.std.specs.Prelude.{◌≡◌, ◌<◌, ◌≤◌, ℕ, [], ◌∷◌, ◌++◌, length, true, Some};
ghost use Rattle.std.specs.List.{Contains, slice_get};
ghost use Rattle.rp_clip.specs.Polygons.{AreOnPlane, Covers, IsPolygon, IsPositiveAtAll, IsRenamed, IsSorted};

use crate::clip::refill;
use crate::corners::fill_cube;
use crate::cross::{Notes, cross_over};
use crate::order::{covers, near_first};
use crate::planes::Planes;
use crate::table::Table;
use rp_space::{Half, Meeting, lowest_from};
use std::marker::Model;

/// The polygon of a cell on the plane of its first half-space: the vertices there, each once, in no stated order, at
/// most 16. A contract sees the half-spaces and the table of the vertices.
///
/// Of the two tables one is used at a time, as in a `Clip`. It begins with the corners of the cube.
#[derive(Drop)]
pub(crate) struct Polygon {
    cube: Table<16>,
    planes: Planes,
    first: Table<16>,
    second: Table<16>,
    is_second: bool,
    notes: Notes<16>,
}

impl Model for Polygon {
    ghost use Rattle.std.specs.Prelude.{[]};
    ghost use Rattle.rp_clip.specs.Clipped.{HasVertices};
    ghost use Rattle.rp_clip.specs.Polygons.{Sided, sided, IsPolygon};
    ghost use Rattle.rp_clip.specs.Tables.{counting};

    ghost Value = { Sided };

    ghost view = { λ s. sided s.planes (counting s.is_second s.first s.second) };

    ghost invariant = { λ s. HasVertices 16 [] s.cube × IsPolygon s.planes 0 (counting s.is_second s.first s.second) };
}

impl Polygon {
    /// Returns a polygon without half-spaces and vertices.
    pub(crate) fn new() -> Polygon {
        let mut cube = Table::new();
        fill_cube(&mut cube);
        Polygon {
            cube,
            planes: Planes::new(),
            first: Table::new(),
            second: Table::new(),
            is_second: false,
            notes: Notes::new(),
        }
    }

    /// Makes the polygon of the half-spaces of `cell` at the places of `order`. Returns false if it has no room for it.
    pub(crate) fn cut_by(&mut self, cell: &[Half], order: &[usize]) -> bool
        requires few { length cell.now ≤ 64 }
        requires places { Covers order.now (length cell.now) }
        requires room { length order.now ≤ 64 }
        ensures { result ≡ true → IsSorted cell.now order.now self.new.halves }
    {
        if order.is_empty() || !self.begin(cell[order[0]]) {
            return false;
        }
        for rank in 1..order.len() {
            if !self.add(cell[order[rank]]) {
                return false;
            }
        }
        true
    }

    /// Makes the polygon of `h` alone. Returns false if it has no room for it.
    fn begin(&mut self, h: Half) -> bool
        ensures { result ≡ true → self.new.halves ≡ h ∷ [] }
    {
        // The call makes it known that the numbers keep their bounds.
        let _ = h.numbers();
        self.planes.clear();
        self.first.clear();
        self.is_second = false;
        if !cross_over(
            &self.planes,
            &h,
            &self.cube,
            &mut self.notes,
            &mut self.second,
        ) {
            return false;
        }
        self.planes.push(h);
        keep_on_first(&self.planes, &self.second, &[h], &[0], 0, &mut self.first);
        true
    }

    /// Adds `h` after the half-spaces, of which there are fewer than 64. Returns false if there is no room for its
    /// vertices.
    fn add(&mut self, h: Half) -> bool
        requires some { 0 < length self.old.halves }
        requires few { length self.old.halves < 64 }
        ensures { result ≡ true → self.new.halves ≡ self.old.halves ++ h ∷ [] }
    {
        // The call makes it known that the numbers keep their bounds.
        let _ = h.numbers();
        if is_positive_at_all(&h, self.table().corners()) {
            self.planes.push(h);
            return true;
        }
        if !refill(
            &self.planes,
            &h,
            self.is_second,
            &mut self.first,
            &mut self.second,
            &mut self.notes,
        ) {
            return false;
        }
        self.planes.push(h);
        self.is_second = !self.is_second;
        true
    }

    /// Returns the table of the vertices.
    fn table(&self) -> &Table<16>
        ensures { result.now ≡ self.now.table }
    {
        if self.is_second {
            &self.second
        } else {
            &self.first
        }
    }
}

/// Returns true only if `h` is positive at all of `corners`.
fn is_positive_at_all(h: &Half, corners: &[Meeting]) -> bool
    ensures { result ≡ true → IsPositiveAtAll h.now corners.now }
{
    for corner in corners {
        // The call makes it known that the weight is positive.
        let _ = corner.numbers();
        if corner.side(h) <= 0 {
            return false;
        }
    }
    true
}

/// Fills `to` with the vertices of `cell` on the plane at `place`. `from` is a table of the vertices of the half-spaces
/// in the order `order`, in which this plane is the first.
fn keep_on_first(
    sorted: &Planes,
    from: &Table<16>,
    cell: &[Half],
    order: &[usize],
    place: usize,
    to: &mut Table<16>,
)
    requires polygon { IsPolygon sorted.now 0 from.now }
    requires few { length cell.now ≤ 64 }
    requires covers { Covers order.now (length cell.now) }
    requires sorted { IsSorted cell.now order.now sorted.now }
    requires place { slice_get order.now 0 ≡ Some place }
    ensures polygon { IsPolygon cell.now place to.new }
    ensures on { AreOnPlane cell.now place to.new.points }
{
    let corners = from.corners();
    let sets = from.planes();
    to.clear();
    for i in 0..corners.len() {
        if sets[i] & 1 == 1 {
            to.push(corners[i], renamed(sets[i], order));
        }
    }
}

/// Returns `set`, a set of places in `order`, as the set of the places that `order` has there. The cube's places stay.
fn renamed(set: u128, order: &[usize]) -> u128
    requires order { (i : ℕ) → Contains order.now i → i < 64 }
    requires few { length order.now ≤ 64 }
    ensures { IsRenamed order.now set result }
{
    let mut places = set >> 64 << 64;
    let mut next = lowest_from(set, 0);
    while let Some(rank) = next {
        if rank as usize >= order.len() {
            return places;
        }
        places |= 1 << order[rank as usize];
        next = lowest_from(set, rank + 1);
    }
    places
}

/// Fills `corners` with the vertices of `cell` on the plane of the half-space at `place`. Returns false if there is no
/// room for them.
pub(crate) fn fill_polygon(
    cell: &[Half],
    place: usize,
    polygon: &mut Polygon,
    corners: &mut Table<16>,
) -> bool
    requires few { length cell.now ≤ 64 }
    requires place { place < length cell.now }
    ensures polygon { result ≡ true → IsPolygon cell.now place corners.new }
    ensures on { result ≡ true → AreOnPlane cell.now place corners.new.points }
{
    let order = near_first(cell, place);
    let order = order.as_slice();
    if !covers(order, cell.len()) || order.first() != Some(&place) {
        return false;
    }
    if !polygon.cut_by(cell, order) {
        return false;
    }
    keep_on_first(
        &polygon.planes,
        polygon.table(),
        cell,
        order,
        place,
        corners,
    );
    true
}
