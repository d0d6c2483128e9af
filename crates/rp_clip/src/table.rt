//! A table of points, each with the places of the planes through it.
ghost use Rattle.std.specs.Prelude.{◌≡◌, ◌<◌, ◌≤◌, ◌↔◌, [], ◌∷◌, ◌++◌, length, map, true, false, Some};
ghost use Rattle.std.specs.List.{Contains, slice_get};
ghost use Rattle.rp_geometry.specs.Geometry.{reduced_point};
ghost use Rattle.rp_clip.specs.Tables.{rows_of, IsPut};

use arrayvec::ArrayVec;
use rp_space::{Meeting, Point};
use std::marker::Model;

/// At most `MOST` points, which are not in lowest terms, each with the set of the places of the planes through it. A
/// contract sees the points in lowest terms, and the places.
#[derive(Drop)]
pub(crate) struct Table<const MOST: usize> {
    corners: ArrayVec<Meeting, MOST>,
    planes: ArrayVec<u128, MOST>,
}

impl<const MOST: usize> Model for Table<MOST> {
    ghost use Rattle.std.specs.Prelude.{◌≡◌, length, map};
    ghost use Rattle.rp_geometry.specs.Geometry.{reduced_point};
    ghost use Rattle.rp_clip.specs.Tables.{Rows, rows_of};

    ghost Value = { Rows };

    ghost view = { λ t. rows_of (map reduced_point t.corners.items) t.planes.items };

    ghost invariant = { λ t. length t.planes.items ≡ length t.corners.items };
}

impl<const MOST: usize> Table<MOST> {
    /// Returns the empty table.
    pub(crate) fn new() -> Table<MOST>
        ensures { result ≡ rows_of [] [] }
    {
        Table {
            corners: ArrayVec::new(),
            planes: ArrayVec::new(),
        }
    }

    /// Removes all rows.
    pub(crate) fn clear(&mut self)
        ensures { self.new ≡ rows_of [] [] }
    {
        self.corners.clear();
        self.planes.clear();
    }

    /// Appends a row. The table has room for it.
    pub(crate) fn push(&mut self, corner: Meeting, planes: u128)
        requires { length self.old.points < MOST }
        ensures points { self.new.points ≡ self.old.points ++ reduced_point corner ∷ [] }
        ensures planes { self.new.planes ≡ self.old.planes ++ planes ∷ [] }
    {
        self.corners.push(corner);
        self.planes.push(planes);
    }

    /// Returns whether there is no room for a further row.
    fn is_full(&self) -> bool
        ensures full { result ≡ true → length self.now.points ≡ MOST }
        ensures room { result ≡ false → length self.now.points < MOST }
    {
        self.corners.len() == MOST
    }

    /// Returns whether a row has exactly the places `planes`.
    fn has(&self, planes: u128) -> bool
        ensures { (result ≡ true) ↔ Contains self.now.planes planes }
    {
        self.planes.contains(&planes)
    }

    /// Adds a row, if no row has the places `planes`. Returns false if no row has them and the table is full.
    pub(crate) fn put(&mut self, corner: Meeting, planes: u128) -> bool
        ensures { IsPut MOST self.old (reduced_point corner) planes self.new result }
    {
        if self.has(planes) {
            return true;
        }
        if self.is_full() {
            return false;
        }
        self.push(corner, planes);
        true
    }

    /// Returns the points, not in lowest terms.
    pub(crate) fn corners(&self) -> &[Meeting]
        ensures points { map reduced_point result.now ≡ self.now.points }
        ensures fits { length result.now ≤ MOST }
    {
        self.corners.as_slice()
    }

    /// Returns the places of the planes through each point.
    pub(crate) fn planes(&self) -> &[u128]
        ensures value { result.now ≡ self.now.planes }
        ensures as_many { length result.now ≡ length self.now.points }
    {
        self.planes.as_slice()
    }

    /// Returns the point of the row `i`, in lowest terms.
    pub(crate) fn point(&self, i: usize) -> Point
        requires { i < length self.now.points }
        ensures { Some result ≡ slice_get self.now.points i }
    {
        self.corners[i].point()
    }

    /// Returns the places of the planes through the point of the row `i`.
    pub(crate) fn places(&self, i: usize) -> u128
        requires { i < length self.now.planes }
        ensures { Some result ≡ slice_get self.now.planes i }
    {
        self.planes[i]
    }

    /// Copies the rows of `other`.
    pub(crate) fn copy_from(&mut self, other: &Table<MOST>)
        ensures { self.new ≡ other.now }
    {
        let corners = other.corners();
        let planes = other.planes();
        self.clear();
        for i in 0..corners.len() {
            self.push(corners[i], planes[i]);
        }
    }
}
