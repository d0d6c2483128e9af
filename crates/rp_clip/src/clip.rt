//! Cells with their vertices.
ghost use Rattle.std.specs.Prelude.{◌≡◌, ◌<◌, ◌≤◌, ◌↔◌, [], ◌∷◌, ◌++◌, length, map, not, true, false, IfSome, IsNone, IsTrue};
ghost use Rattle.rp_geometry.specs.Geometry.{RationalPoint, reduced_point};
ghost use Rattle.rp_geometry.specs.sets.Shape.{shape_of_cell};
ghost use Rattle.rp_geometry.specs.sets.Sets.{IsEmpty, IsNonempty};
ghost use Rattle.rp_geometry.specs.searches.Certificate.{is_inside_certificate};
ghost use Rattle.rp_geometry.specs.searches.Vertex.{first_inside, first_weak_point};
ghost use Rattle.rp_geometry.specs.laws.CellLaws.{IsSolution};
ghost use Rattle.rp_clip.specs.CubeCorners.{cube_corners};
ghost use Rattle.rp_clip.specs.Clipped.{clipped, HasVertices};
ghost use Rattle.rp_clip.specs.Crossings.{IsRefilled};
ghost use Rattle.rp_clip.specs.Faces.{HasSide};
ghost use Rattle.rp_clip.specs.Tables.{counting, IsTable, AreVertices, HasMoreVertices};

use crate::corners::fill_cube;
use crate::cross::{Notes, cross_over};
use crate::faces::common_places;
use crate::inside::{first_point, first_points};
use crate::planes::Planes;
use crate::table::Table;
use arrayvec::ArrayVec;
use rp_space::{Half, Inside, Meeting, Point};
use std::marker::Model;

/// A cell of at most 64 half-spaces with the vertices of its weak system, each once, in no stated order. There is room
/// for `MOST` of them, which are at least the eight corners of the cube. A contract sees the half-spaces in order and
/// the vertices in lowest terms. No call takes memory.
///
/// There are two tables, of which one is in use: `add` fills the other, which is then in use, so that no table is
/// moved. A clip is large, so `clear` and `copy_from` serve better than a new one.
#[derive(Drop)]
pub struct Clip<const MOST: usize> {
    planes: Planes,
    first: Table<MOST>,
    second: Table<MOST>,
    is_second: bool,
    notes: Notes<MOST>,
}

impl<const MOST: usize> Model for Clip<MOST> {
    ghost use Rattle.rp_clip.specs.Clipped.{Clipped, clipped, HasVertices};
    ghost use Rattle.rp_clip.specs.Tables.{counting};

    ghost Value = { Clipped };

    ghost view = { λ s. clipped s.planes (counting s.is_second s.first s.second).points };

    ghost invariant = { λ s. HasVertices MOST s.planes (counting s.is_second s.first s.second) };
}

impl<const MOST: usize> Clip<MOST> {
    /// Returns the clip without half-spaces, with the eight corners of the closed cube.
    pub fn cube() -> Clip<MOST>
        requires { 8 ≤ MOST }
        ensures value { result ≡ clipped [] cube_corners }
        ensures vertices { AreVertices [] result.points }
    {
        let mut clip = Clip {
            planes: Planes::new(),
            first: Table::new(),
            second: Table::new(),
            is_second: false,
            notes: Notes::new(),
        };
        fill_cube(&mut clip.first);
        clip
    }

    /// Removes all half-spaces, so that the eight corners of the closed cube are left.
    pub fn clear(&mut self)
        requires { 8 ≤ MOST }
        ensures value { self.new ≡ clipped [] cube_corners }
        ensures vertices { AreVertices [] self.new.points }
    {
        self.planes.clear();
        fill_cube(&mut self.first);
        self.is_second = false;
    }

    /// Adds `h` after the half-spaces, of which there are fewer than 64; the points become the vertices with it.
    /// Returns false iff there would be more than `MOST` vertices, and then nothing changes.
    pub fn add(&mut self, h: Half) -> bool
        requires { length self.old.halves < 64 }
        ensures added { result ≡ true → self.new.halves ≡ self.old.halves ++ h ∷ [] }
        ensures refused { result ≡ false → self.new ≡ self.old }
        ensures full { (result ≡ false) ↔ HasMoreVertices MOST (self.old.halves ++ h ∷ []) }
        ensures vertices { AreVertices self.new.halves self.new.points }
    {
        // The call makes it known that the numbers keep their bounds.
        let _ = h.numbers();
        if !refill(
            &self.planes,
            &h,
            self.is_second,
            &mut self.first,
            &mut self.second,
            &mut self.notes,
        ) {
            return false;
        }
        self.planes.push(h);
        self.is_second = !self.is_second;
        true
    }

    /// Returns the half-spaces, in the order in which they were added.
    pub fn halves(&self) -> &[Half]
        ensures value { result.now ≡ self.now.halves }
        ensures fits { length result.now ≤ 64 }
    {
        self.planes.halves()
    }

    /// Returns the vertices, each once, not in lowest terms.
    pub fn corners(&self) -> &[Meeting]
        ensures value { map reduced_point result.now ≡ self.now.points }
        ensures vertices { AreVertices self.now.halves (map reduced_point result.now) }
        ensures fits { length result.now ≤ MOST }
    {
        self.table().corners()
    }

    /// Returns the vertices, each once, in lowest terms.
    pub fn vertices(&self) -> ArrayVec<Point, MOST>
        ensures value { result.items ≡ self.now.points }
        ensures vertices { AreVertices self.now.halves result.items }
    {
        points_of(self.corners())
    }

    /// Returns the first inside certificate of the half-spaces: the first vertex, and then, as long as a half-space is
    /// zero at all points so far, the first vertex at which one of these half-spaces is positive. `None` iff the cell
    /// has no point.
    pub fn first_inside(&self) -> Option<Inside>
        ensures first { result ≡ first_inside self.now.halves }
        ensures passes { IfSome result (λ points. IsTrue (is_inside_certificate self.now.halves points)) }
        ensures none { IsNone result ↔ IsEmpty (shape_of_cell self.now.halves) }
    {
        first_points(&self.planes, self.table())
    }

    /// Returns the first weak point of the half-spaces: the first vertex. `None` iff the weak system has no point.
    pub fn first_weak(&self) -> Option<Point>
        ensures first { result ≡ first_weak_point self.now.halves }
        ensures passes { IfSome result (λ p. IsSolution false self.now.halves p) }
        ensures none { IsNone result ↔ ((p : RationalPoint) → ¬ IsSolution false self.now.halves p) }
    {
        first_point(&self.planes, self.table())
    }

    /// Returns whether the cell has a point: whether there are vertices, and no plane passes through all of them.
    pub fn has_inside(&self) -> bool
        ensures { (result ≡ true) ↔ IsNonempty (shape_of_cell self.now.halves) }
    {
        common_places(self.table().planes(), 0) == 0
    }

    /// Returns whether the plane of the half-space at `place` has vertices, and no other plane passes through all of
    /// them. Then a point of this plane is strictly inside all other half-spaces. After false that is open.
    pub fn has_side(&self, place: usize) -> bool
        requires { place < length self.now.halves }
        ensures { result ≡ true → HasSide self.now.halves place }
    {
        let masks = self.table().planes();
        let set = 1 << place;
        common_places(masks, set) == set
    }

    /// Returns a copy of the clip.
    pub fn copy(&self) -> Clip<MOST>
        ensures { result ≡ self.now }
    {
        let mut planes = Planes::new();
        planes.copy_from(&self.planes);
        let mut first = Table::new();
        first.copy_from(self.table());
        Clip {
            planes,
            first,
            second: Table::new(),
            is_second: false,
            notes: Notes::new(),
        }
    }

    /// Copies the content of `other`, without its unused room.
    pub fn copy_from(&mut self, other: &Clip<MOST>)
        ensures { self.new ≡ other.now }
    {
        self.planes.copy_from(&other.planes);
        self.first.copy_from(other.table());
        self.is_second = false;
    }

    /// Returns the table of the vertices.
    fn table(&self) -> &Table<MOST>
        ensures clip { HasVertices MOST self.now.halves result.now }
        ensures points { result.now.points ≡ self.now.points }
    {
        if self.is_second {
            &self.second
        } else {
            &self.first
        }
    }
}

/// Fills the unused one of the two tables with the vertices of the cell of the other table with `h` as well. Returns
/// false if there are too many.
pub(crate) fn refill<const MOST: usize>(
    planes: &Planes,
    h: &Half,
    is_second: bool,
    first: &mut Table<MOST>,
    second: &mut Table<MOST>,
    notes: &mut Notes<MOST>,
) -> bool
    requires table { IsTable MOST planes.now (counting is_second first.old second.old) }
    requires room { length planes.now < 64 }
    ensures same { counting is_second first.new second.new ≡ counting is_second first.old second.old }
    ensures refilled { IsRefilled MOST planes.now h.now (counting is_second first.old second.old) (counting (not is_second) first.new second.new) result }
{
    if is_second {
        cross_over(planes, h, second, notes, first)
    } else {
        cross_over(planes, h, first, notes, second)
    }
}

/// Returns `corners`, at most `MOST`, in lowest terms.
fn points_of<const MOST: usize>(corners: &[Meeting]) -> ArrayVec<Point, MOST>
    requires { length corners.now ≤ MOST }
    ensures { result.items ≡ map reduced_point corners.now }
{
    let mut points = ArrayVec::new();
    for corner in corners {
        points.push(corner.point());
    }
    points
}
