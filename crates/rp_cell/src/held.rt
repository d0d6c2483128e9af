//! Cells stored with their vertices.
ghost use Rattle.std.specs.Prelude.{◌≡◌, ◌+◌, ◌<◌, ◌≤◌, [], ◌∷◌, ◌++◌, true, false, length, Some, IsTrue, IfOk, IfSome, map};
ghost use Rattle.rp_geometry.specs.Geometry.{RationalPoint, is_box_in_bounds};
ghost use Rattle.rp_geometry.specs.parts.LeastBox.{least_box};
ghost use Rattle.rp_geometry.specs.sets.Shape.{shape_of_cell};
ghost use Rattle.rp_geometry.specs.sets.Sets.{IsEmpty, IsNonempty};
ghost use Rattle.rp_geometry.specs.searches.Certificate.{is_outside_certificate};
ghost use Rattle.rp_geometry.specs.searches.Elimination.{first_outside};
ghost use Rattle.rp_geometry.specs.searches.ProofLine.{strict_line, weak_line, out_line};
ghost use Rattle.rp_geometry.specs.laws.CellLaws.{IsSolution};
ghost use Rattle.rp_space.specs.Boxes.{integer_box};
ghost use Rattle.rp_clip.specs.Faces.{HasSide};
ghost use Rattle.rp_cell.specs.Decisions.{line_of_strict, line_of_weak, DecidesStrict, DecidesWeak};

use crate::decide::{Strict, Weak, search_strict, search_weak};
use crate::refute::{refute_last, refute_strict_at, refute_weak_at};
use rp_clip::Clip;
use rp_space::{Half, IntBox, Outside, System, joined};
use rp_vertex::{box_of_points, box_of_vertices};
use std::marker::Model;

/// Room for all vertices of a cell of 64 half-spaces in the cube: a body of 70 faces has at most 136 by Euler's
/// formula.
const ROOM: usize = 136;

/// A cell of at most 64 half-spaces, stored with its vertices. So decisions about it, and about it with further
/// half-spaces, need no search for them. A contract sees the list of its half-spaces. It takes no memory. It is large:
/// use [`Held::hold`] instead of a new one.
#[derive(Drop)]
pub struct Held {
    cell: System,
    clip: Clip<ROOM>,
    /// Whether the clip has the whole cell. Otherwise one of the half-spaces would have made too many vertices for it.
    whole: bool,
    /// The number of half-spaces, from the first on, that have a common point, as far as is known; otherwise 0. If the
    /// cell has no point, the next half-space is likely to be in all refutations, and it is in all if it is the last
    /// one.
    inner: usize,
    /// The number of half-spaces, from the first on, whose weak systems have a common point. It is only a hint, as
    /// `inner` is.
    closed: usize,
}

impl Model for Held {
    ghost use Rattle.std.specs.Prelude.{List};
    ghost use Rattle.rp_geometry.specs.Geometry.{HalfSpace};
    ghost use Rattle.rp_cell.specs.Held.{IsHeld};

    ghost Value = { List HalfSpace };

    ghost view = { λ s. s.cell.items };

    ghost invariant = { λ s. IsHeld s.cell.items s.clip s.whole s.inner };
}

impl Held {
    /// Returns `cell`, which has at most 64 half-spaces, with its vertices.
    pub fn new(cell: &[Half]) -> Held
        requires { length cell.now ≤ 64 }
        ensures { result ≡ cell.now }
    {
        let mut held = Held {
            cell: System::new(),
            clip: Clip::cube(),
            whole: true,
            inner: 0,
            closed: 0,
        };
        held.extend(cell);
        held
    }

    /// Stores `cell`, which has at most 64 half-spaces, in place of the stored cell.
    pub fn hold(&mut self, cell: &[Half])
        requires { length cell.now ≤ 64 }
        ensures { self.new ≡ cell.now }
    {
        self.cell.clear();
        self.clip.clear();
        self.whole = true;
        self.inner = 0;
        self.closed = 0;
        self.extend(cell);
    }

    /// Returns the cell with `more` half-spaces after its own, at most 64 together.
    pub fn with(&self, more: &[Half]) -> Held
        requires { length self.now + length more.now ≤ 64 }
        ensures { result ≡ self.now ++ more.now }
    {
        let mut held = self.copy();
        held.extend(more);
        held
    }

    /// Returns a copy of the stored cell.
    pub fn copy(&self) -> Held
        ensures { result ≡ self.now }
    {
        Held {
            cell: joined(self.halves(), &[]),
            clip: self.clip.copy(),
            whole: self.whole,
            inner: self.inner,
            closed: self.closed,
        }
    }

    /// Stores the cell of `other`. Copies its vertices, and not the unused room for more.
    pub fn copy_from(&mut self, other: &Held)
        ensures { self.new ≡ other.now }
    {
        refill(&mut self.cell, other.halves());
        self.clip.copy_from(&other.clip);
        self.whole = other.whole;
        self.inner = other.inner;
        self.closed = other.closed;
    }

    /// Appends `more` half-spaces to those of the cell, at most 64 together.
    pub fn extend(&mut self, more: &[Half])
        requires { length self.old + length more.now ≤ 64 }
        ensures { self.new ≡ self.old ++ more.now }
    {
        for half in more {
            self.push(*half);
        }
    }

    /// Appends `half` to the half-spaces of the cell, of which there are fewer than 64.
    pub fn push(&mut self, half: Half)
        requires { length self.old < 64 }
        ensures { self.new ≡ self.old ++ half ∷ [] }
    {
        self.add(half);
        self.note_weak_point();
        self.note_point();
    }

    /// Appends `half` to the half-spaces of the cell, of which there are fewer than 64, and clips its vertices.
    fn add(&mut self, half: Half)
        requires { length self.old < 64 }
        ensures { self.new ≡ self.old ++ half ∷ [] }
    {
        self.cell.push(half);
        self.whole = add_if(self.whole, &mut self.clip, half);
    }

    /// Records whether the weak system of the cell still has a point.
    fn note_weak_point(&mut self)
        ensures { self.new ≡ self.old }
    {
        if self.whole && !self.clip.corners().is_empty() {
            self.closed = self.cell.len();
        }
    }

    /// Records whether the cell still has a point.
    fn note_point(&mut self)
        ensures { self.new ≡ self.old }
    {
        if self.has_point() {
            self.inner = self.cell.len();
        }
    }

    /// Returns the place, among the `count` half-spaces after the first `behind`, of the half-space that took the last
    /// point of the cell away. Returns `None` if the cell has a point, or a half-space outside these took it, or the
    /// last of them.
    pub(crate) fn taker(&self, behind: usize, count: usize) -> Option<usize>
        ensures { IfSome result (λ place. place < count) }
    {
        if self.has_point() || self.inner < behind {
            return None;
        }
        let place = self.inner - behind;
        if place >= count || place == count - 1 {
            return None;
        }
        Some(place)
    }

    /// Returns the half-spaces in order, at most 64.
    pub fn halves(&self) -> &[Half]
        ensures value { result.now ≡ self.now }
        ensures few { length result.now ≤ 64 }
    {
        self.cell.as_slice()
    }

    /// Returns true only if the cell has a point, as the vertices show.
    pub(crate) fn has_point(&self) -> bool
        ensures { result ≡ true → IsNonempty (shape_of_cell self.now) }
    {
        self.whole && self.clip.has_inside()
    }

    /// Returns true only if the weak system of the cell has a point, as the vertices show.
    pub(crate) fn has_weak_point(&self) -> bool
        ensures { result ≡ true → (p : RationalPoint) × IsSolution false self.now p }
    {
        self.whole && self.clip.first_weak().is_some()
    }

    /// Returns true only if a point of the plane of the half-space at `place` is strictly inside all others of the
    /// cell, as the vertices show.
    pub(crate) fn has_side(&self, place: usize) -> bool
        requires { place < length self.now }
        ensures { result ≡ true → HasSide self.now place }
    {
        self.whole && self.clip.has_side(place)
    }

    /// Returns the least whole box around the cell, if it has a member: the box of its vertices.
    pub(crate) fn bounds(&self) -> IntBox
        ensures value { integer_box result ≡ least_box self.now }
        ensures bounds { is_box_in_bounds (integer_box result) ≡ true }
    {
        if !self.whole {
            return box_of_vertices(self.halves());
        }
        box_of_points(self.clip.corners())
    }

    /// Decides whether the cell has a point, as [`decide_strict`] does.
    pub fn strict(&self) -> Strict
        ensures decides { DecidesStrict self.now result }
        ensures line { line_of_strict result ≡ strict_line self.now }
    {
        if !self.whole {
            return search_strict(self.halves());
        }
        match self.clip.first_inside() {
            Some(points) => Strict::Inside(points),
            None => Strict::Outside(self.refute()),
        }
    }

    /// Returns the first outside certificate of the cell, which has no point.
    fn refute(&self) -> Outside
        requires { IsEmpty (shape_of_cell self.now) }
        ensures first { first_outside true self.now ≡ Some result }
        ensures passes { IsTrue (is_outside_certificate true self.now result) }
        ensures line { out_line result ≡ strict_line self.now }
    {
        let cell = self.halves();
        if self.inner == 0 || self.inner + 1 != cell.len() {
            return refute_strict_at(cell, self.inner);
        }
        refute_last(cell)
    }

    /// Decides whether the weak system of the cell has a point, as [`decide_weak`] does.
    pub fn weak(&self) -> Weak
        ensures decides { DecidesWeak self.now result }
        ensures line { line_of_weak result ≡ weak_line self.now }
    {
        if !self.whole {
            return search_weak(self.halves());
        }
        match self.clip.first_weak() {
            Some(p) => Weak::At(p),
            None => Weak::Outside(refute_weak_at(self.halves(), self.closed)),
        }
    }

    /// Decides whether the cell with `more` half-spaces after its own, at most 64 together, has a point, as
    /// [`decide_strict`] does.
    pub fn strict_with(&self, more: &[Half]) -> Strict
        requires { length self.now + length more.now ≤ 64 }
        ensures decides { DecidesStrict (self.now ++ more.now) result }
        ensures line { line_of_strict result ≡ strict_line (self.now ++ more.now) }
    {
        self.with(more).strict()
    }

    /// Decides whether the weak system of the cell with `more` half-spaces after its own, at most 64 together, has a
    /// point, as [`decide_weak`] does.
    pub fn weak_with(&self, more: &[Half]) -> Weak
        requires { length self.now + length more.now ≤ 64 }
        ensures decides { DecidesWeak (self.now ++ more.now) result }
        ensures line { line_of_weak result ≡ weak_line (self.now ++ more.now) }
    {
        self.with(more).weak()
    }
}

/// Adds `half` to `clip` if `clip` has the whole cell (`whole`). Returns whether it then has the whole cell.
fn add_if(whole: bool, clip: &mut Clip<ROOM>, half: Half) -> bool
    requires { whole ≡ true → length clip.old.halves < 64 }
    ensures was { result ≡ true → whole ≡ true }
    ensures added { result ≡ true → clip.new.halves ≡ clip.old.halves ++ half ∷ [] }
{
    whole && clip.add(half)
}

/// Replaces the content of `list` by `halves`, at most 64.
fn refill(list: &mut System, halves: &[Half])
    requires { length halves.now ≤ 64 }
    ensures { list.new.items ≡ halves.now }
{
    list.clear();
    for half in halves {
        list.push(*half);
    }
}
