//! Parts: cells with a member, each with the least box around its members.
ghost use Rattle.std.specs.Prelude.{◌≡◌, ◌≤◌, ◌++◌, false, length, IfOk, IfSome};
ghost use Rattle.rp_geometry.specs.Geometry.{RationalPoint, boxes_meet, closed_boxes_meet};
ghost use Rattle.rp_geometry.specs.sets.Shape.{shape_of_cell};
ghost use Rattle.rp_geometry.specs.sets.Sets.{IsEmpty};
ghost use Rattle.rp_geometry.specs.laws.CellLaws.{IsSolution};
ghost use Rattle.rp_geometry.specs.searches.ProofLine.{out_line, apart_line, strict_line, weak_line};
ghost use Rattle.rp_geometry.specs.parts.PartTest.{whole_part};
ghost use Rattle.rp_geometry.specs.parts.Parts.{IsPart, most_half_spaces};
ghost use Rattle.rp_space.specs.Boxes.{integer_box};

use rp_cell::{Cell, refute_between, refute_weak_between};
use rp_space::{Half, IntBox, Outside};
use std::alloc::{AllocError, Global};
use std::marker::Model;

/// A part of a region: a cell of at most 32 half-spaces with a member, and the least box with whole corners around its
/// members.
#[derive(Drop)]
pub struct Part {
    halves: Cell,
    bounds: IntBox,
}

impl Model for Part {
    ghost use Rattle.rp_geometry.specs.sets.Shape.{Part};
    ghost use Rattle.rp_geometry.specs.parts.Parts.{IsPart};
    ghost use Rattle.rp_space.specs.Boxes.{integer_box};

    ghost Value = { Part };

    ghost view = { λ a. record { cell = a.halves.items; bounds = integer_box a.bounds } };

    ghost invariant = { λ a. IsPart (record { cell = a.halves.items; bounds = integer_box a.bounds }) };
}

impl Part {
    /// Returns the whole cube, which has no half-space. Takes no memory.
    pub(crate) fn whole(alloc: Global) -> Part
        ensures { result ≡ whole_part }
    {
        Part {
            halves: Cell::new(alloc),
            bounds: IntBox::cube(),
        }
    }

    /// Returns the part of the slim cell `halves` and its least box `bounds`.
    pub(crate) fn of_slim(halves: Cell, bounds: IntBox) -> Part
        requires { IsPart (record { cell = halves.items; bounds = integer_box bounds }) }
        ensures { result ≡ record { cell = halves.items; bounds = integer_box bounds } }
    {
        Part { halves, bounds }
    }

    /// Returns the half-spaces in order, at most 32. The members are the points of the cube that are in all of them.
    pub fn halves(&self) -> &[Half]
        ensures value { result.now ≡ self.now.cell }
        ensures few { length result.now ≤ most_half_spaces }
    {
        self.halves.items()
    }

    /// Returns the half-spaces in order and drops the box. Takes no memory.
    pub fn into_halves(self) -> Cell
        ensures { result.items ≡ self.cell }
    {
        self.halves
    }

    /// Returns the least box around the members: on each axis the greatest whole lower and the least whole upper bound.
    pub fn bounds(&self) -> &IntBox
        ensures { integer_box result.now ≡ self.now.bounds }
    {
        &self.bounds
    }

    /// Returns a copy, with equal half-spaces and an equal box.
    pub(crate) fn copy(&self, alloc: Global) -> Result<Part, AllocError>
        ensures { IfOk result (λ part. part ≡ self.now) }
    {
        Ok(Part {
            halves: Cell::copy_of(alloc, self.halves.items())?,
            bounds: self.bounds,
        })
    }

    /// Returns the first outside certificate of this part and `other` together, if it has two terms, one of each. Then
    /// they share no point. After `None` it is open whether they do.
    pub(crate) fn refute_with(&self, other: &Part) -> Option<Outside>
        ensures { IfSome result (λ terms. out_line terms ≡ strict_line (self.now.cell ++ other.now.cell)) }
    {
        refute_between(self.halves.items(), other.halves.items())
    }

    /// Returns the first outside certificate of the weak systems of this part and `other` together, if it has two
    /// terms, one of each. Then the parts are not in contact. After `None` it is open whether they are.
    pub(crate) fn refute_contact_with(&self, other: &Part) -> Option<Outside>
        ensures { IfSome result (λ terms. apart_line terms ≡ weak_line (self.now.cell ++ other.now.cell)) }
    {
        refute_weak_between(self.halves.items(), other.halves.items())
    }

    /// Returns whether the boxes of this part and `other` share more than boundary. Otherwise the parts share no point.
    pub(crate) fn may_overlap(&self, other: &Part) -> bool
        ensures value { result ≡ boxes_meet self.now.bounds other.now.bounds }
        ensures apart { result ≡ false → IsEmpty (shape_of_cell (self.now.cell ++ other.now.cell)) }
    {
        self.bounds.meets(&other.bounds)
    }

    /// Returns whether the boxes of this part and `other` share a point, the boundary included. Otherwise the parts are
    /// not in contact.
    pub(crate) fn may_touch(&self, other: &Part) -> bool
        ensures value { result ≡ closed_boxes_meet self.now.bounds other.now.bounds }
        ensures apart { result ≡ false → (p : RationalPoint) → ¬ IsSolution false (self.now.cell ++ other.now.cell) p }
    {
        self.bounds.meets_closed(&other.bounds)
    }
}
