//! Parts as a report shows them.
ghost use Rattle.std.specs.Prelude.{◌≡◌, ◌≤◌, length, IfOk};
ghost use Rattle.std.specs.List.{AllByRecursion};
ghost use Rattle.rp_geometry.specs.parts.Parts.{AreKeptHalfSpaces, IsCheckedPart, most_half_spaces};
ghost use Rattle.rp_space.specs.Boxes.{integer_box};

use rp_space::{Half, Halves, IntBox};
use std::alloc::{AllocError, Global};
use std::marker::Model;

/// A part as a report shows it: a cell of at most 32 half-spaces with a member, and a box that holds all its members.
/// The box need not be the least.
#[derive(Drop)]
pub struct Kept {
    /// The half-spaces in order. The members are the points of the cube that all of them hold.
    pub halves: Halves,
    /// The box.
    pub bounds: IntBox,
}

impl Model for Kept {
    ghost use Rattle.rp_geometry.specs.sets.Shape.{Part};
    ghost use Rattle.rp_geometry.specs.parts.Parts.{IsCheckedPart};
    ghost use Rattle.rp_space.specs.Boxes.{integer_box};

    ghost Value = { Part };

    ghost view = { λ a. record { cell = a.halves.items; bounds = integer_box a.bounds } };

    ghost invariant = { λ a. IsCheckedPart (record { cell = a.halves.items; bounds = integer_box a.bounds }) };
}

impl Kept {
    /// Returns a copy: the same half-spaces and the same box.
    pub fn copy(&self, alloc: Global) -> Result<Kept, AllocError>
        ensures { IfOk result (λ part. part ≡ self.now) }
    {
        Ok(Kept {
            halves: Halves::copy_of(alloc, self.halves.items())?,
            bounds: self.bounds,
        })
    }

    /// Returns the half-spaces.
    pub(crate) fn cell(&self) -> &[Half]
        ensures value { result.now ≡ self.now.cell }
        ensures few { length result.now ≤ most_half_spaces }
    {
        self.halves.items()
    }
}

/// Does nothing, but its contract says that the half-spaces of a list are within their bounds and in lowest terms.
pub(crate) fn keep_halves(halves: &[Half])
    ensures { AreKeptHalfSpaces halves.now }
{
    for half in halves {
        let _ = half.numbers();
    }
}

/// Does nothing, but its contract says that the parts of a list have the properties of a checked part.
pub(crate) fn keep_parts(parts: &[Kept])
    ensures { AllByRecursion IsCheckedPart parts.now }
{
    for part in parts {
        let _ = &part.bounds;
    }
}

/// Does nothing, but its contract says that `part` has the properties of a checked part.
pub(crate) fn keep_part(part: &Kept)
    ensures { IsCheckedPart part.now }
{
    let _ = &part.bounds;
}
