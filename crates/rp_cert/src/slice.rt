//! Slices: certificates of the members of a cell at a height.
ghost use Rattle.std.specs.Prelude.{◌≡◌, IsTrue};
ghost use Rattle.rp_geometry.specs.sections.Trace.{IsHeight};
ghost use Rattle.rp_geometry.specs.sections.Slice.{is_slice};
ghost use Rattle.rp_cert.specs.Section.{slice_shown, Shows};

use crate::edge::RingSteps;
use crate::flat::is_flat;
use crate::ring::is_ring;
use rp_space::{Half, Outside};

/// A certificate of the members of a cell at a height.
#[derive(Drop)]
pub enum Slice {
    /// The edges and ends around the members at the height.
    Ring(RingSteps),
    /// One to three multiples of half-spaces that show that there is no member at the height.
    Flat(Outside),
}

/// Returns whether `s` is a ring or a flat certificate of `cell` at `z`, a height of the cube. A ring then shows the
/// points of the cell there; a flat certificate shows that there are none.
pub fn check_slice(cell: &[Half], z: i32, s: &Slice) -> bool
    requires { IsHeight z }
    ensures value { result ≡ is_slice z cell.now (slice_shown s.now) }
    ensures shows { IsTrue result → Shows z cell.now (slice_shown s.now) }
{
    match s {
        Slice::Ring(steps) => is_ring(cell, z, steps.items()),
        Slice::Flat(terms) => is_flat(cell, z, terms.items()),
    }
}
