//! Slices: the sections of cells at a height.
ghost use Rattle.std.specs.Prelude.{◌≡◌, ◌↔◌, ◌≤◌, IfOk, length, map};
ghost use Rattle.rp_geometry.specs.sections.Trace.{IsHeight};
ghost use Rattle.rp_geometry.specs.sections.Slice.{slice_of};
ghost use Rattle.rp_geometry.specs.laws.SectionLaws.{HasMemberAt, IsSliceOf};
ghost use Rattle.rp_cert.specs.Section.{slice_shown, Shows};
ghost use Rattle.rp_section.specs.Shown.{IsFlat, slices_of};

use crate::flat::first_flat;
use crate::guess::quick_ring;
use crate::ring::ring;
use rp_cert::{Slice, check_slice};
use rp_lists::Listed;
use rp_region::Region;
use rp_space::{Half, keep_bounds};
use std::alloc::{AllocError, Global};

/// A list of slices.
pub type Slices = Listed<Slice>;

/// Returns the slices of the parts of `r` at `z`, a height of the cube, in order.
///
/// # Errors
///
/// `AllocError` for want of memory.
pub fn section(alloc: Global, r: &Region, z: i32) -> Result<Slices, AllocError>
    requires { IsHeight z }
    ensures { IfOk result (λ slices. map slice_shown slices.items ≡ slices_of z r.now) }
{
    let parts = r.parts();
    let mut slices = Slices::new(alloc);
    slices.reserve(parts.len())?;
    for part in parts {
        slices.push(slice(part.halves(), z))?;
    }
    Ok(slices)
}

/// Returns the slice of `cell` at the height `z`: its ring, or the first flat certificate iff the cell has no point
/// there. `cell` has at most 32 half-spaces. Takes no memory.
pub fn slice(cell: &[Half], z: i32) -> Slice
    requires height { IsHeight z }
    requires few { length cell.now ≤ 32 }
    ensures value { slice_shown result ≡ slice_of z cell.now }
    ensures right { IsSliceOf z cell.now (slice_shown result) }
    ensures flat { IsFlat result ↔ (¬ HasMemberAt z cell.now) }
    ensures shows { Shows z cell.now (slice_shown result) }
{
    keep_bounds(cell);
    let guess = Slice::Ring(quick_ring(cell, z));
    if check_slice(cell, z, &guess) {
        return guess;
    }
    match first_flat(cell, z) {
        Some(terms) => Slice::Flat(terms),
        None => Slice::Ring(ring(cell, z)),
    }
}
