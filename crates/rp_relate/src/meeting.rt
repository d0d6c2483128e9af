//! Overlap and contact of two regions.
ghost use Rattle.std.specs.Prelude.{◌≡◌, ◌↔◌, IsTrue, IfOk};
ghost use Rattle.rp_geometry.specs.sets.Shape.{shape_of_parts};
ghost use Rattle.rp_geometry.specs.sets.Sets.{Overlaps};
ghost use Rattle.rp_geometry.specs.sets.Contact.{IsInContact};
ghost use Rattle.rp_semantics.specs.Walk.{first_tester};
ghost use Rattle.rp_semantics.specs.Form.{common_in_full, touch_in_full};
ghost use Rattle.rp_region.specs.Makes.{Makes};

use rp_region::{OpFault, Region, Work};
use std::alloc::Global;

/// Returns whether `a` and `b` share a point. Each part of `a` is tested by `work` with each part of `b`, up to the
/// first pair that shares a point. As many tests are counted as there are pairs.
///
/// # Errors
///
/// - `Limit` iff too many tests are counted.
/// - `Memory` for want of memory.
pub fn overlap(alloc: Global, a: &Region, b: &Region, work: &mut Work) -> Result<bool, OpFault>
    ensures makes { Makes (λ is_so. is_so) result work.old work.new (common_in_full first_tester a.now b.now) }
    ensures right { IfOk result (λ is_so. IsTrue is_so ↔ Overlaps (shape_of_parts a.now) (shape_of_parts b.now)) }
{
    Ok(a.first_common(alloc, b, false, work)?.is_some())
}

/// Returns whether `a` and `b` are in contact: their closures share a point of the closed cube, at a face, an edge or a
/// corner, or inside both. Each part of `a` is tested by `work` with each part of `b`, up to the first pair that is in
/// contact. As many tests are counted as there are pairs.
///
/// # Errors
///
/// - `Limit` iff too many tests are counted.
/// - `Memory` for want of memory.
pub fn contact(alloc: Global, a: &Region, b: &Region, work: &mut Work) -> Result<bool, OpFault>
    ensures makes { Makes (λ is_so. is_so) result work.old work.new (touch_in_full first_tester a.now b.now) }
    ensures right { IfOk result (λ is_so. IsTrue is_so ↔ IsInContact (shape_of_parts a.now) (shape_of_parts b.now)) }
{
    Ok(a.first_touch(alloc, b, false, work)?.is_some())
}
