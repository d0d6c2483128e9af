//! Emptiness of a region, inclusion of regions, and equality.
ghost use Rattle.std.specs.Prelude.{◌≡◌, ◌↔◌, IsTrue, IfOk};
ghost use Rattle.rp_geometry.specs.sets.Shape.{shape_of_parts};
ghost use Rattle.rp_geometry.specs.sets.Sets.{IsEmpty, IsWithin, SameMembers};
ghost use Rattle.rp_semantics.specs.Walk.{first_tester};
ghost use Rattle.rp_semantics.specs.Compare.{show_then_no, is_covered};
ghost use Rattle.rp_region.specs.Makes.{Makes};
ghost use Rattle.rp_relate.specs.Relations.{cover_each_other};

use rp_region::{OpFault, Region, Work};
use std::alloc::Global;

/// Returns whether `region` has no point. If it has a part, the first part is shown to have a point by one more test of
/// `work`, which is not counted.
///
/// # Errors
///
/// `Memory` for want of memory; `Limit` never.
pub fn is_empty(alloc: Global, region: &Region, work: &mut Work) -> Result<bool, OpFault>
    ensures makes { Makes (λ is_so. is_so) result work.old work.new (show_then_no first_tester region.now) }
    ensures right { IfOk result (λ is_so. IsTrue is_so ↔ IsEmpty (shape_of_parts region.now)) }
{
    // The call makes it known that the parts are those of a region.
    let _ = region.parts();
    let mut walked = work.fresh(alloc);
    let is_so = rp_eval::is_empty(alloc, region, &mut walked);
    work.take_over(walked, is_so)
}

/// Returns whether every point of `a` is a point of `b`: whether the difference of `a` and `b` is empty, by tests of
/// `work`.
///
/// # Errors
///
/// - `Limit` iff the difference of `a` and `b` has it.
/// - `Memory` for want of memory.
pub fn within(alloc: Global, a: &Region, b: &Region, work: &mut Work) -> Result<bool, OpFault>
    ensures makes { Makes (λ is_so. is_so) result work.old work.new (is_covered first_tester a.now b.now) }
    ensures right { IfOk result (λ is_so. IsTrue is_so ↔ IsWithin (shape_of_parts a.now) (shape_of_parts b.now)) }
{
    // The two calls make it known that the parts are those of regions.
    let _ = a.parts();
    let _ = b.parts();
    let mut walked = work.fresh(alloc);
    let is_so = rp_eval::within(alloc, a, b, &mut walked);
    work.take_over(walked, is_so)
}

/// Returns whether `a` and `b` have the same points, by tests of `work`: whether `a` is within `b`, and `b` within `a`.
///
/// # Errors
///
/// - `Limit` iff the first inclusion has it, or the first inclusion is true and the second has it.
/// - `Memory` for want of memory.
pub fn equal(alloc: Global, a: &Region, b: &Region, work: &mut Work) -> Result<bool, OpFault>
    ensures makes { Makes (λ is_so. is_so) result work.old work.new (cover_each_other a.now b.now) }
    ensures right { IfOk result (λ is_so. IsTrue is_so ↔ SameMembers (shape_of_parts a.now) (shape_of_parts b.now)) }
{
    // The two calls make it known that the parts are those of regions.
    let _ = a.parts();
    let _ = b.parts();
    let mut walked = work.fresh(alloc);
    let is_so = rp_eval::equal(alloc, a, b, &mut walked);
    work.take_over(walked, is_so)
}
