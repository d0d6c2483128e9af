//! The pieces of a region.
ghost use Rattle.std.specs.Prelude.{◌≡◌, ◌≤◌, IfOk, length};
ghost use Rattle.rp_geometry.specs.sets.Pieces.{ArePieces};
ghost use Rattle.rp_geometry.specs.parts.Parts.{most_parts};
ghost use Rattle.rp_semantics.specs.Walk.{first_tester};
ghost use Rattle.rp_semantics.specs.Pieces.{pieces_of_parts};
ghost use Rattle.rp_region.specs.Makes.{Makes};
ghost use Rattle.rp_unionfind.specs.Lists.{numbers_of};

use rp_region::{OpFault, Region, Work};
use rp_unionfind::PieceList;
use std::alloc::Global;

/// Returns the pieces of `region`, as lists of the numbers of its parts, counted from 1. Each number is in one list,
/// each list rises, and the lists are in the order of their first numbers. Each two parts are tested for contact by
/// `work`, in order. As many tests are counted as there are pairs of parts.
///
/// # Errors
///
/// - `Limit` iff too many tests are counted.
/// - `Memory` for want of memory.
pub fn pieces(alloc: Global, region: &Region, work: &mut Work) -> Result<PieceList, OpFault>
    ensures makes { Makes numbers_of result work.old work.new (pieces_of_parts first_tester region.now) }
    ensures right { IfOk result (λ list. ArePieces region.now (numbers_of list)) }
    ensures few { IfOk result (λ list. length list.items ≤ most_parts) }
{
    // The call makes it known that the parts are those of a region, and few.
    let _ = region.parts();
    let mut walked = work.fresh(alloc);
    let pieces = rp_eval::pieces(alloc, region, &mut walked);
    work.take_over(walked, pieces)
}
