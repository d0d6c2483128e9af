ghost use Rattle.std.specs.Prelude.{◌≡◌, true};
ghost use Rattle.rp_geometry.specs.Geometry.{is_box_in_bounds};
ghost use Rattle.rp_space.specs.Boxes.{integer_box};

use rp_region::{Region, Work};
use rp_space::{IntBox, box_halves};
use std::alloc::Global;
use std::process::Abort;

/// Returns the region of the box `bounds`.
pub fn box_region(rt: &impl Abort, alloc: Global, bounds: &IntBox, work: &mut Work) -> Region
    requires { is_box_in_bounds (integer_box bounds.now) ≡ true }
{
    Region::of_cell(alloc, &box_halves(bounds), work).expect(rt, "no region of a box")
}
