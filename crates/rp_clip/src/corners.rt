//! The corners of the closed cube.
ghost use Rattle.std.specs.Prelude.{◌≡◌, ◌≤◌, [], map};
ghost use Rattle.rp_geometry.specs.Geometry.{reduced_point};
ghost use Rattle.rp_clip.specs.CubeCorners.{edge_of, cube_corner, cube_corners};
ghost use Rattle.rp_clip.specs.Masks.{mask_of};

use crate::table::Table;
use rp_space::{HALF_EDGE, Meeting};

/// Returns the upper or the lower bound of the cube on an axis; the axes have equal bounds.
fn edge(is_upper: bool) -> i32
    ensures { result ≡ edge_of is_upper }
{
    if is_upper { HALF_EDGE } else { -HALF_EDGE }
}

/// Returns the corner on the upper or the lower side along `x`, `y` and `z`.
fn corner(x: bool, y: bool, z: bool) -> Meeting
    ensures { reduced_point result ≡ cube_corner x y z }
{
    Meeting::whole(edge(x), edge(y), edge(z))
}

/// Fills `table` with the eight corners, each with the places of its three sides.
pub(crate) fn fill_cube<const MOST: usize>(table: &mut Table<MOST>)
    requires { 8 ≤ MOST }
    ensures points { table.new.points ≡ cube_corners }
    ensures planes { table.new.planes ≡ map (mask_of []) cube_corners }
{
    table.clear();
    table.push(corner(false, false, false), 1 << 64 | 1 << 66 | 1 << 68);
    table.push(corner(false, false, true), 1 << 64 | 1 << 66 | 1 << 69);
    table.push(corner(false, true, false), 1 << 64 | 1 << 67 | 1 << 68);
    table.push(corner(false, true, true), 1 << 64 | 1 << 67 | 1 << 69);
    table.push(corner(true, false, false), 1 << 65 | 1 << 66 | 1 << 68);
    table.push(corner(true, false, true), 1 << 65 | 1 << 66 | 1 << 69);
    table.push(corner(true, true, false), 1 << 65 | 1 << 67 | 1 << 68);
    table.push(corner(true, true, true), 1 << 65 | 1 << 67 | 1 << 69);
}
