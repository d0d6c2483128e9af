//! Half-spaces and points of numbers that are within their bounds.
ghost use Rattle.std.specs.Prelude.{IsTrue, pos, int_le, ◌&&◌};
ghost use Rattle.rp_geometry.specs.Geometry.{half_space_of, point_of, is_half_space_in_bounds, is_point_in_bounds, reduced_point};
ghost use Rattle.rp_language.specs.Grammar.{Place, nonzero_half_space, gives};
ghost use Rattle.rp_syntax.specs.Reads.{Reads};

use crate::fault::ReadFault;
use rp_command::Why;
use rp_space::{Half, HalfFault, Point};

/// Returns the half-space of the numbers `a`, `b`, `c` and `d`, in lowest terms; `Zero` if all four are 0.
pub fn half_space(a: i128, b: i128, c: i128, d: i128) -> Result<Half, ReadFault>
    requires { IsTrue (is_half_space_in_bounds (half_space_of a b c d)) }
    ensures { (place : Place) → Reads (λ h. h) result place (nonzero_half_space (half_space_of a b c d) place) }
{
    match Half::new(a as i64, b as i64, c as i64, d as i64) {
        Ok(half) => Ok(half),
        Err(HalfFault::Range) => Err(ReadFault::Bad(Why::Range)),
        Err(HalfFault::Zero) => Err(ReadFault::Bad(Why::Zero)),
    }
}

/// Returns the point of the numbers `x`, `y`, `z` and the weight `w`, in lowest terms. The caller has checked that the
/// weight is at least 1 and that all four are within the bounds of points.
pub fn rational_point(x: i128, y: i128, z: i128, w: i128) -> Result<Point, ReadFault>
    requires weight { IsTrue (int_le (pos 1) w) }
    requires bounds { IsTrue (is_point_in_bounds (point_of x y z w)) }
    ensures { (place : Place) → Reads (λ p. p) result place (gives (reduced_point (point_of x y z w)) place) }
{
    match Point::new(x, y, z, w) {
        Ok(point) => Ok(point),
        Err(_) => Err(ReadFault::Bad(Why::Range)),
    }
}
