//! Prisms, and the trapezoids of their edges.
ghost use Rattle.std.specs.Prelude.{◌≡◌, ◌≤◌, ◌<◌, Some, IsTrue, length, slice_index_or, true};
ghost use Rattle.rp_geometry.specs.Geometry.{all_hold};
ghost use Rattle.rp_geometry.specs.sets.Prism.{IsPrism, edge_of, is_upright};
ghost use Rattle.rp_geometry.specs.sets.Shape.{Shape, is_member};
ghost use Rattle.rp_geometry.specs.parts.Trapezoid.{least_y};
ghost use Rattle.rp_space.specs.Corners.{polygon_corner, polygon_corners, prism_of};
ghost use Rattle.rp_footprint.specs.Cells.{AreHeights, AreInOrder, AreNear, cell_by, cell_holds, cell_under, edge_at, trapezoid_at};
ghost use Rattle.rp_parts.proofs.Parity.{differ};

use crate::line::below_line;
use rp_space::{Corner, Half, IntBox, Point, box_halves};

/// Returns the least y of `corners`, at least one.
fn least_y(corners: &[Corner]) -> i32
    requires { 1 ≤ length corners.now }
    ensures { result ≡ least_y (polygon_corners corners.now) }
{
    let mut least = corners[0].y;
    for corner in corners {
        least = least.min(corner.y);
    }
    least
}

/// Returns the corner at which the edge number `k` ends: the next corner, or the first one after the last.
fn edge_end(corners: &[Corner], k: usize) -> Corner
    requires { k < length corners.now }
    ensures { edge_at (polygon_corners corners.now) k ≡ edge_of (polygon_corner (slice_index_or corners.now k result)) (polygon_corner result) }
{
    if k + 1 < corners.len() {
        corners[k + 1]
    } else {
        corners[0]
    }
}

/// Returns the cell under the line from `left` to `right`, a corner with a greater x, above `least` in y and from `z1`
/// to below `z2`.
fn cell_between(z1: i32, z2: i32, least: i32, left: Corner, right: Corner) -> Option<[Half; 6]>
    requires order { AreInOrder (polygon_corner left) (polygon_corner right) }
    requires heights { AreHeights z1 z2 least }
    ensures { result ≡ Some (cell_under z1 z2 least (polygon_corner left) (polygon_corner right)) }
{
    let below = below_line(left, right)?;
    let [from, to, floor, _, low, high] = box_halves(&IntBox {
        lo: [left.x, least, z1],
        hi: [right.x, 0, z2],
    });
    Some([from, to, floor, below, low, high])
}

/// Returns the cell under the edge from `start` to `end`, above `least` in y and from `z1` to below `z2`; `None` iff
/// both ends have equal x.
fn cell_of(z1: i32, z2: i32, least: i32, start: Corner, end: Corner) -> Option<[Half; 6]>
    requires near { AreNear (polygon_corner start) (polygon_corner end) }
    requires heights { AreHeights z1 z2 least }
    ensures { result ≡ cell_by z1 z2 least (is_upright (edge_of (polygon_corner start) (polygon_corner end))) (edge_of (polygon_corner start) (polygon_corner end)) }
{
    if start.x == end.x {
        return None;
    }
    if start.x < end.x {
        cell_between(z1, z2, least, start, end)
    } else {
        cell_between(z1, z2, least, end, start)
    }
}

/// Returns the trapezoid of the edge number `k`, from 0, of the prism over `corners` from `z1` to below `z2`: between
/// the ends of the edge, from the least y of the corners up to it, between the heights. `None` iff both ends have equal
/// x. There are from 1 to 256 corners, `k` is below their number, and all numbers are within their bounds.
pub fn trapezoid(z1: i32, z2: i32, corners: &[Corner], k: usize) -> Option<[Half; 6]>
    requires bounds { IsPrism (prism_of z1 z2 corners.now) }
    requires below { k < length corners.now }
    ensures { result ≡ trapezoid_at (prism_of z1 z2 corners.now) k }
{
    cell_of(z1, z2, least_y(corners), corners[k], edge_end(corners, k))
}

/// Returns whether `p` is in all half-spaces of `cell`.
fn all_hold(cell: &[Half], p: &Point) -> bool
    ensures { result ≡ all_hold cell.now p.now }
{
    for half in cell {
        if !half.holds(p) {
            return false;
        }
    }
    true
}

/// Returns whether `p` is in `cell`; false if there is no cell.
fn is_inside(cell: Option<[Half; 6]>, p: &Point) -> bool
    ensures { result ≡ cell_holds cell p.now }
{
    match cell {
        None => false,
        Some(halves) => all_hold(&halves, p),
    }
}

/// Returns whether a count is odd. It was odd before iff `odd`, and is then raised by 1 iff `counted`.
fn flipped(odd: bool, counted: bool) -> bool
    ensures { result ≡ differ counted odd }
{
    if counted { !odd } else { odd }
}

/// Returns whether `p` is a member of the prism over `corners` from `z1` to below `z2`: it is in the cube, between the
/// heights, and an odd number of edges are above it. There are from 1 to 256 corners, and all numbers are within their
/// bounds.
pub fn prism_holds(z1: i32, z2: i32, corners: &[Corner], p: &Point) -> bool
    requires { IsPrism (prism_of z1 z2 corners.now) }
    ensures { result ≡ is_member (Shape.prism (prism_of z1 z2 corners.now)) p.now }
{
    if !p.is_in_cube() {
        return false;
    }
    let least = least_y(corners);
    let mut odd = false;
    for k in 0..corners.len() {
        let cell = cell_of(z1, z2, least, corners[k], edge_end(corners, k));
        odd = flipped(odd, is_inside(cell, p));
    }
    odd
}
