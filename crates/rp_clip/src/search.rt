//! The search for the first certificates of a cell, on the plane of one half-space after the other.
ghost use Rattle.std.specs.Prelude.{◌≡◌, ◌≤◌, length, IfSome, IsTrue, false, Some};
ghost use Rattle.rp_geometry.specs.searches.Certificate.{is_inside_certificate};
ghost use Rattle.rp_geometry.specs.searches.Vertex.{first_inside, first_weak_point};
ghost use Rattle.rp_geometry.specs.laws.CellLaws.{IsSolution};

use crate::first::first_vertex;
use crate::inside::take_from;
use crate::planes::Planes;
use crate::polygon::{Polygon, fill_polygon};
use crate::table::Table;
use rp_space::{Half, Inside, Point, keep_bounds};

/// Returns the first inside certificate of `cell`, from the polygons of its planes, one after the other as long as
/// points are wanted. Of each plane it computes the vertices on it, and no others. After `None` it is open whether
/// there is a certificate: the first plane may have no vertex, or one of the planes too many. `cell` has at most 64
/// half-spaces. Takes no memory.
pub fn inside_on_polygons(cell: &[Half]) -> Option<Inside>
    requires { length cell.now ≤ 64 }
    ensures first { IfSome result (λ points. first_inside cell.now ≡ Some points) }
    ensures passes { IfSome result (λ points. IsTrue (is_inside_certificate cell.now points)) }
{
    // The call makes it known that all half-spaces keep their bounds.
    keep_bounds(cell);
    let planes = Planes::of(cell);
    let mut polygon = Polygon::new();
    let mut corners = Table::new();
    let mut taken = Inside::new();
    let mut left = u128::MAX;
    for place in 0..cell.len() {
        if !fill_polygon(cell, place, &mut polygon, &mut corners) {
            return None;
        }
        left = take_from(&planes, &corners, left, &mut taken);
        if left == 0 {
            return Some(taken);
        }
        if left == u128::MAX {
            return None;
        }
    }
    None
}

/// Returns the first weak point of `cell`, if it is on the first plane, and this plane has not too many vertices. After
/// `None` it is open whether there is a weak point. `cell` has at most 64 half-spaces. Takes no memory.
pub fn weak_on_polygon(cell: &[Half]) -> Option<Point>
    requires { length cell.now ≤ 64 }
    ensures first { IfSome result (λ p. first_weak_point cell.now ≡ Some p) }
    ensures passes { IfSome result (λ p. IsSolution false cell.now p) }
{
    // The call makes it known that all half-spaces keep their bounds.
    keep_bounds(cell);
    let planes = Planes::of(cell);
    let mut corners = Table::new();
    if cell.is_empty() || !fill_polygon(cell, 0, &mut Polygon::new(), &mut corners) {
        return None;
    }
    let first = first_vertex(&planes, &corners, u128::MAX)?;
    Some(corners.point(first))
}
