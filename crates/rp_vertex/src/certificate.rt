//! The first certificates made of points.
ghost use Rattle.std.specs.Prelude.{◌≡◌, ◌≤◌, length, ◌↔◌, IsNone, IfSome, IsTrue, false, Some};
ghost use Rattle.rp_geometry.specs.Geometry.{RationalPoint};
ghost use Rattle.rp_geometry.specs.sets.Shape.{shape_of_cell};
ghost use Rattle.rp_geometry.specs.sets.Sets.{IsEmpty};
ghost use Rattle.rp_geometry.specs.searches.Certificate.{is_inside_certificate};
ghost use Rattle.rp_geometry.specs.searches.Vertex.{first_inside, first_weak_point, first_vertex, any_point, points_from};
ghost use Rattle.rp_geometry.specs.laws.CellLaws.{IsSolution};
ghost use Rattle.rp_vertex.specs.Joined.{HasCube};

use crate::flat::flat_at;
use crate::order::Order;
use crate::search::{Wanted, Way, first_vertex, vertex_on_few};
use rp_space::{Half, Inside, Point, with_cube};

/// The fewest half-spaces of a cell that is searched along lines. With fewer half-spaces a search along lines is faster
/// for some cells and slower for others.
const FEW_HALVES: usize = 16;

/// Returns the way in which `cell` is searched. All ways find the same vertices.
fn way_of(cell: &[Half]) -> Way {
    if cell.len() < FEW_HALVES {
        Way::Triples
    } else {
        Way::Lines
    }
}

/// Returns the first inside certificate of `cell`; `None` iff the cell has no point. `cell` has at most 64 half-spaces.
/// Takes no memory.
///
/// The certificate begins with the first vertex of the cell with the domain cube. As long as a half-space of the list
/// is zero at all of its points, the first vertex at which such a half-space is positive is appended. By Carathéodory's
/// theorem there are at most four points. At each of them no half-space of the cell and of the cube is negative, and
/// each half-space is positive at one. So the average of the points is strictly inside.
pub fn first_inside(cell: &[Half]) -> Option<Inside>
    requires { length cell.now ≤ 64 }
    ensures first { result ≡ first_inside cell.now }
    ensures passes { IfSome result (λ points. IsTrue (is_inside_certificate cell.now points)) }
    ensures none { IsNone result ↔ IsEmpty (shape_of_cell cell.now) }
{
    let system = with_cube(cell);
    first_points(way_of(cell), system.as_slice())
}

/// Returns the first inside certificate of `cell`, as [`first_inside`] does, by a search over all triples of planes
/// without a shortcut: to compare the times. `None` iff the cell has no point. `cell` has at most 64 half-spaces.
pub fn first_inside_over_triples(cell: &[Half]) -> Option<Inside>
    requires { length cell.now ≤ 64 }
    ensures first { result ≡ first_inside cell.now }
    ensures passes { IfSome result (λ points. IsTrue (is_inside_certificate cell.now points)) }
    ensures none { IsNone result ↔ IsEmpty (shape_of_cell cell.now) }
{
    let system = with_cube(cell);
    first_points(Way::Plain, system.as_slice())
}

/// Returns the first weak point of `cell`: the first vertex of the cell with the domain cube. No half-space of the cell
/// and of the cube is negative there. `None` iff there is no such point at all. `cell` has at most 64 half-spaces.
/// Takes no memory.
pub fn first_weak(cell: &[Half]) -> Option<Point>
    requires { length cell.now ≤ 64 }
    ensures first { result ≡ first_weak_point cell.now }
    ensures passes { IfSome result (λ p. IsSolution false cell.now p) }
    ensures none { IsNone result ↔ ((p : RationalPoint) → ¬ IsSolution false cell.now p) }
{
    let system = with_cube(cell);
    first_vertex(
        way_of(cell),
        Wanted::Any,
        system.as_slice(),
        &mut Order::new(),
    )
}

/// Returns the first inside certificate of `cell`, if a short search finds it: its first point on the first few lines
/// of the first plane that may have it, and each further point on the first plane that may have it. After `None`, which
/// comes soon, it is open whether the cell has a point. `cell` has at most 64 half-spaces. Takes no memory.
pub fn inside_on_few_lines(cell: &[Half]) -> Option<Inside>
    requires { length cell.now ≤ 64 }
    ensures first { IfSome result (λ points. first_inside cell.now ≡ Some points) }
    ensures passes { IfSome result (λ points. IsTrue (is_inside_certificate cell.now points)) }
{
    let system = with_cube(cell);
    let mut order = Order::new();
    let way = way_of(cell);
    let first = vertex_on_few(way, Wanted::Any, system.as_slice(), &mut order)?;
    points_on_few(way, system.as_slice(), &mut order, first)
}

/// Returns the first weak point of `cell`, if it is on the first few lines of the first plane that may have it. After
/// `None`, which comes soon, it is open whether there is a weak point. `cell` has at most 64 half-spaces. Takes no
/// memory.
pub fn weak_on_few_lines(cell: &[Half]) -> Option<Point>
    requires { length cell.now ≤ 64 }
    ensures first { IfSome result (λ p. first_weak_point cell.now ≡ Some p) }
    ensures passes { IfSome result (λ p. IsSolution false cell.now p) }
{
    let system = with_cube(cell);
    vertex_on_few(
        way_of(cell),
        Wanted::Any,
        system.as_slice(),
        &mut Order::new(),
    )
}

/// Returns the points of the first inside certificate of `system`, at most 70 half-spaces.
fn first_points(way: Way, system: &[Half]) -> Option<Inside>
    requires few { length system.now ≤ 70 }
    requires cube { HasCube system.now }
    ensures { result ≡ points_from system.now (first_vertex any_point system.now) }
{
    let mut order = Order::new();
    let first = first_vertex(way, Wanted::Any, system, &mut order)?;
    points_from(way, system, &mut order, first)
}

/// Returns the points of the first inside certificate of `system`. The first of them is `first`, the first vertex of
/// the list.
fn points_from(way: Way, system: &[Half], order: &mut Order, first: Point) -> Option<Inside>
    requires few { length system.now ≤ 70 }
    requires cube { HasCube system.now }
    requires first { first_vertex any_point system.now ≡ Some first }
    ensures { result ≡ points_from system.now (Some first) }
{
    let mut taken = Inside::new();
    taken.push(first);
    let mut flat = flat_at(system, &first);
    while !flat.is_empty() {
        let next = first_vertex(way, Wanted::Lifting(flat.as_slice()), system, order)?;
        taken.push(next);
        flat = flat_at(flat.as_slice(), &next);
    }
    Some(taken)
}

/// Returns the points of the first inside certificate of `system`, if each further point is found on the first plane
/// that may have it. The first of them is `first`, the first vertex of the list. After `None` it is open whether there
/// are such points.
fn points_on_few(way: Way, system: &[Half], order: &mut Order, first: Point) -> Option<Inside>
    requires few { length system.now ≤ 70 }
    requires cube { HasCube system.now }
    requires first { first_vertex any_point system.now ≡ Some first }
    ensures { IfSome result (λ points. points_from system.now (Some first) ≡ Some points) }
{
    let mut taken = Inside::new();
    taken.push(first);
    let mut flat = flat_at(system, &first);
    while !flat.is_empty() {
        let next = vertex_on_few(way, Wanted::Lifting(flat.as_slice()), system, order)?;
        taken.push(next);
        flat = flat_at(flat.as_slice(), &next);
    }
    Some(taken)
}
