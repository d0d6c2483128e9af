//! The least box with whole corners that contains the vertices of a cell.
ghost use Rattle.std.specs.Prelude.{◌≡◌, ◌≤◌, ◌<◌, ◌^◌, true, None, length, map, filter_map, option_map, pos, ◌<ℤ◌, unsigned_abs};
ghost use Rattle.std.specs.Int.{int_max, int_min};
ghost use Rattle.std.specs.List.{Contains};
ghost use Rattle.std.specs.Option.{option_to_list};
ghost use Rattle.rp_algebra.specs.Integer.{floor_of, ceiling_of};
ghost use Rattle.rp_algebra.specs.Within.{IsWithin};
ghost use Rattle.rp_geometry.specs.Geometry.{RationalPoint, half_edge, is_box_in_bounds, is_closed_cube_point, is_in_closed_range, reduced_point};
ghost use Rattle.rp_geometry.specs.laws.CellLaws.{AreHalfSpaces};
ghost use Rattle.rp_geometry.specs.parts.LeastBox.{box_of_vertex, box_of_vertices, box_union};
ghost use Rattle.rp_geometry.specs.searches.Search.{all_of_pairs, all_of_triples};
ghost use Rattle.rp_geometry.specs.searches.Vertex.{any_point, vertex_at, vertices};
ghost use Rattle.rp_space.specs.Boxes.{integer_box};
ghost use Rattle.rp_vertex.specs.Joined.{HasCube, join_vertex, joined};
ghost use Rattle.rp_vertex.specs.Line.{HoldsVertices};

use crate::line::{Line, line_of};
use crate::order::Order;
use crate::search::are_nonnegative;
use rp_space::{Half, IntBox, Meeting, Pair, with_cube};

/// Returns the least box with whole corners that contains all vertices of `cell` with the domain cube's six
/// half-spaces. Each coordinate of each vertex is rounded down and up. If there is no vertex, which is iff the weak
/// system has no point, it is the cube's box. `cell` has at most 64 half-spaces. Takes no memory.
pub fn box_of_vertices(cell: &[Half]) -> IntBox
    requires { length cell.now ≤ 64 }
    ensures value { integer_box result ≡ box_of_vertices (vertices cell.now) }
    ensures bounds { is_box_in_bounds (integer_box result) ≡ true }
    ensures half_spaces { AreHalfSpaces cell.now }
{
    let system = with_cube(cell);
    box_of_system(system.as_slice()).unwrap_or(IntBox::cube())
}

/// Returns the least box with whole corners that contains `points` of the closed cube, which need not be in lowest
/// terms. Each coordinate of each point is rounded down and up. If there is no point, it is the cube's box. Takes no
/// memory.
pub fn box_of_points(points: &[Meeting]) -> IntBox
    requires { (p : RationalPoint) → Contains (map reduced_point points.now) p → is_closed_cube_point p ≡ true }
    ensures { integer_box result ≡ box_of_vertices (map reduced_point points.now) }
{
    let mut bounds = None;
    for p in points {
        // The call makes it known that the weight is positive.
        let _ = p.numbers();
        bounds = Some(joined_with_point(bounds, p));
    }
    bounds.unwrap_or(IntBox::cube())
}

/// Returns the least box that contains the vertices of `system`; `None` iff there is no vertex.
fn box_of_system(system: &[Half]) -> Option<IntBox>
    requires { HasCube system.now }
    ensures { option_map integer_box result ≡ joined None (all_of_triples (vertex_at any_point system.now) system.now) }
{
    let mut bounds = None;
    let mut order = Order::new();
    for i in 0..system.len() {
        bounds = joined_with_one(bounds, system, &mut order, &system[i], &system[i + 1..]);
    }
    bounds
}

/// Returns the least box that contains `bounds` and the vertices on the plane of `f` and two planes of `others`.
fn joined_with_one(
    mut bounds: Option<IntBox>,
    system: &[Half],
    order: &mut Order,
    f: &Half,
    others: &[Half],
) -> Option<IntBox>
    requires { HasCube system.now }
    ensures { option_map integer_box result ≡ joined (option_map integer_box bounds) (all_of_pairs (vertex_at any_point system.now f.now) others.now) }
{
    for i in 0..others.len() {
        let pair = Pair::new(f, &others[i]);
        bounds = joined_with_two(bounds, system, order, &pair, &others[i + 1..]);
    }
    bounds
}

/// Returns the least box that contains `bounds` and the vertices on both planes of `pair` and a plane of `others`.
fn joined_with_two(
    mut bounds: Option<IntBox>,
    system: &[Half],
    order: &mut Order,
    pair: &Pair,
    others: &[Half],
) -> Option<IntBox>
    requires { HasCube system.now }
    ensures { option_map integer_box result ≡ joined (option_map integer_box bounds) (filter_map (vertex_at any_point system.now pair.now.first pair.now.second) others.now) }
{
    let line = line_of(system, pair, order);
    for h in others {
        bounds = joined_on(bounds, system, pair, &line, h);
    }
    bounds
}

/// Returns the least box that contains `bounds` and the vertex on the planes of `pair` and `h`, if there is one. If
/// `line` shows that there is none, the planes are not intersected.
fn joined_on(
    bounds: Option<IntBox>,
    system: &[Half],
    pair: &Pair,
    line: &Line,
    h: &Half,
) -> Option<IntBox>
    requires cube { HasCube system.now }
    requires line { HoldsVertices system.now pair.now line.now }
    ensures { option_map integer_box result ≡ joined (option_map integer_box bounds) (option_to_list (vertex_at any_point system.now pair.now.first pair.now.second h.now)) }
{
    if line.passes(h) {
        return bounds;
    }
    joined_with_three(bounds, system, pair, h)
}

/// Returns the least box that contains `bounds` and the meeting point of the planes of `pair` and `h`, if it is a
/// vertex. The point is not reduced to lowest terms, since its quotients do not change.
fn joined_with_three(
    bounds: Option<IntBox>,
    system: &[Half],
    pair: &Pair,
    h: &Half,
) -> Option<IntBox>
    requires { HasCube system.now }
    ensures { option_map integer_box result ≡ joined (option_map integer_box bounds) (option_to_list (vertex_at any_point system.now pair.now.first pair.now.second h.now)) }
{
    let Some(p) = pair.meeting(h) else {
        return bounds;
    };
    if !are_nonnegative(system, &p) {
        return bounds;
    }
    Some(joined_with_point(bounds, &p))
}

/// Returns the least box that contains `bounds`, if it is there yet, and `p`, a point of the closed cube.
fn joined_with_point(bounds: Option<IntBox>, p: &Meeting) -> IntBox
    requires { is_closed_cube_point p.now ≡ true }
    ensures { integer_box result ≡ join_vertex (option_map integer_box bounds) (reduced_point p.now) }
{
    // The call makes it known that the weight is positive.
    let _ = p.numbers();
    match bounds {
        Some(others) => extended(&others, p),
        None => box_of_vertex(p),
    }
}

/// Returns the least box that contains `others` and `p`, a point of the closed cube.
fn extended(others: &IntBox, p: &Meeting) -> IntBox
    requires { is_closed_cube_point p.now ≡ true }
    ensures { integer_box result ≡ box_union (integer_box others.now) (box_of_vertex p.now) }
{
    let (x, y, z, w) = p.numbers();
    let [x1, y1, z1] = others.lo;
    let [x2, y2, z2] = others.hi;
    IntBox {
        lo: [lower(x1, x, w), lower(y1, y, w), lower(z1, z, w)],
        hi: [higher(x2, x, w), higher(y2, y, w), higher(z2, z, w)],
    }
}

/// Returns the lesser of `low` and the coordinate `v / w` rounded down. Most points move no side of a box, so a product
/// shows first whether a division is needed.
fn lower(low: i32, v: i128, w: i128) -> i32
    requires weight { pos 0 <ℤ w }
    requires size { unsigned_abs w < 2 ^ 75 }
    requires range { is_in_closed_range v w ≡ true }
    ensures { result ≡ int_min low (floor_of v w) }
{
    if low as i128 * w <= v {
        low
    } else {
        floor(v, w)
    }
}

/// Returns the greater of `high` and the coordinate `v / w` rounded up.
fn higher(high: i32, v: i128, w: i128) -> i32
    requires weight { pos 0 <ℤ w }
    requires weight_size { unsigned_abs w < 2 ^ 75 }
    requires size { unsigned_abs v < 2 ^ 101 }
    requires range { is_in_closed_range v w ≡ true }
    ensures { result ≡ int_max high (ceiling_of v w) }
{
    if v <= high as i128 * w {
        high
    } else {
        ceiling(v, w)
    }
}

/// Returns the least box with whole corners that contains `p`, a point of the closed cube.
fn box_of_vertex(p: &Meeting) -> IntBox
    requires { is_closed_cube_point p.now ≡ true }
    ensures { integer_box result ≡ box_of_vertex p.now }
{
    let (x, y, z, w) = p.numbers();
    IntBox {
        lo: [floor(x, w), floor(y, w), floor(z, w)],
        hi: [ceiling(x, w), ceiling(y, w), ceiling(z, w)],
    }
}

/// Returns the coordinate `v / w` of a point of the closed cube, rounded down.
fn floor(v: i128, w: i128) -> i32
    requires weight { pos 0 <ℤ w }
    requires range { is_in_closed_range v w ≡ true }
    ensures value { result ≡ floor_of v w }
    ensures small { IsWithin half_edge result }
{
    v.div_euclid(w) as i32
}

/// Returns the coordinate `v / w` of a point of the closed cube, rounded up.
fn ceiling(v: i128, w: i128) -> i32
    requires weight { pos 0 <ℤ w }
    requires size { unsigned_abs v < 2 ^ 101 }
    requires range { is_in_closed_range v w ≡ true }
    ensures { result ≡ ceiling_of v w }
{
    -floor(-v, w)
}
