//! Certificates made of points.
ghost use Rattle.std.specs.Prelude.{◌≡◌, false, ◌&&◌, IsTrue};
ghost use Rattle.std.specs.List.{list_all, list_any};
ghost use Rattle.rp_geometry.specs.Geometry.{all_nonnegative, with_cube};
ghost use Rattle.rp_geometry.specs.sets.Shape.{shape_of_cell};
ghost use Rattle.rp_geometry.specs.sets.Sets.{IsNonempty};
ghost use Rattle.rp_geometry.specs.laws.CellLaws.{IsSolution};
ghost use Rattle.rp_geometry.specs.searches.Certificate.{is_one_to_four, is_positive_at_some, is_nonnegative_at_all, is_inside_certificate, is_weak_point};

use rp_space::{Half, Point, cube};

/// Returns whether `points` show that `cell` has a member. There are one to four points. Every half-space of the cell
/// and of the domain cube has a side value of at least 0 at all points and above 0 at one.
pub fn check_inside(cell: &[Half], points: &[Point]) -> bool
    ensures value { result ≡ is_inside_certificate cell.now points.now }
    ensures member { IsTrue result → IsNonempty (shape_of_cell cell.now) }
{
    is_one_to_four(points.len()) && are_reached(cell, points) && are_reached(&cube(), points)
}

/// Returns whether every half-space of `cell` and of the domain cube has a side value of at least 0 at `p`: whether the
/// point solves the weak system of the cell.
pub fn check_weak(cell: &[Half], p: &Point) -> bool
    ensures value { result ≡ is_weak_point cell.now p.now }
    ensures solution { IsTrue result → IsSolution false cell.now p.now }
{
    // The call makes it known that the weight is positive.
    let _ = p.numbers();
    are_nonnegative(cell, p) && are_nonnegative(&cube(), p)
}

/// Returns whether `n` is from 1 to 4.
pub(crate) fn is_one_to_four(n: usize) -> bool
    ensures { result ≡ is_one_to_four n }
{
    1 <= n && n <= 4
}

/// Returns whether each of `halves` is negative at none of `points` and positive at one.
fn are_reached(halves: &[Half], points: &[Point]) -> bool
    ensures { result ≡ list_all (λ h. is_nonnegative_at_all points.now h && is_positive_at_some points.now h) halves.now }
{
    halves.iter().all(|half| is_reached(points, half))
}

/// Returns whether `half` is negative at none of `points` and positive at one.
fn is_reached(points: &[Point], half: &Half) -> bool
    ensures { result ≡ (is_nonnegative_at_all points.now half.now && is_positive_at_some points.now half.now) }
{
    is_nonnegative_at_all(points, half) && is_positive_at_some(points, half)
}

/// Returns whether `half` is negative at none of `points`.
fn is_nonnegative_at_all(points: &[Point], half: &Half) -> bool
    ensures { result ≡ is_nonnegative_at_all points.now half.now }
{
    points.iter().all(|p| half.side(p) >= 0)
}

/// Returns whether `half` is positive at one of `points`.
fn is_positive_at_some(points: &[Point], half: &Half) -> bool
    ensures { result ≡ is_positive_at_some points.now half.now }
{
    points.iter().any(|p| half.side(p) > 0)
}

/// Returns whether none of `halves` is negative at `p`.
fn are_nonnegative(halves: &[Half], p: &Point) -> bool
    ensures { result ≡ all_nonnegative halves.now p.now }
{
    halves.iter().all(|half| half.side(p) >= 0)
}
