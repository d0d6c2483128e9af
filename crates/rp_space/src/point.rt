//! Rational points in lowest terms.
ghost use Rattle.std.specs.Prelude.{◌≡◌, ◌<◌, ◌^◌, [], ◌∷◌};
ghost use Rattle.rp_algebra.specs.Integer.{gcd_of};
ghost use Rattle.rp_geometry.specs.Geometry.{point_of, IsSmallPoint, IsKeptPoint, coordinate_bound, is_within_bound, is_cube_point, is_point_in_bounds, reduced_point};
ghost use Rattle.rp_space.specs.MadePoint.{made_point};

use crate::bounds::IntBox;
use crate::divisor::{common_divisor, quotient};
use rp_lists::{Copied, Short};
use std::marker::Model;
use thiserror::Error;

/// The greatest size of a coordinate's number, 2^101 - 1.
const MAX_COORDINATE: i128 = 2535301200456458802993406410751;

/// The greatest weight, 2^75 - 1.
const MAX_WEIGHT: i128 = 37778931862957161709567;

/// The reason why four numbers are not a point.
#[derive(Clone, Copy, Debug, Drop, Error)]
pub enum PointFault {
    /// The weight is below 1.
    #[error("the weight is below 1")]
    Weight,
    /// A number exceeds its bound.
    #[error("a coordinate passes 2^101 - 1 in size or the weight 2^75 - 1")]
    Range,
}

/// The rational point `(x/w, y/w, z/w)` in lowest terms, with |x|, |y|, |z| < 2^101 and 0 < w < 2^75.
#[derive(Clone, Copy, Debug, PartialEq, Eq)]
pub struct Point {
    x: i128,
    y: i128,
    z: i128,
    w: i128,
}

impl Model for Point {
    ghost use Rattle.rp_geometry.specs.Geometry.{RationalPoint, point_of, IsKeptPoint};

    ghost Value = { RationalPoint };

    ghost view = { λ s. point_of s.x s.y s.z s.w };

    ghost invariant = { λ s. IsKeptPoint (point_of s.x s.y s.z s.w) };

    ghost inverse = { λ p. record { x = p.x; y = p.y; z = p.z; w = p.w } };
}

impl Default for Point {
    /// Returns the origin.
    fn default() -> Point {
        Point {
            x: 0,
            y: 0,
            z: 0,
            w: 1,
        }
    }
}

impl Copied for Point {
    fn copy(&self) -> Point {
        *self
    }
}

/// A list of at most four points, which takes no memory.
pub type Inside = Short<Point, 4>;

impl Point {
    /// Returns the point of the numbers `x`, `y`, `z` and the weight `w`, in lowest terms. The bounds are tested before
    /// the numbers are reduced.
    ///
    /// # Errors
    ///
    /// - `Weight` iff `w` < 1.
    /// - `Range` iff `w` >= 1 and a number exceeds its bound.
    pub fn new(x: i128, y: i128, z: i128, w: i128) -> Result<Point, PointFault>
        ensures { result ≡ made_point (point_of x y z w) }
    {
        if w < 1 {
            return Err(PointFault::Weight);
        }
        if !is_in_bounds(x, y, z, w) {
            return Err(PointFault::Range);
        }
        Ok(reduced(x, y, z, w))
    }

    /// Returns the four numbers, in lowest terms.
    pub fn numbers(&self) -> (i128, i128, i128, i128)
        ensures numbers { point_of result.0 result.1 result.2 result.3 ≡ self.now }
        ensures small { IsSmallPoint (point_of result.0 result.1 result.2 result.3) }
    {
        (self.x, self.y, self.z, self.w)
    }

    /// Does nothing; makes it known that a point is within its bounds and in lowest terms.
    pub fn keep_lowest(&self)
        ensures { IsKeptPoint self.now }
    {
        let _weight = self.w;
    }

    /// Returns whether the point is in the domain cube, whose upper sides do not belong to it.
    pub fn is_in_cube(&self) -> bool
        ensures { result ≡ is_cube_point self.now }
    {
        IntBox::cube().holds(self)
    }
}

/// Returns whether the size of `v` is below 2^101.
fn is_coordinate(v: i128) -> bool
    ensures { result ≡ is_within_bound coordinate_bound v }
{
    -MAX_COORDINATE <= v && v <= MAX_COORDINATE
}

/// Returns whether `x`, `y`, `z` and `w` are within the upper bounds of a point.
fn is_in_bounds(x: i128, y: i128, z: i128, w: i128) -> bool
    ensures { result ≡ is_point_in_bounds (point_of x y z w) }
{
    is_coordinate(x) && is_coordinate(y) && is_coordinate(z) && w <= MAX_WEIGHT
}

/// Returns the point of the four numbers divided by their greatest common divisor.
pub(crate) fn reduced(x: i128, y: i128, z: i128, w: i128) -> Point
    requires { IsSmallPoint (point_of x y z w) }
    ensures { result ≡ reduced_point (point_of x y z w) }
{
    let divisor = divisor_of(x, y, z, w);
    Point {
        x: quotient(x, divisor),
        y: quotient(y, divisor),
        z: quotient(z, divisor),
        w: quotient(w, divisor),
    }
}

/// Returns the greatest common divisor of the four numbers of a point, below 2^127.
fn divisor_of(x: i128, y: i128, z: i128, w: i128) -> u128
    requires { IsSmallPoint (point_of x y z w) }
    ensures value { result ≡ gcd_of (x ∷ y ∷ z ∷ w ∷ []) }
    ensures positive { 0 < result }
    ensures small { result < 2 ^ 127 }
{
    common_divisor(x, y, z, w)
}
