//! Half-spaces in lowest terms.
ghost use Rattle.std.specs.Prelude.{◌≡◌, ◌<◌, ◌^◌, true, false, pos, ◌≤ℤ◌, [], ◌∷◌};
ghost use Rattle.rp_algebra.specs.Integer.{gcd_of, is_zero};
ghost use Rattle.rp_geometry.specs.Geometry.{half_space_of, side_value, owns_boundary, holds, complement, is_within_bound, is_half_space_in_bounds, is_zero_half_space, reduced_half_space, IsHalfSpace, IsKeptHalfSpace, point_of, IsSmallPoint};
ghost use Rattle.rp_space.specs.LevelAndUpright.{IsLevel};
ghost use Rattle.rp_space.specs.MadeHalfSpace.{made_half_space};

use crate::divisor::{common_divisor, short_quotient};
use crate::point::Point;
use rp_lists::Listed;
use std::marker::Model;
use thiserror::Error;

/// The greatest size of the coefficients of x, y and z.
const MAX_COEFFICIENT: i64 = 16777216;

/// The greatest size of the offset.
const MAX_OFFSET: i64 = 844424930131968;

/// The reason why four numbers are not a half-space.
#[derive(Clone, Copy, Debug, Drop, Error)]
pub enum HalfFault {
    /// A number exceeds its bound.
    #[error("a coefficient passes 16777216 or the offset 844424930131968 in size")]
    Range,
    /// All four numbers are 0.
    #[error("all four numbers are 0")]
    Zero,
}

/// A half-space `a x + b y + c z + d > 0` with its share of the boundary plane (Thompson's sign rule), in lowest terms.
/// The coefficients are at most 16777216 in size, the offset at most 844424930131968, and not all four are 0.
#[derive(Clone, Copy, Debug, PartialEq, Eq)]
pub struct Half {
    a: i64,
    b: i64,
    c: i64,
    d: i64,
}

impl Model for Half {
    ghost use Rattle.rp_geometry.specs.Geometry.{HalfSpace, half_space_of, IsKeptHalfSpace};

    ghost Value = { HalfSpace };

    ghost view = { λ s. half_space_of s.a s.b s.c s.d };

    ghost invariant = { λ s. IsKeptHalfSpace (half_space_of s.a s.b s.c s.d) };

    ghost inverse = { λ h. record { a = h.a; b = h.b; c = h.c; d = h.d } };
}

impl Default for Half {
    /// Returns the half-space `x > 0`, whose boundary plane belongs to it.
    fn default() -> Half {
        Half {
            a: 1,
            b: 0,
            c: 0,
            d: 0,
        }
    }
}

/// A list of half-spaces.
pub type Halves = Listed<Half>;

impl Half {
    /// Returns the half-space of the numbers `a`, `b`, `c` and `d`, in lowest terms. The bounds are tested before the
    /// numbers are reduced.
    ///
    /// # Errors
    ///
    /// - `Range` iff a number exceeds its bound.
    /// - `Zero` iff all four numbers are 0.
    pub fn new(a: i64, b: i64, c: i64, d: i64) -> Result<Half, HalfFault>
        ensures { result ≡ made_half_space (half_space_of a b c d) }
    {
        if !is_in_bounds(a, b, c, d) {
            return Err(HalfFault::Range);
        }
        if are_zero(a, b, c, d) {
            return Err(HalfFault::Zero);
        }
        Ok(reduced(a, b, c, d))
    }

    /// Returns the half-space of a side of a box, whose four numbers are in lowest terms already.
    pub(crate) fn of_side(a: i64, b: i64, c: i64, d: i64) -> Half
        requires { IsKeptHalfSpace (half_space_of a b c d) }
        ensures { result ≡ half_space_of a b c d }
    {
        Half { a, b, c, d }
    }

    /// Returns the complement: the half-space of exactly the other points.
    pub fn not(&self) -> Half
        ensures { result ≡ complement self.now }
    {
        Half {
            a: -self.a,
            b: -self.b,
            c: -self.c,
            d: -self.d,
        }
    }

    /// Returns the four numbers, in lowest terms.
    pub fn numbers(&self) -> (i64, i64, i64, i64)
        ensures numbers { half_space_of result.0 result.1 result.2 result.3 ≡ self.now }
        ensures small { IsHalfSpace (half_space_of result.0 result.1 result.2 result.3) }
        ensures kept { IsKeptHalfSpace self.now }
    {
        (self.a, self.b, self.c, self.d)
    }

    /// Returns whether the first two coefficients are 0, as they are where the boundary plane is level.
    pub(crate) fn is_level(&self) -> bool
        ensures { result ≡ true → IsLevel self.now }
    {
        self.a == 0 && self.b == 0
    }

    /// Returns whether the third coefficient is 0, as it is where the boundary plane is upright.
    pub(crate) fn is_upright(&self) -> bool
        ensures { result ≡ true → self.now.c ≡ pos 0 }
    {
        self.c == 0
    }

    /// Returns the side value at `p`: positive inside, 0 on the boundary plane, negative outside. Its size is below
    /// 2^127.
    pub fn side(&self, p: &Point) -> i128
        ensures { result ≡ side_value self.now p.now }
    {
        let (x, y, z, w) = p.numbers();
        self.side_at(x, y, z, w)
    }

    /// Returns the side value at the point `(x, y, z, w)`, which need not be in lowest terms.
    pub(crate) fn side_at(&self, x: i128, y: i128, z: i128, w: i128) -> i128
        requires { IsSmallPoint (point_of x y z w) }
        ensures { result ≡ side_value self.now (point_of x y z w) }
    {
        // No product is made that is 0 for a level or an upright plane.
        let rest = self.d as i128 * w;
        if self.is_level() {
            return self.c as i128 * z + rest;
        }
        if self.is_upright() {
            return self.a as i128 * x + self.b as i128 * y + rest;
        }
        self.a as i128 * x + self.b as i128 * y + self.c as i128 * z + rest
    }

    /// Returns whether the boundary plane belongs to the half-space: the first of a, b and c that is not 0 is positive.
    fn owns_boundary(&self) -> bool
        ensures { result ≡ owns_boundary self.now }
    {
        self.a > 0 || (self.a == 0 && (self.b > 0 || (self.b == 0 && self.c > 0)))
    }

    /// Returns whether `p` belongs to the half-space, by Thompson's sign rule.
    pub fn holds(&self, p: &Point) -> bool
        ensures { result ≡ holds self.now p.now }
    {
        let value = self.side(p);
        value > 0 || (value == 0 && self.owns_boundary())
    }
}

/// Returns whether the size of `v` is at most `bound`.
fn is_within(bound: i64, v: i64) -> bool
    requires { pos 0 ≤ℤ bound }
    ensures { result ≡ is_within_bound bound v }
{
    -bound <= v && v <= bound
}

/// Returns whether `a`, `b`, `c` and `d` are within the bounds of a half-space.
fn is_in_bounds(a: i64, b: i64, c: i64, d: i64) -> bool
    ensures { result ≡ is_half_space_in_bounds (half_space_of a b c d) }
{
    is_within(MAX_COEFFICIENT, a)
        && is_within(MAX_COEFFICIENT, b)
        && is_within(MAX_COEFFICIENT, c)
        && is_within(MAX_OFFSET, d)
}

/// Returns whether `v` is 0.
fn is_zero(v: i64) -> bool
    ensures { result ≡ is_zero v }
{
    v == 0
}

/// Returns whether `a`, `b`, `c` and `d` are all 0.
fn are_zero(a: i64, b: i64, c: i64, d: i64) -> bool
    ensures { result ≡ is_zero_half_space (half_space_of a b c d) }
{
    is_zero(a) && is_zero(b) && is_zero(c) && is_zero(d)
}

/// Returns the half-space of the four numbers divided by their greatest common divisor.
fn reduced(a: i64, b: i64, c: i64, d: i64) -> Half
    requires bounds { is_half_space_in_bounds (half_space_of a b c d) ≡ true }
    requires nonzero { is_zero_half_space (half_space_of a b c d) ≡ false }
    ensures { result ≡ reduced_half_space (half_space_of a b c d) }
{
    let divisor = divisor_of(a, b, c, d);
    Half {
        a: short_quotient(a, divisor),
        b: short_quotient(b, divisor),
        c: short_quotient(c, divisor),
        d: short_quotient(d, divisor),
    }
}

/// Returns the greatest common divisor of the four numbers of a half-space, below 2^63.
fn divisor_of(a: i64, b: i64, c: i64, d: i64) -> u128
    requires bounds { is_half_space_in_bounds (half_space_of a b c d) ≡ true }
    requires nonzero { is_zero_half_space (half_space_of a b c d) ≡ false }
    ensures value { result ≡ gcd_of (a ∷ b ∷ c ∷ d ∷ []) }
    ensures positive { 0 < result }
    ensures small { result < 2 ^ 63 }
{
    common_divisor(a as i128, b as i128, c as i128, d as i128)
}
