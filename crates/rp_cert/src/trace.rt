//! Traces: half-spaces on the plane of a height.
ghost use Rattle.std.specs.Prelude.{◌≡◌, ◌^◌, ◌&&◌, ◌||◌, ◌<◌, true, false, not, pos, IfSome, [], ◌∷◌};
ghost use Rattle.rp_algebra.specs.Integer.{gcd_of, reduced_by, is_zero, is_positive};
ghost use Rattle.rp_algebra.specs.Within.{IsWithin};
ghost use Rattle.rp_geometry.specs.Geometry.{owns_boundary};
ghost use Rattle.rp_geometry.specs.sections.Trace.{IsHeight, has_trace, offset_at, holds_level, trace_of};
ghost use Rattle.rp_geometry.specs.laws.SectionLaws.{IsSmallTrace};
ghost use Rattle.rp_cert.specs.Section.{trace_if};

use crate::edge::Edge;
use rp_space::{Half, greatest_common_divisor, quotient};

/// Returns the trace of `half` at the height `z`, in lowest terms; `None` iff its `a` and `b` are both 0.
pub fn trace_at(half: &Half, z: i32) -> Option<Edge>
    requires { IsHeight z }
    ensures value { result ≡ trace_if z half.now }
    ensures small { IfSome result IsSmallTrace }
{
    if !has_trace(half) {
        return None;
    }
    let (a, b, _, _) = half.numbers();
    Some(lowest(a, b, offset_at(half, z)))
}

/// Returns whether `a` and `b` of `half` are not both 0.
pub fn has_trace(half: &Half) -> bool
    ensures { result ≡ has_trace half.now }
{
    let (a, b, _, _) = half.numbers();
    !(a == 0 && b == 0)
}

/// Returns the offset of `half` at the height `z`, `c * z + d`, within 2^50.
pub fn offset_at(half: &Half, z: i32) -> i64
    requires { IsHeight z }
    ensures value { result ≡ offset_at z half.now }
    ensures small { IsWithin (2 ^ 50) result }
{
    let (_, _, c, d) = half.numbers();
    c * z as i64 + d
}

/// Returns whether `half` contains the point of the height `z` on the z axis.
pub fn holds_level(half: &Half, z: i32) -> bool
    requires { IsHeight z }
    ensures { result ≡ holds_level z half.now }
{
    holds_by(half, offset_at(half, z))
}

/// Returns whether `half` contains a point at which its side value is `value`.
fn holds_by(half: &Half, value: i64) -> bool
    ensures { result ≡ (is_positive value || (is_zero value && owns_boundary half.now)) }
{
    value > 0 || (value == 0 && owns_boundary(half))
}

/// Returns whether the first of `a`, `b` and `c` of `half` that is not 0 is positive.
fn owns_boundary(half: &Half) -> bool
    ensures { result ≡ owns_boundary half.now }
{
    let (a, b, c, _) = half.numbers();
    a > 0 || (a == 0 && (b > 0 || (b == 0 && c > 0)))
}

/// Returns the edge of the three numbers divided by their greatest common divisor.
fn lowest(a: i64, b: i64, d: i64) -> Edge
    requires a_small { IsWithin (2 ^ 24) a }
    requires b_small { IsWithin (2 ^ 24) b }
    requires d_small { IsWithin (2 ^ 50) d }
    requires nonzero { not (is_zero a && is_zero b) ≡ true }
    ensures value { result ≡ trace_of (reduced_by (gcd_of (a ∷ b ∷ d ∷ [])) a) (reduced_by (gcd_of (a ∷ b ∷ d ∷ [])) b) (reduced_by (gcd_of (a ∷ b ∷ d ∷ [])) d) }
{
    let divisor = divisor_of(a, b, d);
    Edge {
        a: quotient(a as i128, divisor) as i32,
        b: quotient(b as i128, divisor) as i32,
        d: quotient(d as i128, divisor) as i64,
    }
}

/// Returns the greatest common divisor of `a`, `b` and `d`.
fn divisor_of(a: i64, b: i64, d: i64) -> u128
    requires a_small { IsWithin (2 ^ 24) a }
    requires b_small { IsWithin (2 ^ 24) b }
    requires nonzero { not (is_zero a && is_zero b) ≡ true }
    ensures value { result ≡ gcd_of (a ∷ b ∷ d ∷ []) }
    ensures positive { 0 < result }
    ensures small { result < 2 ^ 127 }
{
    let last = greatest_common_divisor(d.unsigned_abs() as u128, b.unsigned_abs() as u128);
    greatest_common_divisor(last, a.unsigned_abs() as u128)
}
