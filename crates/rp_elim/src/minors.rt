//! Multipliers that cancel the coefficients of two, three or four half-spaces, as signed minors.
ghost use Rattle.std.specs.Prelude.{◌≡◌, ◌*◌, ◌^◌, neg_ℤ};
ghost use Rattle.rp_algebra.specs.Integer.{is_zero};
ghost use Rattle.rp_algebra.specs.Within.{IsWithin};
ghost use Rattle.rp_geometry.specs.searches.Vertex.{det2, meeting_weight};
ghost use Rattle.rp_geometry.specs.searches.Elimination.{minors_of_two, minors_on_axes, minors_of_four};
ghost use Rattle.rp_elim.specs.Axes.{along, axes_of, minors_on_axis, is_without_normal, are_parallel, are_opposed, may_cancel, are_mixed, may_three_cancel};
ghost use Rattle.rp_elim.specs.Factors.{AreFactorsSmall};

use rp_space::{Half, Term};

/// An axis of space.
#[derive(Clone, Copy)]
pub enum Axis {
    X,
    Y,
    Z,
}

/// Returns the coefficient of `half` on `axis`, within 2^24.
fn along(half: &Half, axis: Axis) -> i64
    ensures value { result ≡ along axis half.now }
    ensures small { IsWithin (2 ^ 24) result }
{
    let (a, b, c, _) = half.numbers();
    match axis {
        Axis::X => a,
        Axis::Y => b,
        Axis::Z => c,
    }
}

/// Returns the negative of the coefficient of `half` on `axis`, within 2^24.
fn opposite_along(half: &Half, axis: Axis) -> i64
    ensures value { result ≡ neg_ℤ (along axis half.now) }
    ensures small { IsWithin (2 ^ 24) result }
{
    -along(half, axis)
}

/// Returns the 2 by 2 determinant of `f` and `g` on the axes `u` and `v`, within 2 * 2^48.
pub fn minor(f: &Half, g: &Half, u: Axis, v: Axis) -> i64
    ensures value { result ≡ det2 (along u f.now) (along v f.now) (along u g.now) (along v g.now) }
    ensures small { IsWithin (2 * 2 ^ 48) result }
{
    along(f, u) * along(g, v) - along(f, v) * along(g, u)
}

/// Returns the negative of the 2 by 2 determinant of `f` and `g` on the axes `u` and `v`.
fn opposite_minor(f: &Half, g: &Half, u: Axis, v: Axis) -> i64
    ensures value { result ≡ neg_ℤ (det2 (along u f.now) (along v f.now) (along u g.now) (along v g.now)) }
    ensures small { IsWithin (2 * 2 ^ 48) result }
{
    -minor(f, g, u, v)
}

/// Returns the determinant of the coefficients of `f`, `g` and `h`, within 6 * 2^72.
fn determinant(f: &Half, g: &Half, h: &Half) -> i128
    ensures value { result ≡ meeting_weight f.now g.now h.now }
    ensures small { IsWithin (6 * 2 ^ 72) result }
{
    along(f, Axis::X) as i128 * minor(g, h, Axis::Y, Axis::Z) as i128
        - along(g, Axis::X) as i128 * minor(f, h, Axis::Y, Axis::Z) as i128
        + along(h, Axis::X) as i128 * minor(f, g, Axis::Y, Axis::Z) as i128
}

/// Returns the negative of the determinant of the coefficients of `f`, `g` and `h`.
fn opposite_determinant(f: &Half, g: &Half, h: &Half) -> i128
    ensures value { result ≡ neg_ℤ (meeting_weight f.now g.now h.now) }
    ensures small { IsWithin (6 * 2 ^ 72) result }
{
    -determinant(f, g, h)
}

/// Returns whether the coefficient of `half` on `axis` is 0.
fn is_without(half: &Half, axis: Axis) -> bool
    ensures { result ≡ is_zero (along axis half.now) }
{
    along(half, axis) == 0
}

/// Returns whether the 2 by 2 determinant of `f` and `g` on the axes `u` and `v` is 0.
fn are_dependent(f: &Half, g: &Half, u: Axis, v: Axis) -> bool
    ensures { result ≡ is_zero (det2 (along u f.now) (along v f.now) (along u g.now) (along v g.now)) }
{
    minor(f, g, u, v) == 0
}

/// Returns whether all three coefficients of `half` are 0. Such a half-space contains every point or none.
pub fn is_without_normal(half: &Half) -> bool
    ensures { result ≡ is_without_normal half.now }
{
    is_without(half, Axis::X) && is_without(half, Axis::Y) && is_without(half, Axis::Z)
}

/// Returns whether the normals of `f` and `g` are dependent.
pub fn are_parallel(f: &Half, g: &Half) -> bool
    ensures { result ≡ are_parallel f.now g.now }
{
    are_dependent(f, g, Axis::X, Axis::Y)
        && are_dependent(f, g, Axis::X, Axis::Z)
        && are_dependent(f, g, Axis::Y, Axis::Z)
}

/// Returns whether the normals of `f` and `g` may cancel: on each axis one coefficient is positive and the other
/// negative, or both are 0.
pub fn may_cancel(f: &Half, g: &Half) -> bool
    ensures { result ≡ may_cancel f.now g.now }
{
    are_opposed(f, g, Axis::X) && are_opposed(f, g, Axis::Y) && are_opposed(f, g, Axis::Z)
}

/// Returns whether, on `axis`, one coefficient is positive and the other negative, or both are 0.
fn are_opposed(f: &Half, g: &Half, axis: Axis) -> bool
    ensures { result ≡ are_opposed (along axis f.now) (along axis g.now) }
{
    let v = along(f, axis);
    let w = along(g, axis);
    (v > 0) == (w < 0) && (v < 0) == (w > 0)
}

/// Returns whether the normals of `f`, `g` and `h` may cancel: on each axis one coefficient is positive and one
/// negative, or all are 0.
pub fn may_three_cancel(f: &Half, g: &Half, h: &Half) -> bool
    ensures { result ≡ may_three_cancel f.now g.now h.now }
{
    are_mixed(f, g, h, Axis::X) && are_mixed(f, g, h, Axis::Y) && are_mixed(f, g, h, Axis::Z)
}

/// Returns whether, on `axis`, one of the three coefficients is positive and one negative, or all are 0.
fn are_mixed(f: &Half, g: &Half, h: &Half, axis: Axis) -> bool
    ensures { result ≡ are_mixed (along axis f.now) (along axis g.now) (along axis h.now) }
{
    let u = along(f, axis);
    let v = along(g, axis);
    let w = along(h, axis);
    ((u > 0) | (v > 0) | (w > 0)) == ((u < 0) | (v < 0) | (w < 0))
}

/// Returns the multiples of `f` and `g` that cancel on the first axis on which the coefficient of `f` is not 0; on z if
/// all coefficients of `f` are 0.
pub fn minors_of_two(f: &Half, g: &Half) -> [Term; 2]
    ensures value { result ≡ minors_of_two f.now g.now }
    ensures small { AreFactorsSmall result }
{
    if !is_without(f, Axis::X) {
        return minors_on_axis(f, g, Axis::X);
    }
    if !is_without(f, Axis::Y) {
        return minors_on_axis(f, g, Axis::Y);
    }
    minors_on_axis(f, g, Axis::Z)
}

/// Returns the multiples of `f` and `g` that cancel on the axis `u`.
fn minors_on_axis(f: &Half, g: &Half, u: Axis) -> [Term; 2]
    ensures value { result ≡ minors_on_axis f.now g.now (along u) }
    ensures small { AreFactorsSmall result }
{
    [
        Term {
            by: along(g, u) as i128,
            half: *f,
        },
        Term {
            by: opposite_along(f, u) as i128,
            half: *g,
        },
    ]
}

/// Returns the first two axes on which `f` and `g` are independent; y and z if there are none.
pub fn axes_of(f: &Half, g: &Half) -> (Axis, Axis)
    ensures { result ≡ axes_of f.now g.now }
{
    if !are_dependent(f, g, Axis::X, Axis::Y) {
        return (Axis::X, Axis::Y);
    }
    if !are_dependent(f, g, Axis::X, Axis::Z) {
        return (Axis::X, Axis::Z);
    }
    (Axis::Y, Axis::Z)
}

/// Returns the multiples of `f`, `g` and `h` that cancel on the axes `u` and `v`.
pub fn minors_on_axes(f: &Half, g: &Half, h: &Half, u: Axis, v: Axis) -> [Term; 3]
    ensures value { result ≡ minors_on_axes f.now g.now h.now (along u) (along v) }
    ensures small { AreFactorsSmall result }
{
    [
        Term {
            by: minor(g, h, u, v) as i128,
            half: *f,
        },
        Term {
            by: opposite_minor(f, h, u, v) as i128,
            half: *g,
        },
        Term {
            by: minor(f, g, u, v) as i128,
            half: *h,
        },
    ]
}

/// Returns the multiples of `e`, `f`, `g` and `h` that cancel: the four minors of third order with alternating signs.
pub fn minors_of_four(e: &Half, f: &Half, g: &Half, h: &Half) -> [Term; 4]
    ensures value { result ≡ minors_of_four e.now f.now g.now h.now }
    ensures small { AreFactorsSmall result }
{
    [
        Term {
            by: determinant(f, g, h),
            half: *e,
        },
        Term {
            by: opposite_determinant(e, g, h),
            half: *f,
        },
        Term {
            by: determinant(e, f, h),
            half: *g,
        },
        Term {
            by: opposite_determinant(e, f, g),
            half: *h,
        },
    ]
}
