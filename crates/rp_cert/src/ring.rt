//! Rings: the edges and ends around the points that a cell has at a height.
ghost use Rattle.std.specs.Prelude.{◌≡◌, ◌<◌, ◌*◌, ◌^◌, ◌&&◌, ◌||◌, ◌-ℤ◌, ◌*ℤ◌, not, length};
ghost use Rattle.std.specs.List.{list_all, list_any, AllByRecursion};
ghost use Rattle.rp_algebra.specs.Integer.{is_zero, is_positive, is_nonnegative};
ghost use Rattle.rp_algebra.specs.Within.{IsWithin};
ghost use Rattle.rp_geometry.specs.Geometry.{side_value};
ghost use Rattle.rp_geometry.specs.sections.Trace.{IsHeight, IsAtHeight, has_trace, trace_at, trace_eq, trace_value, holds_level, with_sides};
ghost use Rattle.rp_geometry.specs.sections.Ring.{turn_of, turns_of, cross, is_upper, is_before_by, is_angle_before, angles_rise, is_step, is_turn, is_trace_of, all_traces_hold, all_levels_hold, is_ring};
ghost use Rattle.rp_geometry.specs.laws.SectionLaws.{IsSmallTrace};
ghost use Rattle.rp_cert.specs.Section.{turn_from};

use crate::edge::{Edge, RingStep};
use crate::trace::{has_trace, holds_level, offset_at, trace_at};
use rp_space::{Half, Point, cube, keep_bounds};

/// Returns whether `steps` are a ring of `cell` at the height `z`. There are at least three steps. Their edges are
/// traces of the cell or the cube's vertical sides, in order of rising angle, and each turns to the left. Their ends
/// are the points in which the edges meet.
pub(crate) fn is_ring(cell: &[Half], z: i32, steps: &[RingStep]) -> bool
    requires { IsHeight z }
    ensures { result ≡ is_ring z cell.now steps.now }
{
    keep_bounds(cell);
    if steps.len() < 3 {
        return false;
    }
    if !are_steps(cell, z, steps) {
        return false;
    }
    if !are_turns(steps) {
        return false;
    }
    if !angles_rise(steps) {
        return false;
    }
    all_levels_hold(cell, z)
}

/// Returns whether each of `steps` may be in a ring of `cell` at the height `z`, as [`is_step`] says.
fn are_steps(cell: &[Half], z: i32, steps: &[RingStep]) -> bool
    requires { IsHeight z }
    ensures { result ≡ list_all (is_step z (with_sides cell.now)) steps.now }
{
    steps.iter().all(|step| is_step(cell, z, step))
}

/// Returns whether `step` may be in a ring of `cell` at the height `z`. Its edge is a trace of the cell or of the cube.
/// Its end is a point of the height at which no trace is negative.
fn is_step(cell: &[Half], z: i32, step: &RingStep) -> bool
    requires { IsHeight z }
    ensures { result ≡ is_step z (with_sides cell.now) step.now }
{
    step.end.keep_lowest();
    if !is_at_height(&step.end, z) {
        return false;
    }
    if !is_trace_with_sides(&step.edge, cell, z) {
        return false;
    }
    all_hold_with_sides(cell, z, &step.end)
}

/// Returns whether `p` has the height `z`.
fn is_at_height(p: &Point, z: i32) -> bool
    requires { IsHeight z }
    ensures { result ≡ is_zero (p.now.z -ℤ z *ℤ p.now.w) }
{
    above_height(p, z) == 0
}

/// Returns the distance of `p` above the height `z`, times the weight of `p`.
fn above_height(p: &Point, z: i32) -> i128
    requires { IsHeight z }
    ensures { result ≡ p.now.z -ℤ z *ℤ p.now.w }
{
    let (_, _, height, w) = p.numbers();
    height - z as i128 * w
}

/// Returns whether `edge` is the trace at the height `z` of a half-space of `cell` or of a vertical side of the domain
/// cube.
fn is_trace_with_sides(edge: &Edge, cell: &[Half], z: i32) -> bool
    requires { IsHeight z }
    ensures { result ≡ is_trace_of z (with_sides cell.now) edge.now }
{
    is_trace_of(edge, cell, z) || is_trace_of(edge, &cube()[..4], z)
}

/// Returns whether `edge` is the trace at the height `z` of one of `halves`.
fn is_trace_of(edge: &Edge, halves: &[Half], z: i32) -> bool
    requires { IsHeight z }
    ensures { result ≡ is_trace_of z halves.now edge.now }
{
    halves.iter().any(|half| is_trace(edge, half, z))
}

/// Returns whether `edge` is the trace of `half` at the height `z`. The directions are compared first, since most
/// differ and a divisor costs more.
fn is_trace(edge: &Edge, half: &Half, z: i32) -> bool
    requires { IsHeight z }
    ensures { result ≡ (has_trace half.now && trace_eq (trace_at z half.now) edge.now) }
{
    if !is_along(edge, half) {
        return false;
    }
    match trace_at(half, z) {
        Some(other) => other == *edge,
        None => false,
    }
}

/// Returns whether the direction of `half` is that of `edge`, or its opposite.
fn is_along(edge: &Edge, half: &Half) -> bool
    ensures { result ≡ is_zero (turn_from edge.now half.now) }
{
    turn_from(edge, half) == 0
}

/// Returns the cross product of the directions of `edge` and `half`.
fn turn_from(edge: &Edge, half: &Half) -> i128
    ensures { result ≡ turn_from edge.now half.now }
{
    let (a, b, _, _) = half.numbers();
    edge.a as i128 * b as i128 - edge.b as i128 * a as i128
}

/// Returns whether no trace of `cell` or of a vertical side of the domain cube is negative at `p`, a point of the
/// height `z`.
fn all_hold_with_sides(cell: &[Half], z: i32, p: &Point) -> bool
    requires height { IsHeight z }
    requires there { IsAtHeight z p.now }
    ensures { result ≡ all_traces_hold z (with_sides cell.now) p.now }
{
    all_traces_hold(cell, z, p) && all_traces_hold(&cube()[..4], z, p)
}

/// Returns whether no trace of `halves` is negative at `p`, a point of the height `z`.
fn all_traces_hold(halves: &[Half], z: i32, p: &Point) -> bool
    requires height { IsHeight z }
    requires there { IsAtHeight z p.now }
    ensures { result ≡ all_traces_hold z halves.now p.now }
{
    halves.iter().all(|half| is_above(half, z, p))
}

/// Returns whether `half` has no trace, or its trace is not negative at `p`, a point of the height `z`.
fn is_above(half: &Half, z: i32, p: &Point) -> bool
    requires height { IsHeight z }
    requires there { IsAtHeight z p.now }
    ensures { result ≡ (not (has_trace half.now) || is_nonnegative (trace_value (trace_at z half.now) p.now)) }
{
    !has_trace(half) || value_at(half, z, p) >= 0
}

/// Returns the side value of `half` at `p`, a point of the height `z`. It uses the offset at the height, which saves a
/// product. Its size is below 2^127.
fn value_at(half: &Half, z: i32, p: &Point) -> i128
    requires height { IsHeight z }
    requires there { IsAtHeight z p.now }
    ensures { result ≡ side_value half.now p.now }
{
    let (a, b, _, _) = half.numbers();
    let (x, y, _, w) = p.numbers();
    a as i128 * x + b as i128 * y + offset_at(half, z) as i128 * w
}

/// Returns whether each of `halves` without a trace contains the points of the height `z`.
fn all_levels_hold(halves: &[Half], z: i32) -> bool
    requires { IsHeight z }
    ensures { result ≡ list_all (λ h. has_trace h || holds_level z h) halves.now }
{
    halves
        .iter()
        .all(|half| has_trace(half) || holds_level(half, z))
}

/// Returns whether each of `steps` makes a turn to the next one; after the last step comes the first.
fn are_turns(steps: &[RingStep]) -> bool
    requires some { 0 < length steps.now }
    requires small { AllByRecursion (λ s. IsSmallTrace s.edge) steps.now }
    ensures { result ≡ list_all is_turn (turns_of steps.now) }
{
    let last = steps.len() - 1;
    for i in 0..last {
        if !is_turn(&steps[i], &steps[i + 1]) {
            return false;
        }
    }
    is_turn(&steps[last], &steps[0])
}

/// Returns whether `step` and `next` make a turn: the end of `step` is on both edges, the end of `next` is another
/// point, and the edge of `next` turns to the left.
fn is_turn(step: &RingStep, next: &RingStep) -> bool
    requires step { IsSmallTrace step.now.edge }
    requires next { IsSmallTrace next.now.edge }
    ensures { result ≡ is_turn (turn_of step.now next.now) }
{
    if !is_on(&step.edge, &step.end) {
        return false;
    }
    if !is_on(&next.edge, &step.end) {
        return false;
    }
    if step.end == next.end {
        return false;
    }
    is_left_turn(&step.edge, &next.edge)
}

/// Returns whether `p` is on `edge`.
fn is_on(edge: &Edge, p: &Point) -> bool
    requires { IsSmallTrace edge.now }
    ensures { result ≡ is_zero (trace_value edge.now p.now) }
{
    value(edge, p) == 0
}

/// Returns whether `t` turns to the left from `s`.
fn is_left_turn(s: &Edge, t: &Edge) -> bool
    ensures { result ≡ is_positive (cross s.now t.now) }
{
    cross(s, t) > 0
}

/// Returns the value of `edge` at `p`. Its size is below 2^127.
fn value(edge: &Edge, p: &Point) -> i128
    requires { IsSmallTrace edge.now }
    ensures { result ≡ trace_value edge.now p.now }
{
    let (x, y, _, w) = p.numbers();
    edge.a as i128 * x + edge.b as i128 * y + edge.d as i128 * w
}

/// Returns the cross product of the directions of `s` and `t`.
fn cross(s: &Edge, t: &Edge) -> i128
    ensures { result ≡ cross s.now t.now }
{
    s.a as i128 * t.b as i128 - t.a as i128 * s.b as i128
}

/// Returns whether the angle of the direction of `edge`, counterclockwise from (1, 0), is below half a turn.
fn is_upper(edge: &Edge) -> bool
    ensures { result ≡ is_upper edge.now }
{
    edge.b > 0 || (edge.b == 0 && edge.a > 0)
}

/// Returns whether the direction of `s` has a smaller angle than that of `t`.
pub fn is_angle_before(s: &Edge, t: &Edge) -> bool
    ensures { result ≡ is_angle_before s.now t.now }
{
    let upper = is_upper(s);
    if upper == is_upper(t) {
        return is_left_turn(s, t);
    }
    upper
}

/// Returns whether the edge of `step` has a smaller angle than that of `next`.
fn is_before(step: &RingStep, next: &RingStep) -> bool
    ensures { result ≡ is_angle_before step.now.edge next.now.edge }
{
    is_angle_before(&step.edge, &next.edge)
}

/// Returns whether the angles of the edges rise, from the first of `steps` to the last.
fn angles_rise(steps: &[RingStep]) -> bool
    requires { 0 < length steps.now }
    ensures { result ≡ angles_rise steps.now }
{
    for i in 0..steps.len() - 1 {
        if !is_before(&steps[i], &steps[i + 1]) {
            return false;
        }
    }
    true
}
