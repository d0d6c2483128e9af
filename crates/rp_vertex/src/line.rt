//! The part of the line of two planes that a list of half-spaces leaves: the part that can have a vertex.
ghost use Rattle.std.specs.Prelude.{◌≡◌, ◌<ℤ◌, ◌≤ℤ◌, pos, true, IfSome};
ghost use Rattle.rp_geometry.specs.Geometry.{side_value};
ghost use Rattle.rp_vertex.specs.Joined.{HasCube};
ghost use Rattle.rp_vertex.specs.Line.{Cuts, HoldsVertices, IsBetween, IsInCube, IsSpan, are_on_one_side, passes};

use crate::order::Order;
use rp_space::{Half, Meeting, Pair, cube};

/// A bound on the points of the line of two planes at which no half-space of a list is negative.
#[derive(Clone, Copy)]
pub(crate) enum Line {
    /// No bound is known.
    Unknown,
    /// There are no such points.
    Empty,
    /// All such points are between two points.
    Between(Span),
}

/// Two points of a line. All points of the line at which no half-space of a list is negative are between them.
#[derive(Clone, Copy)]
pub(crate) struct Span {
    /// The one end.
    one: Meeting,
    /// The other end.
    two: Meeting,
}

impl Line {
    /// Returns true only if no vertex on the line is on the plane of `h`: the two ends are on one side of it, or the
    /// line has no such points.
    pub(crate) fn passes(&self, h: &Half) -> bool
        ensures { result ≡ passes self.now h.now }
    {
        match self {
            Line::Unknown => false,
            Line::Empty => true,
            Line::Between(span) => are_on_one_side(h, &span.one, &span.two),
        }
    }
}

/// Returns whether `p` and `q` are on the same side of the plane of `h`, and not on it.
fn are_on_one_side(h: &Half, p: &Meeting, q: &Meeting) -> bool
    ensures { result ≡ are_on_one_side h.now p.now q.now }
{
    let one = p.side(h);
    let two = q.side(h);
    (one > 0 && two > 0) || (one < 0 && two < 0)
}

/// Returns the bound on the vertices on the line of `pair` that the half-spaces of `system`, with the cube's, give.
pub(crate) fn line_of(system: &[Half], pair: &Pair, order: &mut Order) -> Line
    requires { HasCube system.now }
    ensures { HoldsVertices system.now pair.now result }
{
    match span_in_cube(pair) {
        Some(span) => clipped(system, pair, order, span),
        None => Line::Unknown,
    }
}

/// Returns the part of the line of `pair` between two opposite sides of the domain cube; `None` if the planes are
/// parallel.
fn span_in_cube(pair: &Pair) -> Option<Span>
    ensures { IfSome result (IsInCube pair.now) }
{
    let [x1, x2, y1, y2, z1, z2] = cube();
    if let Some(span) = span_of(pair, &x1, &x2) {
        return Some(span);
    }
    if let Some(span) = span_of(pair, &y1, &y2) {
        return Some(span);
    }
    span_of(pair, &z1, &z2)
}

/// Returns the part of the line of `pair` between the planes of `f` and `g`, if it meets both in one point.
fn span_of(pair: &Pair, f: &Half, g: &Half) -> Option<Span>
    ensures { IfSome result (IsBetween pair.now f.now g.now) }
{
    let one = pair.meeting(f)?;
    let two = pair.meeting(g)?;
    Some(Span { one, two })
}

/// Clips `span`, a part of the line of `pair`, by the half-spaces of `system`.
fn clipped(system: &[Half], pair: &Pair, order: &mut Order, mut span: Span) -> Line
    requires { IsSpan system.now pair.now span }
    ensures { HoldsVertices system.now pair.now result }
{
    for rank in 0..system.len() {
        let h = order.half(system, rank);
        if !cut(pair, h, &mut span) {
            order.bring_forward(rank);
            return Line::Empty;
        }
    }
    Line::Between(span)
}

/// Clips `span` by the half-space `h`. Returns false if nothing is left.
fn cut(pair: &Pair, h: &Half, span: &mut Span) -> bool
    ensures { Cuts pair.now h.now span.old span.new result }
{
    let is_one_out = span.one.side(h) < 0;
    let is_two_out = span.two.side(h) < 0;
    if is_one_out && is_two_out {
        return false;
    }
    if is_one_out {
        cut_one(pair, h, span);
        return true;
    }
    if is_two_out {
        cut_two(pair, h, span);
    }
    true
}

/// Moves the end `one`, at which `h` is negative, to the plane of `h`.
fn cut_one(pair: &Pair, h: &Half, span: &mut Span)
    requires one { side_value h.now span.old.one <ℤ pos 0 }
    requires two { pos 0 ≤ℤ side_value h.now span.old.two }
    ensures { Cuts pair.now h.now span.old span.new true }
{
    if let Some(end) = pair.meeting(h) {
        span.one = end;
    }
}

/// Moves the end `two`, at which `h` is negative, to the plane of `h`.
fn cut_two(pair: &Pair, h: &Half, span: &mut Span)
    requires one { pos 0 ≤ℤ side_value h.now span.old.one }
    requires two { side_value h.now span.old.two <ℤ pos 0 }
    ensures { Cuts pair.now h.now span.old span.new true }
{
    if let Some(end) = pair.meeting(h) {
        span.two = end;
    }
}
