//! The search for the first vertex: the first meeting point of three planes of a list, in the order of the triples,
//! at which no half-space of the list is negative.
ghost use Rattle.std.specs.Prelude.{◌≡◌, ◌&&◌, true, IfSome, Some, None};
ghost use Rattle.rp_geometry.specs.Geometry.{all_nonnegative};
ghost use Rattle.rp_geometry.specs.searches.Search.{first_of, first_of_pairs};
ghost use Rattle.rp_geometry.specs.searches.Vertex.{lifts, vertex_at, first_vertex};
ghost use Rattle.rp_vertex.specs.Joined.{HasCube};
ghost use Rattle.rp_vertex.specs.Line.{HoldsVertices};
ghost use Rattle.rp_vertex.specs.Parallel.{is_cut_off};
ghost use Rattle.rp_vertex.specs.Wanted.{are_among, is_wanted, lie_within};

use crate::line::{Line, line_of};
use crate::order::Order;
use crate::parallel::is_cut_off;
use rp_space::{Half, Meeting, Pair, Point};

/// The number of lines of one plane that are tried for the first vertex. If the first vertex is on the plane, it is
/// most often on one of these.
const FEW_LINES: usize = 8;

/// The vertices that a search looks for.
#[derive(Clone, Copy)]
pub(crate) enum Wanted<'a> {
    /// Every vertex.
    Any,
    /// Each vertex at which one of these half-spaces is positive.
    Lifting(&'a [Half]),
}

/// The way of a search.
#[derive(Clone, Copy)]
pub(crate) enum Way {
    /// All triples of planes are tried.
    Plain,
    /// All third planes are tried for each two that may have a wanted vertex.
    Triples,
    /// The third planes are tried that meet the part of the line of the two that the list leaves.
    Lines,
}

/// Returns the first wanted vertex of `system`; `None` iff there is none.
#[tactic(auto, unfolding(rp_geometry::specs::searches::Vertex::first_vertex))]
pub(crate) fn first_vertex(
    way: Way,
    wanted: Wanted,
    system: &[Half],
    order: &mut Order,
) -> Option<Point>
    requires { HasCube system.now }
    ensures { result ≡ first_vertex (is_wanted wanted.entry) system.now }
{
    for i in 0..system.len() {
        let found = first_with_one(way, wanted, system, order, &system[i], &system[i + 1..]);
        if found.is_some() {
            return found;
        }
    }
    None
}

/// Returns the first wanted vertex of `system`, if it is on one of the first few lines of the first plane that may have
/// one. After `None` it is open whether there is one.
#[tactic(auto, unfolding(rp_geometry::specs::searches::Vertex::first_vertex))]
pub(crate) fn vertex_on_few(
    way: Way,
    wanted: Wanted,
    system: &[Half],
    order: &mut Order,
) -> Option<Point>
    requires { HasCube system.now }
    ensures { IfSome result (λ p. first_vertex (is_wanted wanted.entry) system.now ≡ Some p) }
{
    for place in 0..system.len() {
        let f = &system[place];
        let others = &system[place + 1..];
        if !has_none(way, wanted, system, f, others) {
            return first_on_few(way, wanted, system, order, f, others);
        }
    }
    None
}

/// Returns true only if no vertex on the plane of `f` and two planes of `others` is wanted. It tries no line.
fn has_none(way: Way, wanted: Wanted, system: &[Half], f: &Half, others: &[Half]) -> bool
    ensures { result ≡ true → first_of_pairs (vertex_at (is_wanted wanted.entry) system.now f.now) others.now ≡ None }
{
    is_passed_over(way, wanted, f, f) || is_left_out(way, system, f)
}

/// Returns true only if a parallel half-space of `system` is negative on the plane of `f`.
fn is_left_out(way: Way, system: &[Half], f: &Half) -> bool
    ensures { result ≡ true → is_cut_off system.now f.now ≡ true }
{
    match way {
        Way::Plain => false,
        Way::Triples | Way::Lines => is_cut_off(system, f),
    }
}

/// Returns the number of lines of one plane on which a vertex is searched. For the first vertex they are few, since
/// there may be none on the plane; for a further one they are all.
fn most_lines(wanted: Wanted) -> usize {
    match wanted {
        Wanted::Any => FEW_LINES,
        Wanted::Lifting(_) => usize::MAX,
    }
}

/// Returns the first wanted vertex on the plane of `f` and two planes of `others`, if it is on one of the first few
/// lines. After `None` it is open whether there is one.
fn first_on_few(
    way: Way,
    wanted: Wanted,
    system: &[Half],
    order: &mut Order,
    f: &Half,
    others: &[Half],
) -> Option<Point>
    requires { HasCube system.now }
    ensures { IfSome result (λ p. first_of_pairs (vertex_at (is_wanted wanted.entry) system.now f.now) others.now ≡ Some p) }
{
    let most = most_lines(wanted);
    for i in 0..others.len() {
        if i == most {
            return None;
        }
        let found = first_on_both(way, wanted, system, order, f, &others[i], &others[i + 1..]);
        if found.is_some() {
            return found;
        }
    }
    None
}

/// Returns the first wanted vertex on the plane of `f` and two planes of `others`; `None` iff there is none.
fn first_with_one(
    way: Way,
    wanted: Wanted,
    system: &[Half],
    order: &mut Order,
    f: &Half,
    others: &[Half],
) -> Option<Point>
    requires { HasCube system.now }
    ensures { result ≡ first_of_pairs (vertex_at (is_wanted wanted.entry) system.now f.now) others.now }
{
    if has_none(way, wanted, system, f, others) {
        return None;
    }
    for i in 0..others.len() {
        let found = first_on_both(way, wanted, system, order, f, &others[i], &others[i + 1..]);
        if found.is_some() {
            return found;
        }
    }
    None
}

/// Returns the first wanted vertex on the planes of `f` and `g` and a plane of `others`; `None` iff there is none.
fn first_on_both(
    way: Way,
    wanted: Wanted,
    system: &[Half],
    order: &mut Order,
    f: &Half,
    g: &Half,
    others: &[Half],
) -> Option<Point>
    requires { HasCube system.now }
    ensures { result ≡ first_of (vertex_at (is_wanted wanted.entry) system.now f.now g.now) others.now }
{
    if is_passed_over(way, wanted, f, g) {
        return None;
    }
    let pair = Pair::new(f, g);
    let line = line_by(way, system, &pair, order);
    first_with_two(wanted, system, &pair, &line, others)
}

/// Returns true only if no vertex on the planes of `f` and `g` is wanted, as [`lie_within`] finds.
fn is_passed_over(way: Way, wanted: Wanted, f: &Half, g: &Half) -> bool
    ensures { result ≡ true → lie_within wanted.entry f.now g.now ≡ true }
{
    match way {
        Way::Plain => false,
        Way::Triples | Way::Lines => lie_within(wanted, f, g),
    }
}

/// Returns whether every half-space that a wanted vertex may lift is `f` or `g`. Then no vertex on both planes is
/// wanted.
fn lie_within(wanted: Wanted, f: &Half, g: &Half) -> bool
    ensures { result ≡ lie_within wanted.entry f.now g.now }
{
    match wanted {
        Wanted::Any => false,
        Wanted::Lifting(flat) => are_among(flat, f, g),
    }
}

/// Returns whether each of `halves` is `f` or `g`.
fn are_among(halves: &[Half], f: &Half, g: &Half) -> bool
    ensures { result ≡ are_among halves.now f.now g.now }
{
    halves.iter().all(|half| half == f || half == g)
}

/// Returns a bound on the vertices on the line of `pair`, if the `way` of the search uses one.
fn line_by(way: Way, system: &[Half], pair: &Pair, order: &mut Order) -> Line
    requires { HasCube system.now }
    ensures { HoldsVertices system.now pair.now result }
{
    match way {
        Way::Plain | Way::Triples => Line::Unknown,
        Way::Lines => line_of(system, pair, order),
    }
}

/// Returns the first wanted vertex on both planes of `pair` and a plane of `others`; `None` iff there is none. `line`
/// bounds the vertices on the line of `pair`.
fn first_with_two(
    wanted: Wanted,
    system: &[Half],
    pair: &Pair,
    line: &Line,
    others: &[Half],
) -> Option<Point>
    requires { HoldsVertices system.now pair.now line.now }
    ensures { result ≡ first_of (vertex_at (is_wanted wanted.entry) system.now pair.now.first pair.now.second) others.now }
{
    for h in others {
        let found = vertex_on(wanted, system, pair, line, h);
        if found.is_some() {
            return found;
        }
    }
    None
}

/// Returns the wanted vertex on the planes of `pair` and `h`; `None` iff there is none. The planes are intersected only
/// if `line` does not rule it out.
fn vertex_on(wanted: Wanted, system: &[Half], pair: &Pair, line: &Line, h: &Half) -> Option<Point>
    requires { HoldsVertices system.now pair.now line.now }
    ensures { result ≡ vertex_at (is_wanted wanted.entry) system.now pair.now.first pair.now.second h.now }
{
    if line.passes(h) {
        return None;
    }
    vertex_at(wanted, system, pair, h)
}

/// Returns the meeting point of the planes of `pair` and `h`, if it is a wanted vertex. It is tested before it is
/// reduced to lowest terms, since most meeting points fail.
fn vertex_at(wanted: Wanted, system: &[Half], pair: &Pair, h: &Half) -> Option<Point>
    ensures { result ≡ vertex_at (is_wanted wanted.entry) system.now pair.now.first pair.now.second h.now }
{
    let p = pair.meeting(h)?;
    if !passes(wanted, system, &p) {
        return None;
    }
    Some(p.point())
}

/// Returns whether no half-space of `system` is negative at `p`, and `p` is wanted.
fn passes(wanted: Wanted, system: &[Half], p: &Meeting) -> bool
    ensures { result ≡ (all_nonnegative system.now p.now && is_wanted wanted.entry p.now) }
{
    are_nonnegative(system, p) && is_wanted(wanted, p)
}

/// Returns whether no half-space of `system` is negative at `p`.
pub(crate) fn are_nonnegative(system: &[Half], p: &Meeting) -> bool
    ensures { result ≡ all_nonnegative system.now p.now }
{
    system.iter().all(|half| p.side(half) >= 0)
}

/// Returns whether `p` is wanted.
fn is_wanted(wanted: Wanted, p: &Meeting) -> bool
    ensures { result ≡ is_wanted wanted.entry p.now }
{
    match wanted {
        Wanted::Any => true,
        Wanted::Lifting(flat) => is_lifting(flat, p),
    }
}

/// Returns whether one of `flat` is positive at `p`.
fn is_lifting(flat: &[Half], p: &Meeting) -> bool
    ensures { result ≡ lifts flat.now p.now }
{
    flat.iter().any(|half| p.side(half) > 0)
}
