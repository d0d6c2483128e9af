//! A guess of the ring of a section, by the usual intersection of half-planes: in the order of the angles of their
//! edges, each half-plane cuts off the ends of the chain so far. If a cell has a ring, the guess is that ring; the
//! caller checks it.
ghost use Rattle.std.specs.Prelude.{◌≤◌, ◌^◌, length};
ghost use Rattle.rp_algebra.specs.Within.{IsWithin};
ghost use Rattle.rp_geometry.specs.sections.Trace.{IsHeight};

use crate::ring::level_plane;
use crate::side::{Side, is_before, sides_of};
use arrayvec::ArrayVec;
use rp_cert::{Edge, RingStep, RingSteps};
use rp_space::{Half, Meeting, Pair};
use std::cmp::Ordering;

/// A side of the chain, and the point in which it meets the side before it. The point of the first side has no meaning.
#[derive(Clone, Copy, Default)]
struct Link {
    side: Side,
    start: Meeting,
}

/// At most 36 sides in the order of the angles of their edges, which take no memory.
type Chain = ArrayVec<Link, 36>;

/// Returns steps that are the ring of `cell` at the height `z`, if it has one. This is not proved: `slice` checks them.
/// A cell without a ring gets some steps or none. `cell` has at most 32 half-spaces.
pub fn quick_ring(cell: &[Half], z: i32) -> RingSteps
    requires height { IsHeight z }
    requires few { length cell.now ≤ 32 }
{
    let level = level_plane(z);
    let mut sides = sides_of(cell, z);
    sides.as_mut_slice().sort_unstable_by(by_angle);
    match steps_round(&level, sides.as_slice()) {
        Some(steps) => steps,
        None => RingSteps::new(),
    }
}

/// Compares `s` and `t` by the angles of their edges; of two with equal angles, the side that is further inside is
/// less.
fn by_angle(s: &Side, t: &Side) -> Ordering {
    if is_before(s, t) {
        return Ordering::Less;
    }
    if is_before(t, s) {
        return Ordering::Greater;
    }
    by_depth(&s.edge, &t.edge)
}

/// Compares `s` and `t`, two edges with the same direction: the edge that is further inside is less.
fn by_depth(s: &Edge, t: &Edge) -> Ordering {
    let first = s.d as i128 * size(t);
    let second = t.d as i128 * size(s);
    first.cmp(&second)
}

/// Returns |a| + |b| of `edge`, within 2^33. For parallel edges it is in the ratio of the lengths of their directions.
fn size(edge: &Edge) -> i128
    ensures { IsWithin (2 ^ 33) result }
{
    edge.a.unsigned_abs() as i128 + edge.b.unsigned_abs() as i128
}

/// Returns steps along those of `sides` that bound the section. `None` if two sides in a row are parallel, as in no
/// ring, or there is no side.
fn steps_round(level: &Half, sides: &[Side]) -> Option<RingSteps> {
    let chain = chain_of(level, sides)?;
    steps_along(level, chain.as_slice())
}

/// Returns those of `sides`, which are in the order of their angles, that bound the section. `None` if two of them in a
/// row are parallel, or there is none.
fn chain_of(level: &Half, sides: &[Side]) -> Option<Chain> {
    let mut chain = Chain::new();
    for i in 0..sides.len() {
        // Of sides with equal angles, the first one is further inside.
        if i == 0 || is_before(&sides[i - 1], &sides[i]) {
            add(&mut chain, level, &sides[i])?;
        }
    }
    close(&mut chain)?;
    Some(chain)
}

/// Appends `side` to the sides of the chain that it does not cut off. `None` if it is parallel to the last side, or
/// there is no room.
fn add(chain: &mut Chain, level: &Half, side: &Side) -> Option<()> {
    drop_last(chain, side);
    drop_first(chain, side);
    let start = match chain.as_slice().last() {
        Some(last) => Pair::new(&last.side.half, &side.half).meeting(level)?,
        None => Meeting::default(),
    };
    chain.try_push(Link { side: *side, start }).ok()
}

/// Drops from both ends of a chain the sides that its other end cuts off. `None` if the chain is empty.
fn close(chain: &mut Chain) -> Option<()> {
    let first = chain.as_slice().first()?.side;
    drop_last(chain, &first);
    let last = chain.as_slice().last()?.side;
    drop_first(chain, &last);
    Some(())
}

/// Drops the last sides of a chain that begin at a point at which `side` is not positive, except the first.
fn drop_last(chain: &mut Chain, side: &Side) {
    for _ in 1..chain.len() {
        if begins_inside(chain.as_slice().last(), side) {
            return;
        }
        chain.pop();
    }
}

/// Drops the first sides of a chain that end at a point at which `side` is not positive, except the last.
fn drop_first(chain: &mut Chain, side: &Side) {
    for _ in 1..chain.len() {
        if begins_inside(chain.as_slice().get(1), side) {
            return;
        }
        chain.pop_at(0);
    }
}

/// Returns whether `link` begins at a point at which `side` is positive; true if there is no link.
fn begins_inside(link: Option<&Link>, side: &Side) -> bool {
    match link {
        Some(link) => link.start.side(&side.half) > 0,
        None => true,
    }
}

/// Returns a step along each side of `chain`, at most 36, to the next one; after the last comes the first. `None` if
/// the chain is empty, or its last and first side are parallel.
fn steps_along(level: &Half, chain: &[Link]) -> Option<RingSteps>
    requires { length chain.now ≤ 36 }
{
    let first = chain.first()?;
    let mut last = first;
    let mut steps = RingSteps::new();
    for next in &chain[1..] {
        steps.push(step(last, &next.start));
        last = next;
    }
    let end = Pair::new(&last.side.half, &first.side.half).meeting(level)?;
    steps.push(step(last, &end));
    Some(steps)
}

/// Returns a step along the side of `link` to `end`.
fn step(link: &Link, end: &Meeting) -> RingStep {
    RingStep {
        edge: link.side.edge,
        end: end.point(),
    }
}
