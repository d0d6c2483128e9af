//! The sides of a section: the half-spaces that bound it, in the order of the angles of their traces.
ghost use Rattle.std.specs.Prelude.{◌≡◌, ◌+◌, ◌<◌, ◌≤◌, ◌&&◌, [], ◌∷◌, ◌++◌, not, length, Some, MatchOption, IfSome};
ghost use Rattle.std.specs.List.{insert, list_any};
ghost use Rattle.arrayvec.specs.ArrayVec.{array_vec_len};
ghost use Rattle.rp_algebra.specs.Integer.{is_zero, is_nonnegative};
ghost use Rattle.rp_geometry.specs.Geometry.{side_value};
ghost use Rattle.rp_geometry.specs.searches.Search.{first_of};
ghost use Rattle.rp_geometry.specs.sections.Trace.{IsHeight, with_sides};
ghost use Rattle.rp_geometry.specs.sections.Ring.{is_angle_before};
ghost use Rattle.rp_section.specs.Sides.{sides_of, are_above, if_above, spot_at, is_other, is_bound, insert_side, add_bound, bounds_of};

use arrayvec::ArrayVec;
use rp_cert::{Edge, is_angle_before, trace_at};
use rp_space::{Half, Meeting, Pair, cube};

/// A half-space with its trace at a height.
#[derive(Clone, Copy, Default)]
pub struct Side {
    pub half: Half,
    pub edge: Edge,
}

/// At most 36 sides, which take no memory: those of a cell of 32 half-spaces and the cube's four vertical ones.
pub type Sides = ArrayVec<Side, 36>;

/// Returns the half-spaces of `cell`, at most 32, and the cube's vertical sides that have a trace at the height `z`,
/// each with its trace.
pub fn sides_of(cell: &[Half], z: i32) -> Sides
    requires height { IsHeight z }
    requires few { length cell.now ≤ 32 }
    ensures { result.items ≡ sides_of z (with_sides cell.now) }
{
    let mut sides = Sides::new();
    extend(&mut sides, cell, z);
    extend(&mut sides, &cube()[..4], z);
    sides
}

/// Appends those of `halves` that have a trace at the height `z`. `sides` has room for them.
fn extend(sides: &mut Sides, halves: &[Half], z: i32)
    requires height { IsHeight z }
    requires room { array_vec_len sides.old + length halves.now ≤ 36 }
    ensures items { sides.new.items ≡ sides.old.items ++ sides_of z halves.now }
    ensures few { array_vec_len sides.new ≤ array_vec_len sides.old + length halves.now }
{
    for half in halves {
        push(sides, half, z);
    }
}

/// Appends `half`, if it has a trace at the height `z`. `sides` has room for it.
fn push(sides: &mut Sides, half: &Half, z: i32)
    requires height { IsHeight z }
    requires room { array_vec_len sides.old < 36 }
    ensures items { sides.new.items ≡ sides.old.items ++ sides_of z (half.now ∷ []) }
    ensures few { array_vec_len sides.new ≤ array_vec_len sides.old + 1 }
{
    if let Some(edge) = trace_at(half, z) {
        sides.push(Side { half: *half, edge });
    }
}

/// Returns those of `sides`, at most 36, that bound the section on the horizontal plane of `level`, in the order of the
/// angles of their edges.
pub fn bounds_of(level: &Half, sides: &[Side]) -> Sides
    requires { length sides.now ≤ 36 }
    ensures { result.items ≡ bounds_of level.now sides.now sides.now }
{
    let mut bounds = Sides::new();
    for behind in 0..sides.len() {
        let side = sides[sides.len() - 1 - behind];
        add_bound(&mut bounds, level, sides, side);
    }
    bounds
}

/// Inserts `side` into `bounds`, which has room for it, if it bounds the section.
fn add_bound(bounds: &mut Sides, level: &Half, sides: &[Side], side: Side)
    requires { array_vec_len bounds.old < 36 }
    ensures items { bounds.new.items ≡ add_bound level.now sides.now side bounds.old.items }
    ensures few { array_vec_len bounds.new ≤ array_vec_len bounds.old + 1 }
{
    if is_bound(level, sides, &side) {
        insert(bounds, side);
    }
}

/// Returns whether `f` bounds the section: it meets other sides in two different points at which no side is negative.
fn is_bound(level: &Half, sides: &[Side], f: &Side) -> bool
    ensures { result ≡ is_bound level.now sides.now f.now }
{
    match first_spot(level, sides, f) {
        None => false,
        Some(p) => has_other(level, sides, f, &p),
    }
}

/// Returns the first point in which `f` meets one of `sides` and at which no side is negative.
fn first_spot(level: &Half, sides: &[Side], f: &Side) -> Option<Meeting>
    ensures { result ≡ first_of (spot_at level.now sides.now f.now) sides.now }
{
    for g in sides {
        if let Some(p) = spot(level, sides, f, g) {
            return Some(p);
        }
    }
    None
}

/// Returns whether `f` meets one of `sides` in a point other than `p` at which no side is negative.
fn has_other(level: &Half, sides: &[Side], f: &Side, p: &Meeting) -> bool
    ensures { result ≡ list_any (is_other level.now sides.now f.now p.now) sides.now }
{
    sides.iter().any(|g| is_other(level, sides, f, p, g))
}

/// Returns whether `f` and `g` meet in a point other than `p` at which no side is negative: `g` does not pass through
/// `p`.
fn is_other(level: &Half, sides: &[Side], f: &Side, p: &Meeting, g: &Side) -> bool
    ensures { result ≡ is_other level.now sides.now f.now p.now g.now }
{
    is_off(g, p) && spot(level, sides, f, g).is_some()
}

/// Returns whether `side` is not 0 at `p`.
fn is_off(side: &Side, p: &Meeting) -> bool
    ensures { result ≡ not (is_zero (side_value side.now.half p.now)) }
{
    p.side(&side.half) != 0
}

/// Returns the point in which `f` and `g` meet, if no side is negative there.
fn spot(level: &Half, sides: &[Side], f: &Side, g: &Side) -> Option<Meeting>
    ensures { result ≡ spot_at level.now sides.now f.now g.now }
{
    match Pair::new(&f.half, &g.half).meeting(level) {
        None => None,
        Some(p) => if_above(sides, p),
    }
}

/// Returns `p`, if no side is negative there.
fn if_above(sides: &[Side], p: Meeting) -> Option<Meeting>
    ensures { result ≡ if_above sides.now (Some p) }
{
    if are_above(sides, &p) { Some(p) } else { None }
}

/// Returns whether none of `sides` is negative at `p`.
fn are_above(sides: &[Side], p: &Meeting) -> bool
    ensures { result ≡ are_above sides.now p.now }
{
    sides.iter().all(|side| is_above(side, p))
}

/// Returns whether `side` is not negative at `p`.
fn is_above(side: &Side, p: &Meeting) -> bool
    ensures { result ≡ is_nonnegative (side_value side.now.half p.now) }
{
    p.side(&side.half) >= 0
}

/// Inserts `side` in the order of the angles of the edges, if no side with an equal angle is there. `sides` has room
/// for it.
fn insert(sides: &mut Sides, side: Side)
    requires { array_vec_len sides.old < 36 }
    ensures items { sides.new.items ≡ insert_side side sides.old.items }
    ensures few { array_vec_len sides.new ≤ array_vec_len sides.old + 1 }
{
    if let Some(place) = place_for(&side, sides.as_slice()) {
        sides.insert(place, side);
    }
}

/// Returns the place of `side` in `sides` by the angle of its edge; `None` if a side with an equal angle is there.
fn place_for(side: &Side, sides: &[Side]) -> Option<usize>
    ensures value { MatchOption result (insert_side side.now sides.now ≡ sides.now) (λ place. insert_side side.now sides.now ≡ insert sides.now place side.now) }
    ensures bound { IfSome result (λ place. place ≤ length sides.now) }
{
    for place in 0..sides.len() {
        if is_before(side, &sides[place]) {
            return Some(place);
        }
        if !is_before(&sides[place], side) {
            return None;
        }
    }
    Some(sides.len())
}

/// Returns whether the edge of `s` has a smaller angle than that of `t`.
pub fn is_before(s: &Side, t: &Side) -> bool
    ensures { result ≡ is_angle_before s.now.edge t.now.edge }
{
    is_angle_before(&s.edge, &t.edge)
}
