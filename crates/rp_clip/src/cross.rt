//! The points at which a further half-space's plane crosses the edges of a cell.
ghost use Rattle.std.specs.Prelude.{◌≡◌, ◌≤◌, ◌<◌, ℕ, [], length, map};
ghost use Rattle.rp_geometry.specs.Geometry.{reduced_point};
ghost use Rattle.rp_clip.specs.Crossings.{HasSides, IsAbove, AreAllBelow, IsBelow, IsBetween, IsCrossed, IsCrossedFrom, IsCrossedAbove, IsCrossedAll, IsKeptTable, IsRefilled, with_one};
ghost use Rattle.rp_clip.specs.Sides.{side_of, is_not_below, is_below, with_kept, kept_planes};
ghost use Rattle.rp_clip.specs.Tables.{IsTable};
ghost use Rattle.rp_clip.specs.declared.cross.Side.TheVariants.{Above};
ghost use Rattle.std.specs.List.{Contains};

use crate::meet::first_meeting;
use crate::planes::Planes;
use crate::table::Table;
use arrayvec::ArrayVec;
use rp_space::{Half, Meeting, has_two};

/// The side of a plane on which a point is.
#[derive(Clone, Copy)]
pub(crate) enum Side {
    /// The half-space is positive there.
    Above,
    /// The half-space is 0 there.
    On,
    /// The half-space is negative there.
    Below,
}

impl Default for Side {
    /// Returns `Side::On`.
    fn default() -> Side {
        Side::On
    }
}

/// Room for notes about a table while a half-space is added: the side of its plane on which each point is, and the
/// planes through the points below it. It is made once and then cleared, since a new one is filled with zeros.
#[derive(Drop)]
pub(crate) struct Notes<const MOST: usize> {
    sides: ArrayVec<Side, MOST>,
    below: ArrayVec<u128, MOST>,
}

impl<const MOST: usize> Notes<MOST> {
    /// Returns notes without content.
    pub(crate) fn new() -> Notes<MOST> {
        Notes {
            sides: ArrayVec::new(),
            below: ArrayVec::new(),
        }
    }
}

/// Fills `more` with the vertices that a cell of fewer than 64 half-spaces has with `h`: its vertices that are not
/// below the plane of `h`, and then the points at which edges cross the plane. Returns false if `more` has no room.
pub(crate) fn cross_over<const MOST: usize>(
    planes: &Planes,
    h: &Half,
    table: &Table<MOST>,
    notes: &mut Notes<MOST>,
    more: &mut Table<MOST>,
) -> bool
    requires table { IsTable MOST planes.now table.now }
    requires room { length planes.now < 64 }
    ensures { IsRefilled MOST planes.now h.now table.now more.new result }
{
    note_sides(h, table.corners(), &mut notes.sides);
    let sides = notes.sides.as_slice();
    split(planes, h, table, sides, more, &mut notes.below);
    cross_all(planes, h, table, sides, notes.below.as_slice(), more)
}

/// Returns the side of the plane of `h` on which `p` is.
fn side_of(h: &Half, p: &Meeting) -> Side
    ensures { result ≡ side_of h.now (reduced_point p.now) }
{
    // The call makes it known that the weight is positive.
    let _ = p.numbers();
    let value = p.side(h);
    if value > 0 {
        return Side::Above;
    }
    if value == 0 {
        return Side::On;
    }
    Side::Below
}

/// Writes to `sides` the side of the plane of `h` on which each of `corners` is.
fn note_sides<const MOST: usize>(h: &Half, corners: &[Meeting], sides: &mut ArrayVec<Side, MOST>)
    requires { length corners.now ≤ MOST }
    ensures { sides.new.items ≡ map (side_of h.now) (map reduced_point corners.now) }
{
    sides.clear();
    for corner in corners {
        sides.push(side_of(h, corner));
    }
}

/// Fills `kept` with the points of `table` that are not below the plane of `h`, those on it with the new place. Fills
/// `below` with the sets of places of the points below the plane.
fn split<const MOST: usize>(
    planes: &Planes,
    h: &Half,
    table: &Table<MOST>,
    sides: &[Side],
    kept: &mut Table<MOST>,
    below: &mut ArrayVec<u128, MOST>,
)
    requires { HasSides MOST planes.now h.now table.now sides.now }
    ensures kept { IsKeptTable MOST planes.now h.now table.now kept.new }
    ensures below { AreAllBelow planes.now h.now table.now below.new.items }
{
    let place = 1 << planes.len();
    let corners = table.corners();
    let sets = table.planes();
    kept.clear();
    below.clear();
    for i in 0..sides.len() {
        split_one(sides[i], corners[i], sets[i], place, kept, below);
    }
}

/// Appends a point that is not below the plane to `kept`, with the new `place` if it is on it. If the point is below
/// the plane, appends the places `planes` to `below`.
fn split_one<const MOST: usize>(
    side: Side,
    corner: Meeting,
    planes: u128,
    place: u128,
    kept: &mut Table<MOST>,
    below: &mut ArrayVec<u128, MOST>,
)
    requires room { length kept.old.points < MOST }
    requires room_below { length below.old.items < MOST }
    ensures points { kept.new.points ≡ with_kept (is_not_below side) kept.old.points (reduced_point corner) }
    ensures planes { kept.new.planes ≡ with_kept (is_not_below side) kept.old.planes (kept_planes side planes place) }
    ensures below { below.new.items ≡ with_kept (is_below side) below.old.items planes }
{
    match side {
        Side::Above => kept.push(corner, planes),
        Side::On => kept.push(corner, planes | place),
        Side::Below => below.push(planes),
    }
}

/// Adds to `more` the points at which edges cross the plane of `h`. Returns false if there are too many.
fn cross_all<const MOST: usize>(
    planes: &Planes,
    h: &Half,
    table: &Table<MOST>,
    sides: &[Side],
    below: &[u128],
    more: &mut Table<MOST>,
) -> bool
    requires sides { HasSides MOST planes.now h.now table.now sides.now }
    requires below { AreAllBelow planes.now h.now table.now below.now }
    requires more { IsTable MOST (with_one planes.now h.now) more.old }
    ensures { IsCrossedAll MOST planes.now h.now table.now.points more.old more.new result }
{
    let sets = table.planes();
    for i in 0..sides.len() {
        if !cross_above(planes, h, sides[i], sets[i], below, more) {
            return false;
        }
    }
    true
}

/// Adds to `more` the points at which the edges from one vertex cross the plane of `h`, if the vertex is above it.
fn cross_above<const MOST: usize>(
    planes: &Planes,
    h: &Half,
    side: Side,
    set: u128,
    below: &[u128],
    more: &mut Table<MOST>,
) -> bool
    requires room { length planes.now < 64 }
    requires above { side ≡ Above → IsAbove planes.now h.now set }
    requires below { (low : ℕ) → Contains below.now low → IsBelow planes.now h.now low }
    requires more { IsTable MOST (with_one planes.now h.now) more.old }
    ensures { IsCrossedAbove MOST planes.now h.now below.now side set more.old more.new result }
{
    if side != Side::Above {
        return true;
    }
    cross_from(planes, h, set, below, more)
}

/// Adds to `more` the points at which the edges from one vertex above the plane of `h` cross this plane.
fn cross_from<const MOST: usize>(
    planes: &Planes,
    h: &Half,
    set: u128,
    below: &[u128],
    more: &mut Table<MOST>,
) -> bool
    requires room { length planes.now < 64 }
    requires above { IsAbove planes.now h.now set }
    requires below { (low : ℕ) → Contains below.now low → IsBelow planes.now h.now low }
    requires more { IsTable MOST (with_one planes.now h.now) more.old }
    ensures { IsCrossedFrom MOST planes.now h.now below.now set more.old more.new result }
{
    for low in below {
        if !cross(planes, h, set & *low, more) {
            return false;
        }
    }
    true
}

/// Adds to `more` the point at which the line of the planes at the places `common` crosses the plane of `h`, if these
/// have a line.
fn cross<const MOST: usize>(planes: &Planes, h: &Half, common: u128, more: &mut Table<MOST>) -> bool
    requires between { IsBetween planes.now h.now common }
    requires more { IsTable MOST (with_one planes.now h.now) more.old }
    ensures { IsCrossed MOST planes.now h.now common more.old more.new result }
{
    // Most pairs of vertices have no edge: a line needs two planes.
    if !has_two(common) {
        return true;
    }
    match first_meeting(planes, common, 0, h) {
        None => true,
        Some(met) => more.put(met.at, common | 1 << planes.len()),
    }
}
