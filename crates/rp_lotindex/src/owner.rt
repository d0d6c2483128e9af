//! The lot that has a point, found by the boxes of lots.
ghost use Rattle.std.specs.Prelude.{◌≡◌, ◌<◌, ◌/◌, ◌&&◌, true, false, ℕ, Bool, None, pos, ◌<ℤ◌};
ghost use Rattle.rp_algebra.specs.Integer.{floor_of};
ghost use Rattle.rp_algebra.specs.Within.{IsWithin};
ghost use Rattle.rp_geometry.specs.Geometry.{IntegerBox, half_edge, is_cube_point, is_in_range};
ghost use Rattle.rp_geometry.specs.parts.LeastBox.{IsInBox};
ghost use Rattle.rp_space.specs.Boxes.{integer_box};
ghost use Rattle.rp_boxindex.specs.Meeting.{do_meet, first_that, meeting_ids};
ghost use Rattle.rp_lotindex.specs.Indexed.{index_of};
ghost use Rattle.rp_lotindex.specs.Cubes.{in_turns};
ghost use Rattle.rp_lotindex.specs.Owner.{boxes_asked, boxes_past, first_in, lesser_of, is_there_at, IsOwner};
ghost use Rattle.rp_lotindex.specs.Stretches.{stretches_with};

use crate::axis::Axis;
use crate::boxes::{LotBoxes, place_of};
use crate::cube::{LIVE, moved_in, past_number};
use crate::stretch::Stretch;
use crate::there::{is_there, show_line};
use rp_boxindex::{Choice, Index, Steps, Watch};
use rp_history::History;
use rp_lists::Name;
use rp_proximity::Moment;
use rp_space::{IntBox, Point};
use std::marker::Brand;
use std::sync::ledger::{Blank, Ledger};

/// A test of which lots have a point.
pub trait Holder {
    ghost has: { Self → ℕ → Bool };

    /// Returns whether the lot at `place` has the point.
    fn has(&self, place: usize) -> bool
        ensures { result ≡ has self.now place };
}

/// The lots of `layer` that are there at `moment` and have a point.
#[derive(Clone, Copy)]
struct Owners<'a, H: Holder> {
    history: &'a History,
    layer: &'a Name,
    moment: Moment,
    holder: &'a H,
}

impl<H: Holder> Choice for Owners<'_, H> {
    ghost passes = { λ s id. is_there_at s.moment s.layer.now s.history.now (id / 16) && H.has s.holder.now (id / 16) };

    fn passes(&self, id: u32) -> bool {
        let place = place_of(id);
        match self.history.lots().get(place) {
            None => false,
            Some(lot) => {
                is_there(lot, self.moment) && lot.layer == *self.layer && self.holder.has(place)
            }
        }
    }
}

impl LotBoxes {
    /// Returns the id of the first lot of `layer` in `history` that is there at `moment` and has `p`, as `holder` says.
    /// Returns `None` iff there is none. No walk over all lots is made, and no memory taken. `watch` is called at each
    /// visited node, all of them nodes of the index of `layer`.
    pub fn owner<W: Watch, H: Holder>(
        &self,
        watch: &W,
        history: &History,
        layer: &Name,
        moment: Moment,
        p: &Point,
        holder: &H,
    ) -> Option<Name>
        ensures { IsOwner (H.has holder.now) layer.now moment p.now history.now (index_of self.now) result }
    {
        if !p.is_in_cube() {
            return None;
        }
        let owners = Owners {
            history,
            layer,
            moment,
            holder,
        };
        // The line of `moment` is below 2^32.
        show_line(moment);
        let id = self.first(watch, layer, moment, &unit_box(p), &owners)?;
        let place = place_of(id);
        Some(history.lots()[place].id)
    }

    /// Returns the least id that passes the test of `choice`, among the boxes that meet `unit` and whose lots, of
    /// `layer`, may be there at `moment`.
    fn first<W: Watch, C: Choice>(
        &self,
        watch: &W,
        layer: &Name,
        moment: Moment,
        unit: &IntBox,
        choice: &C,
    ) -> Option<u32>
        ensures { result ≡ first_in (C.passes choice.now) (index_of self.now layer.now) (boxes_asked moment (integer_box unit.now)) None }
    {
        match self.index_of(layer) {
            Some(index) => first_at(watch, index, moment, unit, choice),
            None => None,
        }
    }
}

/// Returns the least id that passes the test of `choice`, among the boxes that meet `unit` and whose lots may be there
/// at `moment`.
fn first_at<W: Watch, C: Choice>(
    watch: &W,
    index: &Index,
    moment: Moment,
    unit: &IntBox,
    choice: &C,
) -> Option<u32>
    ensures { result ≡ first_in (C.passes choice.now) index.now (boxes_asked moment (integer_box unit.now)) None }
{
    let live = first_turned(watch, index, LIVE, unit, choice, None);
    match moment {
        Moment::Now => live,
        Moment::After(line) => first_past(watch, index, line, unit, choice, live),
    }
}

/// Returns the lesser of `live` and the least id that passes the test of `choice`, among the boxes that meet `unit` and
/// whose lots ended and lived within a stretch with `line`.
fn first_past<W: Watch, C: Choice>(
    watch: &W,
    index: &Index,
    line: u32,
    unit: &IntBox,
    choice: &C,
    live: Option<u32>,
) -> Option<u32>
    ensures { result ≡ first_in (C.passes choice.now) index.now (boxes_past (integer_box unit.now) (stretches_with line)) live }
{
    let mut first = live;
    let mut mark = line / 2;
    for level in 0..32 {
        let cube = past_number(&Stretch { level, mark });
        first = first_turned(watch, index, cube, unit, choice, first);
        mark /= 2;
    }
    first
}

/// Returns the lesser of `first` and the least id that passes the test of `choice`, among the boxes in the cubes of
/// number `cube` that meet `unit` in any turn.
fn first_turned<W: Watch, C: Choice>(
    watch: &W,
    index: &Index,
    cube: u64,
    unit: &IntBox,
    choice: &C,
    first: Option<u32>,
) -> Option<u32>
    ensures { result ≡ first_in (C.passes choice.now) index.now (in_turns cube (integer_box unit.now)) first }
{
    let x = moved_in(Axis::X, cube, unit);
    let y = moved_in(Axis::Y, cube, unit);
    let z = moved_in(Axis::Z, cube, unit);
    let found = first_that::<_, _, Brand>(watch, index, &x, choice, Blank::new(1));
    let beside = first_that::<_, _, Brand>(watch, index, &y, choice, Blank::new(1));
    let above = first_that::<_, _, Brand>(watch, index, &z, choice, Blank::new(1));
    lesser(lesser(lesser(first, found), beside), above)
}

/// Returns the lesser of two ids; if one is `None`, the other.
fn lesser(first: Option<u32>, second: Option<u32>) -> Option<u32>
    ensures { result ≡ lesser_of first second }
{
    match (first, second) {
        (None, other) => other,
        (Some(id), None) => Some(id),
        (Some(id), Some(other)) => Some(if other < id { other } else { id }),
    }
}

/// Returns the least id that passes the test of `choice` and whose box meets `bounds`. The search counts its steps on
/// its own.
fn first_that<W: Watch, C: Choice, L: Ledger>(
    watch: &W,
    index: &Index,
    bounds: &IntBox,
    choice: &C,
    blank: Blank,
) -> Option<u32>
    requires name { blank.name ≡ L.name }
    requires parts { blank.parts ≡ L.parts }
    requires some { 0 < L.parts }
    ensures { result ≡ first_that (C.passes choice.now) (meeting_ids false (integer_box bounds.now) index.now) }
{
    let mut steps = Steps::<L>::new(blank);
    index.first(bounds, false, choice, watch, &mut steps)
}

/// Returns the box from the coordinates of `p`, a point of the cube, rounded down, to the next whole numbers. Every box
/// that has `p` meets it.
fn unit_box(p: &Point) -> IntBox
    requires { is_cube_point p.now ≡ true }
    ensures { (b : IntegerBox) → IsInBox b p.now → do_meet false (integer_box result) b ≡ true }
{
    let (x, y, z, w) = p.numbers();
    let lo = [floor(x, w), floor(y, w), floor(z, w)];
    let [x, y, z] = lo;
    IntBox {
        lo,
        hi: [x + 1, y + 1, z + 1],
    }
}

/// Returns the coordinate `v / w` of a point of the cube, rounded down.
fn floor(v: i128, w: i128) -> i32
    requires weight { pos 0 <ℤ w }
    requires range { is_in_range v w ≡ true }
    ensures value { result ≡ floor_of v w }
    ensures small { IsWithin half_edge result }
{
    v.div_euclid(w) as i32
}
