ghost use Rattle.std.specs.Prelude.{◌≡◌, ◌≤◌, map, length, true};
ghost use Rattle.rp_space.specs.Boxes.{integer_box};
ghost use Rattle.rp_lotindex.specs.Indexed.{index_of, AreFree};

use crate::history::with_plot;
use crate::names::name;
use rp_boxindex::Quiet;
use rp_history::{Birth, History};
use rp_lists::{Name, Names};
use rp_lotindex::{Bounded, Holder, LotBoxes};
use rp_proximity::{Moment, Reach};
use rp_rows::Access;
use rp_space::{IntBox, Point};
use std::alloc::Global;
use std::process::Abort;

/// Boxes of one form.
#[derive(Drop)]
struct Boxes {
    boxes: [IntBox; 2],
}

impl Bounded for Boxes {
    ghost boxes = { λ s. map integer_box s.boxes };

    fn count(&self) -> usize {
        2
    }

    fn bounds(&self, number: usize) -> IntBox {
        self.boxes[number]
    }
}

/// Returns the box from x, 0, 0 to x + 10, 10, 10.
fn bounds(x: i16) -> IntBox {
    let x = x as i32;
    IntBox {
        lo: [x, 0, 0],
        hi: [x + 10, 10, 10],
    }
}

/// Returns the boxes of two parts, far from each other.
fn plot() -> Boxes {
    Boxes {
        boxes: [bounds(-500), bounds(10)],
    }
}

/// Returns the boxes of one lot of the layer `land` with the boxes of `plot`.
fn boxes_of_plot(rt: &impl Abort, alloc: Global) -> LotBoxes
    ensures { AreFree (index_of result) 1 }
{
    let mut boxes = LotBoxes::new(alloc);
    boxes
        .add(alloc, 0, &name(b"land"), &plot())
        .expect(rt, "no memory");
    boxes
}

/// Returns the number of lots of the layer `land` that touch the box from `x` on or the one from 1,000 on.
fn count_near(rt: &impl Abort, alloc: Global, history: &History, boxes: &LotBoxes, x: i16) -> usize
    requires { AreFree (index_of boxes.now) (length history.now) }
{
    let (layer, id) = (name(b"land"), name(b"other"));
    let form = Boxes {
        boxes: [bounds(x), bounds(1000)],
    };
    let places = boxes.near(alloc, &Quiet, history, &form, &layer, &id, 0, Reach::Touch);
    places.expect(rt, "no memory").items().len()
}

#[test]
fn lots_are_found_by_the_boxes_of_their_parts(rt: HostRuntime) {
    let history = with_plot(&rt, rt.alloc());
    let boxes = boxes_of_plot(&rt, rt.alloc());
    let beside = count_near(&rt, rt.alloc(), &history, &boxes, 20);
    assert_eq!(rt; beside, 1);
    let between = count_near(&rt, rt.alloc(), &history, &boxes, -200);
    assert_eq!(rt; between, 0);
}

/// A holder for which every lot has the point.
struct Everyone;

impl Holder for Everyone {
    ghost has = { λ _ _. true };

    fn has(&self, _place: usize) -> bool {
        true
    }
}

/// Returns whether the box of the one lot of the layer `land` has the point 39/2, 1/2, 1/2 at `moment`.
fn is_owned(rt: &impl Abort, history: &History, boxes: &LotBoxes, moment: Moment) -> bool {
    let layer = name(b"land");
    let p = Point::new(39, 1, 1, 2).expect(rt, "no point");
    let owner = boxes.owner(&Quiet, history, &layer, moment, &p, &Everyone);
    owner == Some(name(b"plot"))
}

#[test]
fn a_lot_that_ends_has_its_points_of_before(rt: HostRuntime) {
    let alloc = rt.alloc();
    let mut history = with_plot(&rt, alloc);
    let mut boxes = boxes_of_plot(&rt, alloc);
    assert!(rt; is_owned(&rt, &history, &boxes, Moment::Now));
    history.end(2, name(b"plot"));
    let lots = history.lots();
    assert_eq!(rt; lots.len(), 1);
    boxes.settle(0, &lots[0], &plot());
    assert!(rt; !is_owned(&rt, &history, &boxes, Moment::Now));
    assert!(rt; is_owned(&rt, &history, &boxes, Moment::After(1)));
    assert!(rt; !is_owned(&rt, &history, &boxes, Moment::After(2)));
    let near = count_near(&rt, alloc, &history, &boxes, 20);
    assert_eq!(rt; near, 0);
}

#[test]
fn boxes_behind_a_place_are_taken_out(rt: HostRuntime) {
    let alloc = rt.alloc();
    let history = with_plot(&rt, alloc);
    let mut boxes = boxes_of_plot(&rt, alloc);
    let birth = Birth {
        id: name(b"plot"),
        layer: name(b"land"),
        origins: Names::new(alloc),
    };
    boxes.remove_all(0, &[birth]);
    let near = count_near(&rt, alloc, &history, &boxes, 20);
    assert_eq!(rt; near, 0);
}

#[test]
fn access_is_told_along_pairs(rt: HostRuntime) {
    let alloc = rt.alloc();
    let first = name(b"a");
    let second = name(b"b");
    let access = Access::along(alloc, &[first, second], &[(0, 1)], &first, &second);
    let access = access.expect(&rt, "no memory");
    let chain = access.chain.as_ref().expect(&rt, "no chain");
    assert_eq!(rt; chain.items(), [first, second].as_slice());
    assert_eq!(rt; access.levels.items(), [(1, first), (0, second)].as_slice());
}
