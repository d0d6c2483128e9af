use crate::boxes::box_region;
use rp_region::{OpFault, Part, Region, Work};
use rp_space::{Corner, Half, IntBox, Point};
use std::alloc::Global;
use std::process::Abort;

/// Shows that a type may be sent to other threads and shared with them.
fn needs_send_sync<T: Send + Sync>() {}

#[test]
fn types_cross_threads() {
    needs_send_sync::<Part>();
    needs_send_sync::<Region>();
    needs_send_sync::<Work>();
    needs_send_sync::<OpFault>();
}

/// Returns the larger of two boxes that overlap, each with a part outside the other.
fn large(rt: &impl Abort, alloc: Global, work: &mut Work) -> Region {
    let bounds = IntBox {
        lo: [0, 0, 0],
        hi: [9, 9, 9],
    };
    box_region(rt, alloc, &bounds, work)
}

/// Returns the smaller of two boxes that overlap, each with a part outside the other.
fn small(rt: &impl Abort, alloc: Global, work: &mut Work) -> Region {
    let bounds = IntBox {
        lo: [5, 5, 5],
        hi: [12, 8, 8],
    };
    box_region(rt, alloc, &bounds, work)
}

/// Returns whether `region` has a point of both boxes, a point of the larger alone, and a point of the smaller alone.
fn has(rt: &impl Abort, region: &Region) -> [bool; 3] {
    let in_both = Point::new(6, 6, 6, 1).expect(rt, "no point");
    let in_large = Point::new(1, 1, 1, 1).expect(rt, "no point");
    let in_small = Point::new(11, 6, 6, 1).expect(rt, "no point");
    [
        region.holds(&in_both),
        region.holds(&in_large),
        region.holds(&in_small),
    ]
}

#[test]
fn two_boxes_have_common_points_and_others(rt: HostRuntime) {
    let alloc = rt.alloc();
    let mut work = Work::new(alloc);
    let large = large(&rt, alloc, &mut work);
    let small = small(&rt, alloc, &mut work);
    let both = large
        .both(alloc, &small, &mut work)
        .expect(&rt, "no region");
    assert_eq!(rt; has(&rt, &both), [true, false, false]);
    let either = large
        .either(alloc, &small, &mut work)
        .expect(&rt, "no region");
    assert_eq!(rt; has(&rt, &either), [true, true, true]);
    let minus = large
        .minus(alloc, &small, &mut work)
        .expect(&rt, "no region");
    assert_eq!(rt; has(&rt, &minus), [false, true, false]);
}

#[test]
fn parts_are_moved(rt: HostRuntime) {
    let alloc = rt.alloc();
    let mut work = Work::new(alloc);
    let large = large(&rt, alloc, &mut work);
    let small = small(&rt, alloc, &mut work);
    let copy = large.copy(alloc).expect(&rt, "no memory");
    let rest = copy
        .into_minus(alloc, &small, &mut work)
        .expect(&rt, "no region");
    assert_eq!(rt; has(&rt, &rest), [false, true, false]);
    let union = large.into_either(small, &mut work).expect(&rt, "no region");
    assert_eq!(rt; has(&rt, &union), [true, true, true]);
}

#[test]
fn first_pairs_are_found(rt: HostRuntime) {
    let alloc = rt.alloc();
    let mut work = Work::new(alloc);
    let large = large(&rt, alloc, &mut work);
    let small = small(&rt, alloc, &mut work);
    let common = large
        .first_common(alloc, &small, true, &mut work)
        .expect(&rt, "no answer");
    assert_eq!(rt; common.expect(&rt, "no common point").items().len(), 4);
    let touch = large
        .first_touch(alloc, &small, true, &mut work)
        .expect(&rt, "no answer");
    assert_eq!(rt; touch.expect(&rt, "no contact").numbers(), (9, 5, 5, 1));
}

#[test]
fn the_whole_cube_has_no_half_spaces(rt: HostRuntime) {
    let all = Region::all(rt.alloc()).expect(&rt, "no memory");
    assert_eq!(rt; all.parts().len(), 1);
    for part in all.parts() {
        assert!(rt; part.halves().is_empty());
        assert_eq!(rt; part.bounds().lo, [-16777216; 3]);
    }
    let outside = all.outside(rt.alloc(), &mut Work::new(rt.alloc()));
    assert!(rt; outside.expect(&rt, "no region").parts().is_empty());
}

#[test]
fn tests_are_counted_with_their_certificates(rt: HostRuntime) {
    let east = Half::new(1, 0, 0, 0).expect(&rt, "no half-space");
    let west = east.not();
    let mut work = Work::new(rt.alloc());
    let found = work
        .strict(rt.alloc(), &[east], &[west])
        .expect(&rt, "no memory");
    assert!(rt; found.is_none());
    let mut later = Work::new(rt.alloc());
    let found = later
        .weak(rt.alloc(), &[east], &[west])
        .expect(&rt, "no memory");
    assert!(rt; found.is_some());
    assert!(rt; work.count(3));
    assert!(rt; work.tests() <= 3);
    assert!(rt; later.tests() <= 4);
    work.append(rt.alloc(), later).expect(&rt, "no memory");
    assert_eq!(rt; work.tests(), 3);
    assert_eq!(rt; work.proofs().len(), 2);
    assert_eq!(rt; work.into_proofs().items().len(), 2);
}

/// A square.
const SQUARE: [Corner; 4] = [
    Corner { x: 0, y: 0 },
    Corner { x: 10, y: 0 },
    Corner { x: 10, y: 10 },
    Corner { x: 0, y: 10 },
];

#[test]
fn a_raised_square_is_one_part(rt: HostRuntime) {
    let mut work = Work::new(rt.alloc());
    let square = Region::of_prism(rt.alloc(), 0, 10, &SQUARE, &mut work).expect(&rt, "no region");
    let [part] = square.parts() else {
        panic!(rt; "not one part");
    };
    assert_eq!(rt; part.halves().len(), 6);
    assert!(rt; work.are_in_contact(part, part).expect(&rt, "no memory"));
}
