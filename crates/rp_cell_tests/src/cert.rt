use crate::shapes::{half, term};
use rp_cert::{
    Edge, RingStep, RingSteps, Slice, check_inside, check_outside, check_slice, check_weak,
};
use rp_space::{IntBox, Point, box_halves};
use std::process::Abort;

#[test]
fn certificates_are_checked(rt: HostRuntime) {
    let cell = [half(&rt, (1, 0, 0, 0)), half(&rt, (-1, 0, 0, 2))];
    let middle = Point::new(1, 0, 0, 1).expect(&rt, "no point");
    assert!(rt; check_inside(&cell, &[middle]));
    assert!(rt; check_weak(&cell, &middle));
    let apart = [half(&rt, (1, 0, 0, -3)), half(&rt, (-1, 0, 0, 2))];
    let terms = [term(&rt, 1, (1, 0, 0, -3)), term(&rt, 1, (-1, 0, 0, 2))];
    assert!(rt; check_outside(&apart, &terms, false));
}

/// Returns a step of a ring at the height 5: the edge `a`, `b`, `d` and the end `x`, `y`.
fn step(rt: &impl Abort, a: i32, b: i32, d: i64, x: i128, y: i128) -> RingStep {
    let end = Point::new(x, y, 5, 1).expect(rt, "no point");
    RingStep {
        edge: Edge { a, b, d },
        end,
    }
}

#[test]
fn the_ring_of_a_box_is_a_square(rt: HostRuntime) {
    let cell = box_halves(&IntBox {
        lo: [0, 0, 0],
        hi: [10, 10, 10],
    });
    let mut steps = RingSteps::new();
    steps.push(step(&rt, 1, 0, 0, 0, 0));
    steps.push(step(&rt, 0, 1, 0, 10, 0));
    steps.push(step(&rt, -1, 0, 10, 10, 10));
    steps.push(step(&rt, 0, -1, 10, 0, 10));
    assert_eq!(rt; steps.copy().items().len(), 4);
    assert!(rt; check_slice(&cell, 5, &Slice::Ring(steps)));
}
