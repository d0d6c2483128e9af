ghost use Rattle.std.specs.Prelude.{◌≡◌, ◌≤◌, true, length, IfOk};
ghost use Rattle.rp_geometry.specs.Geometry.{is_box_in_bounds};
ghost use Rattle.rp_geometry.specs.sections.Trace.{IsHeight};
ghost use Rattle.rp_space.specs.Boxes.{integer_box};
ghost use Rattle.rp_reports.specs.Output.{most_report_bytes};

use rp_oracle::Stopped;
use rp_space::{Corner, Half, Halves, IntBox, box_halves};
use rp_trail::{
    Form, Kept, Trail, common, copy, differed, joined, made, prismed, slices, touching,
};
use std::alloc::Global;
use std::process::Abort;

/// A box from 0 to 10 on each axis.
const WEST: IntBox = IntBox {
    lo: [0, 0, 0],
    hi: [10, 10, 10],
};

/// A box that shares points with `WEST`.
const MIDDLE: IntBox = IntBox {
    lo: [4, 2, 2],
    hi: [12, 8, 8],
};

/// Shows that a type may be sent to other threads and shared with them.
fn needs_send_sync<T: Send + Sync>() {}

#[test]
fn types_cross_threads() {
    needs_send_sync::<Kept>();
    needs_send_sync::<Form>();
    needs_send_sync::<Trail<'static>>();
}

#[test]
fn a_trail_gives_the_lines_in_order(rt: HostRuntime) {
    let mut trail = Trail::new(b"first\n\nthird\r\nlast");
    let lines: [(u32, &[u8]); 4] = [(1, b"first"), (2, b""), (3, b"third\r"), (4, b"last")];
    for (number, line) in lines {
        assert_eq!(rt; trail.number(), number);
        assert_eq!(rt; trail.peek(), Some(line));
        trail.take();
    }
    assert_eq!(rt; trail.number(), 5);
    assert_eq!(rt; trail.peek(), None);
}

#[test]
fn a_trail_counts_tests_up_to_the_limit(rt: HostRuntime) {
    let mut trail = Trail::new(b"= refused limit\n");
    assert!(rt; trail.tells_limit());
    assert!(rt; trail.count(65536));
    trail.begin();
    assert!(rt; trail.count(65536));
}

#[test]
fn a_test_takes_a_line_that_passes(rt: HostRuntime) {
    let mut trail = Trail::new(b"  in (6 6 6 1)\n  at (10 3 3 1)\n");
    let found = trail.strict(&box_halves(&WEST), &box_halves(&MIDDLE));
    assert_eq!(rt; found, Ok(true));
    let found = trail.weak(&box_halves(&WEST), &box_halves(&MIDDLE));
    assert_eq!(rt; found, Ok(true));
    assert_eq!(rt; trail.number(), 3);
}

/// Returns the half-spaces of `WEST` and one that adds nothing.
fn loose_box(rt: &impl Abort, alloc: Global) -> Halves
    ensures { length result.items ≤ 64 }
{
    let mut halves = Halves::copy_of(alloc, &box_halves(&WEST)).expect(rt, "no memory");
    halves
        .push(Half::new(1, 0, 0, 1).expect(rt, "no half-space"))
        .expect(rt, "no memory");
    halves
}

/// Follows a part test of a box with one half-space that adds nothing.
fn loose_part(rt: &impl Abort, alloc: Global, report: &[u8]) -> (Option<Kept>, u32)
    requires { length report.now ≤ most_report_bytes }
{
    let mut trail = Trail::new(report);
    let halves = loose_box(rt, alloc);
    let part = made(alloc, halves.items(), &mut trail).expect(rt, "a part test stops");
    (part, trail.number())
}

#[test]
fn a_part_test_drops_what_adds_nothing(rt: HostRuntime) {
    let report =
        b"  in (1 1 1 1)\n  drop (1 0 0 1) 1*(1 0 0 0) 1*(-1 0 0 -1)\n  box 0 0 0 10 10 10\n";
    let (part, number) = loose_part(&rt, rt.alloc(), report);
    let part = part.expect(&rt, "no part");
    assert_eq!(rt; number, 4);
    assert_eq!(rt; part.halves.items(), box_halves(&WEST).as_slice());
    assert_eq!(rt; part.copy(rt.alloc()).expect(&rt, "no memory").bounds, WEST);
}

/// Returns the form of a box, by a part test.
fn box_form(rt: &impl Abort, alloc: Global, bounds: &IntBox, trail: &mut Trail<'_>) -> Form
    requires { is_box_in_bounds (integer_box bounds.now) ≡ true }
{
    let mut form = Form::new(alloc);
    let part = made(alloc, &box_halves(bounds), trail).expect(rt, "a part test stops");
    if let Some(part) = part {
        form.push(part).expect(rt, "no memory");
    }
    form
}

/// Returns the forms of `WEST` and of `second`.
fn two_boxes(rt: &impl Abort, alloc: Global, second: &IntBox, trail: &mut Trail<'_>) -> (Form, Form)
    requires { is_box_in_bounds (integer_box second.now) ≡ true }
{
    let west = box_form(rt, alloc, &WEST, trail);
    let second = box_form(rt, alloc, second, trail);
    (west, second)
}

#[test]
fn a_join_has_the_common_part(rt: HostRuntime) {
    let mut trail = Trail::new(
        b"  in (1 1 1 1)\n  box 0 0 0 10 10 10\n  in (6 6 6 1)\n  box 4 2 2 12 8 8\n  in (6 6 6 1)\n  box 4 2 2 10 8 8\n",
    );
    let (west, middle) = two_boxes(&rt, rt.alloc(), &MIDDLE, &mut trail);
    let both = joined(rt.alloc(), &west, &middle, &mut trail).expect(&rt, "a test stops");
    assert_eq!(rt; trail.number(), 7);
    let [part] = both.items() else {
        panic!(rt; "not one part");
    };
    assert_eq!(rt; part.halves.items().len(), 12);
    assert_eq!(rt; part.bounds.hi, [10, 8, 8]);
    assert_eq!(rt;
        copy(rt.alloc(), &both)
            .expect(&rt, "no memory")
            .items()
            .len(),
        1
    );
}

#[test]
fn a_difference_is_carved(rt: HostRuntime) {
    let mut trail = Trail::new(
        b"  in (1 1 1 1)\n  box 0 0 0 10 10 10\n  in (1 1 1 1)\n  box 0 0 0 4 10 10\n  in (1 1 1 1)\n  out 1*(1 0 0 0) 1*(-1 0 0 0)\n  in (5 5 5 1)\n  box 4 0 0 10 10 10\n  out 1*(0 1 0 0) 1*(0 -1 0 0)\n  out 1*(0 -1 0 10) 1*(0 1 0 -10)\n  out 1*(0 0 1 0) 1*(0 0 -1 0)\n  out 1*(0 0 -1 10) 1*(0 0 1 -10)\n",
    );
    let second = IntBox {
        lo: [0, 0, 0],
        hi: [4, 10, 10],
    };
    let (west, second) = two_boxes(&rt, rt.alloc(), &second, &mut trail);
    let rest = differed(rt.alloc(), &west, &second, &mut trail).expect(&rt, "a test stops");
    assert_eq!(rt; trail.number(), 13);
    let [part] = rest.items() else {
        panic!(rt; "not one part");
    };
    assert_eq!(rt; part.halves.items().len(), 8);
    assert_eq!(rt; part.bounds.lo, [4, 0, 0]);
}

#[test]
fn boxes_with_a_common_part_meet(rt: HostRuntime) {
    let mut trail = Trail::new(
        b"  in (1 1 1 1)\n  box 0 0 0 10 10 10\n  in (6 6 6 1)\n  box 4 2 2 12 8 8\n  in (6 6 6 1)\n  at (10 2 2 1)\n  in (9 3 3 1)\n  at (6 6 6 1)\n",
    );
    let (west, middle) = two_boxes(&rt, rt.alloc(), &MIDDLE, &mut trail);
    for near in [false, true] {
        assert!(rt; common(&west, &middle, near, &mut trail).expect(&rt, "a test stops"));
        assert!(rt; touching(&west, &middle, near, &mut trail).expect(&rt, "a test stops"));
    }
    assert_eq!(rt; trail.number(), 9);
}

/// A square.
const SQUARE: [Corner; 4] = [
    Corner { x: 0, y: 0 },
    Corner { x: 10, y: 0 },
    Corner { x: 10, y: 10 },
    Corner { x: 0, y: 10 },
];

/// Returns the form of the square, raised from 0 to 10, and the number of the next line after it.
fn raised_square(alloc: Global, report: &[u8]) -> (Result<Form, Stopped>, u32)
    requires { length report.now ≤ most_report_bytes }
{
    let mut trail = Trail::new(report);
    let form = prismed(alloc, 0, 10, &SQUARE, &mut trail);
    (form, trail.number())
}

#[test]
fn a_raised_square_is_one_part(rt: HostRuntime) {
    let (form, number) = raised_square(
        rt.alloc(),
        b"  out 1*(0 1 0 0) 1*(0 -1 0 0)\n  in (1 1 1 1)\n  box 0 0 0 10 10 10\n",
    );
    assert_eq!(rt; number, 4);
    let form = form.expect(&rt, "no form");
    let [part] = form.items() else {
        panic!(rt; "not one part");
    };
    assert_eq!(rt; part.halves.items(), box_halves(&WEST).as_slice());
}

/// Follows the slices of the first box and of the one in its middle at a height, on the lines behind those of their
/// part tests: how many there are, and the number of the next line then.
fn slices_of_two(
    rt: &impl Abort,
    alloc: Global,
    z: i32,
    report: &[u8],
) -> (Result<usize, Stopped>, u32)
    requires height { IsHeight z }
    requires short { length report.now ≤ most_report_bytes }
{
    let mut trail = Trail::new(report);
    let (mut form, middle) = two_boxes(rt, alloc, &MIDDLE, &mut trail);
    form.append(middle).expect(rt, "no memory");
    let mut ahead = trail.ahead();
    let found = slices(alloc, &form, z, &mut ahead).map(|slices| slices.items().len());
    (found, ahead.number())
}

#[test]
fn slices_are_taken_where_they_pass(rt: HostRuntime) {
    let rings =
        b"  in (1 1 1 1)\n  box 0 0 0 10 10 10\n  in (6 6 6 1)\n  box 4 2 2 12 8 8\n= ring (1 0 0) (0 0 5 1) (0 1 0) (10 0 5 1) (-1 0 10) (10 10 5 1) (0 -1 10) (0 10 5 1)\n= ring (1 0 -4) (4 2 5 1) (0 1 -2) (12 2 5 1) (-1 0 12) (12 8 5 1) (0 -1 8) (4 8 5 1)\n";
    assert_eq!(rt; slices_of_two(&rt, rt.alloc(), 5, rings), (Ok(2), 7));
}
