use crate::shapes::{half, tetrahedron};
use rp_space::{Half, IntBox, joined};
use rp_vertex::{
    box_of_vertices, first_inside, first_inside_over_triples, first_weak, inside_on_few_lines,
    weak_on_few_lines,
};
use std::process::Abort;

#[test]
fn a_tetrahedron_has_its_four_corners(rt: HostRuntime) {
    let cell = tetrahedron(&rt);
    let inside = first_inside(&cell).expect(&rt, "no certificate");
    let points = inside.items();
    assert_eq!(rt; points.len(), 4);
    assert_eq!(rt; points[0].numbers(), (0, 0, 0, 1));
    assert_eq!(rt; points[1].numbers(), (0, 0, 7, 5));
    assert_eq!(rt; points[2].numbers(), (0, 7, 0, 3));
    assert_eq!(rt; points[3].numbers(), (7, 0, 0, 2));
    assert!(rt; first_inside_over_triples(&cell).is_some());
    assert!(rt; inside_on_few_lines(&cell).is_some());
    assert!(rt; weak_on_few_lines(&cell).is_some());
    let weak = first_weak(&cell).expect(&rt, "no weak point");
    assert_eq!(rt; weak.numbers(), (0, 0, 0, 1));
    let bounds = IntBox {
        lo: [0, 0, 0],
        hi: [4, 3, 2],
    };
    assert_eq!(rt; box_of_vertices(&cell), bounds);
}

#[test]
fn a_first_point_on_four_planes_is_found_on_a_few_lines(rt: HostRuntime) {
    let cell = [
        half(&rt, (1, 0, 0, 0)),
        half(&rt, (0, 1, 0, 0)),
        half(&rt, (0, 0, 1, 0)),
        half(&rt, (1, 1, 1, 0)),
        half(&rt, (-2, -3, -5, 7)),
    ];
    let inside = inside_on_few_lines(&cell).expect(&rt, "no certificate");
    let points = inside.items();
    assert_eq!(rt; points.len(), 4);
    assert_eq!(rt; points[0].numbers(), (0, 0, 0, 1));
    assert_eq!(rt; points[2].numbers(), (0, 7, 0, 3));
}

/// Returns the six sides of the box from `lo` to `hi`.
fn box_sides(rt: &impl Abort, lo: [i32; 3], hi: [i32; 3]) -> [Half; 6] {
    [
        half(rt, (1, 0, 0, -(lo[0] as i64))),
        half(rt, (-1, 0, 0, hi[0] as i64)),
        half(rt, (0, 1, 0, -(lo[1] as i64))),
        half(rt, (0, -1, 0, hi[1] as i64)),
        half(rt, (0, 0, 1, -(lo[2] as i64))),
        half(rt, (0, 0, -1, hi[2] as i64)),
    ]
}

#[test]
fn boxes_side_by_side_touch_beyond_planes_that_are_cut_off(rt: HostRuntime) {
    let near = box_sides(&rt, [0, 0, 0], [4, 4, 2]);
    // Next to it on x, on y and at an edge, on top of it, and in it.
    let cases = [
        ([4, -1, 0], [9, 3, 2], (4, 0, 0, 1)),
        ([0, 4, 0], [4, 9, 2], (0, 4, 0, 1)),
        ([4, 4, 1], [9, 9, 3], (4, 4, 2, 1)),
        ([1, -2, 2], [3, 9, 5], (1, 0, 2, 1)),
        ([1, 1, 1], [3, 3, 2], (1, 1, 2, 1)),
    ];
    for (lo, hi, corner) in cases {
        let both = joined(&near, &box_sides(&rt, lo, hi));
        let soon = weak_on_few_lines(both.as_slice()).expect(&rt, "not soon");
        assert_eq!(rt; soon.numbers(), corner);
    }
}
