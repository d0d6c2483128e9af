use rp_footprint::{prism_holds, trapezoid};
use rp_space::{Corner, Point};

/// A polygon that crosses itself: two triangles that meet in (5, 5).
const CROSSED: [Corner; 4] = [
    Corner { x: 0, y: 0 },
    Corner { x: 10, y: 10 },
    Corner { x: 10, y: 0 },
    Corner { x: 0, y: 10 },
];

#[test]
fn a_crossed_polygon_has_points_and_trapezoids(rt: HostRuntime) {
    let point = Point::new(2, 5, 5, 1).expect(&rt, "no point");
    assert!(rt; prism_holds(0, 10, &CROSSED, &point));
    let cell = trapezoid(0, 10, &CROSSED, 0).expect(&rt, "no cell");
    let numbers = [
        (1, 0, 0, 0),
        (-1, 0, 0, 10),
        (0, 1, 0, 0),
        (1, -1, 0, 0),
        (0, 0, 1, 0),
        (0, 0, -1, 10),
    ];
    for (half, expected) in cell.iter().zip(numbers.iter()) {
        assert!(rt; half.numbers() == *expected);
    }
}
