ghost use Rattle.std.specs.Prelude.{◌≤◌, length};

use arrayvec::ArrayVec;
use rp_cert::{Edge, RingStep, Slice};
use rp_section::{quick_ring, slice};
use rp_space::{Half, Point};
use std::process::Abort;

/// The numbers of a half-space.
type Row = (i64, i64, i64, i64);

/// A cell of at most 32 half-spaces.
type Cell = ArrayVec<Half, 32>;

/// The sides of a square.
const SQUARE: [Row; 4] = [(1, 0, 0, 5), (0, 1, 0, 5), (-1, 0, 0, 5), (0, -1, 0, 5)];

/// The sides of a triangle, with redundant sides outside it, through its corners and along its edges.
const TRIANGLE: [Row; 10] = [
    (2, 1, 0, 9),
    (1, 0, 0, 0),
    (1, 1, 0, 0),
    (3, -1, 0, 5),
    (0, 1, 0, 0),
    (-1, 5, 0, 4),
    (-1, -1, 0, 4),
    (-2, -2, 0, 11),
    (-3, -1, 0, 12),
    (-1, -2, 0, 9),
];

/// Six sides, each of which cuts off a corner of the others.
const HEXAGON: [Row; 6] = [
    (1, 0, 0, 8),
    (1, 1, 0, 9),
    (0, 1, 0, 8),
    (-1, 1, 0, 9),
    (-1, 0, 0, 8),
    (1, -1, 0, 9),
];

/// A quarter of a round cell: the vertical planes touch a circle, the others lean a little.
const QUARTER: [Row; 8] = [
    (998, 69, 1, 1000383),
    (965, 262, -2, 999935),
    (895, 445, 3, 999525),
    (791, 611, -4, 999501),
    (657, 754, 5, 1000083),
    (497, 868, -6, 1000217),
    (318, 948, 7, 999914),
    (127, 992, -8, 1000097),
];

/// Returns a step of a ring with the edge `edge` and the end `end`.
fn step(rt: &impl Abort, edge: (i32, i32, i64), end: (i128, i128, i128, i128)) -> RingStep {
    let (a, b, d) = edge;
    let (x, y, z, w) = end;
    let end = Point::new(x, y, z, w).expect(rt, "no point");
    RingStep {
        edge: Edge { a, b, d },
        end,
    }
}

#[test]
fn a_tetrahedron_leaves_a_triangle(rt: HostRuntime) {
    let cell = [
        Half::new(1, 0, 0, 0).expect(&rt, "no half-space"),
        Half::new(0, 1, 0, 0).expect(&rt, "no half-space"),
        Half::new(0, 0, 1, 0).expect(&rt, "no half-space"),
        Half::new(-2, -3, -5, 7).expect(&rt, "no half-space"),
    ];
    let Slice::Ring(steps) = slice(&cell, 1) else {
        panic!(rt; "no ring");
    };
    let wanted = [
        step(&rt, (1, 0, 0), (0, 0, 1, 1)),
        step(&rt, (0, 1, 0), (1, 0, 1, 1)),
        step(&rt, (-2, -3, 2), (0, 2, 3, 3)),
    ];
    assert!(rt; steps.items() == wanted.as_slice());
}

/// Appends a half-space to a cell.
fn add(rt: &impl Abort, cell: &mut Cell, row: Row) {
    let (a, b, c, d) = row;
    let half = Half::new(a, b, c, d).expect(rt, "no half-space");
    cell.try_push(half).expect(rt, "no room");
}

/// Returns the cell of the half-spaces of `rows`.
fn cell_of(rt: &impl Abort, rows: &[Row]) -> Cell {
    let mut cell = Cell::new();
    for row in rows {
        add(rt, &mut cell, *row);
    }
    cell
}

/// Returns a round cell of 32 half-spaces: a quarter, turned three times.
fn round_cell(rt: &impl Abort) -> Cell {
    let mut cell = Cell::new();
    for (a, b, c, d) in QUARTER {
        add(rt, &mut cell, (a, b, c, d));
        add(rt, &mut cell, (-a, -b, c, d));
        add(rt, &mut cell, (b, -a, c, d));
        add(rt, &mut cell, (-b, a, c, d));
    }
    cell
}

/// Returns the number of steps of the ring of `cell`, of at most 32 half-spaces, at the height 3. The guess has to be
/// this ring.
fn steps_guessed(rt: &impl Abort, cell: &[Half]) -> usize
    requires { length cell.now ≤ 32 }
{
    let Slice::Ring(steps) = slice(cell, 3) else {
        panic!(rt; "no ring");
    };
    if quick_ring(cell, 3).items() != steps.items() {
        panic!(rt; "the guess is not the ring");
    }
    steps.items().len()
}

#[test]
fn the_guess_is_the_ring(rt: HostRuntime) {
    let cases: [(&[Row], usize); 10] = [
        // bounded by the cube's sides alone, or by some of them
        (&[], 4),
        (&[(0, 0, 1, 0), (0, 0, -1, 9)], 4),
        (&[(1, 1, 0, 0)], 3),
        (&[(1, -2, 0, 7), (-1, 2, 0, 7)], 4),
        // of the sides with equal angles the last, the middle or the first one is the furthest inside
        (&[(1, 0, 0, 5), (3, 0, 0, 7), (2, 0, 1, -7)], 4),
        (&[(1, 0, 0, 5), (2, 0, 1, -7), (3, 0, 0, 7)], 4),
        (&[(2, 0, 1, -7), (1, 0, 0, 5), (3, 0, 0, 7)], 4),
        (&SQUARE, 4),
        (&TRIANGLE, 3),
        (&HEXAGON, 6),
    ];
    for (rows, count) in cases {
        let cell = cell_of(&rt, rows);
        assert_eq!(rt; steps_guessed(&rt, cell.as_slice()), count);
    }
}

#[test]
fn the_guess_is_the_ring_of_a_round_cell(rt: HostRuntime) {
    let cell = round_cell(&rt);
    assert_eq!(rt; cell.len(), 32);
    assert_eq!(rt; steps_guessed(&rt, cell.as_slice()), 32);
}
