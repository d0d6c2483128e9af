use crate::shapes::half;
use rp_lists::{Copied, Name, Numbers};
use rp_space::{
    Half, Inside, IntBox, Outside, Pair, Point, Term, box_halves, cube, greatest_common_divisor,
    is_balanced, is_contradiction, is_multiplier, joined, meet, meeting_of, quotient, with_cube,
};
use std::process::Abort;

#[test]
fn a_name_gives_its_bytes(rt: HostRuntime) {
    let name = Name::new(b"tower.2").expect(&rt, "no name");
    assert_eq!(rt; name.bytes(), b"tower.2".as_slice());
}

#[test]
fn lists_grow_and_are_taken_apart(rt: HostRuntime) {
    let mut front = Numbers::new(rt.alloc());
    front.reserve(1).expect(&rt, "no memory");
    front.push(7).expect(&rt, "no memory");
    assert_eq!(rt; front.items(), [7].as_slice());
    let back = Numbers::copy_of(rt.alloc(), &[1, 2, 3]).expect(&rt, "no memory");
    front.append(back).expect(&rt, "no memory");
    assert_eq!(rt; front.into_items().as_slice(), [7, 1, 2, 3].as_slice());
}

#[test]
fn half_spaces_and_points_are_kept_in_lowest_terms(rt: HostRuntime) {
    let half = half(&rt, (2, 0, 0, -4));
    assert_eq!(rt; half.numbers(), (1, 0, 0, -2));
    assert_eq!(rt; half.not().numbers(), (-1, 0, 0, 2));
    let point = Point::new(4, 6, 8, 2).expect(&rt, "no point");
    assert_eq!(rt; point.numbers(), (2, 3, 4, 1));
    assert_eq!(rt; half.side(&point), 0);
    assert!(rt; half.holds(&point));
    assert_eq!(rt; greatest_common_divisor(84, 30), 6);
    assert_eq!(rt; quotient(-84, 6), -14);
}

#[test]
fn the_greatest_side_value_keeps_within_128_bits(rt: HostRuntime) {
    // The greatest coefficients are 2^24. With the greatest offset, 3 * 2^48, all four would be divided by 2^24.
    let half = half(&rt, (16777216, 16777216, 16777216, 844424930131967));
    // The greatest numbers of a point: 2^101 - 1 three times, and 2^75 - 1.
    let x = 2535301200456458802993406410751;
    let point = Point::new(x, x, x, 37778931862957161709567).expect(&rt, "no point");
    // 3 * 2^24 * (2^101 - 1) + (3 * 2^48 - 1) * (2^75 - 1): a little less than 15/16 of 2^127.
    let greatest = 159507359494189866969524139851499175937;
    assert_eq!(rt; half.side(&point), greatest);
    assert_eq!(rt; half.not().side(&point), -greatest);
}

#[test]
fn boxes_have_six_sides(rt: HostRuntime) {
    let bounds = IntBox {
        lo: [1, 2, 3],
        hi: [4, 5, 6],
    };
    let [x1, x2, y1, y2, z1, z2] = box_halves(&bounds);
    assert_eq!(rt; x1.numbers(), (1, 0, 0, -1));
    assert_eq!(rt; x2.numbers(), (-1, 0, 0, 4));
    assert_eq!(rt; y1.numbers(), (0, 1, 0, -2));
    assert_eq!(rt; y2.numbers(), (0, -1, 0, 5));
    assert_eq!(rt; z1.numbers(), (0, 0, 1, -3));
    assert_eq!(rt; z2.numbers(), (0, 0, -1, 6));
    let corner = Point::new(1, 2, 3, 1).expect(&rt, "no point");
    assert!(rt; bounds.holds(&corner));
    assert!(rt; corner.is_in_cube());
}

#[test]
fn the_sides_of_the_cube_stand_behind_a_cell(rt: HostRuntime) {
    let [first, second, ..] = cube();
    assert_eq!(rt; first.numbers(), (1, 0, 0, 16777216));
    let system = with_cube(&[Half::default()]);
    let halves = system.as_slice();
    assert_eq!(rt; halves.len(), 7);
    assert_eq!(rt; halves[1], first);
    let system = joined(&[second], &[first]);
    assert_eq!(rt; system.as_slice(), [second, first].as_slice());
}

#[test]
fn three_planes_meet_in_lowest_terms(rt: HostRuntime) {
    let x = half(&rt, (2, 0, 0, -3));
    let y = half(&rt, (0, 1, 0, -2));
    let z = half(&rt, (0, 0, -4, 1));
    let point = meet(&x, &y, &z).expect(&rt, "no point");
    assert_eq!(rt; point.numbers(), (6, 8, 1, 4));
    let turned = Pair::new(&z, &y).meet(&x).expect(&rt, "no point");
    assert_eq!(rt; turned.numbers(), (6, 8, 1, 4));
    let meeting = Pair::new(&x, &y).meeting(&z.not()).expect(&rt, "no point");
    assert_eq!(rt; meeting.side(&Half::default()), 12);
    assert_eq!(rt; meeting.numbers(), (12, 16, 2, 8));
    assert_eq!(rt; meeting.point().numbers(), (6, 8, 1, 4));
}

/// Returns the four numbers of the point in which three planes meet, in lowest terms.
fn met(rt: &impl Abort, f: &Half, g: &Half, h: &Half) -> (i128, i128, i128, i128) {
    let meeting = meeting_of(f, g, h).expect(rt, "no point");
    meeting.point().numbers()
}

#[test]
fn a_level_plane_meets_upright_ones(rt: HostRuntime) {
    // 2x + y = 3, y = 2 and 4z = 1, with either sign and at each place of the three.
    let turned = half(&rt, (2, 1, 0, -3));
    let square = half(&rt, (0, -1, 0, 2));
    let level = half(&rt, (0, 0, -4, 1));
    let point = (2, 8, 1, 4);
    assert_eq!(rt; met(&rt, &turned, &square, &level), point);
    assert_eq!(rt; met(&rt, &square, &turned, &level.not()), point);
    assert_eq!(rt; met(&rt, &level, &turned, &square.not()), point);
    assert_eq!(rt; met(&rt, &square, &level, &turned), point);
    assert!(rt; meeting_of(&turned, &turned.not(), &level).is_none());
    assert!(rt; meeting_of(&turned, &square, &turned).is_none());
    // Behind a slanted plane the three meet elsewhere: x + y + z = 1.
    let slanted = half(&rt, (1, 1, 1, -1));
    assert_eq!(rt; met(&rt, &slanted, &square, &level), (-5, 8, 1, 4));
}

#[test]
fn short_lists_are_copied(rt: HostRuntime) {
    let mut points = Inside::new();
    points.push(Point::default());
    assert_eq!(rt; points.copy().items().len(), 1);
    let mut terms = Outside::new();
    terms.push(Term::default());
    assert_eq!(rt; terms.copy().items().len(), 1);
}

#[test]
fn multiples_are_added_up(rt: HostRuntime) {
    assert!(rt; is_multiplier(37778931862957161709567));
    let above = half(&rt, (1, 0, 0, -3));
    let below = above.not();
    let terms = [Term { by: 1, half: above }, Term { by: 1, half: below }];
    assert!(rt; is_balanced(&terms));
    assert!(rt; is_contradiction(&terms, true));
}
