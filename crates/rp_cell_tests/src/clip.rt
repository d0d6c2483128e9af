ghost use Rattle.std.specs.Prelude.{◌≤◌, length};

use crate::shapes::{half, tetrahedron};
use rp_clip::{Clip, inside_on_polygons, weak_on_polygon};
use rp_space::{Half, IntBox, box_halves};
use std::process::Abort;

#[test]
fn a_tetrahedron_has_its_four_corners(rt: HostRuntime) {
    let [x, y, z, slanted] = tetrahedron(&rt);
    let mut clip = Clip::<256>::cube();
    // Each of the first three half-spaces leaves a box, and the fourth the corner of this box at the origin.
    assert!(rt; clip.add(x));
    assert_eq!(rt; clip.corners().len(), 8);
    assert!(rt; clip.add(y));
    assert_eq!(rt; clip.corners().len(), 8);
    assert!(rt; clip.add(z));
    assert_eq!(rt; clip.corners().len(), 8);
    assert!(rt; clip.add(slanted));
    assert_eq!(rt; clip.halves().len(), 4);
    assert_eq!(rt; clip.vertices().len(), 4);
    let mut other = Clip::<256>::cube();
    other.copy_from(&clip.copy());
    let inside = other.first_inside().expect(&rt, "no certificate");
    let points = inside.items();
    assert_eq!(rt; points.len(), 4);
    assert_eq!(rt; points[1].numbers(), (0, 0, 7, 5));
    let weak = clip.first_weak().expect(&rt, "no weak point");
    assert_eq!(rt; weak.numbers(), (0, 0, 0, 1));
    clip.clear();
    assert_eq!(rt; clip.corners().len(), 8);
}

/// Adds half-spaces for which there is room.
fn add_all(rt: &impl Abort, clip: &mut Clip<64>, halves: &[Half]) {
    for half in halves {
        assert!(rt; clip.halves().len() < 64);
        assert!(rt; clip.add(*half));
    }
}

#[test]
fn a_box_has_its_eight_corners(rt: HostRuntime) {
    let bounds = IntBox {
        lo: [1, 2, 3],
        hi: [4, 5, 6],
    };
    let sides = box_halves(&bounds);
    let mut clip = Clip::<64>::cube();
    add_all(&rt, &mut clip, &sides);
    assert_eq!(rt; clip.corners().len(), 8);
    let weak = clip.first_weak().expect(&rt, "no weak point");
    assert_eq!(rt; weak.numbers(), (1, 2, 3, 1));
    // The plane of a side once more, one that is outside, and the plane of a side from its other half-space.
    add_all(
        &rt,
        &mut clip,
        &[half(&rt, (1, 0, 0, -1)), half(&rt, (0, 0, 1, 9))],
    );
    assert_eq!(rt; clip.corners().len(), 8);
    add_all(&rt, &mut clip, &[half(&rt, (0, 0, 1, -6))]);
    assert_eq!(rt; clip.corners().len(), 4);
    // One that cuts off all that is left.
    add_all(&rt, &mut clip, &[half(&rt, (1, 0, 0, -9))]);
    assert_eq!(rt; clip.corners().len(), 0);
}

#[test]
fn an_upright_body_is_cut_between_two_heights(rt: HostRuntime) {
    // The triangle below x + 2y = 7, between the heights 3/2 and 2.
    let walls = [
        half(&rt, (1, 0, 0, 0)),
        half(&rt, (0, 1, 0, 0)),
        half(&rt, (-1, -2, 0, 7)),
    ];
    let mut clip = Clip::<64>::cube();
    add_all(&rt, &mut clip, &walls);
    add_all(
        &rt,
        &mut clip,
        &[half(&rt, (0, 0, 2, -3)), half(&rt, (0, 0, -1, 2))],
    );
    assert_eq!(rt; clip.corners().len(), 6);
    let inside = clip.first_inside().expect(&rt, "no certificate");
    let points = inside.items();
    assert!(rt; points.len() > 1);
    assert_eq!(rt; points[0].numbers(), (0, 0, 3, 2));
    assert_eq!(rt; points[1].numbers(), (0, 0, 2, 1));
}

/// Returns whether the polygons of `cell`, of at most 64 half-spaces, show its first inside points and its first weak
/// point.
fn are_told(cell: &[Half]) -> bool
    requires { length cell.now ≤ 64 }
{
    inside_on_polygons(cell).is_some() && weak_on_polygon(cell).is_some()
}

#[test]
fn polygons_tell_first_points(rt: HostRuntime) {
    assert!(rt; are_told(&tetrahedron(&rt)));
    // The first plane passes through an edge, and the second plane is the same.
    let through = half(&rt, (1, 1, 0, 0));
    let roof = [
        through,
        through,
        half(&rt, (1, -1, 0, 0)),
        half(&rt, (0, 0, 1, 16777216)),
    ];
    assert!(rt; are_told(&roof));
    // The first two planes have only an edge.
    let edge = [
        through,
        half(&rt, (1, 2, 0, 0)),
        half(&rt, (1, 0, 0, 0)),
        half(&rt, (0, 1, 0, 0)),
        half(&rt, (0, 0, -1, 5)),
    ];
    assert!(rt; are_told(&edge));
}

#[test]
fn polygons_tell_nothing_where_the_first_plane_has_no_vertex(rt: HostRuntime) {
    let far = [half(&rt, (1, 0, 0, 9)), half(&rt, (1, 0, 0, 0))];
    assert!(rt; inside_on_polygons(&far).is_none());
    assert!(rt; weak_on_polygon(&far).is_none());
    assert!(rt; inside_on_polygons(&[]).is_none());
    assert!(rt; weak_on_polygon(&[]).is_none());
}
