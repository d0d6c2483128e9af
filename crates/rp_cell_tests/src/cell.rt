use crate::shapes::{half, term, tetrahedron};
use rp_cell::{Held, SideProofs, Strict, Weak, box_of, decide_strict, decide_weak, sides_of, slim};
use rp_lists::Copied;
use rp_space::{IntBox, Outside, box_halves};

#[test]
fn a_flat_box_has_no_points_but_touches(rt: HostRuntime) {
    let cell = box_halves(&IntBox {
        lo: [0, 0, 0],
        hi: [0, 10, 10],
    });
    let Strict::Outside(terms) = decide_strict(&cell) else {
        panic!(rt; "the flat box has points");
    };
    let wanted = [term(&rt, 1, (1, 0, 0, 0)), term(&rt, 1, (-1, 0, 0, 0))];
    assert_eq!(rt; terms.items(), wanted.as_slice());
    let Weak::At(point) = decide_weak(&cell) else {
        panic!(rt; "the closed box is empty");
    };
    assert_eq!(rt; point.numbers(), (0, 0, 0, 1));
}

#[test]
fn a_tetrahedron_has_its_least_box_and_its_sides(rt: HostRuntime) {
    let cell = tetrahedron(&rt);
    let slimmed = slim(rt.alloc(), &cell).expect(&rt, "no memory");
    assert_eq!(rt; slimmed.kept.items(), cell.as_slice());
    let Strict::Inside(_) = decide_strict(&cell) else {
        panic!(rt; "the tetrahedron is empty");
    };
    let bounds = IntBox {
        lo: [0, 0, 0],
        hi: [4, 3, 2],
    };
    assert_eq!(rt; box_of(&cell), bounds);
    let sides = sides_of(&cell);
    assert_eq!(rt; sides.bounds, bounds);
    let [x, y, z, cut] = [(1, 0, 0, 0), (0, 1, 0, 0), (0, 0, 1, 0), (-2, -3, -5, 7)];
    let wanted = [
        [
            term(&rt, 3, y),
            term(&rt, 5, z),
            term(&rt, 1, cut),
            term(&rt, 2, (1, 0, 0, -4)),
        ],
        [
            term(&rt, 2, x),
            term(&rt, 5, z),
            term(&rt, 1, cut),
            term(&rt, 3, (0, 1, 0, -3)),
        ],
        [
            term(&rt, 2, x),
            term(&rt, 3, y),
            term(&rt, 1, cut),
            term(&rt, 5, (0, 0, 1, -2)),
        ],
    ];
    let copy = sides.proofs.copy();
    assert_eq!(rt; copy.items().len(), 3);
    for (proof, terms) in copy.items().iter().zip(&wanted) {
        assert_eq!(rt; proof.items(), terms.as_slice());
    }
    assert_eq!(rt; sides.proofs.into_items().len(), 3);
}

#[test]
fn certificates_of_sides_are_appended(rt: HostRuntime) {
    let mut proofs = SideProofs::new();
    proofs.push(Outside::new());
    assert_eq!(rt; proofs.items().len(), 1);
}

#[test]
fn a_held_box_is_asked_with_further_half_spaces(rt: HostRuntime) {
    let held = Held::new(&box_halves(&IntBox {
        lo: [0, 0, 0],
        hi: [10, 10, 10],
    }));
    assert_eq!(rt; held.halves().len(), 6);
    // The corner at the origin is cut off, touched, and left.
    let within = half(&rt, (-1, -1, -1, 1));
    let touching = half(&rt, (-1, -1, -1, 0));
    let beyond = half(&rt, (-1, -1, -1, -1));
    let Strict::Inside(points) = held.strict_with(&[within]) else {
        panic!(rt; "the corner that is cut off is empty");
    };
    let numbers = [(0, 0, 0, 1), (0, 0, 1, 1), (0, 1, 0, 1), (1, 0, 0, 1)];
    assert_eq!(rt; points.items().len(), 4);
    for (point, wanted) in points.items().iter().zip(numbers) {
        assert_eq!(rt; point.numbers(), wanted);
    }
    let Weak::At(point) = held.weak_with(&[touching]) else {
        panic!(rt; "the corner is not touched");
    };
    assert_eq!(rt; point.numbers(), (0, 0, 0, 1));
    let [x, y, z] = [(1, 0, 0, 0), (0, 1, 0, 0), (0, 0, 1, 0)];
    let apart = held.with(&[beyond]);
    let Weak::Outside(terms) = apart.weak() else {
        panic!(rt; "the corner is touched from beyond");
    };
    let wanted = [
        term(&rt, 1, x),
        term(&rt, 1, y),
        term(&rt, 1, z),
        term(&rt, 1, (-1, -1, -1, -1)),
    ];
    assert_eq!(rt; terms.items(), wanted.as_slice());
    let Strict::Outside(terms) = apart.strict() else {
        panic!(rt; "there are points beyond the corner");
    };
    assert_eq!(rt; terms.items(), wanted.as_slice());
}

#[test]
fn a_held_box_stands_before_other_half_spaces(rt: HostRuntime) {
    let held = Held::new(&box_halves(&IntBox {
        lo: [0, 0, 0],
        hi: [10, 10, 10],
    }));
    // The first half-space removes the corner at the origin, and the second one is below it.
    let more = [half(&rt, (-1, -1, -1, -1)), half(&rt, (0, 0, -1, 5))];
    let mut room = Held::new(&[]);
    let Strict::Outside(terms) = room.strict_beside(&held, &more) else {
        panic!(rt; "there are points beyond the corner");
    };
    let wanted = [
        term(&rt, 1, (1, 0, 0, 0)),
        term(&rt, 1, (0, 1, 0, 0)),
        term(&rt, 1, (0, 0, 1, 0)),
        term(&rt, 1, (-1, -1, -1, -1)),
    ];
    assert_eq!(rt; terms.items(), wanted.as_slice());
    let behind = half(&rt, (-1, 0, 0, 0));
    let terms = held.refute_with_next(&behind).expect(&rt, "no refutation");
    let wanted = [term(&rt, 1, (1, 0, 0, 0)), term(&rt, 1, (-1, 0, 0, 0))];
    assert_eq!(rt; terms.items(), wanted.as_slice());
}

#[test]
fn a_held_cell_grows_and_is_slimmed(rt: HostRuntime) {
    let cell = tetrahedron(&rt);
    let mut held = Held::new(&cell[..3]);
    held.push(cell[3]);
    held.extend(&[cell[0]]);
    let mut copy = held.copy();
    assert_eq!(rt; copy.halves().len(), 5);
    copy.hold(&cell[..1]);
    copy.copy_from(&held);
    let slimmed = copy.slim(rt.alloc()).expect(&rt, "no memory");
    assert_eq!(rt;
        slimmed.kept.items(),
        [cell[1], cell[2], cell[3], cell[0]].as_slice()
    );
    assert_eq!(rt; slimmed.dropped.items().len(), 1);
}
