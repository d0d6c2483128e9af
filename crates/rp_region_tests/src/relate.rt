use crate::boxes::box_region;
use rp_region::Work;
use rp_relate::{Rcc8, contact, equal, is_empty, overlap, pieces, rcc, within};
use rp_space::IntBox;

#[test]
fn a_box_is_within_a_greater_one(rt: HostRuntime) {
    let alloc = rt.alloc();
    let mut work = Work::new(alloc);
    let ten = IntBox {
        lo: [0, 0, 0],
        hi: [10, 10, 10],
    };
    let twenty = IntBox {
        lo: [0, 0, 0],
        hi: [20, 20, 20],
    };
    let ten = box_region(&rt, alloc, &ten, &mut work);
    let twenty = box_region(&rt, alloc, &twenty, &mut work);
    assert_eq!(rt; rcc(alloc, &ten, &twenty, &mut work), Ok(Rcc8::TPP));
    assert_eq!(rt; overlap(alloc, &ten, &twenty, &mut work), Ok(true));
    assert_eq!(rt; contact(alloc, &ten, &twenty, &mut work), Ok(true));
    assert_eq!(rt; within(alloc, &ten, &twenty, &mut work), Ok(true));
    assert_eq!(rt; equal(alloc, &ten, &twenty, &mut work), Ok(false));
    assert_eq!(rt; is_empty(alloc, &ten, &mut work), Ok(false));
}

#[test]
fn boxes_that_touch_at_a_corner_are_one_piece(rt: HostRuntime) {
    let alloc = rt.alloc();
    let mut work = Work::new(alloc);
    let first = IntBox {
        lo: [0, 0, 0],
        hi: [10, 10, 10],
    };
    let corner = IntBox {
        lo: [10, 10, 10],
        hi: [20, 20, 20],
    };
    let first = box_region(&rt, alloc, &first, &mut work);
    let corner = box_region(&rt, alloc, &corner, &mut work);
    let both = first.into_either(corner, &mut work).expect(&rt, "no union");
    let list = pieces(alloc, &both, &mut work).expect(&rt, "no pieces");
    assert_eq!(rt; list.items().len(), 1);
    for piece in list.items() {
        assert_eq!(rt; piece.items(), [1, 2].as_slice());
    }
}
