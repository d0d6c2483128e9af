ghost use Rattle.std.specs.Prelude.{◌≡◌, ◌<◌};

use rp_boxindex::{Index, IndexFault, Steps, VisitCount};
use rp_space::IntBox;
use std::alloc::{AllocError, Global};
use std::marker::Brand;
use std::process::Abort;
use std::sync::ledger::{Blank, Ledger};

/// Returns the box from `x` to `x` + 1, and from 0 to 1 on the other axes.
fn slice(x: u16) -> IntBox {
    let x = x as i32;
    IntBox {
        lo: [x, 0, 0],
        hi: [x + 1, 1, 1],
    }
}

/// Returns an index of 1,023 slices side by side, each under its `x`.
fn slices(rt: &impl Abort, alloc: Global) -> Index {
    let mut index = Index::new(alloc);
    for x in 0..1023u16 {
        index
            .insert(alloc, x as u32, slice(x))
            .expect(rt, "no memory");
    }
    index
}

/// Searches `index` with a count of steps of its own.
fn search<L: Ledger>(
    index: &Index,
    alloc: Global,
    bounds: &IntBox,
    closed: bool,
    visits: &VisitCount,
    blank: Blank,
) -> Result<Vec<u32>, AllocError>
    requires name { blank.name ≡ L.name }
    requires parts { blank.parts ≡ L.parts }
    requires some { 0 < L.parts }
{
    let mut steps = Steps::<L>::new(blank);
    index.meeting(alloc, bounds, closed, visits, &mut steps)
}

/// Returns the ids whose boxes meet that of `x`, and the number of visited nodes.
fn meeting_ids(
    rt: &impl Abort,
    alloc: Global,
    index: &Index,
    x: u16,
    closed: bool,
) -> (Vec<u32>, u64) {
    let visits = VisitCount::counted();
    let ids = search::<Brand>(index, alloc, &slice(x), closed, &visits, Blank::new(1));
    (ids.expect(rt, "no memory"), visits.count())
}

#[test]
fn few_of_many_nodes_are_visited(rt: HostRuntime) {
    let index = slices(&rt, rt.alloc());
    // 2^20 is (1,023 + 1)^2, so h is 20, and (k + 1) * 42 nodes may be visited where k boxes meet on x: here one.
    let (ids, visits) = meeting_ids(&rt, rt.alloc(), &index, 500, false);
    assert_eq!(rt; ids.as_slice(), [500].as_slice());
    assert!(rt; (1..=84).contains(&visits));
    // Closed boxes meet where they touch: three.
    let (ids, visits) = meeting_ids(&rt, rt.alloc(), &index, 500, true);
    assert_eq!(rt; ids.as_slice(), [499, 500, 501].as_slice());
    assert!(rt; (1..=168).contains(&visits));
}

#[test]
fn an_id_has_one_box_and_is_removed_once(rt: HostRuntime) {
    let mut index = slices(&rt, rt.alloc());
    let again = index.insert(rt.alloc(), 500, slice(7));
    assert_eq!(rt; again, Err(IndexFault::Known));
    let (ids, _) = meeting_ids(&rt, rt.alloc(), &index, 7, false);
    assert_eq!(rt; ids.as_slice(), [7].as_slice());
    let (ids, _) = meeting_ids(&rt, rt.alloc(), &index, 500, false);
    assert_eq!(rt; ids.as_slice(), [500].as_slice());
    assert!(rt; index.remove(500));
    assert!(rt; !index.remove(500));
    let (ids, _) = meeting_ids(&rt, rt.alloc(), &index, 500, true);
    assert_eq!(rt; ids.as_slice(), [499, 501].as_slice());
}
