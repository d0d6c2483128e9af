ghost use Rattle.std.specs.Prelude.{◌≡◌, ◌<◌};

use rp_boxindex::{Choice, Index, IndexFault, Quiet, Steps, VisitCount, Watch};
use rp_space::IntBox;
use std::alloc::{AllocError, Global};
use std::marker::Brand;
use std::process::Abort;
use std::sync::ledger::{Blank, Ledger};

/// Shows that a type may be sent to other threads and shared with them.
fn needs_send_sync<T: Send + Sync>() {}

#[test]
fn types_cross_threads() {
    needs_send_sync::<Index>();
    needs_send_sync::<IndexFault>();
    needs_send_sync::<Quiet>();
}

/// Searches `index` for the boxes that meet `bounds`, with a count of steps of its own.
fn search<W: Watch, L: Ledger>(
    index: &Index,
    alloc: Global,
    bounds: &IntBox,
    watch: &W,
    blank: Blank,
) -> Result<Vec<u32>, AllocError>
    requires name { blank.name ≡ L.name }
    requires parts { blank.parts ≡ L.parts }
    requires some { 0 < L.parts }
{
    let mut steps = Steps::<L>::new(blank);
    index.meeting(alloc, bounds, false, watch, &mut steps)
}

/// Returns the box from z to z + 1, and from 0 to 1 on the other axes.
fn storey(z: u16) -> IntBox {
    let z = z as i32;
    IntBox {
        lo: [0, 0, z],
        hi: [1, 1, z + 1],
    }
}

/// Returns an index of 1,023 storeys, which all meet on x and on y, inserted in mixed order.
fn storeys(rt: &impl Abort, alloc: Global) -> Index {
    let mut index = Index::new(alloc);
    for i in 0..1023u32 {
        let z = i * 410 % 1023;
        index
            .insert(alloc, z, storey(z as u16))
            .expect(rt, "no memory");
    }
    index
}

#[test]
fn few_nodes_are_visited_where_all_boxes_meet_on_x(rt: HostRuntime) {
    let alloc = rt.alloc();
    let mut index = storeys(&rt, alloc);
    let visits = VisitCount::counted();
    let open = search::<_, Brand>(&index, alloc, &storey(500), &visits, Blank::new(1)).expect(
        &rt,
        "no memory",
    );
    assert_eq!(rt; open.as_slice(), [500].as_slice());
    // At each of the ten levels at most two nodes.
    assert!(rt; (1..=20).contains(&visits.count()));
    assert!(rt; index.remove(500));
}

/// Returns the box of a house in a street along y. All houses meet on x, where they begin at many places. No two meet
/// on y.
fn house(number: u16) -> IntBox {
    let number = number as i32;
    let x = number * 7 % 997;
    let y = number * 1001;
    IntBox {
        lo: [x, y, 0],
        hi: [x + 1000, y + 1000, 1000],
    }
}

/// Returns an index of 2,000 houses, inserted in mixed order.
fn street(rt: &impl Abort, alloc: Global) -> Index {
    let mut index = Index::new(alloc);
    for i in 0..2000u32 {
        let number = i * 791 % 2000;
        index
            .insert(alloc, number, house(number as u16))
            .expect(rt, "no memory");
    }
    index
}

#[test]
fn few_nodes_are_visited_in_a_street(rt: HostRuntime) {
    let alloc = rt.alloc();
    let index = street(&rt, alloc);
    let visits = VisitCount::counted();
    let open = search::<_, Brand>(&index, alloc, &house(1000), &visits, Blank::new(1)).expect(
        &rt,
        "no memory",
    );
    assert_eq!(rt; open.as_slice(), [1000].as_slice());
    // In the tree by x alone nearly all 2,000 would be visited.
    assert!(rt; (1..=200).contains(&visits.count()));
}

/// The ids that are at least a number.
#[derive(Clone, Copy)]
struct AtLeast(u32);

impl Choice for AtLeast {
    ghost use Rattle.std.specs.Prelude.{nat_le};

    ghost passes = { λ least id. nat_le least.0 id };

    fn passes(&self, id: u32) -> bool {
        self.0 <= id
    }
}

/// Searches `index` for the first id that passes `choice`, with a count of steps of its own.
fn first<C: Choice, W: Watch, L: Ledger>(
    index: &Index,
    bounds: &IntBox,
    choice: &C,
    watch: &W,
    blank: Blank,
) -> Option<u32>
    requires name { blank.name ≡ L.name }
    requires parts { blank.parts ≡ L.parts }
    requires some { 0 < L.parts }
{
    let mut steps = Steps::<L>::new(blank);
    index.first(bounds, true, choice, watch, &mut steps)
}

#[test]
fn the_first_id_is_found_by_few_visits(rt: HostRuntime) {
    let index = storeys(&rt, rt.alloc());
    let visits = VisitCount::counted();
    assert_eq!(rt;
        first::<_, _, Brand>(&index, &storey(500), &AtLeast(501), &visits, Blank::new(1)),
        Some(501)
    );
    // At each of the ten levels at most four nodes.
    assert!(rt; (1..=40).contains(&visits.count()));
}
