//! Asks a building of 20 storeys with three grains: the answer, the count of tests and the proof lines are the same.
//!
//! Storey i is a box 30 wide, 30 deep and 10 high, in two lots: `a` has its points with x + y >= 10 + i, and `b` has
//! the others. In contact are the two lots of a storey, and each lot with both lots of the next storey, except `b` with
//! the `a` above.
ghost use Rattle.std.specs.Prelude.{◌+◌, ◌*◌, ◌<◌, ◌≤◌};
ghost use Rattle.rp_parcels.specs.Register.{IsLater};

use crate::parcels::{askew, cell_region, cut, nothing, register};
use rp_boxindex::Quiet;
use rp_lists::Name;
use rp_parcels::Parcels;
use rp_region::{Region, Work};
use rp_space::{Half, IntBox, box_halves};
use std::alloc::Global;
use std::process::Abort;
use std::thread::Threads;

/// Returns the id of a lot: the letter of its side and the number of its storey.
fn lot(rt: &impl Abort, alloc: Global, side: char, storey: u32) -> Name {
    let id = format!(in alloc; "{side}{storey}").expect(rt, "no memory");
    Name::new(id.as_str().as_bytes()).expect(rt, "no name")
}

/// Returns the region of a storey.
fn storey(rt: &impl Abort, alloc: Global, i: u32) -> Region
    requires { i < 20 }
{
    let [west, east, south, north, _, _] = box_halves(&IntBox {
        lo: [0, 0, 0],
        hi: [30, 30, 10],
    });
    let low = 10 * i as i64;
    let floor = Half::new(0, 0, 1, -low).expect(rt, "no floor");
    let ceiling = Half::new(0, 0, -1, low + 10).expect(rt, "no ceiling");
    cell_region(rt, alloc, &[west, east, south, north, floor, ceiling])
}

/// Registers a storey, and cuts it in two at the next line.
fn add_storey(rt: &impl Abort, alloc: Global, parcels: &mut Parcels, i: u32)
    requires small { i < 20 }
    requires later { IsLater (2 * i + 1) parcels.old }
    ensures { IsLater (2 * i + 3) parcels.new }
{
    let ids = [
        lot(rt, alloc, 's', i),
        lot(rt, alloc, 'a', i),
        lot(rt, alloc, 'b', i),
    ];
    let by = askew(rt, alloc, 10 + i as i32);
    let region = storey(rt, alloc, i);
    register(rt, alloc, &Quiet, parcels, 2 * i + 1, ids[0], region);
    cut(rt, alloc, parcels, 2 * i + 2, &ids, &by);
}

/// Returns the lots of the building.
fn building(rt: &impl Abort, alloc: Global) -> Parcels {
    let mut parcels = nothing(rt, alloc);
    for i in 0..20 {
        add_storey(rt, alloc, &mut parcels, i);
    }
    parcels
}

/// Returns a text of the proof lines. Checks that there are `count` of them, and as many tests.
fn lines_of(rt: &impl Abort, alloc: Global, work: Work, count: usize) -> String {
    assert_eq!(rt; work.tests() as usize, count);
    let lines = work.into_proofs();
    assert_eq!(rt; lines.items().len(), count);
    format!(in alloc; "{lines:?}").expect(rt, "no memory")
}

/// Returns the proof lines of an audit: one for the two lots of each storey.
fn audit_lines<R: Abort + Threads + Sync>(
    rt: &R,
    alloc: Global,
    grain: usize,
    parcels: &Parcels,
) -> String
    requires { 1 ≤ grain }
{
    let mut work = Work::new(alloc);
    let count = parcels.audit(rt, alloc, &Quiet, grain, &mut work);
    assert_eq!(rt; count.expect(rt, "no audit"), 40);
    lines_of(rt, alloc, work, 20)
}

/// Returns the proof lines of the neighbours of `a10`: four lots touch it, and `b9` does not.
fn neighbour_lines<R: Abort + Threads + Sync>(
    rt: &R,
    alloc: Global,
    grain: usize,
    parcels: &Parcels,
) -> String
    requires { 1 ≤ grain }
{
    let ids = [
        lot(rt, alloc, 'a', 9),
        lot(rt, alloc, 'b', 10),
        lot(rt, alloc, 'a', 11),
        lot(rt, alloc, 'b', 11),
    ];
    let id = lot(rt, alloc, 'a', 10);
    let mut work = Work::new(alloc);
    let found = parcels.neighbours(rt, alloc, &Quiet, grain, id, &mut work);
    assert_eq!(rt; found.expect(rt, "no neighbours").items(), ids.as_slice());
    lines_of(rt, alloc, work, 5)
}

/// Returns the first chain from `a0` to `b19`: over the `a` of each storey, and at the top to `b`.
fn way_up(rt: &impl Abort, alloc: Global) -> Vec<Name> {
    let mut ids = Vec::new(alloc);
    for i in 0..19 {
        ids.push(lot(rt, alloc, 'a', i)).expect(rt, "no memory");
    }
    ids.push(lot(rt, alloc, 'b', 19)).expect(rt, "no memory");
    ids
}

/// Returns the level of each lot to `b19`: as many steps as there are storeys above it, and one from `a19`.
fn levels_to_the_top(rt: &impl Abort, alloc: Global) -> Vec<(u32, Name)> {
    let mut levels = Vec::new(alloc);
    for i in 0..20u32 {
        let above = 19 - i;
        let (a, b) = (lot(rt, alloc, 'a', i), lot(rt, alloc, 'b', i));
        levels.push((above.max(1), a)).expect(rt, "no memory");
        levels.push((above, b)).expect(rt, "no memory");
    }
    levels
}

/// Returns the proof lines of access from the first lot to the last: one for the two lots of each storey, and four
/// between two storeys.
fn access_lines<R: Abort + Threads + Sync>(
    rt: &R,
    alloc: Global,
    grain: usize,
    parcels: &Parcels,
) -> String
    requires { 1 ≤ grain }
{
    let (first, last) = (lot(rt, alloc, 'a', 0), lot(rt, alloc, 'b', 19));
    let mut work = Work::new(alloc);
    let found = parcels.access(rt, alloc, &Quiet, grain, first, last, &mut work);
    let found = found.expect(rt, "no access");
    let levels = levels_to_the_top(rt, alloc);
    assert_eq!(rt; found.levels.items(), levels.as_slice());
    let chain = found.chain.as_ref().expect(rt, "no chain");
    assert_eq!(rt; chain.items(), way_up(rt, alloc).as_slice());
    lines_of(rt, alloc, work, 20 + 4 * 19)
}

#[test]
fn a_building_is_answered_the_same_for_every_grain(rt: HostRuntime) {
    let parcels = building(&rt, rt.alloc());
    let audit = audit_lines(&rt, rt.alloc(), 1, &parcels);
    let neighbours = neighbour_lines(&rt, rt.alloc(), 1, &parcels);
    let access = access_lines(&rt, rt.alloc(), 1, &parcels);
    for grain in [7, 1000] {
        assert!(rt;
            audit_lines(&rt, rt.alloc(), grain, &parcels) == audit,
            "{grain}"
        );
        assert!(rt;
            neighbour_lines(&rt, rt.alloc(), grain, &parcels) == neighbours,
            "{grain}"
        );
        assert!(rt;
            access_lines(&rt, rt.alloc(), grain, &parcels) == access,
            "{grain}"
        );
    }
}
