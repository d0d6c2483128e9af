ghost use Rattle.std.specs.Prelude.{◌≡◌, ◌+◌, ◌<◌, ◌≤◌, true, length};
ghost use Rattle.rp_geometry.specs.Geometry.{is_box_in_bounds};
ghost use Rattle.rp_space.specs.Boxes.{integer_box};
ghost use Rattle.rp_parcels.specs.Register.{IsLater};

use crate::names::name;
use rp_boxindex::{Quiet, VisitCount, Watch};
use rp_lists::Name;
use rp_parcels::{Child, Parcels};
use rp_region::{Region, Work};
use rp_space::{Half, IntBox, Point, box_halves};
use std::alloc::Global;
use std::process::Abort;
use std::sync::atomic::{AtomicBool, Ordering};

/// The box from 0 0 0 to 10 10 10.
const PLOT: IntBox = IntBox {
    lo: [0, 0, 0],
    hi: [10, 10, 10],
};

/// The lower half of the plot.
const LOW: IntBox = IntBox {
    lo: [0, 0, 0],
    hi: [10, 10, 5],
};

/// The upper half of the plot.
const HIGH: IntBox = IntBox {
    lo: [0, 0, 5],
    hi: [10, 10, 10],
};

/// The box that touches the plot in the east.
const EAST: IntBox = IntBox {
    lo: [10, 0, 0],
    hi: [20, 10, 10],
};

/// The box that touches the plot in the west.
const WEST: IntBox = IntBox {
    lo: [-10, 0, 0],
    hi: [0, 10, 10],
};

/// A box apart from the plot.
const FAR: IntBox = IntBox {
    lo: [20, 0, 0],
    hi: [30, 10, 10],
};

/// Returns the region of a cell.
pub fn cell_region(rt: &impl Abort, alloc: Global, cell: &[Half]) -> Region
    requires { length cell.now ≤ 64 }
{
    let mut work = Work::new(alloc);
    Region::of_cell(alloc, cell, &mut work).expect(rt, "no region of a cell")
}

/// Returns the region of a box.
fn region(rt: &impl Abort, alloc: Global, bounds: &IntBox) -> Region
    requires { is_box_in_bounds (integer_box bounds.now) ≡ true }
{
    cell_region(rt, alloc, &box_halves(bounds))
}

/// Registers a region at the line, in the layer `land`.
pub fn register<R: Abort, W: Watch>(
    rt: &R,
    alloc: Global,
    watch: &W,
    parcels: &mut Parcels,
    line: u32,
    id: Name,
    region: Region,
)
    requires { IsLater line parcels.old }
    ensures { IsLater (line + 1) parcels.new }
{
    let mut work = Work::new(alloc);
    let done = parcels.register(alloc, watch, line, name(b"land"), id, region, &mut work);
    done.expect(rt, "a region is not registered");
}

/// Registers a box at the line.
fn register_box(
    rt: &impl Abort,
    alloc: Global,
    parcels: &mut Parcels,
    line: u32,
    id: Name,
    bounds: &IntBox,
)
    requires later { IsLater line parcels.old }
    requires bounds { is_box_in_bounds (integer_box bounds.now) ≡ true }
    ensures { IsLater (line + 1) parcels.new }
{
    let region = region(rt, alloc, bounds);
    register(rt, alloc, &Quiet, parcels, line, id, region);
}

/// Returns a register of no parcels.
pub fn nothing(rt: &impl Abort, alloc: Global) -> Parcels
    ensures { IsLater 1 result }
{
    Parcels::new(alloc).expect(rt, "no register")
}

/// Returns a register with one parcel, whose id is `plot`, born at line 1 in the layer `land`.
fn with_plot(rt: &impl Abort, alloc: Global) -> Parcels
    ensures { IsLater 2 result }
{
    let mut parcels = nothing(rt, alloc);
    register_box(rt, alloc, &mut parcels, 1, name(b"plot"), &PLOT);
    parcels
}

/// Cuts the parcel of the first id by the region `by` into the other two, at the line.
pub fn cut(
    rt: &impl Abort,
    alloc: Global,
    parcels: &mut Parcels,
    line: u32,
    ids: &[Name; 3],
    by: &Region,
)
    requires { IsLater line parcels.old }
    ensures { IsLater (line + 1) parcels.new }
{
    let mut work = Work::new(alloc);
    let done = parcels.cut(alloc, line, ids[0], by, ids[1], ids[2], &mut work);
    done.expect(rt, "a parcel is not cut");
}

/// Returns the half-space of the points with x + y >= `least`.
pub fn askew(rt: &impl Abort, alloc: Global, least: i32) -> Region {
    let half = Half::new(1, 1, 0, -(least as i64)).expect(rt, "no half-space askew");
    cell_region(rt, alloc, &[half])
}

/// Cuts the plot by the half-space x + y >= 10, at line 2.
fn cut_plot(rt: &impl Abort, alloc: Global, parcels: &mut Parcels)
    requires { IsLater 2 parcels.old }
    ensures { IsLater 3 parcels.new }
{
    let ids = [name(b"plot"), name(b"far"), name(b"near")];
    let by = askew(rt, alloc, 10);
    cut(rt, alloc, parcels, 2, &ids, &by);
}

/// Consolidates the two sides of the plot, at line 3.
fn join_sides(rt: &impl Abort, alloc: Global, parcels: &mut Parcels)
    requires { IsLater 3 parcels.old }
    ensures { IsLater 4 parcels.new }
{
    let sides = [name(b"far"), name(b"near")];
    let mut work = Work::new(alloc);
    let done = parcels.consolidate(alloc, 3, name(b"whole"), &sides, &mut work);
    done.expect(rt, "the sides are not made one");
}

/// Returns a child with the region of a box.
fn child(rt: &impl Abort, alloc: Global, id: Name, bounds: &IntBox) -> Child
    requires { is_box_in_bounds (integer_box bounds.now) ≡ true }
{
    let region = region(rt, alloc, bounds);
    Child { id, region }
}

/// Subdivides the consolidated plot into its lower and its upper half, at line 4.
fn divide_whole(rt: &impl Abort, alloc: Global, parcels: &mut Parcels)
    requires { IsLater 4 parcels.old }
    ensures { IsLater 5 parcels.new }
{
    let low = child(rt, alloc, name(b"low"), &LOW);
    let high = child(rt, alloc, name(b"high"), &HIGH);
    let mut work = Work::new(alloc);
    let done = parcels.subdivide(alloc, 4, name(b"whole"), &[low, high], &mut work);
    done.expect(rt, "the whole is not divided");
}

/// Returns the south-west corner of the plot.
fn corner() -> Point {
    Point::new(0, 0, 0, 1).unwrap()
}

#[test]
fn parcels_go_from_row_to_row(rt: HostRuntime) {
    let mut parcels = with_plot(&rt, rt.alloc());
    assert_eq!(rt; parcels.at(name(b"land"), &corner()), Some(name(b"plot")));
    cut_plot(&rt, rt.alloc(), &mut parcels);
    join_sides(&rt, rt.alloc(), &mut parcels);
    divide_whole(&rt, rt.alloc(), &mut parcels);
    let done = parcels.retire(5, name(b"low"));
    done.expect(&rt, "the lower half is not retired");
    assert_eq!(rt; parcels.at(name(b"land"), &corner()), None);
    assert_eq!(rt;
        parcels.at_line(name(b"land"), 4, &corner()),
        Some(name(b"low"))
    );
    assert_eq!(rt; parcels.count_live(), 1);
    assert!(rt; parcels.region(name(b"high")).is_some());
    assert_eq!(rt; parcels.history().lots().len(), 6);
}

/// A watch that lets each of two items wait a while for the other to begin.
#[derive(Drop)]
struct Meeting {
    came: [AtomicBool; 2],
    met: [AtomicBool; 2],
}

impl Watch for Meeting {
    fn node(&self) {}

    fn item(&self, i: usize) {
        if i > 1 {
            return;
        }
        self.came[i].store(true, Ordering::SeqCst);
        for _ in 0..1_000_000_000u32 {
            if self.came[1 - i].load(Ordering::SeqCst) {
                self.met[i].store(true, Ordering::SeqCst);
                break;
            }
        }
    }
}

/// Returns a meeting of two items that have not met.
fn apart() -> Meeting {
    Meeting {
        came: [AtomicBool::new(false), AtomicBool::new(false)],
        met: [AtomicBool::new(false), AtomicBool::new(false)],
    }
}

/// Returns whether both items met.
fn have_met(meeting: &Meeting) -> bool {
    meeting.met[0].load(Ordering::SeqCst) && meeting.met[1].load(Ordering::SeqCst)
}

/// Returns the region of the unit box whose x begins at `x`.
fn slice(rt: &impl Abort, alloc: Global, x: u32) -> Region {
    let [_, _, south, north, bottom, top] = box_halves(&IntBox {
        lo: [0, 0, 0],
        hi: [1, 1, 1],
    });
    let west = Half::new(1, 0, 0, -(x as i64)).expect(rt, "no side in the west");
    let east = Half::new(-1, 0, 0, x as i64 + 1).expect(rt, "no side in the east");
    cell_region(rt, alloc, &[west, east, south, north, bottom, top])
}

/// Returns the name of the box `i` of a row.
fn in_row(rt: &impl Abort, i: u32) -> Name {
    let id = [b'p', b'0' + (i / 10 % 10) as u8, b'0' + (i % 10) as u8];
    Name::new(&id).expect(rt, "no name")
}

/// Registers the unit box `i` of a row.
fn add_slice(rt: &impl Abort, alloc: Global, parcels: &mut Parcels, i: u32)
    requires small { i < 1000 }
    requires later { IsLater (i + 1) parcels.old }
    ensures { IsLater (i + 2) parcels.new }
{
    let id = in_row(rt, i);
    let region = slice(rt, alloc, i);
    register(rt, alloc, &Quiet, parcels, i + 1, id, region);
}

/// Returns a register of `count` unit boxes in a row along x, from 0 on, one at each line.
fn row(rt: &impl Abort, alloc: Global, count: u32) -> Parcels
    requires { count < 1000 }
    ensures { IsLater (count + 1) result }
{
    let mut parcels = nothing(rt, alloc);
    for i in 0..count {
        add_slice(rt, alloc, &mut parcels, i);
    }
    parcels
}

#[test]
fn register_reads_few(rt: HostRuntime) {
    let region = slice(&rt, rt.alloc(), 100);
    let mut parcels = row(&rt, rt.alloc(), 100);
    let visits = VisitCount::counted();
    register(
        &rt,
        rt.alloc(),
        &visits,
        &mut parcels,
        101,
        name(b"last"),
        region,
    );
    assert!(rt; (1..=56).contains(&visits.count()));
}

#[test]
fn questions_read_few(rt: HostRuntime) {
    let alloc = rt.alloc();
    let parcels = row(&rt, alloc, 100);
    let mut work = Work::new(alloc);
    let near = VisitCount::counted();
    let chain = VisitCount::counted();
    let all = VisitCount::counted();
    let found = parcels.neighbours(&rt, alloc, &near, 16, in_row(&rt, 50), &mut work);
    found.expect(&rt, "no neighbours");
    let (first, last) = (in_row(&rt, 0), in_row(&rt, 99));
    let found = parcels.access(&rt, alloc, &chain, 16, first, last, &mut work);
    found.expect(&rt, "no access");
    let found = parcels.audit(&rt, alloc, &all, 16, &mut work);
    found.expect(&rt, "no audit");
    // A walk over all lots would be 100 nodes a question, of which the last two have 100.
    assert!(rt; (1..=56).contains(&near.count()));
    assert!(rt; (100..=5600).contains(&chain.count()));
    assert!(rt; (100..=5600).contains(&all.count()));
}

/// Returns three plots in a row, of which the first is in the middle.
fn three_plots(rt: &impl Abort, alloc: Global) -> Parcels {
    let mut parcels = nothing(rt, alloc);
    register_box(rt, alloc, &mut parcels, 1, name(b"a"), &PLOT);
    register_box(rt, alloc, &mut parcels, 2, name(b"b"), &EAST);
    register_box(rt, alloc, &mut parcels, 3, name(b"c"), &WEST);
    parcels
}

/// Registers a box at the line, and cuts it at the next line into the last two of the ids.
fn register_and_cut(
    rt: &impl Abort,
    alloc: Global,
    parcels: &mut Parcels,
    line: u32,
    bounds: &IntBox,
    ids: &[Name; 3],
    by: &Region,
)
    requires small { line < 1000 }
    requires later { IsLater line parcels.old }
    requires bounds { is_box_in_bounds (integer_box bounds.now) ≡ true }
    ensures { IsLater (line + 2) parcels.new }
{
    register_box(rt, alloc, parcels, line, ids[0], bounds);
    cut(rt, alloc, parcels, line + 1, ids, by);
}

/// Returns two plots that are cut askew, so the boxes of the two sides of each meet.
fn cut_plots(rt: &impl Abort, alloc: Global) -> Parcels {
    let mut parcels = nothing(rt, alloc);
    let (by, ids) = (askew(rt, alloc, 10), [name(b"a"), name(b"a1"), name(b"a2")]);
    register_and_cut(rt, alloc, &mut parcels, 1, &PLOT, &ids, &by);
    let (by, ids) = (askew(rt, alloc, 30), [name(b"b"), name(b"b1"), name(b"b2")]);
    register_and_cut(rt, alloc, &mut parcels, 3, &FAR, &ids, &by);
    parcels
}

#[test]
fn parcel_items_meet(rt: HostRuntime) {
    let parcels = three_plots(&rt, rt.alloc());
    let meeting = apart();
    let mut work = Work::new(rt.alloc());
    let found = parcels.neighbours(&rt, rt.alloc(), &meeting, 1, name(b"a"), &mut work);
    let ids = [name(b"b"), name(b"c")];
    assert_eq!(rt; found.expect(&rt, "no neighbours").items(), ids.as_slice());
    assert!(rt; have_met(&meeting));
    let parcels = cut_plots(&rt, rt.alloc());
    let meeting = apart();
    let mut work = Work::new(rt.alloc());
    let count = parcels.audit(&rt, rt.alloc(), &meeting, 1, &mut work);
    assert_eq!(rt; count.expect(&rt, "no audit"), 4);
    assert_eq!(rt; work.into_proofs().items().len(), 2);
    assert!(rt; have_met(&meeting));
}

#[test]
fn access_items_meet(rt: HostRuntime) {
    let parcels = three_plots(&rt, rt.alloc());
    let meeting = apart();
    let (b, c) = (name(b"b"), name(b"c"));
    let mut work = Work::new(rt.alloc());
    let found = parcels.access(&rt, rt.alloc(), &meeting, 1, b, c, &mut work);
    let chain = found.expect(&rt, "no access").chain.expect(&rt, "no chain");
    assert_eq!(rt; chain.items(), [b, name(b"a"), c].as_slice());
    assert_eq!(rt; work.into_proofs().items().len(), 2);
    assert!(rt; have_met(&meeting));
}
