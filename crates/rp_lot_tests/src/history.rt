ghost use Rattle.std.specs.Prelude.{◌≡◌, length};
ghost use Rattle.rp_history.specs.Lots.{AreBornBefore};

use crate::names::name;
use rp_history::{Birth, History};
use rp_lists::Names;
use std::alloc::Global;
use std::process::Abort;

/// Returns a history with one lot, whose id is `plot`, in the layer `land`.
pub fn with_plot(rt: &impl Abort, alloc: Global) -> History
    ensures one { length result ≡ 1 }
    ensures born { AreBornBefore 2 result }
{
    let mut history = History::new(alloc);
    let birth = Birth {
        id: name(b"plot"),
        layer: name(b"land"),
        origins: Names::new(alloc),
    };
    history
        .note(alloc, 1, &[birth], &[])
        .expect(rt, "no memory");
    history
}

#[test]
fn a_lot_that_ended_is_in_its_lineage(rt: HostRuntime) {
    let plot = name(b"plot");
    let mut history = with_plot(&rt, rt.alloc());
    assert_eq!(rt; history.live_place(&plot), Some(0));
    history.end(2, plot);
    assert!(rt; history.alive(plot, 1));
    assert_eq!(rt; history.place_of(&plot), Some(0));
    let lineage = history.lineage(rt.alloc(), plot).expect(&rt, "no memory");
    assert_eq!(rt; lineage.items(), [plot].as_slice());
    assert_eq!(rt; history.lots().len(), 1);
}

#[test]
fn names_are_checked(rt: HostRuntime) {
    let (plot, west, east) = (name(b"plot"), name(b"west"), name(b"east"));
    let history = with_plot(&rt, rt.alloc());
    assert!(rt; history.check_new(west).is_ok());
    assert_eq!(rt; history.check_live(plot).ok(), Some(0));
    assert_eq!(rt; history.check_cut(plot, west, east).ok(), Some(0));
    let divided = history.check_subdivide(rt.alloc(), plot, &[west, east]);
    assert_eq!(rt; divided.ok(), Some(0));
    let layer = history.check_access(plot, plot);
    assert_eq!(rt; layer.ok(), Some(name(b"land")));
    assert_eq!(rt; history.layer_of(&plot), name(b"land"));
}
