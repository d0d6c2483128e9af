//! Tests of scripts that are spelled, upgraded and made, and of the words that name a task.
use rp_io::QuietSink;
use rp_scripts::make::make;
use rp_scripts::spell::spell;
use rp_scripts::upgrade::upgrade;
use rp_scripts::{Building, MadeTask, Task, listed_task};
use std::alloc::Global;
use std::process::Abort;

/// Returns a sink with room for a short script.
fn sheet(rt: &impl Abort, alloc: Global) -> QuietSink {
    QuietSink::new(alloc, 1000).expect(rt, "no memory")
}

#[test]
fn spells_each_command(rt: HostRuntime) {
    let mut sink = sheet(&rt, rt.alloc());
    let script = "rp 2\nmember half 2 0 0 -4 0.002 0.004 0.006 2\n# note\nwalk\n";
    let has_bad_line = spell(rt.alloc(), script.as_bytes(), &mut sink);
    assert_eq!(rt; has_bad_line, Ok(true));
    let want = "rp 2\nmember half 1 0 0 -2 0.001 0.002 0.003 1\n";
    assert_eq!(rt; sink.bytes(), want.as_bytes());
}

#[test]
fn upgrades_scripts(rt: HostRuntime) {
    let mut sink = sheet(&rt, rt.alloc());
    let script = "member box 0 0 0 10 10 10 5 3 5 9\n# a note\nwalk\n";
    let has_bad_line = upgrade(rt.alloc(), script.as_bytes(), &mut sink);
    assert_eq!(rt; has_bad_line, Ok(true));
    let want =
        "rp 2\nmember box 0.000 0.000 0.000 0.010 0.010 0.010 0.005 0.003 0.005 9\n# a note\n\n";
    assert_eq!(rt; sink.bytes(), want.as_bytes());
}

#[test]
fn makes_scripts_from_their_seeds(rt: HostRuntime) {
    let mut sink = sheet(&rt, rt.alloc());
    let building = Building {
        storeys: 2,
        seed: u64::MAX,
    };
    assert_eq!(rt; make(rt.alloc(), building, &mut sink), Ok(()));
    let want =
        "register s0 box 0 0 0 60000 40000 3000\ncut s0 half 6 8 0 -340000 s0a s0b\nneighbours s0a\nregister s1 box 0 0 3000 60000 40000 6000\ncut s1 half 1 1 0 -50000 s1a s1b\nneighbours s1a\naudit\nlist\n";
    assert_eq!(rt; sink.bytes(), want.as_bytes());
}

#[test]
fn words_name_a_task(rt: HostRuntime) {
    let mut words = Vec::new(rt.alloc());
    for text in ["trial", "1000", "18446744073709551615"] {
        words
            .push(String::from_str(rt.alloc(), text).expect(&rt, "no memory"))
            .expect(&rt, "no memory");
    }
    let greatest = Building {
        storeys: 1000,
        seed: u64::MAX,
    };
    let task = Some(Task::Made(MadeTask::Try, greatest));
    assert_eq!(rt; listed_task(&words), task);
}
