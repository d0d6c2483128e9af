//! Counts the nodes of the index of lots that a line visits, on the path that the program goes.
ghost use Rattle.std.specs.Prelude.{◌+◌, ◌<◌, ◌≤◌};
ghost use Rattle.rp_model.specs.states.State.{state_of_parts};
ghost use Rattle.rp_model.specs.states.Sound.{IsLaterThan};

use rp_command::Version;
use rp_machine::Machine;
use std::alloc::Global;
use std::process::Abort;
use std::thread::Threads;

/// How many lots there are: a walk over all of them is told from a search.
const LOTS: u32 = 300;

/// The most nodes that a question to the index visits here.
const MOST: u64 = 60;

/// Takes line `n` and returns how many nodes it visits.
fn visits_of<R: Abort + Threads + Sync>(
    rt: &R,
    alloc: Global,
    machine: &mut Machine,
    n: u32,
    line: &str,
) -> u64
    requires { IsLaterThan n (state_of_parts machine.old.state) }
    ensures { IsLaterThan (n + 1) (state_of_parts machine.new.state) }
{
    let before = machine.visits();
    machine
        .step(rt, alloc, n, line.as_bytes())
        .expect(rt, "no memory");
    machine.visits().saturating_sub(before)
}

/// Takes line `n`, which asks the index at most `questions` times.
fn expect_few<R: Abort + Threads + Sync>(
    rt: &R,
    alloc: Global,
    machine: &mut Machine,
    n: u32,
    line: &str,
    questions: u64,
)
    requires { IsLaterThan n (state_of_parts machine.old.state) }
    ensures { IsLaterThan (n + 1) (state_of_parts machine.new.state) }
{
    let visits = visits_of(rt, alloc, machine, n, line);
    assert!(rt;
        (1..=MOST.saturating_mul(questions)).contains(&visits),
        "{visits} nodes on {line:?}"
    );
}

/// Registers the unit box from `i` to `i + 1` of a row along x, at line `i + 1`.
fn add_lot<R: Abort + Threads + Sync>(rt: &R, alloc: Global, machine: &mut Machine, i: u32)
    requires small { i < 1000 }
    requires later { IsLaterThan (i + 1) (state_of_parts machine.old.state) }
    ensures { IsLaterThan (i + 2) (state_of_parts machine.new.state) }
{
    let east = i + 1;
    let line = format!(in alloc; "register p{i} box {i} 0 0 {east} 1 1").expect(rt, "no memory");
    visits_of(rt, alloc, machine, east, line.as_str());
}

/// Returns a machine that counts and has answered no line.
fn opened(alloc: Global) -> Machine
    ensures { IsLaterThan 1 (state_of_parts result.state) }
{
    Machine::counting(alloc, Version::One)
}

/// Returns a machine that counts, with a row of lots along x, each of which touches the next.
fn row<R: Abort + Threads + Sync>(rt: &R, alloc: Global, count: u32) -> Machine
    requires { count < 1000 }
    ensures { IsLaterThan (count + 1) (state_of_parts result.state) }
{
    let mut machine = opened(alloc);
    for i in 0..count {
        add_lot(rt, alloc, &mut machine, i);
    }
    machine
}

#[test]
fn lines_search_the_index_of_lots(rt: HostRuntime) {
    let alloc = rt.alloc();
    let mut machine = row(&rt, alloc, LOTS);
    let lines = [
        ("register last box 300 0 0 301 1 1", 1),
        ("neighbours p150", 1),
        ("access p0 p299", 301),
        ("audit", 301),
        ("at 150 0 0 1", 1),
        ("asof 200 150 0 0 1", 33),
    ];
    let mut n = LOTS + 1;
    for (line, questions) in lines {
        expect_few(&rt, alloc, &mut machine, n, line, questions);
        n += 1;
    }
}
