//! Counts the nodes of the index of lots that the check of a report visits.

use rp_check_state::Register;
use rp_checker::{Found, check_report_in};
use rp_io::QuietSink;
use rp_runner::run::run;
use std::alloc::Global;
use std::process::Abort;
use std::thread::Threads;

/// How many lots there are: a walk over all of them is told from a search.
const LOTS: u32 = 300;

/// The most nodes that a question to the index visits here.
const MOST: u64 = 60;

/// Returns a script that registers a row of unit boxes along x, each of which touches the next.
fn row(rt: &impl Abort, alloc: Global) -> String {
    let mut script = String::new(alloc);
    for i in 0..LOTS {
        let east = i + 1;
        write!(script, "register p{i} box {i} 0 0 {east} 1 1\n").expect(rt, "no memory");
    }
    script
}

/// Returns how many nodes the check visits of the report of a script.
fn visits_of<R: Abort + Threads + Sync>(rt: &R, alloc: Global, script: &[u8]) -> u64 {
    assert!(rt; script.len() <= 16777216);
    let mut sink = QuietSink::new(alloc, 1_000_000).expect(rt, "no memory");
    let refused = run(rt, alloc, script, false, &mut sink).expect(rt, "no memory");
    assert!(rt; !refused);
    let report = sink.bytes();
    assert!(rt; report.len() <= 67108864);
    let mut register = Register::counting(alloc);
    let found = check_report_in(alloc, &mut register, report).expect(rt, "no memory");
    assert_eq!(rt; found, Found::Accepted);
    register.visits()
}

/// Checks the report of a script with a line behind it, which asks the index at most `questions` times.
fn expect_few<R: Abort + Threads + Sync>(
    rt: &R,
    alloc: Global,
    script: &str,
    line: &str,
    questions: u64,
) {
    let longer = format!(in alloc; "{script}{line}\n").expect(rt, "no memory");
    let before = visits_of(rt, alloc, script.as_bytes());
    let visits = visits_of(rt, alloc, longer.as_bytes()).saturating_sub(before);
    assert!(rt;
        (1..=MOST.saturating_mul(questions)).contains(&visits),
        "{visits} nodes on {line:?}"
    );
}

#[test]
fn the_check_searches_the_index_of_lots(rt: HostRuntime) {
    let alloc = rt.alloc();
    let script = row(&rt, alloc);
    let lines = [
        ("register last box 300 0 0 301 1 1", 1),
        ("neighbours p150", 1),
        ("access p0 p299", 301),
        ("audit", 301),
        ("at 150 0 0 1", 1),
        ("asof 200 150 0 0 1", 33),
    ];
    for (line, questions) in lines {
        expect_few(&rt, alloc, script.as_str(), line, questions);
    }
}

/// Names of layers whose bytes are one number modulo 2^18, as digits to the base 131: a table by such a number would
/// have their lots in one place.
const ALIKE: [&str; 12] = [
    "aaaaxciz", "aaabvnpg", "aaaclsuh", "aaadbxzi", "aaafuleq", "aaagypsf", "aaahouxg", "aaajgbll",
    "aaakxnhp", "aaaltlty", "aaamjqyz", "aaannfcb",
];

/// Returns a script that registers the same box in each of the layers with names that are alike.
fn one_place(rt: &impl Abort, alloc: Global) -> String {
    let mut script = String::new(alloc);
    for layer in ALIKE {
        write!(
            script,
            "layer {layer}\nregister in-{layer} box 0 0 0 9 9 9\n"
        )
        .expect(rt, "no memory");
    }
    script
}

#[test]
fn a_layer_visits_no_lot_of_another(rt: HostRuntime) {
    let alloc = rt.alloc();
    let script = one_place(&rt, alloc);
    for line in ["at 4 4 4 1", "register beside box 9 0 0 18 9 9"] {
        let longer = format!(in alloc; "{script}{line}\n").expect(&rt, "no memory");
        let before = visits_of(&rt, alloc, script.as_bytes());
        let visits = visits_of(&rt, alloc, longer.as_bytes()).saturating_sub(before);
        // One lot is in the last layer, and each of three turns visits it at most.
        assert!(rt; (1..=3).contains(&visits), "{visits} nodes on {line:?}");
    }
}
