ghost use Rattle.std.specs.Prelude.{◌+◌, ◌<◌, length, IfOk, OnOk};
ghost use Rattle.rp_model.specs.states.State.{state_of_parts};
ghost use Rattle.rp_model.specs.states.Sound.{IsLaterThan};

use rp_command::{Expr, Version};
use rp_machine::Machine;
use rp_region::Work;
use rp_space::IntBox;
use rp_text::write_answer;
use std::alloc::{AllocError, Global};
use std::process::Abort;
use std::thread::Threads;

/// Returns a machine for a script of `version`, before its first line.
fn opened(alloc: Global, version: Version) -> Result<Machine, AllocError>
    ensures { IfOk result (λ m. IsLaterThan 1 (state_of_parts m.state)) }
{
    Machine::new(alloc, version)
}

/// Takes one line, and returns the echo and the verdict lines of its answer.
fn told<R: Abort + Threads + Sync>(
    rt: &R,
    alloc: Global,
    machine: &mut Machine,
    n: u32,
    line: &str,
) -> Vec<u8>
    requires { IsLaterThan n (state_of_parts machine.old.state) }
    ensures { IsLaterThan (n + 1) (state_of_parts machine.new.state) }
{
    let answer = machine
        .step(rt, alloc, n, line.as_bytes())
        .expect(rt, "no memory");
    let mut text = Vec::new(alloc);
    write_answer(&answer, true, &mut text).expect(rt, "no memory");
    text
}

/// Compares the text of the answer to a line.
fn expect_text(rt: &impl Abort, alloc: Global, text: &[u8], n: u32, line: &str, verdicts: &str) {
    let want = format!(in alloc; "> {n} {line}\n{verdicts}\n").expect(rt, "no memory");
    assert_eq!(rt; text, want.as_bytes(), "on {line:?}");
}

/// Takes one line, and compares the verdict lines of its answer.
fn expect_told<R: Abort + Threads + Sync>(
    rt: &R,
    alloc: Global,
    machine: &mut Machine,
    n: u32,
    line: &str,
    verdicts: &str,
)
    requires { IsLaterThan n (state_of_parts machine.old.state) }
    ensures { IsLaterThan (n + 1) (state_of_parts machine.new.state) }
{
    let text = told(rt, alloc, machine, n, line);
    expect_text(rt, alloc, &text, n, line, verdicts);
}

/// Takes lines in turn, of which the first has the number, and compares the verdict lines of each answer.
fn expect_from<R: Abort + Threads + Sync>(
    rt: &R,
    alloc: Global,
    machine: &mut Machine,
    first: u32,
    rows: &[(&str, &str)],
)
    requires later { IsLaterThan first (state_of_parts machine.old.state) }
    requires few { first + length rows.now < 100000 }
{
    let mut n = first;
    for (line, verdicts) in rows {
        expect_told(rt, alloc, machine, n, line, verdicts);
        n += 1;
    }
}

/// Takes lines of a version in turn in the opening state, and compares the verdict lines of each answer.
fn expect_in_turn<R: Abort + Threads + Sync>(
    rt: &R,
    alloc: Global,
    version: Version,
    rows: &[(&str, &str)],
)
    requires { length rows.now < 1000 }
{
    let mut machine = opened(alloc, version).expect(rt, "no memory");
    expect_from(rt, alloc, &mut machine, 1, rows);
}

#[test]
fn regions_are_named_and_shown(rt: HostRuntime) {
    let rows = [
        ("let low = box 0 0 0 4 4 4", "= ok"),
        ("let high = minus box 0 0 0 4 4 8 name low", "= ok"),
        ("member name high 1 1 4 1", "= yes"),
        ("empty and name low name high", "= yes"),
        (
            "show name high",
            "= parts 1\n= part (0 0 -1 8) (1 0 0 0) (-1 0 0 4) (0 1 0 0) (0 -1 0 4) (0 0 1 -4)",
        ),
        (
            "pieces or or box 0 0 0 1 1 1 box 5 0 0 6 1 1 box 1 0 0 2 1 1",
            "= pieces 2\n= piece 1 3\n= piece 2",
        ),
        (
            "equal prism 0 10 4 0 0 10 0 10 10 0 10 box 0 0 0 10 10 10",
            "= yes",
        ),
        ("let low = all", "= refused known low"),
        ("empty lot low", "= refused unknown low"),
        ("member half 1 0 0 0 0 5 5", "= refused syntax"),
        ("member half 0 0 0 0 0 5 5 1", "= refused zero"),
        ("member half 1 0 0 0 0 5 5 0", "= refused range"),
    ];
    expect_in_turn(&rt, rt.alloc(), Version::One, &rows);
}

#[test]
fn two_regions_are_compared(rt: HostRuntime) {
    let rows = [
        ("let a = box 0 0 0 10 10 10", "= ok"),
        ("let b = box 10 0 0 20 10 10", "= ok"),
        ("overlap name a name b", "= no"),
        ("contact name a name b", "= yes"),
        ("within box 1 1 1 9 9 9 name a", "= yes"),
        ("rcc name a name b", "= EC"),
        ("rcc name a box 11 0 0 20 10 10", "= DC"),
        ("rcc name a name a", "= EQ"),
        ("rcc name a box 5 0 0 15 10 10", "= PO"),
        ("rcc box 0 0 0 5 5 5 name a", "= TPP"),
        ("rcc box 1 1 1 9 9 9 name a", "= NTPP"),
        ("rcc name a box 0 0 0 5 5 5", "= TPPi"),
        ("rcc name a box 1 1 1 9 9 9", "= NTPPi"),
        ("rcc all none", "= refused emptyregion 2"),
    ];
    expect_in_turn(&rt, rt.alloc(), Version::One, &rows);
}

#[test]
fn coordinates_are_read_by_the_version(rt: HostRuntime) {
    let rows = [
        (
            "show box -0.001 0.000 0.000 0.001 0.002 0.003",
            "= parts 1\n= part (1 0 0 1) (-1 0 0 1) (0 1 0 0) (0 -1 0 2) (0 0 1 0) (0 0 -1 3)",
        ),
        ("member all 5 0.000 0.000 1", "= refused syntax"),
    ];
    expect_in_turn(&rt, rt.alloc(), Version::Two, &rows);
}

#[test]
fn sections_are_rings_or_flat(rt: HostRuntime) {
    let rows = [
        (
            "section box 0 0 0 10 10 10 5",
            "= sections 1\n= ring (1 0 0) (0 0 5 1) (0 1 0) (10 0 5 1) (-1 0 10) (10 10 5 1) (0 -1 10) (0 10 5 1)",
        ),
        (
            "section box 0 0 0 10 10 10 10",
            "= sections 1\n= flat 1*(0 0 -1 10)",
        ),
    ];
    expect_in_turn(&rt, rt.alloc(), Version::One, &rows);
}

#[test]
fn chains_of_lots_are_shortest(rt: HostRuntime) {
    let rows = [
        ("register a box 0 0 0 10 10 10", "= ok"),
        ("register b box 10 0 0 20 10 10", "= ok"),
        ("register c box 20 0 0 30 10 10", "= ok"),
        ("register d box 50 0 0 60 10 10", "= ok"),
        (
            "access a c",
            "= access 2\n= parcel a\n= parcel b\n= parcel c\n= level 2 a\n= level 1 b\n= level 0 c",
        ),
        ("access a d", "= noaccess\n= level 0 d"),
    ];
    expect_in_turn(&rt, rt.alloc(), Version::One, &rows);
}

#[test]
fn the_register_refuses_in_order(rt: HostRuntime) {
    let rows = [
        ("register a box 0 0 0 10 10 10", "= ok"),
        ("register b box 10 0 0 20 10 10", "= ok"),
        ("register a none", "= refused known a"),
        ("register c none", "= refused empty"),
        ("register c box 5 0 0 15 10 10", "= refused overlaps a"),
        ("cut a all c c", "= refused same"),
        ("cut a lot b c d", "= refused emptyside 1"),
        ("subdivide x 1 a all", "= refused few"),
        ("subdivide a 2 c none c none", "= refused repeated c"),
        ("subdivide a 2 c none d none", "= refused emptychild 1"),
        (
            "subdivide a 2 c box 0 0 0 5 10 10 d box 5 0 0 11 10 10",
            "= refused outside 2",
        ),
        (
            "subdivide a 2 c box 0 0 0 6 10 10 d box 5 0 0 10 10 10",
            "= refused childrenoverlap 1 2",
        ),
        (
            "subdivide a 2 c box 0 0 0 4 10 10 d box 5 0 0 10 10 10",
            "= refused gap",
        ),
        ("layer rights", "= ok"),
        ("register r box 0 0 0 1 1 1", "= ok"),
        ("consolidate a 2 a r", "= refused layers r"),
        ("retire x", "= refused unknown x"),
        ("layer base", "= ok"),
        (
            "list",
            "= parcels 3\n= lot a born 1 live\n= lot b born 2 live\n= lot r born 15 live layer rights",
        ),
    ];
    expect_in_turn(&rt, rt.alloc(), Version::One, &rows);
}

#[test]
fn lots_come_and_go(rt: HostRuntime) {
    let rows = [
        ("register a box 0 0 0 10 10 10", "= ok"),
        ("register b box 10 0 0 20 10 10", "= ok"),
        ("neighbours a", "= neighbours 1\n= parcel b"),
        ("cut a half 1 0 0 -5 a1 a2", "= ok"),
        (
            "subdivide b 2 b1 box 10 0 0 15 10 10 b2 box 15 0 0 20 10 10",
            "= ok",
        ),
        ("consolidate c 2 a1 b1", "= ok"),
        ("retire b2", "= ok"),
        (
            "history c",
            "= lots 5\n= lot a born 1 ended 4\n= lot b born 2 ended 5\n= lot a1 born 4 ended 6 from a\n= lot b1 born 5 ended 6 from b\n= lot c born 6 live from a1 b1",
        ),
        ("at 7 5 5 1", "= parcel c"),
        ("asof 5 7 5 5 1", "= parcel a1"),
        ("at 17 5 5 1", "= nobody"),
        ("audit", "= clear 2"),
    ];
    expect_in_turn(&rt, rt.alloc(), Version::One, &rows);
}

#[test]
fn a_line_counts_at_most_65536_tests(rt: HostRuntime) {
    let rows = [
        ("let a = or box 0 0 0 1 1 1 box 2 0 0 3 1 1", "= ok"),
        ("let b = or or or name a name a name a name a", "= ok"),
        ("let c = or or or name b name b name b name b", "= ok"),
        ("let d = or or or name c name c name c name c", "= ok"),
        // 256 boxes, and 257 boxes.
        ("let e = or name d name d", "= ok"),
        ("let f = or name e box 4 0 0 5 1 1", "= ok"),
        ("overlap name e name e", "= yes"),
        ("contact name e name e", "= yes"),
        ("overlap name f name f", "= refused limit"),
        ("contact name f name f", "= refused limit"),
        // As many boxes elsewhere, so that each of the 65,536 tests is made.
        ("let p = or box 0 0 9 1 1 10 box 2 0 9 3 1 10", "= ok"),
        ("let q = or or or name p name p name p name p", "= ok"),
        ("let r = or or or name q name q name q name q", "= ok"),
        ("let s = or or or name r name r name r name r", "= ok"),
        ("overlap name e or name s name s", "= no"),
        ("overlap name f or name s name s", "= refused limit"),
    ];
    expect_in_turn(&rt, rt.alloc(), Version::One, &rows);
}

#[test]
fn live_lots_are_counted_and_forms_made(rt: HostRuntime) {
    let alloc = rt.alloc();
    let mut machine = opened(alloc, Version::One).expect(&rt, "no memory");
    let line = "register a box 0 0 0 10 10 10";
    expect_told(&rt, alloc, &mut machine, 1, line, "= ok");
    assert_eq!(rt; machine.count_live(), 1);
    let block = Expr::Block(IntBox {
        lo: [0; 3],
        hi: [4, 4, 4],
    });
    let outside = Expr::Not(Box::new(alloc, block).expect(&rt, "no memory"));
    let mut work = Work::new(alloc);
    let form = machine
        .form(alloc, &outside, &mut work)
        .expect(&rt, "no form");
    assert_eq!(rt; form.parts().len(), 6);
    assert_eq!(rt; work.tests(), 7);
}
