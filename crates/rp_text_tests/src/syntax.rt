use rp_command::{Line, Version};
use rp_spelling::write_command;
use rp_syntax::read_line;
use std::alloc::Global;
use std::process::Abort;

/// Reads a line of a version that is a command, writes the command in another version, and compares its spelling.
fn expect_written(
    rt: &impl Abort,
    alloc: Global,
    from: Version,
    into: Version,
    line: &[u8],
    want: &[u8],
) {
    match read_line(alloc, from, line).expect(rt, "no memory") {
        Line::Cmd(command) => {
            let mut out = Vec::new(alloc);
            write_command(into, &command, &mut out).expect(rt, "no memory");
            assert_eq!(rt; out.as_slice(), want);
        }
        _ => panic!(rt; "no command: {line:?}"),
    }
}

/// Reads a line of version 1 that is a command, writes the command, and compares its spelling.
fn expect_spelling(rt: &impl Abort, alloc: Global, line: &[u8]) {
    expect_written(rt, alloc, Version::One, Version::One, line, line);
}

#[test]
fn every_command_is_read_and_written(rt: HostRuntime) {
    for line in [
        b"let a = half 1 0 0 -2".as_slice(),
        b"let let = name let",
        b"member box 0 0 0 10 10 10 5 5 5 1",
        b"empty all",
        b"pieces lot tower.2",
        b"show not name a_b-c",
        b"equal name a lot a",
        b"within and all none or none all",
        b"overlap minus name a name b minus name b name a",
        b"contact half 0 0 0 -1 half 0 0 0 1",
        b"rcc box -16777216 -16777216 -16777216 16777216 16777216 16777216 all",
        b"register p box 0 0 0 1 1 1",
        b"cut p half 1 1 0 -10 east west",
        b"subdivide p 2 a box 0 0 0 5 10 10 b not all",
        b"consolidate q 3 east west north",
        b"retire p",
        b"neighbours p",
        b"history p",
        b"at 5 5 5 1",
        b"asof 0 5 5 5 2",
        b"audit",
        b"list",
        b"layer rights",
        b"show prism 0 10 3 0 0 10 0 10 10",
        b"section box 0 0 0 10 10 10 5",
        b"access a b",
    ] {
        expect_spelling(&rt, rt.alloc(), line);
    }
}

#[test]
fn expressions_nest_up_to_the_limit_of_nodes(rt: HostRuntime) {
    let alloc = rt.alloc();
    let mut line = Vec::from_slice(alloc, b"empty ").expect(&rt, "no memory");
    for _ in 0..1023u32 {
        line.extend_from_slice(b"not ").expect(&rt, "no memory");
    }
    line.extend_from_slice(b"all").expect(&rt, "no memory");
    expect_spelling(&rt, alloc, line.as_slice());
}

#[test]
fn a_command_of_version_1_is_spelled_in_version_2(rt: HostRuntime) {
    for (line, want) in [
        (
            b"member box 0 0 0 10 10 10 5 3 5 9".as_slice(),
            b"member box 0.000 0.000 0.000 0.010 0.010 0.010 0.005 0.003 0.005 9".as_slice(),
        ),
        (b"at -2 4 6 2", b"at -0.001 0.002 0.003 1"),
        (
            b"section half 2 0 0 -4 -12345",
            b"section half 1 0 0 -2 -12.345",
        ),
        (
            b"show prism 0 10 3 0 0 1000 0 7 -8",
            b"show prism 0.000 0.010 3 0.000 0.000 1.000 0.000 0.007 -0.008",
        ),
    ] {
        expect_written(&rt, rt.alloc(), Version::One, Version::Two, line, want);
        expect_written(&rt, rt.alloc(), Version::Two, Version::Two, want, want);
    }
}
