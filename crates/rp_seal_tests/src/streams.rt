use rp_seal::SealedAct;
use rp_seal_text::{ACTS_MARK, read_act, read_end, write_act, write_end};

/// A stream of two acts.
static STREAM: &str =
    "rpstore acts 1\nact 0\nfirst 0\nlast 0\nadded 0\n\nno who\nno deed\nlines 0\n\nact 1\nfirst 1\nlast 2\nadded 1\nx\nwho 0\n\ndeed 7\n12\n34 5\nlines 4\n\n\nb\n\nend 2\n";

/// Texts that are no last line of a stream.
static NO_ENDS: [&str; 6] = [
    "",
    "end 2",
    "end 02\n",
    "end  2\n",
    "end 2\n\n",
    "end 18446744073709551616\n",
];

/// The two acts of the stream.
static ACTS: [SealedAct<'static>; 2] = [
    SealedAct {
        number: 0,
        first: 0,
        last: 0,
        added: "",
        who: None,
        deed: None,
        lines: b"",
    },
    SealedAct {
        number: 1,
        first: 1,
        last: 2,
        added: "x",
        who: Some(""),
        deed: Some("12\n34 5"),
        lines: b"\n\nb\n",
    },
];

/// Returns whether two acts have the same fields.
fn is_same(a: &SealedAct<'_>, b: &SealedAct<'_>) -> bool {
    let same_numbers = a.number == b.number && a.first == b.first && a.last == b.last;
    let same_added = a.added == b.added;
    let same_who = a.who == b.who;
    let same_deed = a.deed == b.deed;
    let same_lines = a.lines == b.lines;
    same_numbers && same_added && same_who && same_deed && same_lines
}

#[test]
fn a_stream_is_written(rt: HostRuntime) {
    let mut text = Vec::from_slice(rt.alloc(), ACTS_MARK).expect(&rt, "no memory");
    for act in ACTS.iter() {
        write_act(&mut text, act).expect(&rt, "no memory");
    }
    write_end(&mut text, 2).expect(&rt, "no memory");
    assert!(rt; text.as_slice() == STREAM.as_bytes());
}

#[test]
fn a_stream_is_read(rt: HostRuntime) {
    let mut rest = STREAM
        .as_bytes()
        .strip_prefix(ACTS_MARK)
        .expect(&rt, "no mark");
    for wanted in ACTS.iter() {
        let (act, more) = read_act(rest).expect(&rt, "no act");
        assert!(rt; is_same(&act, wanted));
        rest = more;
    }
    assert!(rt; read_act(rest).is_none());
    assert_eq!(rt; read_end(rest), Some(2));
}

#[test]
fn other_ends_are_refused(rt: HostRuntime) {
    for text in NO_ENDS.iter() {
        assert!(rt; read_end(text.as_bytes()).is_none());
    }
}
