use rp_seal_text::{ACTS_MARK, read_acts, write_act, write_end};
use std::alloc::Global;
use std::process::Abort;

/// A stream of two acts.
static STREAM: &str =
    "rpstore acts 1\nact 3\nfirst 7\nlast 9\nadded 4\n2026\nwho 8\nA. Clerk\nno deed\nlines 12\nretire west\n\nact 4\nfirst 10\nlast 10\nadded 0\n\nno who\ndeed 3\n1/2\nlines 1\n\n\nend 2\n";

/// A stream of no act.
static NONE: &str = "rpstore acts 1\nend 0\n";

/// Changes that make `STREAM` no stream of acts: a part of it, and what it is replaced by.
static CHANGES: [(&str, &str); 8] = [
    ("rpstore acts 1", "rpstore acts 2"),
    ("rpstore acts 1\n", ""),
    ("end 2\n", ""),
    ("end 2\n", "end 2"),
    ("end 2\n", "end 1\n"),
    ("end 2\n", "end 3\n"),
    ("end 2\n", "end 2\n\n"),
    ("lines 1\n\n\n", "lines 1\n\n"),
];

/// Returns the text of the acts of `text`; empty if `text` is no stream of acts.
fn written_again(rt: &impl Abort, alloc: Global, text: &[u8]) -> Vec<u8> {
    let mut again = Vec::new(alloc);
    let found = read_acts(alloc, text).expect(rt, "no memory");
    let Some(acts) = found else {
        return again;
    };
    again.extend_from_slice(ACTS_MARK).expect(rt, "no memory");
    for act in acts.iter() {
        write_act(&mut again, act).expect(rt, "no memory");
    }
    write_end(&mut again, acts.len() as u64).expect(rt, "no memory");
    again
}

#[test]
fn streams_are_read_whole(rt: HostRuntime) {
    for text in [STREAM, NONE].iter() {
        let again = written_again(&rt, rt.alloc(), text.as_bytes());
        assert!(rt; again.as_slice() == text.as_bytes());
    }
}

#[test]
fn other_streams_are_refused(rt: HostRuntime) {
    for (old, new) in CHANGES.iter() {
        let (before, after) = STREAM.split_once(old).expect(&rt, "no such part");
        let mut text = String::from_str(rt.alloc(), before).expect(&rt, "no memory");
        text.push_str(new).expect(&rt, "no memory");
        text.push_str(after).expect(&rt, "no memory");
        let again = written_again(&rt, rt.alloc(), text.as_bytes());
        assert!(rt; again.is_empty());
    }
}
