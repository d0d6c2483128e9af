use rp_seal::{NodeHash, check_consistency, check_inclusion, encode_act};
use rp_seal_text::{ActProof, act_proof_text, link_text, read_act_proof, read_link};
use std::alloc::Global;
use std::process::Abort;

/// An act with its proof in a log of two entries, the second of no bytes. The hash is base64 of Python's standard
/// library.
static ACT_PROOF: &str =
    "rpstore act 1\nact 3\nfirst 7\nlast 9\nadded 19\n2026-11-30 12:00:00\nwho 8\nA. Clerk\nno deed\nlines 12\nretire west\n\nsize 2\nproof 1\nbjQLnP+zepicpUTmu3gKLHiQHT+zNzh2hRGjBhevoB0=\n";

/// The root hash of that log in hex, by Python's standard library.
static ROOT: &str = "2b426383ed834b6270519e1fd270cc568b81c050d38db921444397ad5b94c88c";

/// The root hash of its first entry, by Python's standard library.
static FIRST_ROOT: &str = "43351c908b59c0b3419034c826865f39183f5491352e187275bc771f9e7d1fbe";

/// A link from the first entry of that log to both.
static LINK: &str =
    "rpstore link 1\nfrom 1\nto 2\nproof 1\nbjQLnP+zepicpUTmu3gKLHiQHT+zNzh2hRGjBhevoB0=\n";

/// Changes that make `ACT_PROOF` no act proof: a part of it, and what it is replaced by.
static ACT_CHANGES: [(&str, &str); 20] = [
    ("rpstore act 1", "rpstore act 2"),
    ("act 3\n", ""),
    ("\nact 3", "\nact 03"),
    ("\nact 3", "\nact 4294967296"),
    ("first 7", "first +7"),
    ("last 9", "last  9"),
    ("added 19", "added 18"),
    ("added 19", "added 20"),
    ("who 8", "who 18446744073709551615"),
    ("who 8", "Who 8"),
    ("no deed", "no Deed"),
    ("no deed", "no  deed"),
    ("no deed", "deed none"),
    ("no deed\n", ""),
    ("size 2", "size 18446744073709551616"),
    ("proof 1", "proof 0"),
    ("proof 1", "proof 2"),
    ("oB0=", "oB1="),
    ("oB0=\n", "oB0="),
    ("oB0=\n", "oB0=\n\n"),
];

/// Changes that make `LINK` no link.
static LINK_CHANGES: [(&str, &str); 8] = [
    ("rpstore link 1", "rpstore act 1"),
    ("from 1\n", ""),
    ("from 1", "from 01"),
    ("to 2", "to -2"),
    ("to 2", "to 2 "),
    ("proof 1", "proof 2"),
    ("oB0=\n", "oB0=\r\n"),
    ("oB0=\n", "oB0=\nx"),
];

/// Returns `text` with its first `old` replaced by `new`.
fn changed(rt: &impl Abort, alloc: Global, text: &str, old: &str, new: &str) -> String {
    let (before, after) = text.split_once(old).expect(rt, "no such part");
    let mut made = String::from_str(alloc, before).expect(rt, "no memory");
    made.push_str(new).expect(rt, "no memory");
    made.push_str(after).expect(rt, "no memory");
    made
}

/// Returns whether the act of `proof` is the act of the tests.
fn is_the_act(proof: &ActProof<'_>) -> bool {
    proof.act.number == 3
        && proof.act.first == 7
        && proof.act.last == 9
        && proof.act.added == "2026-11-30 12:00:00"
        && proof.act.who == Some("A. Clerk")
        && proof.act.deed.is_none()
        && proof.act.lines == b"retire west\n".as_slice()
}

#[test]
fn an_act_proof_is_read_checked_and_written(rt: HostRuntime) {
    let found = read_act_proof(rt.alloc(), ACT_PROOF.as_bytes()).expect(&rt, "no memory");
    let proof = found.expect(&rt, "no act proof");
    assert!(rt; is_the_act(&proof));
    let entry = encode_act(rt.alloc(), &proof.act).expect(&rt, "no memory");
    let root = NodeHash::from_hex(ROOT).expect(&rt, "no hash");
    assert!(rt;
        check_inclusion(
            &root,
            proof.size,
            0,
            entry.as_slice(),
            proof.proof.as_slice()
        )
    );
    let text = act_proof_text(rt.alloc(), &proof).expect(&rt, "no memory");
    assert!(rt; text.as_slice() == ACT_PROOF.as_bytes());
}

#[test]
fn other_act_proofs_are_refused(rt: HostRuntime) {
    for (old, new) in ACT_CHANGES.iter() {
        let text = changed(&rt, rt.alloc(), ACT_PROOF, old, new);
        let found = read_act_proof(rt.alloc(), text.as_bytes()).expect(&rt, "no memory");
        assert!(rt; found.is_none());
    }
    let mark = read_act_proof(rt.alloc(), b"rpstore act 1\n").expect(&rt, "no memory");
    assert!(rt; mark.is_none());
}

/// Returns the bytes of `ACT_PROOF` with each byte of the first `old` replaced by one that is in no UTF-8.
fn with_stray_bytes(rt: &impl Abort, alloc: Global, old: &str) -> Vec<u8> {
    let (before, after) = ACT_PROOF.split_once(old).expect(rt, "no such part");
    let mut bytes = Vec::from_slice(alloc, before.as_bytes()).expect(rt, "no memory");
    for _ in old.as_bytes() {
        bytes.push(255).expect(rt, "no memory");
    }
    bytes
        .extend_from_slice(after.as_bytes())
        .expect(rt, "no memory");
    bytes
}

#[test]
fn only_lines_may_be_no_utf8(rt: HostRuntime) {
    for old in ["12:00", "Clerk", "first"].iter() {
        let bytes = with_stray_bytes(&rt, rt.alloc(), old);
        let found = read_act_proof(rt.alloc(), bytes.as_slice()).expect(&rt, "no memory");
        assert!(rt; found.is_none());
    }
    let bytes = with_stray_bytes(&rt, rt.alloc(), "west");
    let found = read_act_proof(rt.alloc(), bytes.as_slice()).expect(&rt, "no memory");
    let proof = found.expect(&rt, "no act proof");
    assert!(rt; proof.act.lines == b"retire \xff\xff\xff\xff\n".as_slice());
}

/// Returns the text of a link with `count` hashes.
fn link_of(rt: &impl Abort, alloc: Global, number: &str, count: usize) -> String {
    let mut text = String::from_str(alloc, "rpstore link 1\nfrom 1\nto 2\nproof ").expect(
        rt,
        "no memory",
    );
    text.push_str(number).expect(rt, "no memory");
    for _ in 0..count {
        text.push_str("\nbjQLnP+zepicpUTmu3gKLHiQHT+zNzh2hRGjBhevoB0=")
            .expect(rt, "no memory");
    }
    text.push_str("\n").expect(rt, "no memory");
    text
}

#[test]
fn a_proof_has_at_most_64_hashes(rt: HostRuntime) {
    let most = link_of(&rt, rt.alloc(), "64", 64);
    let found = read_link(rt.alloc(), most.as_bytes()).expect(&rt, "no memory");
    assert_eq!(rt; found.expect(&rt, "no link").proof.len(), 64);
    let more = link_of(&rt, rt.alloc(), "65", 65);
    let none = read_link(rt.alloc(), more.as_bytes()).expect(&rt, "no memory");
    assert!(rt; none.is_none());
}

#[test]
fn a_link_is_read_checked_and_written(rt: HostRuntime) {
    let found = read_link(rt.alloc(), LINK.as_bytes()).expect(&rt, "no memory");
    let link = found.expect(&rt, "no link");
    assert_eq!(rt; link.from, 1);
    assert_eq!(rt; link.to, 2);
    let first = NodeHash::from_hex(FIRST_ROOT).expect(&rt, "no hash");
    let second = NodeHash::from_hex(ROOT).expect(&rt, "no hash");
    assert!(rt; check_consistency(link.from, &first, link.to, &second, link.proof.as_slice()));
    let text = link_text(rt.alloc(), &link).expect(&rt, "no memory");
    assert!(rt; text.as_slice() == LINK.as_bytes());
}

#[test]
fn other_links_are_refused(rt: HostRuntime) {
    for (old, new) in LINK_CHANGES.iter() {
        let text = changed(&rt, rt.alloc(), LINK, old, new);
        let found = read_link(rt.alloc(), text.as_bytes()).expect(&rt, "no memory");
        assert!(rt; found.is_none());
    }
    let mark = read_link(rt.alloc(), b"rpstore link 1\n").expect(&rt, "no memory");
    assert!(rt; mark.is_none());
}
