use rp_seal::{SealedAct, encode_act};

/// The bytes of the act below, packed by the module `struct` of Python's standard library.
static BYTES: [&str; 5] = [
    "000000030000000700000009",
    "0000000000000013323032362d31312d33302031323a30303a3030",
    "010000000000000008412e20436c65726b",
    "00",
    "000000000000000c72657469726520776573740a",
];

#[test]
fn an_act_has_its_bytes(rt: HostRuntime) {
    let act = SealedAct {
        number: 3,
        first: 7,
        last: 9,
        added: "2026-11-30 12:00:00",
        who: Some("A. Clerk"),
        deed: None,
        lines: b"retire west\n",
    };
    let bytes = encode_act(rt.alloc(), &act).expect(&rt, "no memory");
    let text = hex::encode(rt.alloc(), bytes.as_slice()).expect(&rt, "no memory");
    let mut wanted = String::new(rt.alloc());
    for part in BYTES.iter() {
        wanted.push_str(part).expect(&rt, "no memory");
    }
    assert!(rt; text.as_str() == wanted.as_str());
}
