use rp_seal::NodeHash;
use rp_seal_text::{Checkpoint, checkpoint_text, read_checkpoint};
use std::alloc::Global;
use std::process::Abort;

/// The example of C2SP tlog-checkpoint.
static EXAMPLE: &str =
    "example.com/behind-the-sofa\n20852163\nCsUYapGGPo4dkMgIAUqom/Xajj7h2fB2MPA3j2jxq2I=\n";

/// Its root hash in hex.
static ROOT: &str = "0ac5186a91863e8e1d90c808014aa89bf5da8e3ee1d9f07630f0378f68f1ab62";

/// Texts that begin with no checkpoint.
static REFUSED: [&str; 9] = [
    "",
    "\n20852163\nCsUYapGGPo4dkMgIAUqom/Xajj7h2fB2MPA3j2jxq2I=\n",
    "example.com\tsofa\n20852163\nCsUYapGGPo4dkMgIAUqom/Xajj7h2fB2MPA3j2jxq2I=\n",
    "example.com\n+20852163\nCsUYapGGPo4dkMgIAUqom/Xajj7h2fB2MPA3j2jxq2I=\n",
    "example.com\n020852163\nCsUYapGGPo4dkMgIAUqom/Xajj7h2fB2MPA3j2jxq2I=\n",
    "example.com\n18446744073709551616\nCsUYapGGPo4dkMgIAUqom/Xajj7h2fB2MPA3j2jxq2I=\n",
    "example.com\n20852163\nCsUYapGGPo4dkMgIAUqom/Xajj7h2fB2MPA3j2jxq2J=\n",
    "example.com\n20852163\nCsUYapGGPo4dkMgIAUqom/Xajj7h2fB2MPA3j2jxq2I=",
    "example.com\n20852163\nCsUYapGGPo4dkMgIAUqom/Xajj7h2fB2MPA3j2jx\n",
];

/// Returns whether `text` reads as the checkpoint of the example.
fn reads(rt: &impl Abort, alloc: Global, text: &str) -> bool {
    let found = read_checkpoint(alloc, text.as_bytes()).expect(rt, "no memory");
    let Some(checkpoint) = found else {
        return false;
    };
    let root = checkpoint.root.to_hex(alloc).expect(rt, "no memory");
    checkpoint.origin.as_str() == "example.com/behind-the-sofa"
        && checkpoint.size == 20852163
        && root.as_str() == ROOT
}

#[test]
fn the_example_is_read_and_written(rt: HostRuntime) {
    assert!(rt; reads(&rt, rt.alloc(), EXAMPLE));
    let mut signed = String::from_str(rt.alloc(), EXAMPLE).expect(&rt, "no memory");
    signed
        .push_str(
            "\n— example.com/behind-the-sofa Az3grlgtzPICa5OS8npVmf1Myq/5IZniMp+ZJurmRDeOoRDe4URYN7u5\n",
        )
        .expect(&rt, "no memory");
    assert!(rt; reads(&rt, rt.alloc(), signed.as_str()));
    let origin = String::from_str(rt.alloc(), "example.com/behind-the-sofa").expect(
        &rt,
        "no memory",
    );
    let root = NodeHash::from_hex(ROOT).expect(&rt, "no hash");
    let checkpoint = Checkpoint::new(origin, 20852163, root).expect(&rt, "no origin");
    let text = checkpoint_text(rt.alloc(), &checkpoint).expect(&rt, "no memory");
    assert!(rt; text.as_str() == EXAMPLE);
}

#[test]
fn other_texts_are_refused(rt: HostRuntime) {
    for text in REFUSED.iter() {
        let found = read_checkpoint(rt.alloc(), text.as_bytes()).expect(&rt, "no memory");
        assert!(rt; found.is_none());
    }
}
