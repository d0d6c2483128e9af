//! The test data that implementations of Certificate Transparency (RFC 6962 and 9162) share: entries, root hashes and
//! proofs.

use rp_seal::{NodeHash, leaf_hash};
use std::alloc::Global;
use std::process::Abort;

/// The entries, in hex.
static ENTRIES: [&str; 8] = [
    "",
    "00",
    "10",
    "2021",
    "3031",
    "40414243",
    "5051525354555657",
    "606162636465666768696a6b6c6d6e6f",
];

/// The root hashes of the first 0, 1, 2 .. entries.
pub static ROOTS: [&str; 9] = [
    "e3b0c44298fc1c149afbf4c8996fb92427ae41e4649b934ca495991b7852b855",
    "6e340b9cffb37a989ca544e6bb780a2c78901d3fb33738768511a30617afa01d",
    "fac54203e7cc696cf0dfcb42c92a1d9dbaf70ad9e621f4bd8d98662f00e3c125",
    "aeb6bcfe274b70a14fb067a5e5578264db0fa9b51af5e0ba159158f329e06e77",
    "d37ee418976dd95753c1c73862b9398fa2a2cf9b4ff0fdfe8b30cd95209614b7",
    "4e3bbb1f7b478dcfe71fb631631519a3bca12c9aefca1612bfce4c13a86264d4",
    "76e67dadbcdf1e10e1b74ddc608abd2f98dfb16fbce75277b5232a127f2087ef",
    "ddb89be403809e325750d3d263cd78929c2942b7942a34b77e122c9594a74c8c",
    "5dc9da79a70659a9ad559cb701ded9a2ab9d823aad2f4960cfe370eff4604328",
];

/// A proof of the first `size` entries: of inclusion of the entry at `index`, or of consistency with the first `index`
/// entries.
pub struct Vector {
    pub index: usize,
    pub size: usize,
    pub proof: &'static [&'static str],
}

pub static INCLUSIONS: [Vector; 4] = [
    Vector {
        index: 0,
        size: 8,
        proof: &[
            "96a296d224f285c67bee93c30f8a309157f0daa35dc5b87e410b78630a09cfc7",
            "5f083f0a1a33ca076a95279832580db3e0ef4584bdff1f54c8a360f50de3031e",
            "6b47aaf29ee3c2af9af889bc1fb9254dabd31177f16232dd6aab035ca39bf6e4",
        ],
    },
    Vector {
        index: 5,
        size: 8,
        proof: &[
            "bc1a0643b12e4d2d7c77918f44e0f4f79a838b6cf9ec5b5c283e1f4d88599e6b",
            "ca854ea128ed050b41b35ffc1b87b8eb2bde461e9e3b5596ece6b9d5975a0ae0",
            "d37ee418976dd95753c1c73862b9398fa2a2cf9b4ff0fdfe8b30cd95209614b7",
        ],
    },
    Vector {
        index: 2,
        size: 3,
        proof: &["fac54203e7cc696cf0dfcb42c92a1d9dbaf70ad9e621f4bd8d98662f00e3c125"],
    },
    Vector {
        index: 1,
        size: 5,
        proof: &[
            "6e340b9cffb37a989ca544e6bb780a2c78901d3fb33738768511a30617afa01d",
            "5f083f0a1a33ca076a95279832580db3e0ef4584bdff1f54c8a360f50de3031e",
            "bc1a0643b12e4d2d7c77918f44e0f4f79a838b6cf9ec5b5c283e1f4d88599e6b",
        ],
    },
];

pub static CONSISTENCIES: [Vector; 4] = [
    Vector {
        index: 1,
        size: 1,
        proof: &[],
    },
    Vector {
        index: 1,
        size: 8,
        proof: &[
            "96a296d224f285c67bee93c30f8a309157f0daa35dc5b87e410b78630a09cfc7",
            "5f083f0a1a33ca076a95279832580db3e0ef4584bdff1f54c8a360f50de3031e",
            "6b47aaf29ee3c2af9af889bc1fb9254dabd31177f16232dd6aab035ca39bf6e4",
        ],
    },
    Vector {
        index: 6,
        size: 8,
        proof: &[
            "0ebc5d3437fbe2db158b9f126a1d118e308181031d0a949f8dededebc558ef6a",
            "ca854ea128ed050b41b35ffc1b87b8eb2bde461e9e3b5596ece6b9d5975a0ae0",
            "d37ee418976dd95753c1c73862b9398fa2a2cf9b4ff0fdfe8b30cd95209614b7",
        ],
    },
    Vector {
        index: 2,
        size: 5,
        proof: &[
            "5f083f0a1a33ca076a95279832580db3e0ef4584bdff1f54c8a360f50de3031e",
            "bc1a0643b12e4d2d7c77918f44e0f4f79a838b6cf9ec5b5c283e1f4d88599e6b",
        ],
    },
];

/// Returns the hash that `text` spells.
pub fn hash(rt: &impl Abort, text: &str) -> NodeHash {
    NodeHash::from_hex(text).expect(rt, "no hash")
}

/// Returns the hashes that `texts` spell.
pub fn hashes(rt: &impl Abort, alloc: Global, texts: &[&str]) -> Vec<NodeHash> {
    let mut all = Vec::new(alloc);
    for text in texts {
        all.push(hash(rt, text)).expect(rt, "no memory");
    }
    all
}

/// Returns the root hash of the first `size` entries.
pub fn root(rt: &impl Abort, size: usize) -> NodeHash {
    hash(rt, ROOTS.get(size).expect(rt, "no root hash"))
}

/// Returns the entry at `index`.
pub fn entry(rt: &impl Abort, alloc: Global, index: usize) -> Vec<u8> {
    let text = ENTRIES.get(index).expect(rt, "no entry");
    hex::decode(alloc, *text).expect(rt, "no hex")
}

/// Returns the leaf hashes of the first `size` entries.
pub fn leaves(rt: &impl Abort, alloc: Global, size: usize) -> Vec<NodeHash> {
    let mut all = Vec::new(alloc);
    for index in 0..size {
        let leaf = leaf_hash(entry(rt, alloc, index).as_slice());
        all.push(leaf).expect(rt, "no memory");
    }
    all
}
