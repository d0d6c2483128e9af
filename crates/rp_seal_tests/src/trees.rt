use crate::vectors::{CONSISTENCIES, INCLUSIONS, ROOTS, Vector, entry, hash, hashes, leaves, root};
use rp_seal::{
    CompactTree, NodeHash, check_consistency, check_inclusion, empty_root, leaf_hash, node_hash,
    prove_consistency, prove_inclusion, root_of,
};
use std::alloc::Global;
use std::process::Abort;

#[test]
fn root_hashes(rt: HostRuntime) {
    let all = leaves(&rt, rt.alloc(), 8);
    let mut tree = CompactTree::new(rt.alloc());
    for (size, text) in ROOTS.iter().enumerate() {
        let wanted = hash(&rt, text);
        assert!(rt; root_of(leaves(&rt, rt.alloc(), size).as_slice()) == wanted);
        assert!(rt; tree.root() == wanted);
        if let Some(next) = all.get(size) {
            if tree.size() < 100 {
                tree.push(*next).expect(&rt, "no memory");
            }
        }
    }
    assert_eq!(rt; tree.size(), 8);
    assert!(rt; empty_root() == root(&rt, 0));
    let pair = node_hash(&leaf_hash(b""), &leaf_hash(b"\0"));
    assert!(rt; pair == root(&rt, 2));
}

#[test]
fn hashes_are_spelled_in_hex(rt: HostRuntime) {
    for text in ROOTS.iter() {
        let again = hash(&rt, text).to_hex(rt.alloc()).expect(&rt, "no memory");
        assert!(rt; again.as_str() == *text);
    }
    assert!(rt; NodeHash::from_hex("e3b0").is_none());
}

/// Returns whether `proof` is accepted for the entry of `vector`, said to be at `index` of `size` entries.
fn is_included(
    rt: &impl Abort,
    alloc: Global,
    vector: &Vector,
    index: usize,
    proof: &[NodeHash],
) -> bool {
    let entry = entry(rt, alloc, vector.index);
    let root = root(rt, vector.size);
    check_inclusion(
        &root,
        vector.size as u64,
        index as u64,
        entry.as_slice(),
        proof,
    )
}

/// Returns the proof of `vector`, made by the crate.
fn made_inclusion(rt: &impl Abort, alloc: Global, vector: &Vector) -> Vec<NodeHash> {
    let leaves = leaves(rt, alloc, vector.size);
    if vector.index < leaves.len() {
        prove_inclusion(alloc, leaves.as_slice(), vector.index).expect(rt, "no memory")
    } else {
        leaves
    }
}

#[test]
fn inclusion_proofs(rt: HostRuntime) {
    for vector in INCLUSIONS.iter() {
        let mut proof = hashes(&rt, rt.alloc(), vector.proof);
        assert!(rt; made_inclusion(&rt, rt.alloc(), vector).as_slice() == proof.as_slice());
        for index in 0..9usize {
            let is_accepted = is_included(&rt, rt.alloc(), vector, index, proof.as_slice());
            assert_eq!(rt; is_accepted, index == vector.index);
        }
        for at in 0..proof.len() {
            let mut changed = hashes(&rt, rt.alloc(), vector.proof);
            if let Some(hash) = changed.get_mut(at) {
                *hash = root(&rt, 0);
            }
            assert!(rt; !is_included(&rt, rt.alloc(), vector, vector.index, changed.as_slice()));
        }
        proof.push(root(&rt, 0)).expect(&rt, "no memory");
        assert!(rt; !is_included(&rt, rt.alloc(), vector, vector.index, proof.as_slice()));
        proof.pop();
        proof.pop();
        assert!(rt; !is_included(&rt, rt.alloc(), vector, vector.index, proof.as_slice()));
    }
}

/// Returns whether `proof` is accepted from the first `first` entries to those of `vector`.
fn is_consistent(rt: &impl Abort, vector: &Vector, first: usize, proof: &[NodeHash]) -> bool {
    let short = root(rt, first);
    let long = root(rt, vector.size);
    check_consistency(first as u64, &short, vector.size as u64, &long, proof)
}

/// Returns the proof of `vector`, made by the crate.
fn made_consistency(rt: &impl Abort, alloc: Global, vector: &Vector) -> Vec<NodeHash> {
    let leaves = leaves(rt, alloc, vector.size);
    if vector.index <= leaves.len() {
        prove_consistency(alloc, leaves.as_slice(), vector.index).expect(rt, "no memory")
    } else {
        leaves
    }
}

#[test]
fn consistency_proofs(rt: HostRuntime) {
    for vector in CONSISTENCIES.iter() {
        let mut proof = hashes(&rt, rt.alloc(), vector.proof);
        assert!(rt; made_consistency(&rt, rt.alloc(), vector).as_slice() == proof.as_slice());
        for first in 0..9usize {
            let is_accepted = is_consistent(&rt, vector, first, proof.as_slice());
            // No entries are the beginning of every list, without a proof.
            let is_empty = first == 0 && proof.is_empty();
            assert_eq!(rt; is_accepted, first == vector.index || is_empty);
        }
        for at in 0..proof.len() {
            let mut changed = hashes(&rt, rt.alloc(), vector.proof);
            if let Some(hash) = changed.get_mut(at) {
                *hash = root(&rt, 0);
            }
            assert!(rt; !is_consistent(&rt, vector, vector.index, changed.as_slice()));
        }
        proof.push(root(&rt, 0)).expect(&rt, "no memory");
        assert!(rt; !is_consistent(&rt, vector, vector.index, proof.as_slice()));
    }
}

#[test]
fn proofs_of_any_length_are_refused(rt: HostRuntime) {
    let one = root(&rt, 1);
    let mut proof = Vec::new(rt.alloc());
    for _ in 0..100 {
        proof.push(one).expect(&rt, "no memory");
        assert!(rt; !check_inclusion(&one, u64::MAX, 5, b"", proof.as_slice()));
        assert!(rt; !check_consistency(7, &one, u64::MAX, &one, proof.as_slice()));
        assert!(rt; !check_consistency(u64::MAX, &one, 7, &one, proof.as_slice()));
    }
}
