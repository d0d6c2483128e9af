//! Root hashes, computed by several threads.
ghost use Rattle.std.specs.Prelude.{◌≡◌};
ghost use Rattle.std.specs.Thread.{IsSync};
ghost use Rattle.rp_seal.specs.Hash.{bytes_of, hashes_of};
ghost use Rattle.rp_seal.specs.Merkle.{root_of};

use crate::hash::NodeHash;
use crate::hashing::{node_hash, root_of, split_point};
use std::thread::{Threads, join};

/// How many threads hash at once, at most. Each needs a stack of its own.
const MOST_THREADS: usize = 8;

/// How many leaf hashes one thread takes at most, as long as more threads may be started.
const GRAIN: usize = 1024;

/// Returns the root hash of the tree with the leaf hashes `hashes`, computed by up to `threads` threads.
fn root_in_halves<R: Threads + Sync>(rt: &R, threads: usize, hashes: &[NodeHash]) -> NodeHash
    ensures { bytes_of result ≡ root_of (hashes_of hashes.now) }
{
    if threads < 2 || hashes.len() <= GRAIN {
        return root_of(hashes);
    }
    let half = threads / 2;
    let (left, right) = hashes.split_at(split_point(hashes.len() as u64) as usize);
    let (left_root, right_root) = join(
        rt,
        || -> NodeHash
            requires { IsSync R.row }
            ensures { bytes_of result ≡ root_of (hashes_of left.entry.now) }
        { root_in_halves(rt, half, left) },
        || -> NodeHash
            requires { IsSync R.row }
            ensures { bytes_of result ≡ root_of (hashes_of right.entry.now) }
        { root_in_halves(rt, half, right) },
    );
    node_hash(&left_root, &right_root)
}

/// Returns the root hash of the tree with the leaf hashes `hashes`, as [`root_of`] does. More than 1,024 leaf hashes
/// are given to up to 8 threads.
pub fn root_by_threads<R: Threads + Sync>(rt: &R, hashes: &[NodeHash]) -> NodeHash
    ensures { bytes_of result ≡ root_of (hashes_of hashes.now) }
{
    root_in_halves(rt, MOST_THREADS, hashes)
}
