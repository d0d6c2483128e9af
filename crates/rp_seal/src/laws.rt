//! Laws of tree hashes: RFC 9162 defines them by three equations, and a root hash binds its list.
ghost use Rattle.std.specs.Prelude.{◌≡◌, ◌⊎◌, ◌<◌, ◌∷◌, ◌++◌, ℕ, List, [], length, take, drop};
ghost use Rattle.sha2.specs.Sha256.{sha256};
ghost use Rattle.rp_seal.specs.Collision.{HasCollision};
ghost use Rattle.rp_seal.specs.Merkle.{IsSplitPoint, split_point, tree_hash, tree_inputs};

/// States the equations of RFC 9162, section 2.1.1.
///
/// - The tree hash of no entries is SHA-256 of no bytes.
/// - The tree hash of one entry is SHA-256 of a byte 0 and the entry.
/// - The tree hash of more entries is SHA-256 of a byte 1 and the tree hashes of the entries before and after the split point.
/// - The split point of `n` entries is the largest power of two below `n`.
pub fn tree_hash_equations()
    ensures none { tree_hash [] ≡ sha256 [] }
    ensures one { (entry : List ℕ) → tree_hash (entry ∷ []) ≡ sha256 (0 ∷ entry) }
    ensures more { (entries : List (List ℕ)) → 1 < length entries → tree_hash entries
        ≡ sha256 (1 ∷ tree_hash (take (split_point (length entries)) entries) ++ tree_hash (drop (split_point (length entries)) entries)) }
    ensures split { (n : ℕ) → 1 < n → IsSplitPoint n (split_point n) }
{}

/// States that two lists of one length with one tree hash are the same list, or two strings have one SHA-256: two of
/// those that are hashed to compute the tree hashes of both.
pub fn tree_hash_is_binding()
    ensures { (one other : List (List ℕ)) → length one ≡ length other → tree_hash one ≡ tree_hash other
        → (one ≡ other) ⊎ HasCollision (tree_inputs one ++ tree_inputs other) }
{}
