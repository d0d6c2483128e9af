//! Numbers in trees: linked numbers are in one tree, whose root is the least of them.
ghost use Rattle.std.specs.Prelude.{◌≡◌, ℕ, ◌+◌, ◌<◌, ◌≤◌, List, [], ◌∷◌, ◌++◌, IfOk, length, slice_index};
ghost use Rattle.std.specs.List.{AllByRecursion};
ghost use Rattle.rp_geometry.specs.laws.PieceLaws.{IsJoined};
ghost use Rattle.rp_geometry.specs.parts.Parts.{most_parts};
ghost use Rattle.rp_unionfind.specs.Lists.{IsWithin};
ghost use Rattle.rp_unionfind.specs.Forest.{AreLow, IsForest};

use std::alloc::{AllocError, Global};

/// Returns the parent of each number from 0 to `count`, at most 1,024, in the trees that `links` join. A root is its
/// own parent.
///
/// # Errors
///
/// `AllocError` for want of memory.
pub(crate) fn forest_of_links(
    alloc: Global,
    count: u32,
    links: &[(u32, u32)],
) -> Result<Vec<u32>, AllocError>
    requires few { count ≤ most_parts }
    requires within { AllByRecursion (IsWithin count) links.now }
    ensures { IfOk result (λ parents. IsForest links.now count parents.items) }
{
    let mut parents = single_trees(alloc, count)?;
    for link in links {
        join(&mut parents, link.0, link.1);
    }
    Ok(parents)
}

/// Returns each number from 0 to `count` in a tree of its own.
fn single_trees(alloc: Global, count: u32) -> Result<Vec<u32>, AllocError>
    requires few { count ≤ most_parts }
    ensures { IfOk result (λ parents. IsForest [] count parents.items) }
{
    let mut parents = Vec::new(alloc);
    for number in 0..count + 1 {
        parents.push(number)?;
    }
    Ok(parents)
}

/// Joins the trees of `first` and `second`: the greater root is put under the smaller one.
fn join(parents: &mut [u32], first: u32, second: u32)
    requires low { AreLow parents.old }
    requires within { (first < length parents.old) × (second < length parents.old) }
    ensures low { AreLow parents.new }
    ensures joined { (links : List (ℕ × ℕ)) (n : ℕ) → 1 ≤ first → 1 ≤ second → IsForest links n parents.old → IsForest (links ++ (first, second) ∷ []) n parents.new }
{
    let one = root_of(parents, first);
    let other = root_of(parents, second);
    if one < other {
        parents[other as usize] = one;
    } else {
        parents[one as usize] = other;
    }
}

/// Returns the root of the tree of `number`. On the way, each second number is put under the number two above it (path
/// halving).
fn root_of(parents: &mut [u32], number: u32) -> u32
    requires low { AreLow parents.old }
    requires within { number < length parents.old }
    ensures low { AreLow parents.new }
    ensures within { result ≤ number }
    ensures root { slice_index parents.new result ≡ result }
    ensures stay { (k : ℕ) → slice_index parents.old k ≡ k → slice_index parents.new k ≡ k }
    ensures joined { (links : List (ℕ × ℕ)) (n : ℕ) → 1 ≤ number → IsForest links n parents.old → IsForest links n parents.new × IsJoined links n number result }
{
    let mut number = number;
    while parents[number as usize] != number {
        let parent = parents[number as usize];
        let above = parents[parent as usize];
        parents[number as usize] = above;
        number = above;
    }
    number
}
