//! The search for a shortest chain, along falling levels.
ghost use Rattle.std.specs.Prelude.{◌≡◌, ◌<◌, ◌∷◌, [], ◌++◌, List, ℕ, length, IfOk, MatchOption};
ghost use Rattle.rp_access.specs.Chain.{HasNoChain, IsRoute};
ghost use Rattle.rp_access.specs.Searching.{AreBelow};
ghost use Rattle.rp_access.specs.Tests.{IsFirstAmong, earlier, first_with};

use crate::links::Links;
use crate::route::Route;
use crate::search::levels;
use std::alloc::{AllocError, Global};

/// Returns the lesser of `first` and `j`; `j` if there is no `first`.
fn earlier(first: Option<u32>, j: u32) -> u32
    ensures { result ≡ earlier first j }
{
    match first {
        None => j,
        Some(other) => { if other <= j { other } else { j } }
    }
}

/// Returns the first number with the level `level` among `first`, the result so far, and `j`, whose level is `found`.
fn first_with(found: Option<u32>, level: u32, first: Option<u32>, j: u32) -> Option<u32>
    ensures { result ≡ first_with found level first j }
{
    match found {
        None => first,
        Some(k) => {
            if k == level {
                Some(earlier(first, j))
            } else {
                first
            }
        }
    }
}

/// Returns the first of `numbers` with the level `level`; `None` iff there is none.
pub(crate) fn first_of_level(levels: &[Option<u32>], level: u32, numbers: &[u32]) -> Option<u32>
    requires { AreBelow (length levels.now) numbers.now }
    ensures { IsFirstAmong levels.now level numbers.now result }
{
    let mut first = None;
    for j in numbers {
        first = first_with(levels[*j as usize], level, first, *j);
    }
    first
}

/// Returns a shortest chain along the links `g` from `from` to `to`, both below the count of the numbers; `None` iff
/// there is no chain. Each next number is the least that is linked to the number before and is one level lower.
///
/// # Errors
///
/// `AllocError` for want of memory.
pub fn chain(alloc: Global, g: &Links, from: u32, to: u32) -> Result<Option<Route>, AllocError>
    requires from_below { from < length g.now }
    requires to_below { to < length g.now }
    ensures { IfOk result (λ o. MatchOption o (HasNoChain g.now to from) (λ r. IsRoute g.now from to r.items)) }
{
    let levels = levels(alloc, g, to)?;
    let Some(level) = levels[from as usize] else {
        return Ok(None);
    };
    let mut route = Route::new(alloc);
    route.push(from)?;
    let mut at = from;
    let mut left = level;
    while left > 0 {
        left -= 1;
        let Some(next) = first_of_level(&levels, left, g.linked_to(at as usize)) else {
            return Ok(None);
        };
        route.push(next)?;
        at = next;
    }
    Ok(Some(route))
}
