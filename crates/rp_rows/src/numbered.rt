//! Ids and their numbers, which are their indexes in a list.
ghost use Rattle.std.specs.Prelude.{◌≡◌, ◌<◌, ◌≤◌, IfOk, IfSome, length, option_map};
ghost use Rattle.rp_model.specs.states.State.{place_among, most_kept_parts};
ghost use Rattle.rp_model.specs.commands.Verdict.{chain_lines, level_lines};
ghost use Rattle.rp_proximity.specs.Near.{AreWithin};
ghost use Rattle.rp_rows.specs.Access.{told_chain, told_levels};

use crate::access::Levels;
use rp_access::Route;
use rp_lists::{Name, Names};
use std::alloc::{AllocError, Global};

/// Returns the number of `id`, which is in `ids`.
pub(crate) fn number_of(ids: &[Name], id: &Name) -> u32
    requires few { length ids.now ≤ most_kept_parts }
    requires there { place_among id.now ids.now < length ids.now }
    ensures { result ≡ place_among id.now ids.now }
{
    for number in 0..ids.len() {
        if *id == ids[number] {
            return number as u32;
        }
    }
    unreachable!()
}

/// Returns the ids of the chain `route`, if there is one.
pub(crate) fn named_chain(
    alloc: Global,
    ids: &[Name],
    route: Option<Route>,
) -> Result<Option<Names>, AllocError>
    requires within { IfSome route (λ r. AreWithin ids.now r.items) }
    requires few { IfSome route (λ r. length r.items ≤ most_kept_parts) }
    ensures told { IfOk result (λ chain. told_chain chain ≡ chain_lines ids.now (option_map (λ r. r.items) route)) }
    ensures few { IfOk result (λ chain. IfSome chain (λ names. length names.items ≤ most_kept_parts)) }
{
    let Some(route) = route else {
        return Ok(None);
    };
    let mut names = Names::new(alloc);
    for number in route.items() {
        names.push(ids[*number as usize])?;
    }
    Ok(Some(names))
}

/// Returns the levels that are there, each with its id.
pub(crate) fn named_levels(
    alloc: Global,
    ids: &[Name],
    levels: &[Option<u32>],
) -> Result<Levels, AllocError>
    requires { length levels.now ≡ length ids.now }
    ensures { IfOk result (λ told. told_levels told.items ≡ level_lines ids.now levels.now) }
{
    let mut told = Levels::new(alloc);
    for number in 0..ids.len() {
        if let Some(level) = levels[number] {
            told.push((level, ids[number]))?;
        }
    }
    Ok(told)
}
