//! Access between lots of which some are in contact: a shortest chain, and levels, by the ids of lots.
ghost use Rattle.std.specs.Prelude.{◌≤◌, length};
ghost use Rattle.std.specs.Option.{ForSome};
ghost use Rattle.rp_model.specs.states.State.{most_kept_parts};

use crate::numbered::{named_chain, named_levels, number_of};
use rp_access::{Links, chain, levels};
use rp_lists::{Listed, Name, Names};
use std::alloc::{AllocError, Global};

/// Levels, each with the id of its lot.
pub type Levels = Listed<(u32, Name)>;

/// A shortest chain of lots in contact, if there is one. For each lot with a chain, the number of steps of a shortest
/// one. A chain has at most 65,536 lots.
#[derive(Drop)]
pub struct Access {
    pub chain: Option<Names>,
    pub levels: Levels,
    ghost few: { ForSome chain (λ ids. length ids.items ≤ most_kept_parts) },
}

impl Access {
    ghost use Rattle.std.specs.Prelude.{◌≡◌, ◌<◌, IfOk};
    ghost use Rattle.std.specs.List.{AllByRecursion};
    ghost use Rattle.rp_model.specs.states.State.{place_among};
    ghost use Rattle.rp_model.specs.commands.Access.{access_by_links};
    ghost use Rattle.rp_access.specs.Chain.{IsBelow};
    ghost use Rattle.rp_rows.specs.Access.{told_access};

    /// Returns access from `from` to `to`, both in `ids`. The lots of each of `pairs` are in contact; the number of a
    /// lot is the index of its id in `ids`.
    ///
    /// # Errors
    ///
    /// `AllocError` if memory runs out.
    pub fn along(
        alloc: Global,
        ids: &[Name],
        pairs: &[(u32, u32)],
        from: &Name,
        to: &Name,
    ) -> Result<Access, AllocError>
        requires few { length ids.now ≤ most_kept_parts }
        requires below { AllByRecursion (IsBelow (length ids.now)) pairs.now }
        requires from_there { place_among from.now ids.now < length ids.now }
        requires to_there { place_among to.now ids.now < length ids.now }
        ensures { IfOk result (λ access. told_access access ≡ access_by_links ids.now pairs.now from.now to.now) }
    {
        let links = Links::from_pairs(alloc, ids.len() as u32, pairs)?;
        let start = number_of(ids, from);
        let end = number_of(ids, to);
        let route = chain(alloc, &links, start, end)?;
        let chain = named_chain(alloc, ids, route)?;
        let levels = levels(alloc, &links, end)?;
        let levels = named_levels(alloc, ids, &levels)?;
        Ok(Access { chain, levels })
    }
}
