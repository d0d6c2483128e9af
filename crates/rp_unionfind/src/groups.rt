//! The groups into which links join numbers.
ghost use Rattle.std.specs.Prelude.{◌≡◌, ◌≤◌, IfOk, OnOk, length};
ghost use Rattle.std.specs.List.{AllByRecursion};
ghost use Rattle.rp_geometry.specs.parts.Groups.{groups_of};
ghost use Rattle.rp_geometry.specs.parts.Parts.{most_parts};
ghost use Rattle.rp_unionfind.specs.Lists.{numbers_of, lists_of, with_number, IsWithin};

use crate::forest::forest_of_links;
use rp_lists::{Listed, Numbers};
use std::alloc::{AllocError, Global};

/// A list of pieces. Each piece is a list of part numbers from 1.
pub type PieceList = Listed<Numbers>;

/// Returns the groups into which `links` join the numbers from 1 to `count`, at most 1,024, in the order of their first
/// numbers. Each root of a tree begins a group, and each other number is added to the group of its parent.
///
/// # Errors
///
/// `AllocError` for want of memory.
pub fn groups_of_links(
    alloc: Global,
    count: u32,
    links: &[(u32, u32)],
) -> Result<PieceList, AllocError>
    requires few { count ≤ most_parts }
    requires within { AllByRecursion (IsWithin count) links.now }
    ensures right { IfOk result (λ list. numbers_of list ≡ groups_of links.now count) }
    ensures few { IfOk result (λ list. length list.items ≤ count) }
{
    let parents = forest_of_links(alloc, count, links)?;
    let mut groups = Vec::new(alloc);
    let mut places = Vec::new(alloc);
    places.push(0)?;
    for before in 0..count {
        let number = before + 1;
        let parent = parents[number as usize];
        let place = if parent == number {
            groups.len()
        } else {
            places[parent as usize]
        };
        places.push(place)?;
        put(alloc, &mut groups, place, number)?;
    }
    listed(alloc, groups)
}

/// Appends `number` to the group at `place`, or to a new last group if `place` is the number of groups.
fn put(
    alloc: Global,
    groups: &mut Vec<Numbers>,
    place: usize,
    number: u32,
) -> Result<(), AllocError>
    requires { place ≤ length groups.old.items }
    ensures { OnOk result (lists_of groups.new.items ≡ with_number place number (lists_of groups.old.items)) }
{
    if place == groups.len() {
        groups.push(Listed::new(alloc))?;
    }
    groups[place].push(number)
}

/// Returns the list of `groups`, in their order.
fn listed(alloc: Global, groups: Vec<Numbers>) -> Result<PieceList, AllocError>
    ensures { IfOk result (λ list. list.items ≡ groups.items) }
{
    let mut list = Listed::new(alloc);
    for group in groups {
        list.push(group)?;
    }
    Ok(list)
}
