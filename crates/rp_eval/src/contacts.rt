//! The pieces of a form, by tests of its parts for contact.
ghost use Rattle.std.specs.Prelude.{◌≡◌, ℕ, ◌+◌, ◌*◌, ◌≤◌, IfOk, OnOk, length, map};
ghost use Rattle.std.specs.List.{AllByRecursion};
ghost use Rattle.rp_geometry.specs.parts.Parts.{most_parts};
ghost use Rattle.rp_semantics.specs.Pieces.{numbered_from, link_pair, links_with_part, links_among, pieces_of_parts};
ghost use Rattle.rp_oracle.specs.Refines.{Refines};
ghost use Rattle.rp_unionfind.specs.Lists.{numbers_of, IsWithin};

use rp_lists::Listed;
use rp_oracle::{Oracle, Stopped};
use rp_unionfind::{PieceList, groups_of_links};
use std::alloc::Global;

/// Pairs of the numbers of two parts in contact.
type Links = Listed<(u32, u32)>;

/// Returns the pieces of `form` as lists of the numbers of its parts, counted from 1. Each number is in one list, each
/// list rises, and the lists are in the order of their first numbers. `tests` tests each two of at most 1,024 parts for
/// contact, in order.
///
/// # Errors
///
/// `Limit` iff there are more pairs of parts than tests may still be counted. Another `Stopped` with the reason if a
/// test is stopped.
pub fn pieces<T: Oracle>(alloc: Global, form: &T::Form, tests: &mut T) -> Result<PieceList, Stopped>
    requires { length (T.parts_of form.now) ≤ most_parts }
    ensures comes { Refines numbers_of result tests.new (pieces_of_parts T.tester (T.parts_of form.now) tests.old) }
    ensures few { IfOk result (λ list. length list.items ≤ most_parts) }
{
    let parts = T::parts(form);
    if !tests.count(pair_count(parts.len() as u64)) {
        return Err(Stopped::Limit);
    }
    let mut links = Links::new(alloc);
    links_among(alloc, &mut links, parts, tests)?;
    Ok(groups_of_links(alloc, parts.len() as u32, links.items())?)
}

/// Returns the number of pairs of `count` parts.
fn pair_count(count: u64) -> u64
    requires { count ≤ most_parts }
    ensures { (pairs : ℕ) → pairs * 2 + count ≡ count * count → result ≡ pairs }
{
    if count == 0 {
        0
    } else {
        count * (count - 1) / 2
    }
}

/// Tests each part with each later one, and appends the links found to `links`.
fn links_among<T: Oracle>(
    alloc: Global,
    links: &mut Links,
    parts: &[T::Part],
    tests: &mut T,
) -> Result<(), Stopped>
    requires few { length parts.now ≤ most_parts }
    requires within { AllByRecursion (IsWithin (length parts.now)) links.old.items }
    ensures comes { Refines (λ _. links.new.items) result tests.new (links_among T.tester links.old.items (numbered_from 1 (map T.seen parts.now)) tests.old) }
    ensures within { OnOk result (AllByRecursion (IsWithin (length parts.now)) links.new.items) }
{
    for place in 0..parts.len() {
        links_with_part(
            alloc,
            links,
            place as u32 + 1,
            &parts[place],
            &parts[place + 1..],
            tests,
        )?;
    }
    Ok(())
}

/// Tests `part`, which has `number`, with each of `others`, which have the numbers after it. Appends the links found to
/// `links`.
fn links_with_part<T: Oracle>(
    alloc: Global,
    links: &mut Links,
    number: u32,
    part: &T::Part,
    others: &[T::Part],
    tests: &mut T,
) -> Result<(), Stopped>
    requires first { 1 ≤ number }
    requires few { number + length others.now ≤ most_parts }
    requires within { AllByRecursion (IsWithin (number + length others.now)) links.old.items }
    ensures comes { Refines (λ _. links.new.items) result tests.new (links_with_part T.tester links.old.items (number, T.seen part.now) (numbered_from (number + 1) (map T.seen others.now)) tests.old) }
    ensures within { OnOk result (AllByRecursion (IsWithin (number + length others.now)) links.new.items) }
{
    for place in 0..others.len() {
        let other = number + 1 + place as u32;
        link_pair(alloc, links, number, part, other, &others[place], tests)?;
    }
    Ok(())
}

/// Tests two numbered parts. If they are in contact, appends their link to `links`.
fn link_pair<T: Oracle>(
    alloc: Global,
    links: &mut Links,
    number: u32,
    part: &T::Part,
    other_number: u32,
    other: &T::Part,
    tests: &mut T,
) -> Result<(), Stopped>
    ensures comes { Refines (λ _. links.new.items) result tests.new (link_pair T.tester links.old.items (number, T.seen part.now) (other_number, T.seen other.now) tests.old) }
    ensures within { (n : ℕ) → IsWithin n (number, other_number) → AllByRecursion (IsWithin n) links.old.items → OnOk result (AllByRecursion (IsWithin n) links.new.items) }
{
    if tests.are_in_contact(alloc, part, other)? {
        links.push((number, other_number))?;
    }
    Ok(())
}
