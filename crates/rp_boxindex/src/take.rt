//! What is done with the ids that a search finds.
ghost use Rattle.std.specs.Prelude.{◌≡◌, ℕ, OnOk, ◌∷◌, [], IsPermutation, IsSorted};
ghost use Rattle.std.specs.Ordering.{nat_cmp};
ghost use Rattle.rp_space.specs.Boxes.{integer_box};
ghost use Rattle.rp_boxindex.specs.Meeting.{ids_that_meet};
ghost use Rattle.rp_boxindex.specs.tree.Taking.{is_less, taken};

use crate::choice::Choice;
use crate::place::Entry;
use crate::query::Query;
use std::alloc::AllocError;
use std::convert::Infallible;
use std::marker::Model;

/// What takes the ids that a search finds, one after the other.
pub(crate) trait Take {
    /// Why an id isn't taken.
    type Fault: Drop;

    ghost after: { Self → ℕ → Self };

    /// Takes an id.
    fn take(&mut self, id: u32) -> Result<(), Self::Fault>
        ensures { OnOk result (self.new ≡ after self.old id) };
}

/// A list of the ids. A contract sees the list.
#[derive(Drop)]
pub(crate) struct Ids {
    pub(crate) list: Vec<u32>,
}

impl Model for Ids {
    ghost use Rattle.std.specs.Prelude.{ℕ, List};
    ghost use Rattle.std.specs.Coded.{coded_list, coded_ℕ};

    ghost Value = { List ℕ };

    ghost coded = { coded_list coded_ℕ };

    ghost view = { λ a. a.list.items };
}

impl Ids {
    /// Returns the ids in rising order.
    pub(crate) fn into_sorted(self) -> Vec<u32>
        ensures permutation { IsPermutation self result.items }
        ensures sorted { IsSorted nat_cmp result.items }
    {
        let mut list = self.list;
        list.sort_unstable();
        list
    }
}

impl Take for Ids {
    type Fault = AllocError;

    ghost use Rattle.std.specs.Prelude.{◌++◌, ◌∷◌, []};

    ghost after = { λ ids id. ids ++ id ∷ [] };

    fn take(&mut self, id: u32) -> Result<(), AllocError> {
        self.list.push(id)?;
        Ok(())
    }
}

/// The least of the ids that pass a test.
#[derive(Drop)]
pub(crate) struct Least<'a, C: Choice> {
    pub(crate) choice: &'a C,
    pub(crate) id: Option<u32>,
}

impl<'a, C: Choice> Take for Least<'a, C> {
    type Fault = Infallible;

    ghost use Rattle.rp_boxindex.specs.tree.Taking.{lesser};

    ghost after = { λ least id. record { choice = least.choice; id = lesser (C.passes least.choice.now) least.id id } };

    fn take(&mut self, id: u32) -> Result<(), Infallible> {
        if is_less(&self.id, id) && self.choice.passes(id) {
            self.id = Some(id);
        }
        Ok(())
    }
}

/// Returns whether an id is less than the least one so far, if there is one.
fn is_less(least: &Option<u32>, id: u32) -> bool
    ensures { result ≡ is_less least.now id }
{
    match least {
        None => true,
        Some(least) => id < *least,
    }
}

/// Hands the id of an entry whose box is looked for to a taker.
pub(crate) fn collect_one<T: Take>(
    entry: &Entry,
    query: &Query,
    taker: &mut T,
) -> Result<(), T::Fault>
    ensures { OnOk result (taker.new ≡ taken T.after taker.old (ids_that_meet query.now.closed (integer_box query.now.bounds) (entry.now ∷ []))) }
{
    if query.is_met_by(&entry.1) {
        taker.take(entry.0)?;
    }
    Ok(())
}
