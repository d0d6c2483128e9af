//! Questions about two forms with the answer yes or no.
ghost use Rattle.rp_oracle.specs.Refines.{Refines};
ghost use Rattle.rp_eval.specs.Questions.{answer_to};

use crate::compare::{equal, within};
use rp_oracle::{Oracle, Stopped};
use std::alloc::Global;

/// A question about two forms with the answer yes or no.
#[derive(Clone, Copy)]
pub enum Question {
    /// Do they have the same points?
    Equal,
    /// Is every point of the first in the second?
    Within,
    /// Do they share a point?
    Overlap,
    /// Do their closures share a point?
    Contact,
}

impl Question {
    /// Returns the answer for the forms `first` and `second`, by `tests`.
    ///
    /// # Errors
    ///
    /// `Stopped` with the reason if a test is stopped.
    pub fn answer<T: Oracle>(
        self,
        alloc: Global,
        first: &T::Form,
        second: &T::Form,
        tests: &mut T,
    ) -> Result<bool, Stopped>
        ensures { Refines (λ is_so. is_so) result tests.new (answer_to T.tester self (T.parts_of first.now) (T.parts_of second.now) tests.old) }
    {
        match self {
            Question::Equal => equal(alloc, first, second, tests),
            Question::Within => within(alloc, first, second, tests),
            Question::Overlap => tests.overlap(alloc, first, second),
            Question::Contact => tests.contact(alloc, first, second),
        }
    }
}
