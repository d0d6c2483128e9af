#![tactic(auto)]
//! Which lots are near: those whose parts may meet a part, and those that are there now or after a line.
//!
//! These are the words in which the index of lots answers, and the lemmas that the walks over all lots come to what
//! they come to over near lots alone, for every tester. So what asks the index needs nothing of its code.

mod moment;
mod reach;

pub use moment::Moment;
pub use reach::Reach;
