#![tactic(auto)]
//! Work in halves: items are judged in several threads, and the results are those of one thread, in order.
//!
//! [`judge_all`] returns the meanings of all items in order, for every grain. No contract says how the work is split.
//! Calls that return `AllocError` do so only for want of memory.

mod halves;
mod judge;

pub use halves::judge_all;
pub use judge::Judge;
