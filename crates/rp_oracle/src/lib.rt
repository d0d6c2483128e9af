#![tactic(auto)]
//! The interface of a row to its oracle, which answers its tests, and to the forms of names and lots; and the reasons
//! why a row has no result.
//!
//! A row is the walk of a command: its tests, one after the other, of which each may decide the next one. [`Oracle`]
//! counts and answers them and stores forms; [`Named`] knows the forms of names and lots. A call that makes a walk
//! returns the result of the walk, or [`Stopped`] iff the walk stops. Calls that return `AllocError` do so only for
//! want of memory.

mod limits;
mod named;
mod oracle;
mod stopped;

pub use limits::{MAX_HALVES, MAX_KEPT_PARTS, MAX_PARTS, MAX_TESTS};
pub use named::Named;
pub use oracle::Oracle;
pub use stopped::Stopped;
