#![tactic(auto)]
//! Shortest chains over links between numbers (shortest paths in a graph), and the levels (distances) that show that
//! they are shortest.
//!
//! - [`Links`] are made link by link, or from pairs, and go both ways. If a link fails for want of memory, nothing has
//!   changed.
//! - [`levels`] finds, by a breadth-first search, the number of steps of the shortest chain from each number to one
//!   number; `None` iff there is no chain. The levels pass four tests.
//! - [`chain`] finds a shortest chain, `None` iff there is none. In each step it takes the first number that is one
//!   level lower.
//! - [`check_levels`] returns true iff the four tests pass, whatever entries it is given. No command calls it; it is
//!   there for readers.
//! - Calls that return `AllocError` do so only for want of memory.

mod check;
mod laws;
mod links;
mod neighbours;
mod route;
mod search;
mod way;

pub use check::check_levels;
pub use laws::{
    chain_is_computed, levels_are_computed, levels_are_one, levels_pass_tests,
    passing_levels_are_levels, route_is_one,
};
pub use links::Links;
pub use route::Route;
pub use search::levels;
pub use way::chain;
