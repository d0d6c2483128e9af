#![tactic(auto)]
//! The groups into which links join numbers (the connected components of a graph), by trees of numbers (union-find:
//! Galler and Fischer, An Improved Equivalence Algorithm, 1964).
//!
//! The groups are exactly those of the definition, in its order: lists of numbers, each rising, in the order of their
//! first numbers. Calls that return `AllocError` do so only for want of memory.

mod forest;
mod groups;

pub use groups::{PieceList, groups_of_links};
