#![tactic(auto)]
//! Seals of a book: the acts of a book are the entries of a log, and a checkpoint of the log fixes them all.
//!
//! Of a book:
//!
//! - [`root`] returns the root hash of its acts.
//! - [`seal`] puts the checkpoint of its acts.
//! - [`verify`] says whether it begins with the acts of a checkpoint.
//! - [`prove`] puts an act with the proof that the book has it.
//! - [`link`] puts the proof that it continues the acts of a checkpoint.
//! - [`put_acts`] puts its acts as a stream, from which another book can take them.
//!
//! Without a book:
//!
//! - [`check_act`] says whether a sealed book has an act.
//! - [`check_link`] says whether one sealed book continues another.

mod check;
mod checkpoint;
mod comparison;
mod continuation;
mod inclusion;
mod log;
mod stream;
mod verdict;

pub use check::{check_act, check_link};
pub use checkpoint::{root, seal};
pub use comparison::verify;
pub use continuation::link;
pub use inclusion::prove;
pub use stream::put_acts;
pub use verdict::SealVerdict;
