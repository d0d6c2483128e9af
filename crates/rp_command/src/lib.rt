#![tactic(auto)]
//! Commands as values, the versions of scripts, and numbers as words spell them.
//!
//! A line reads as a [`Line`]: `rp_syntax` reads one and `rp_spelling` spells one; rows and reports need no more than
//! these values. One table has the word of each [`Verb`]: [`verb_for`] finds a verb by its word, and [`Verb::word`]
//! returns the word. [`Command::operands`] returns the operands of a command by their kinds. [`coordinate`] and
//! [`spelled`] return the number that a word spells, capped at 2^120 in size, and `None` iff it spells none.

mod command;
mod number;
mod table;
mod version;

pub use command::{Command, Entries, Expr, Line, Operand, Verb, Why, verb_for};
pub use number::{coordinate, spelled};
pub use table::looked_up;
pub use version::Version;
