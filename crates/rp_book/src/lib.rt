#![tactic(auto)]
//! A script that lives on: a book keeps lines in the order in which they were added, and none is ever taken out.
//!
//! [`Book`] says what a book does, wherever it is kept: lines are added all at once or not at all, also where memory
//! runs out, the disk fails or the power does. Lines that are added at once are an act ([`Act`]). They have the numbers
//! that the report of the script echoes ([`line_numbers`]), and are a slice of the script ([`act_lines`]).

mod act;
mod book;
mod fault;
mod numbers;

pub use act::{Act, Entry, act_lines, start_of};
pub use book::Book;
pub use fault::BookFault;
pub use numbers::{has_end, line_numbers};
