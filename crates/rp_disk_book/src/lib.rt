#![tactic(auto)]
//! A book in an SQLite database.
//!
//! The lines of all entries, in the order of their numbers, are the script, and each entry says which act it is.
//! [`DiskBook`] is such a database, opened.

mod book;
mod contents;
mod open;

pub use book::DiskBook;
pub use open::OpenFault;
