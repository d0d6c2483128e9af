#![tactic(auto)]
//! Tests of what is read and written: bytes, lines, reports and scripts.
//!
//! They use what the crates give to all, and stand apart so that no program's crate is proved with tests.

#[cfg(test)]
mod io;
#[cfg(test)]
mod scripts;
#[cfg(test)]
mod syntax;
#[cfg(test)]
mod text;
