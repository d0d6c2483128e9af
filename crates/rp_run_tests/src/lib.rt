#![tactic(auto)]
//! Tests of the run: one line after the other to its answers.
//!
//! They use what the crate gives to all, and stand apart so that no program's crate is proved with tests.

#[cfg(test)]
mod machine;
#[cfg(test)]
mod visits;
