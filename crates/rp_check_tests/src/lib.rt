#![tactic(auto)]
//! Tests of the check of a report.
//!
//! They use what the crates give to all, and stand apart so that no program's crate is proved with tests.

#[cfg(test)]
mod checker;
#[cfg(test)]
mod trail;
#[cfg(test)]
mod visits;
