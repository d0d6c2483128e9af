#![tactic(auto)]
//! Tests of the tool: words, a source and a sink to a status.
//!
//! They use what the crate gives to all, and stand apart so that no program's crate is proved with tests.

#[cfg(test)]
mod tool;
