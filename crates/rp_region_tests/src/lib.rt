#![tactic(auto)]
//! Tests of regions: operations, comparisons, slices and groups.
//!
//! They use public functions alone, and are in a crate of their own so that no program's crate is proved with tests.

#[cfg(test)]
mod boxes;
#[cfg(test)]
mod region;
#[cfg(test)]
mod relate;
#[cfg(test)]
mod section;
#[cfg(test)]
mod unionfind;
