#![tactic(auto)]
//! Tests of lots: their boxes, their history, access and the register of the run.
//!
//! They use the public functions of the crates, and are a crate of their own so that no program's crate is proved with
//! tests.

#[cfg(test)]
mod access;
#[cfg(test)]
mod boxindex;
#[cfg(test)]
mod grains;
#[cfg(test)]
mod history;
#[cfg(test)]
mod lotindex;
#[cfg(test)]
mod names;
#[cfg(test)]
mod parallel;
#[cfg(test)]
mod parcels;
#[cfg(test)]
mod slices;
