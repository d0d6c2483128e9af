#![tactic(auto)]
//! Tests of numbers, certificates, the searches and cells.
//!
//! They use public functions alone, and are in a crate of their own so that no program's crate is proved with tests.

#[cfg(test)]
mod cell;
#[cfg(test)]
mod cert;
#[cfg(test)]
mod clip;
#[cfg(test)]
mod elim;
#[cfg(test)]
mod footprint;
#[cfg(test)]
mod shapes;
#[cfg(test)]
mod space;
#[cfg(test)]
mod threads;
#[cfg(test)]
mod vertex;
