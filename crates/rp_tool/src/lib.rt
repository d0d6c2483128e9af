#![tactic(auto)]
//! The top call of the store: from the words of a command line and the bytes of a source to the bytes of a sink and a
//! status.
//!
//! [`tool`] is said over any source that tells which bytes it gives and any sink that tells which it was given. Its
//! tests say it once more in plain values, over those of `rp_io` that are in memory: with status 0 or 1 the sink has
//! what it had, followed by the text of the whole output on the source's bytes, as long as a sink that never fails has
//! room for it.

mod check;
pub mod status;
mod top;

pub use top::tool;
