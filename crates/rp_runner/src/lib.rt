#![tactic(auto)]
//! Scripts that are run: their reports put line by line, and what is counted in the report of a made one.
//!
//! [`run::run`] puts the report of a script to a sink, full or brief, and tells whether something was refused.
//! [`trial::trial`] runs the script of a building and puts the summary of its report; neither the script nor the report
//! is held whole. Both fail only where a put did, or for want of memory; then a front of their text was put. Calls that
//! answer `AllocError` do so only for want of memory.

pub mod run;
mod summary;
pub mod trial;
