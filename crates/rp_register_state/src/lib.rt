#![tactic(auto)]
//! What is kept between two lines of a script, or two answers of its report, and the row of each command over it.
//!
//! A [`RegisterState`] is by its type a sound state of parts, and a change that leaves such a state is made in it. A
//! row ([`carry_out`]) makes the checks and the tests of a command in order, whatever answers the tests and keeps the
//! register, and changes nothing: it comes to verdict lines or to a change, or to what is left of it where pairs of
//! lots are judged or slices are told. Calls that answer `AllocError` do so only for want of memory.

mod lots;
mod register_state;
mod replaced;
mod reply;
mod rows;

pub use register_state::RegisterState;
pub use reply::{Reply, Row};
pub use rows::carry_out;
