#![tactic(auto)]
//! The rows of the commands that change something, but for subdivisions, written once over whatever answers their tests
//! and keeps the register.
//!
//! Each comes to the change, the refusal or the stop that its definition has for it, and makes exactly the tests of
//! that. No change is made here: it is answered, and what keeps the register makes it. Calls that answer `AllocError`
//! do so only for want of memory.

mod dividing;
mod joining;
mod making;
mod orders;

pub use dividing::cut;
pub use joining::{consolidate, define, retire};
pub use making::make_lot;
pub use orders::{consolidation, cutting, definition, registration, retirement};
