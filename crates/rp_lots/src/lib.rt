#![tactic(auto)]
//! What the rows of questions about lots and the rows of changes both need, over whatever answers their tests and
//! whatever keeps the lots.
//!
//! [`Keeper`] has the lots that were ever registered, with their forms, and [`Registry`] the whole register. The lots
//! that may meet a form are found and their tests are counted here, and a row that changes something answers a
//! [`Change`]. Calls that answer `AllocError` do so only for want of memory.

mod births;
mod change;
mod checks;
mod keeper;
mod near;
mod registry;

pub use births::{add_born, replacing};
pub use change::{Change, Replaced};
pub use checks::{check_room, count_parts};
pub use keeper::Keeper;
pub use near::{Near, count_pairs, count_tests, form_at, lots_near};
pub use registry::{Overlaps, Registry};
