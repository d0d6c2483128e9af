#![tactic(auto)]
//! What the run keeps lots with, and its questions about lots in contact and apart.
//!
//! Lots have regions ([`Regions`]), whatever keeps them ([`Keeper`](rp_lots::Keeper)). The rows are those of
//! `rp_contacts`, whose pairs of lots are judged here in halves, in several threads: the answer, the count of tests and
//! the proof lines are the same for every grain. Calls that answer `AllocError` do so only for want of memory.

mod apart;
mod contacts;
mod halves;
mod regions;

pub use apart::audit;
pub use contacts::{access, neighbours};
pub use halves::meet_in_halves;
pub use regions::Regions;
