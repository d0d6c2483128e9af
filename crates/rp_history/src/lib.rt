#![tactic(auto)]
//! The history of lots: which were ever registered, when each was born and ended, and from which others it was made (an
//! append-only log of lifespans, with provenance).
//!
//! Births and ends are recorded as the definition says, and no lot is ever removed. If memory runs out, the history
//! stays as it was. The index of a lot, or of a live lot, is found from its id without a walk. The lineage of a lot is
//! the definition's: the lots that are reached through origins, in the order of their births. Commands check their
//! names against the history first. A call returns `AllocError` only if memory runs out.

mod births;
mod checks;
mod fault;
mod history;
mod lineage;
mod list;
mod lot;

pub use fault::NameFault;
pub use history::History;
pub use lot::{Birth, LotLine};
