#![tactic(auto)]
//! The register of parcels: live lots of one layer never share a point. Each call makes the checks, counts and tests of
//! the row of its command.
//!
//! A register is by its type a sound one: ids are distinct, live parcels of one layer share no point, every parcel has
//! one, ends are above births, origins stand before and are of the same layer, and the limits are kept. A call changes
//! the lots exactly as its row says, or is refused for its first cause; then, and after want of memory, all lots are as
//! before. The items of `neighbours`, `access` and `audit` are judged in halves; the answer, the count of tests and the
//! proof lines are those of the row for every grain. The parcel at a point is the only one of its layer. Points that a
//! refusal carries are those of its last proof line. Calls that answer `AllocError` do so only for want of memory.
//!
//! The rows are those of `rp_changes`, `rp_subdivide` and `rp_regionlots`, each walked on a work of its own, which the
//! work of the call takes over.

mod answer;
mod changes;
mod child;
mod fault;
mod keeper;
mod parcels;
mod points;
mod questions;

pub use child::Child;
pub use fault::ParcelFault;
pub use parcels::Parcels;
pub use rp_rows::{Access, Levels};
