#![tactic(auto)]
//! The boxes of lots, in an index that finds the lots which may meet a shape, or have a point, without visiting every
//! lot.
//!
//! Each layer has an index of its own, so a search in one layer visits no box of another one. In the index of a layer,
//! the boxes of live lots are moved into one cube. The boxes of lots that ended are moved into further cubes, by the
//! lines between which the lots lived. So a search among the lots of a layer, now or after a line, meets few others. An
//! index is sorted by x first. So a box that is thin on another axis is turned until this axis comes first, and a
//! search goes through each of the three turns.
//!
//! A lot has at most 16 boxes ([`Bounded`]), so its place has 16 ids. The boxes of a new lot are all added, or none if
//! memory runs out. The boxes of lots that end are moved without memory.
//!
//! [`LotBoxes::near`] returns, in rising order, the places of live lots of a layer, from a place on and without one id,
//! whose boxes meet given boxes. Each lot with a part that may meet a part within these boxes is among them.
//! [`LotBoxes::owner`] returns the first lot of a layer that has a point, now or after a line. The lemmas show, for
//! every tester, that the walks over all lots have the results of the walks over these. A call returns `AllocError`
//! only if memory runs out.

mod axis;
mod bounded;
mod boxes;
mod cube;
mod near;
mod owner;
mod stretch;
mod there;

pub use bounded::Bounded;
pub use boxes::LotBoxes;
pub use owner::Holder;
