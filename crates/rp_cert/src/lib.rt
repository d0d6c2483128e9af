#![tactic(auto)]
//! Certificates that a cell has a member, that its weak system has a point, or that there is none; and slices, which
//! show the members of a cell at a height. Whoever reads a certificate can make the check, whatever program wrote it
//! (the checker of a certifying algorithm).
//!
//! The checks answer exactly as the definitions do, and no sum leaves 128 bits. A check that returns true shows:
//!
//! - of an inside certificate: the cell has a member;
//! - of a weak point: it solves the weak system;
//! - of an outside certificate: the cell has no member, or its weak system no point;
//! - of a ring: the cell has a member at the height, and its members there are exactly the points of the cube that all
//!   edges contain. The ends are the corners of their closure, all of them and no other points. The closure is on the
//!   left from each end to the next, and there is no other ring;
//! - of a flat certificate: the cell has no member at the height.

mod edge;
mod flat;
mod inside;
mod outside;
mod proof;
mod ring;
mod slice;
mod trace;

pub use edge::{Edge, RingStep, RingSteps};
pub use flat::cancels_at;
pub use inside::{check_inside, check_weak};
pub use outside::check_outside;
pub use proof::{Proof, Proofs};
pub use ring::is_angle_before;
pub use slice::{Slice, check_slice};
pub use trace::{has_trace, trace_at};
