//! Lines of proof.

use rp_lists::Listed;
use rp_space::{Half, Inside, IntBox, Outside, Point};

/// A line of proof.
#[derive(Debug, Drop)]
pub enum Proof {
    /// Points that show that a cell has a member.
    In(Inside),
    /// Multiples that show that a cell has no member.
    Out(Outside),
    /// A point of a weak system.
    At(Point),
    /// Multiples that show that a weak system has no point.
    Apart(Outside),
    /// A redundant half-space of a cell, with the multiples that show that it adds nothing.
    Dropped(Half, Outside),
    /// The least box of a cell.
    Bounds(IntBox),
}

/// A list of lines of proof.
pub type Proofs = Listed<Proof>;
