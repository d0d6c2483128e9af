//! What a command comes to, and how far its row stands once.

use rp_answer::Verdicts;
use rp_lists::Name;
use rp_lots::Change;

/// What a command comes to.
#[derive(Drop)]
pub enum Reply<F: Drop> {
    /// It has asked something: the verdict lines.
    Told(Verdicts),
    /// It is to change something.
    Changed(Change<F>),
}

/// What the row of a command comes to where pairs of lots are not judged and slices not told: its reply, or a question
/// that is left for whoever judges and tells them.
#[derive(Drop)]
pub enum Row<F: Drop> {
    /// The row is at its end.
    Replied(Reply<F>),
    /// Which lots are in contact with the one of this id.
    Neighbours(Name),
    /// Whether live lots are apart.
    Audit,
    /// How to get from the first lot to the second.
    Access(Name, Name),
    /// The slices of the form at the height.
    Section(F, i32),
}
