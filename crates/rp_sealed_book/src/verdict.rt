//! What comes of a comparison of a book with a seal.

/// What comes of a comparison of a book with a seal.
#[derive(Clone, Copy, Debug, PartialEq, Eq)]
pub enum SealVerdict {
    /// The book begins with the sealed acts.
    Begins,
    /// The book has as many acts, and others.
    Differs,
    /// The book has fewer acts.
    Shorter,
}
