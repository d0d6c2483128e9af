//! Pairs of lots.

/// Two lots, by their places among all, or by their numbers among some.
#[derive(Clone, Copy)]
pub struct Pair {
    pub first: usize,
    pub second: usize,
}
