#![tactic(auto)]
//! Walks: how tests follow one another, for any tester that answers them (computations with an oracle), how lists of
//! parts are joined, subtracted and compared by them, and the statements of the laws over these.
