#![tactic(auto)]
//! What is true of the tests of a walk is true of the walk: one induction over walks and rows, for two testers or one.
