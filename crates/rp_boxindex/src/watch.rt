//! Watches of the work.

use std::sync::atomic::{AtomicU64, Ordering};

/// A watch, which is called as each piece of work begins. No answer depends on it.
pub trait Watch: Sync {
    /// Observes that a node of an index is visited.
    fn node(&self);

    /// Observes that item `i` is judged.
    fn item(&self, i: usize);
}

/// The watch that does nothing.
#[derive(Clone, Copy)]
pub struct Quiet;

impl Watch for Quiet {
    fn node(&self) {}

    fn item(&self, _i: usize) {}
}

/// A watch that counts the visited nodes, or does not count.
#[derive(Drop)]
pub struct VisitCount {
    count: Option<AtomicU64>,
}

impl VisitCount {
    /// Returns the watch that does not count, at the cost of a branch for each node.
    pub const fn uncounted() -> VisitCount {
        VisitCount { count: None }
    }

    /// Returns the watch that counts, from 0.
    pub const fn counted() -> VisitCount {
        VisitCount {
            count: Some(AtomicU64::new(0)),
        }
    }

    /// Returns the number of nodes visited so far: 0 if they are not counted.
    pub fn count(&self) -> u64 {
        match &self.count {
            None => 0,
            Some(count) => count.load(Ordering::Relaxed),
        }
    }

    /// Calls another watch for as many nodes.
    pub fn tell<W: Watch>(&self, watch: &W) {
        for _ in 0..self.count() {
            watch.node();
        }
    }
}

impl Watch for VisitCount {
    fn node(&self) {
        if let Some(count) = &self.count {
            count.fetch_add(1, Ordering::Relaxed);
        }
    }

    fn item(&self, _i: usize) {}
}
