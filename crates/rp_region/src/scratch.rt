//! Memory that a work hands on to the next work.

use crate::front::Front;
use std::alloc::{AllocError, Global};

/// Memory for stored cells with their vertices. It is large: it is allocated once, at its first use, and handed on from
/// one work to the next. No result of a work depends on it.
#[derive(Drop)]
pub struct Scratch {
    front: Option<Box<Front>>,
}

impl Scratch {
    /// Returns a room without memory, which is allocated later. Takes no memory.
    pub fn new() -> Scratch {
        Scratch { front: None }
    }

    /// Returns the memory of this room and leaves none here.
    pub fn take(&mut self) -> Scratch {
        Scratch {
            front: self.front.take(),
        }
    }

    /// Returns the memory, if it is allocated and not lent.
    pub(crate) fn lend(&mut self) -> Option<Box<Front>> {
        self.front.take()
    }

    /// Returns the memory, and allocates it if there is none.
    ///
    /// # Errors
    ///
    /// `AllocError` for want of memory.
    pub(crate) fn lend_or_make(&mut self, alloc: Global) -> Result<Box<Front>, AllocError> {
        if let Some(front) = self.lend() {
            return Ok(front);
        }
        Ok(Box::new(alloc, Front::new())?)
    }

    /// Replaces the memory of this room by that of `other`, if `other` has some.
    pub(crate) fn take_from(&mut self, other: Scratch) {
        if other.front.is_some() {
            self.front = other.front;
        }
    }

    /// Puts the memory back for further tests.
    pub(crate) fn keep(&mut self, front: Box<Front>) {
        self.front = Some(front);
    }
}
