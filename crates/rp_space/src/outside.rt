//! Lists of at most four multiples of half-spaces.

use crate::half::Half;
use rp_lists::{Copied, Short};
use std::marker::Model;

/// A multiple of a half-space.
#[derive(Clone, Copy, Debug, PartialEq, Eq, Default)]
pub struct Term {
    /// The multiplier.
    pub by: i128,
    /// The half-space.
    pub half: Half,
}

impl Model for Term {
    ghost use Rattle.rp_geometry.specs.searches.Certificate.{Multiple};

    ghost Value = { Multiple };

    ghost view = { λ t. record { factor = t.by; of = t.half } };

    ghost inverse = { λ t. record { by = t.factor; half = t.of } };
}

impl Copied for Term {
    fn copy(&self) -> Term {
        *self
    }
}

/// A list of at most four multiples of half-spaces, which takes no memory.
pub type Outside = Short<Term, 4>;
