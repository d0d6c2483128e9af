//! Two half-spaces, with the values that all refutations by the two and a third half-space use.
ghost use Rattle.std.specs.Prelude.{◌≡◌, ◌&&◌, Bool, true, not, pos, None, MatchOption};
ghost use Rattle.rp_geometry.specs.searches.Elimination.{refutation_of_three};
ghost use Rattle.rp_space.specs.TwoHalfSpaces.{two_of};
ghost use Rattle.rp_elim.specs.Axes.{axes_of, minor_on};
ghost use Rattle.rp_elim.specs.Sides.{has_sign};
ghost use Rattle.rp_elim.specs.Written.{if_found};

use crate::cross::Cross;
use crate::minors::{Axis, axes_of, minor, minors_on_axes};
use crate::refutation::refutation;
use rp_space::{Half, Outside};
use std::marker::Model;

/// Two half-spaces with independent normals. A contract sees the two half-spaces.
#[derive(Drop)]
pub struct Couple<'a> {
    cross: Cross<'a>,
    u: Axis,
    v: Axis,
    positive: bool,
}

impl<'a> Model for Couple<'a> {
    ghost use Rattle.rp_space.specs.TwoHalfSpaces.{TwoHalfSpaces};

    ghost Value = { TwoHalfSpaces };

    ghost use Rattle.rp_elim.specs.CoupleSign.{IsPrepared};

    ghost view = { λ p. p.cross };

    ghost invariant = { IsPrepared };
}

impl<'a> Couple<'a> {
    /// Returns the couple of `f` and `g`; `None` iff their normals are dependent.
    pub fn new(f: &'a Half, g: &'a Half) -> Option<Couple<'a>>
        ensures { MatchOption result (minor_on (axes_of f.now g.now) f.now g.now ≡ pos 0) (λ p. p ≡ two_of f.now g.now) }
    {
        let (u, v) = axes_of(f, g);
        match sign_of(minor(f, g, u, v)) {
            None => None,
            Some(positive) => Some(Couple {
                cross: Cross::new(f, g),
                u,
                v,
                positive,
            }),
        }
    }

    /// Returns true only if the normals of the two half-spaces and `h` are independent; then the three do not refute.
    /// It reads the last 64 bits of the determinant alone.
    pub fn is_passed_over(&self, h: &Half) -> bool
        ensures { result ≡ true → (strict : Bool) → refutation_of_three strict self.now.first self.now.second h.now ≡ None }
    {
        self.cross.is_seen_independent(h)
    }

    /// Writes to `found` the refutation by the two half-spaces and `h`; returns whether there is one. It refutes that
    /// all three are positive (`strict`), or that none is negative. Only three with dependent normals have multiples
    /// that cancel, so the determinant is tried first, and then the signs.
    pub fn refutation(&self, strict: bool, h: &Half, found: &mut Outside) -> bool
        ensures { if_found result found.new ≡ refutation_of_three strict self.now.first self.now.second h.now }
    {
        if self.cross.weight(h) != 0 {
            return false;
        }
        let f = self.cross.first();
        let g = self.cross.second();
        if !have_one_sign(self.positive, f, g, h, self.u, self.v) {
            return false;
        }
        let minors = minors_on_axes(f, g, h, self.u, self.v);
        refutation(strict, &minors, found)
    }
}

/// Returns whether the first two of the three minors of `f`, `g` and `h` on the axes `u` and `v` have the sign of the
/// last minor. That sign is above 0 (`positive`) or below 0.
fn have_one_sign(positive: bool, f: &Half, g: &Half, h: &Half, u: Axis, v: Axis) -> bool
    ensures { result ≡ (has_sign positive (minor_on (u, v) g.now h.now) && has_sign (not positive) (minor_on (u, v) f.now h.now)) }
{
    has_sign(positive, minor(g, h, u, v)) && has_sign(!positive, minor(f, h, u, v))
}

/// Returns whether `v` is above 0 (`positive`), or below 0.
fn has_sign(positive: bool, v: i64) -> bool
    ensures { result ≡ has_sign positive v }
{
    if positive { v > 0 } else { v < 0 }
}

/// Returns whether `v` is above 0; `None` iff `v` is 0.
fn sign_of(v: i64) -> Option<bool>
    ensures { MatchOption result (v ≡ pos 0) (λ s. has_sign s v ≡ true) }
{
    if v == 0 { None } else { Some(v > 0) }
}
