//! The cross product of the normals of two half-spaces. With it, the determinant with a third half-space needs three
//! products.
ghost use Rattle.std.specs.Prelude.{◌≡◌, ◌≢◌, ◌*◌, ◌^◌, true, pos, neg_ℤ, MatchOption};
ghost use Rattle.rp_algebra.specs.Within.{IsWithin};
ghost use Rattle.rp_geometry.specs.searches.Vertex.{meeting_weight};
ghost use Rattle.rp_space.specs.TwoHalfSpaces.{two_of};
ghost use Rattle.rp_elim.specs.Sides.{has_sign};

use rp_space::Half;
use std::marker::Model;

/// The last 64 bits of a number.
const LAST_WORD: i128 = 0xffff_ffff_ffff_ffff;

/// The cross product of the normals of two half-spaces, as 2 by 2 minors. A contract sees the two half-spaces.
#[derive(Drop)]
pub struct Cross<'a> {
    first: &'a Half,
    second: &'a Half,
    bc: i64,
    ac: i64,
    ab: i64,
}

impl<'a> Model for Cross<'a> {
    ghost use Rattle.rp_space.specs.TwoHalfSpaces.{TwoHalfSpaces, two_of};

    ghost Value = { TwoHalfSpaces };

    ghost use Rattle.rp_elim.specs.CrossMinors.{HasMinors};

    ghost view = { λ p. two_of p.first.now p.second.now };

    ghost invariant = { HasMinors };
}

impl<'a> Cross<'a> {
    /// Returns the cross product of the normals of `f` and `g`.
    pub fn new(f: &'a Half, g: &'a Half) -> Cross<'a>
        ensures { result ≡ two_of f.now g.now }
    {
        let (fa, fb, fc, _) = f.numbers();
        let (ga, gb, gc, _) = g.numbers();
        Cross {
            first: f,
            second: g,
            bc: fb * gc - fc * gb,
            ac: fa * gc - fc * ga,
            ab: fa * gb - fb * ga,
        }
    }

    /// Returns the first half-space.
    pub fn first(&self) -> &'a Half
        ensures { result.now ≡ self.now.first }
    {
        self.first
    }

    /// Returns the second half-space.
    pub fn second(&self) -> &'a Half
        ensures { result.now ≡ self.now.second }
    {
        self.second
    }

    /// Returns a copy of the cross product.
    pub fn copy(&self) -> Cross<'a>
        ensures { result ≡ self.now }
    {
        Cross {
            first: self.first,
            second: self.second,
            bc: self.bc,
            ac: self.ac,
            ab: self.ab,
        }
    }

    /// Returns the determinant of the coefficients of the two half-spaces and `h`, within 6 * 2^72.
    pub fn weight(&self, h: &Half) -> i128
        ensures value { result ≡ meeting_weight self.now.first self.now.second h.now }
        ensures small { IsWithin (6 * 2 ^ 72) result }
    {
        let (a, b, c, _) = h.numbers();
        a as i128 * self.bc as i128 - b as i128 * self.ac as i128 + c as i128 * self.ab as i128
    }

    /// Returns true only if the determinant with `h` as the third half-space is not 0; then the three normals are
    /// independent. It reads the last 64 bits of the determinant alone, which need one product of a word for each
    /// coefficient.
    pub fn is_seen_independent(&self, h: &Half) -> bool
        ensures { result ≡ true → meeting_weight self.now.first self.now.second h.now ≢ pos 0 }
    {
        self.weight(h) & LAST_WORD != 0
    }

    /// Returns whether the determinant with `h` as the third half-space is above 0 (`positive`), or below 0.
    pub fn has_sign(&self, positive: bool, h: &Half) -> bool
        ensures { result ≡ has_sign positive (meeting_weight self.now.first self.now.second h.now) }
    {
        has_sign(positive, self.weight(h))
    }

    /// Returns whether the negative of the determinant with `h` is above 0; `None` iff the determinant is 0.
    pub fn opposite_sign(&self, h: &Half) -> Option<bool>
        ensures { MatchOption result (meeting_weight self.now.first self.now.second h.now ≡ pos 0) (λ s. has_sign s (neg_ℤ (meeting_weight self.now.first self.now.second h.now)) ≡ true) }
    {
        if self.has_sign(false, h) {
            return Some(true);
        }
        if self.has_sign(true, h) {
            return Some(false);
        }
        None
    }
}

/// Returns whether `v` is above 0 (`positive`), or below 0.
fn has_sign(positive: bool, v: i128) -> bool
    ensures { result ≡ has_sign positive v }
{
    if positive { v > 0 } else { v < 0 }
}
