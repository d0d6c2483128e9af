//! Three half-spaces, with the values that all refutations by the three and a fourth half-space use.
ghost use Rattle.std.specs.Prelude.{◌≡◌, ◌&&◌, ◌*◌, ◌^◌, ◌*ℤ◌, Bool, true, false, not, pos, MatchOption};
ghost use Rattle.rp_algebra.specs.Within.{IsWithin};
ghost use Rattle.rp_geometry.specs.searches.Vertex.{meeting_weight};
ghost use Rattle.rp_geometry.specs.searches.Elimination.{minors_of_four, refutation_of_four};
ghost use Rattle.rp_elim.specs.Factors.{AreFactorsSmall};
ghost use Rattle.rp_elim.specs.Sides.{has_sign, signed, contradicts, four_offsets, three_of, CannotRefute};
ghost use Rattle.rp_elim.specs.Written.{if_found};

use crate::cross::Cross;
use crate::minors::minors_of_four;
use crate::refutation::refutation;
use rp_space::{Half, Outside, Term};
use std::marker::Model;

/// Three half-spaces with independent normals. A contract sees the three half-spaces.
#[derive(Drop)]
pub struct Triple<'a> {
    ef: Cross<'a>,
    eg: Cross<'a>,
    fg: Cross<'a>,
    positive: bool,
}

impl<'a> Model for Triple<'a> {
    ghost use Rattle.rp_elim.specs.Sides.{ThreeHalfSpaces, three_of};

    ghost Value = { ThreeHalfSpaces };

    ghost use Rattle.rp_elim.specs.TripleSigns.{IsPrepared};

    ghost view = { λ t. three_of t.ef.first t.ef.second t.eg.second };

    ghost invariant = { IsPrepared };
}

impl<'a> Triple<'a> {
    /// Returns the triple of the two half-spaces of `ef` and `g`; `None` iff their normals are dependent.
    pub fn new(ef: &Cross<'a>, g: &'a Half) -> Option<Triple<'a>>
        ensures { MatchOption result (meeting_weight ef.now.first ef.now.second g.now ≡ pos 0) (λ t. t ≡ three_of ef.now.first ef.now.second g.now) }
    {
        match ef.opposite_sign(g) {
            None => None,
            Some(positive) => Some(Triple {
                ef: ef.copy(),
                eg: Cross::new(ef.first(), g),
                fg: Cross::new(ef.second(), g),
                positive,
            }),
        }
    }

    /// Returns false only if the three half-spaces and `h` do not refute, in whatever order. Compares the alternating
    /// signs of the four minors, and then tests whether the offsets times these minors add up to a contradiction
    /// (`strict` or not).
    pub fn may_refute(&self, strict: bool, h: &Half) -> bool
        ensures { result ≡ false → CannotRefute strict self.now.first self.now.second self.now.third h.now }
    {
        self.ef.has_sign(self.positive, h) && self.may_refute_beside(strict, h)
    }

    /// Returns false only if the three half-spaces and `h` do not refute, in whatever order. It makes the tests of
    /// [`Triple::may_refute`] except that of the minor of the first two half-spaces and `h`.
    fn may_refute_beside(&self, strict: bool, h: &Half) -> bool
        ensures { result ≡ false → CannotRefute strict self.now.first self.now.second self.now.third h.now }
    {
        have_one_sign(self.positive, &self.eg, &self.fg, h)
            && contradict(strict, self.positive, &self.ef, &self.eg, &self.fg, h)
    }

    /// Returns false only if the three half-spaces and `h` do not refute, in whatever order. It makes the tests of
    /// [`Triple::may_refute`] except those of the minors of the first half-space, one of the two others and `h`.
    pub fn may_refute_last(&self, strict: bool, h: &Half) -> bool
        ensures { result ≡ false → CannotRefute strict self.now.first self.now.second self.now.third h.now }
    {
        self.fg.has_sign(self.positive, h)
            && contradict(strict, self.positive, &self.ef, &self.eg, &self.fg, h)
    }

    /// Writes to `found` the refutation by the three half-spaces and `h`; returns whether there is one. It refutes that
    /// all four are positive (`strict`), or that none is negative. The signs and the sum of the offsets are tried
    /// first: if two signs differ, or the sum does not contradict, the minors are not computed.
    pub fn refutation(&self, strict: bool, h: &Half, found: &mut Outside) -> bool
        ensures { if_found result found.new ≡ refutation_of_four strict self.now.first self.now.second self.now.third h.now }
    {
        if !self.may_refute(strict, h) {
            return false;
        }
        refutation(strict, &minors_of_crosses(&self.ef, &self.eg, h), found)
    }
}

/// Returns the multiples that cancel of the two half-spaces of `ef`, the second half-space of `eg`, and `h`.
fn minors_of_crosses(ef: &Cross, eg: &Cross, h: &Half) -> [Term; 4]
    ensures value { result ≡ minors_of_four ef.now.first ef.now.second eg.now.second h.now }
    ensures small { AreFactorsSmall result }
{
    minors_of_four(ef.first(), ef.second(), eg.second(), h)
}

/// Returns whether the first two of the four minors have the sign that `positive` asks of the last one. Both are
/// computed at once, since it cannot be foreseen which of them has another sign.
fn have_one_sign(positive: bool, eg: &Cross, fg: &Cross, h: &Half) -> bool
    ensures { result ≡ (has_sign (not positive) (meeting_weight eg.now.first eg.now.second h.now) && has_sign positive (meeting_weight fg.now.first fg.now.second h.now)) }
{
    eg.has_sign(!positive, h) & fg.has_sign(positive, h)
}

/// Returns whether the offsets of four half-spaces, each times its minor, add up to a contradiction. If the last minor
/// is not `positive`, the negative of the sum is tested.
fn contradict(strict: bool, positive: bool, ef: &Cross, eg: &Cross, fg: &Cross, h: &Half) -> bool
    ensures { result ≡ contradicts strict (signed positive (four_offsets (meeting_weight fg.now.first fg.now.second h.now) (meeting_weight eg.now.first eg.now.second h.now) (meeting_weight ef.now.first ef.now.second h.now) (meeting_weight ef.now.first ef.now.second eg.now.second) ef.now.first ef.now.second eg.now.second h.now)) }
{
    contradicts(strict, signed(positive, offset(ef, eg, fg, h)))
}

/// Returns the sum of the offsets of the four half-spaces of `ef`, `eg`, `fg` and `h`, each times its signed minor,
/// within 72 * 2^120.
fn offset(ef: &Cross, eg: &Cross, fg: &Cross, h: &Half) -> i128
    ensures value { result ≡ four_offsets (meeting_weight fg.now.first fg.now.second h.now) (meeting_weight eg.now.first eg.now.second h.now) (meeting_weight ef.now.first ef.now.second h.now) (meeting_weight ef.now.first ef.now.second eg.now.second) ef.now.first ef.now.second eg.now.second h.now }
    ensures small { IsWithin (72 * 2 ^ 120) result }
{
    let g = eg.second();
    let x = times_offset(fg.weight(h), ef.first());
    let y = times_offset(eg.weight(h), ef.second());
    let z = times_offset(ef.weight(h), g);
    let w = times_offset(ef.weight(g), h);
    x - y + z - w
}

/// Returns the offset of `half` times `times`, within 18 * 2^120.
fn times_offset(times: i128, half: &Half) -> i128
    requires { IsWithin (6 * 2 ^ 72) times }
    ensures value { result ≡ times *ℤ half.now.d }
    ensures small { IsWithin (18 * 2 ^ 120) result }
{
    let (_, _, _, d) = half.numbers();
    times * d as i128
}

/// Returns `sum` if `positive`, otherwise its negative.
fn signed(positive: bool, sum: i128) -> i128
    requires { IsWithin (72 * 2 ^ 120) sum }
    ensures { result ≡ signed positive sum }
{
    if positive { sum } else { -sum }
}

/// Returns whether `sum` is at most 0 (`strict`), or below 0.
fn contradicts(strict: bool, sum: i128) -> bool
    ensures { result ≡ contradicts strict sum }
{
    if strict { sum <= 0 } else { sum < 0 }
}
