//! Decisions about a cell whose first half-spaces are stored already.
ghost use Rattle.std.specs.Prelude.{◌≡◌, ◌+◌, ◌<◌, ◌≤◌, [], ◌∷◌, ◌++◌, true, length, IfSome, IsTrue, Some};
ghost use Rattle.rp_geometry.specs.sets.Shape.{shape_of_cell};
ghost use Rattle.rp_geometry.specs.sets.Sets.{IsEmpty};
ghost use Rattle.rp_geometry.specs.searches.Certificate.{is_outside_certificate};
ghost use Rattle.rp_geometry.specs.searches.Elimination.{first_outside};
ghost use Rattle.rp_geometry.specs.searches.ProofLine.{strict_line, out_line};
ghost use Rattle.rp_cell.specs.Decisions.{line_of_strict, DecidesStrict};

use crate::decide::Strict;
use crate::held::Held;
use rp_elim::{first_outside_through, first_outside_with_last};
use rp_space::{Half, Outside, keep_bounds};

impl Held {
    /// Decides whether the cell of `first` with `more` half-spaces after its own has a point, as [`decide_strict`]
    /// does. The cell has at most 64 half-spaces and replaces the stored one. If one of `more`, except their last, took
    /// the last point away, the cell without that half-space is stored instead: the data that it shares with `first`
    /// are copied.
    pub fn strict_beside(&mut self, first: &Held, more: &[Half]) -> Strict
        requires { length first.now + length more.now ≤ 64 }
        ensures decides { DecidesStrict (first.now ++ more.now) result }
        ensures line { line_of_strict result ≡ strict_line (first.now ++ more.now) }
    {
        self.hold_behind(first, more);
        if let Some(place) = self.taker(first.halves().len(), more.len()) {
            if let Some(terms) = self.refute_through(first, more, place) {
                return Strict::Outside(terms);
            }
            self.hold_behind(first, more);
        }
        self.strict()
    }

    /// Returns the first outside certificate of the cell with `half` after its own half-spaces, in one case: the
    /// vertices show that the cell has a point, and `half` refutes alone or with one other. After `None` it is open
    /// whether there is a point.
    pub fn refute_with_next(&self, half: &Half) -> Option<Outside>
        ensures { IfSome result (λ terms. out_line terms ≡ strict_line (self.now ++ half.now ∷ [])) }
    {
        if !self.has_point() {
            return None;
        }
        let cell = self.halves();
        // The two calls make it known that all half-spaces keep their bounds.
        keep_bounds(cell);
        let _ = half.numbers();
        first_outside_with_last(cell, half, true)
    }

    /// Stores the cell of `first` with `more` half-spaces after its own, at most 64 together.
    fn hold_behind(&mut self, first: &Held, more: &[Half])
        requires { length first.now + length more.now ≤ 64 }
        ensures { self.new ≡ first.now ++ more.now }
    {
        self.copy_from(first);
        self.extend(more);
    }

    /// Returns the first outside certificate of the cell of `first` and `more`, in one case: the vertices show that the
    /// other half-spaces have a point without the one of `more` at `place`. After `None` it is open whether there is a
    /// certificate.
    fn refute_through(&mut self, first: &Held, more: &[Half], place: usize) -> Option<Outside>
        requires few { length first.now + length more.now ≤ 64 }
        requires place { place < length more.now }
        ensures first { IfSome result (λ terms. first_outside true (first.now ++ more.now) ≡ Some terms) }
        ensures passes { IfSome result (λ terms. IsTrue (is_outside_certificate true (first.now ++ more.now) terms)) }
        ensures empty { IfSome result (λ _. IsEmpty (shape_of_cell (first.now ++ more.now))) }
        ensures line { IfSome result (λ terms. out_line terms ≡ strict_line (first.now ++ more.now)) }
    {
        self.hold_behind(first, &more[..place]);
        self.extend(&more[place + 1..]);
        if !self.has_point() {
            return None;
        }
        // The calls make it known that all half-spaces keep their bounds.
        keep_bounds(self.halves());
        keep_bounds(first.halves());
        keep_bounds(more);
        let before = &self.halves()[..first.halves().len() + place];
        first_outside_through(before, &more[place], &more[place + 1..], true)
    }
}
