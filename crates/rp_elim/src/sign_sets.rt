//! The signs of the determinants of two half-spaces and each half-space of a list, as sets of places.
ghost use Rattle.std.specs.Prelude.{◌≡◌, ◌≤◌, ◌∷◌, List, length};
ghost use Rattle.rp_geometry.specs.Geometry.{HalfSpace};
ghost use Rattle.rp_space.specs.Places.{bits_of};
ghost use Rattle.rp_elim.specs.declared.placed.Placed.{Placed};
ghost use Rattle.rp_elim.specs.SignSets.{may_be_fourth, signs_of};

use crate::cross::Cross;
use crate::placed::Placed;

/// The places, in a list, of the half-spaces whose determinant with two others is above 0, and the places of those
/// whose determinant is below 0.
#[derive(Clone, Copy, Default)]
pub struct Signs {
    pub above: u128,
    pub below: u128,
}

impl Signs {
    /// Returns the signs of the determinants of the two half-spaces of `kp` and each of `qs`, at most 69.
    pub fn new(kp: &Cross, qs: &[Placed]) -> Signs
        requires { length qs.now ≤ 69 }
        ensures { result ≡ signs_of kp.now.first kp.now.second qs.now }
    {
        let mut above: u128 = 0;
        let mut below: u128 = 0;
        let mut i = qs.len();
        while i > 0 {
            i -= 1;
            let weight = kp.weight(&qs[i].half);
            above = 2 * above + (weight > 0) as u128;
            below = 2 * below + (weight < 0) as u128;
        }
        Signs { above, below }
    }

    /// Returns the signs of the list without its first half-space.
    pub fn behind(self) -> Signs
        ensures { (f g : HalfSpace) (q : Placed) (rs : List Placed) → self ≡ signs_of f g (q ∷ rs) → result ≡ signs_of f g rs }
    {
        Signs {
            above: self.above >> 1,
            below: self.below >> 1,
        }
    }

    /// Returns the places of the half-spaces of the list, after its first, that may refute with three others: the two
    /// half-spaces of these signs and the first of the list. `next` has the signs of the first of the two and the first
    /// of the list, with each later half-space. Four refute only if the determinants of three of them have signs that
    /// alternate.
    pub fn fourth_places(self, next: Signs) -> u128
        ensures { (k p : HalfSpace) (q : Placed) (rs : List Placed) → self ≡ signs_of k p (q ∷ rs) → next ≡ signs_of k q.half rs → result ≡ bits_of (may_be_fourth k p q.half) rs }
    {
        if self.above % 2 == 1 {
            return (self.below >> 1) & next.above;
        }
        if self.below % 2 == 1 {
            return (self.above >> 1) & next.below;
        }
        0
    }
}
