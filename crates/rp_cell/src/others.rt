//! The cell in which a half-space is tested against others.
ghost use Rattle.std.specs.Prelude.{◌≡◌, ◌+◌, ◌<◌, [], ◌∷◌, ◌++◌, length};
ghost use Rattle.rp_geometry.specs.Geometry.{IsKeptHalfSpace, complement};

use rp_space::{Half, System, joined};

/// Returns the cell of `first`, `second` and the complement of `half`: its members are those of the two lists that are
/// outside `half`.
pub(crate) fn outside_of(half: &Half, first: &[Half], second: &[Half]) -> System
    requires { length first.now + length second.now < 64 }
    ensures items { result.items ≡ first.now ++ second.now ++ complement half.now ∷ [] }
    ensures kept { IsKeptHalfSpace half.now }
{
    // The call makes it known that the half-space keeps its bounds and is in lowest terms.
    let _ = half.numbers();
    let mut outside = joined(first, second);
    outside.push(half.not());
    outside
}
