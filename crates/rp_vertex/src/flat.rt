//! The half-spaces that are positive at no point of a certificate yet.
ghost use Rattle.std.specs.Prelude.{◌≡◌, ◌≤◌, [], ◌∷◌, not, length};
ghost use Rattle.rp_geometry.specs.searches.Certificate.{is_positive_at_some};
ghost use Rattle.rp_geometry.specs.searches.Vertex.{flat_half_spaces};

use rp_space::{Half, Point, System};

/// Returns the half-spaces of `halves` that are not positive at `p`.
pub(crate) fn flat_at(halves: &[Half], p: &Point) -> System
    requires { length halves.now ≤ 70 }
    ensures { result.items ≡ flat_half_spaces halves.now (p.now ∷ []) }
{
    let mut flat = System::new();
    for half in halves {
        if stays_flat(half, p) {
            flat.push(*half);
        }
    }
    flat
}

/// Returns whether `half` is not positive at `p`.
fn stays_flat(half: &Half, p: &Point) -> bool
    ensures { result ≡ not (is_positive_at_some (p.now ∷ []) half.now) }
{
    half.side(p) <= 0
}
