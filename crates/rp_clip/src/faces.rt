//! The planes that all vertices of a cell, or of one of its faces, have in common.
ghost use Rattle.std.specs.Prelude.{◌≡◌, ◌-◌, ◌^◌};
ghost use Rattle.rp_clip.specs.Faces.{common_with, common_of};

/// Returns the places that the masks of all vertices on the planes of `set` have in common; all places if there is no
/// such vertex.
pub(crate) fn common_places(masks: &[u128], set: u128) -> u128
    ensures { result ≡ common_of set (2 ^ 128 - 1) masks.now }
{
    let mut common = u128::MAX;
    for mask in masks {
        common = common_with(set, common, *mask);
    }
    common
}

/// Returns the places of `common` that `mask` has too, if its vertex is on the planes of `set`; otherwise `common`.
fn common_with(set: u128, common: u128, mask: u128) -> u128
    ensures { result ≡ common_with set common mask }
{
    if mask & set == set {
        common & mask
    } else {
        common
    }
}
