//! The order in which the half-spaces of a cell cut the polygon on the plane of one of them.
ghost use Rattle.std.specs.Prelude.{◌≡◌, ◌≤◌, ◌<◌, length, true};
ghost use Rattle.rp_clip.specs.Polygons.{Covers};

use arrayvec::ArrayVec;
use rp_space::Half;

/// Returns the places of `cell`: first `place`, then those whose half-spaces look much to the same side as the
/// half-space there, and then the others. The sides of the polygon are mostly among the former, so that little is cut
/// after them. No result depends on the order.
pub(crate) fn near_first(cell: &[Half], place: usize) -> ArrayVec<usize, 64>
    requires { place < length cell.now }
{
    let face = &cell[place];
    let half = nearness(face, face) / 2;
    let mut order = ArrayVec::new();
    let mut far = ArrayVec::<usize, 64>::new();
    let _ = order.try_push(place);
    for i in 0..cell.len() {
        let places = if nearness(face, &cell[i]) > half {
            &mut order
        } else {
            &mut far
        };
        if i != place {
            let _ = places.try_push(i);
        }
    }
    let _ = order.try_extend_from_slice(far.as_slice());
    order
}

/// Returns how much `other` looks to the same side as `face`: the product of their coefficients of x, y and z, over
/// about the greatest of `other`, in 4096ths.
fn nearness(face: &Half, other: &Half) -> i64 {
    let (a, b, c, _) = face.numbers();
    let (d, e, f, _) = other.numbers();
    let product = a
        .wrapping_mul(d)
        .wrapping_add(b.wrapping_mul(e))
        .wrapping_add(c.wrapping_mul(f));
    let size = d.unsigned_abs() | e.unsigned_abs() | f.unsigned_abs();
    product
        .wrapping_shl(12)
        .wrapping_shr(64 - size.leading_zeros())
}

/// Returns true only if each place of `order` is below `count`, and each place below `count` is in `order`.
pub(crate) fn covers(order: &[usize], count: usize) -> bool
    requires { count ≤ 64 }
    ensures { result ≡ true → Covers order.now count }
{
    let mut seen: u128 = 0;
    for place in order {
        if *place >= count {
            return false;
        }
        seen |= 1 << *place;
    }
    seen == (1 << count) - 1
}
