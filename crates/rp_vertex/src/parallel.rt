//! Planes of which a parallel half-space leaves nothing, as with boxes side by side.
ghost use Rattle.std.specs.Prelude.{◌≡◌, int_lt};
ghost use Rattle.rp_vertex.specs.Parallel.{have_same_normal, is_further, cuts_off, is_cut_off};

use rp_space::Half;

/// Returns whether some half-space of `system` is negative on the whole plane of `f` because its coefficients are those
/// of `f` or of the complement of `f`.
pub(crate) fn is_cut_off(system: &[Half], f: &Half) -> bool
    ensures { result ≡ is_cut_off system.now f.now }
{
    system.iter().any(|g| cuts_off(f, g))
}

/// Returns whether `g` has the coefficients of `f` or of its complement, and a lesser offset.
fn cuts_off(f: &Half, g: &Half) -> bool
    ensures { result ≡ cuts_off f.now g.now }
{
    is_further(f, g) || is_further(&f.not(), g)
}

/// Returns whether `g` has the coefficients of `f` and a lesser offset.
fn is_further(f: &Half, g: &Half) -> bool
    ensures { result ≡ is_further f.now g.now }
{
    have_same_normal(f, g) && has_lesser_offset(f, g)
}

/// Returns whether `f` and `g` have equal coefficients.
fn have_same_normal(f: &Half, g: &Half) -> bool
    ensures { result ≡ have_same_normal f.now g.now }
{
    let (a, b, c, _) = f.numbers();
    let (p, q, r, _) = g.numbers();
    p == a && q == b && r == c
}

/// Returns whether `g` has a lesser offset than `f`.
fn has_lesser_offset(f: &Half, g: &Half) -> bool
    ensures { result ≡ int_lt g.now.d f.now.d }
{
    let (_, _, _, d) = f.numbers();
    let (_, _, _, s) = g.numbers();
    s < d
}
