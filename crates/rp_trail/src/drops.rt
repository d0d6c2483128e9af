//! The half-spaces that the lines of a part test drop.
ghost use Rattle.std.specs.Prelude.{◌≡◌, ◌≤◌, ◌<◌, ◌++◌, ◌∷◌, [], true, length};
ghost use Rattle.std.specs.Option.{option_map};
ghost use Rattle.arrayvec.specs.ArrayVec.{array_vec_len};
ghost use Rattle.rp_geometry.specs.Geometry.{complement, half_space_eq, is_listed};
ghost use Rattle.rp_geometry.specs.searches.Certificate.{is_outside_certificate};
ghost use Rattle.std.specs.List.{position};
ghost use Rattle.rp_semantics.specs.Walk.{done};
ghost use Rattle.rp_reports.specs.Check.{next_proof, without, dropped_by, follow_drops};
ghost use Rattle.rp_cert.specs.Lines.{line_of};

use crate::few::{Few, MOST_FEW, put};
use crate::trail::Trail;
use arrayvec::ArrayVec;
use rp_cert::{Proof, check_outside};
use rp_space::{Half, Term, joined};

/// Takes the lines that drop half-spaces of `kept`, one after another, as long as they pass, and removes these
/// half-spaces. Returns the proof line that follows, which is then not read again.
pub(crate) fn follow_drops<const N: usize>(
    kept: &mut ArrayVec<Half, N>,
    trail: &mut Trail<'_>,
) -> Option<Proof>
    requires { length kept.old.items ≤ 64 }
    ensures value { follow_drops trail.old.lines kept.old.items trail.old ≡ done kept.new.items trail.new }
    ensures few { length kept.new.items ≤ 64 }
    ensures next { option_map line_of result ≡ next_proof trail.new.lines }
{
    let mut next = trail.next_proof();
    while let Some(half) = dropped(kept.as_slice(), &next) {
        remove(kept, &half);
        trail.take();
        next = trail.next_proof();
    }
    next
}

/// Returns the half-space that `next` drops. It is in `kept`, and the multiples show that every point of the others is
/// inside it.
fn dropped(kept: &[Half], next: &Option<Proof>) -> Option<Half>
    requires { length kept.now ≤ 64 }
    ensures { result ≡ dropped_by kept.now (option_map line_of next.now) }
{
    let Some(Proof::Dropped(half, terms)) = next else {
        return None;
    };
    if !is_listed(half, kept) {
        return None;
    }
    if !is_shown(half, kept, terms.items()) {
        return None;
    }
    Some(*half)
}

/// Returns whether the multiples `terms` show that no point is in all of `halves` except the first `half`, and outside
/// `half`.
fn is_shown(half: &Half, halves: &[Half], terms: &[Term]) -> bool
    requires { length halves.now ≤ 64 }
    ensures { result ≡ is_outside_certificate true (without half.now halves.now ++ complement half.now ∷ []) terms.now }
{
    if halves.len() >= MOST_FEW {
        let mut cell = joined(halves, &[]);
        turn(&mut cell, half);
        return check_outside(cell.as_slice(), terms, true);
    }
    let mut cell = Few::new();
    put(&mut cell, halves);
    turn(&mut cell, half);
    check_outside(cell.as_slice(), terms, true)
}

/// Removes the first `half` of `halves`, if there is one, and appends the complement of `half`.
fn turn<const N: usize>(halves: &mut ArrayVec<Half, N>, half: &Half)
    requires { array_vec_len halves.old < N }
    ensures { halves.new.items ≡ without half.now halves.old.items ++ complement half.now ∷ [] }
{
    remove(halves, half);
    halves.push(half.not());
}

/// Removes the first `half` of `halves`, if there is one.
fn remove<const N: usize>(halves: &mut ArrayVec<Half, N>, half: &Half)
    ensures items { halves.new.items ≡ without half.now halves.old.items }
    ensures fewer { length halves.new.items ≤ length halves.old.items }
{
    if let Some(place) = place_of(half, halves.as_slice()) {
        halves.remove(place);
    }
}

/// Returns the index of the first `half` in `halves`.
fn place_of(half: &Half, halves: &[Half]) -> Option<usize>
    ensures { result ≡ position (half_space_eq half.now) halves.now }
{
    halves.iter().position(|other| half == other)
}

/// Returns whether `half` is in `halves`.
pub(crate) fn is_listed(half: &Half, halves: &[Half]) -> bool
    ensures { result ≡ is_listed half.now halves.now }
{
    halves.iter().any(|other| half == other)
}
