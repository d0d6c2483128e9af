//! Multiples of half-spaces in lowest terms.
ghost use Rattle.std.specs.Prelude.{◌≡◌, ◌<◌, ◌≤◌, true, length};
ghost use Rattle.std.specs.List.{list_all};
ghost use Rattle.rp_algebra.specs.Integer.{gcd_of};
ghost use Rattle.rp_geometry.specs.searches.Certificate.{is_multiplier};
ghost use Rattle.rp_geometry.specs.searches.Elimination.{factors_of, reduced_terms};

use rp_space::{Outside, Term, greatest_common_divisor, quotient};

/// Returns the greatest common divisor of the multipliers of `terms`.
fn divisor_of(terms: &[Term]) -> u128
    ensures { result ≡ gcd_of (factors_of terms.now) }
{
    match terms {
        [] => 0,
        [first, rest @ ..] => { greatest_common_divisor(divisor_of(rest), first.by.unsigned_abs()) }
    }
}

/// Returns `terms`, 1 to 4, with each multiplier divided by the greatest common divisor of all. The multipliers are
/// from 1 to 2^75 - 1.
pub fn lowest_terms(terms: &[Term]) -> Outside
    requires some { 0 < length terms.now }
    requires few { length terms.now ≤ 4 }
    requires multipliers { list_all (λ t. is_multiplier t.factor) terms.now ≡ true }
    ensures { result ≡ reduced_terms terms.now }
{
    let mut lowest = Outside::new();
    write_lowest(terms, &mut lowest);
    lowest
}

/// Replaces the content of `found` by the result of [`lowest_terms`] for `terms`.
pub fn write_lowest(terms: &[Term], found: &mut Outside)
    requires some { 0 < length terms.now }
    requires few { length terms.now ≤ 4 }
    requires multipliers { list_all (λ t. is_multiplier t.factor) terms.now ≡ true }
    ensures { found.new ≡ reduced_terms terms.now }
{
    let divisor = divisor_of(terms);
    *found = Outside::new();
    for term in terms {
        found.push(Term {
            by: quotient(term.by, divisor),
            half: term.half,
        });
    }
}
