//! Tests whether multiples of a few half-spaces refute, with positive multipliers in lowest terms.
ghost use Rattle.std.specs.Prelude.{◌≡◌, ◌&&◌, ◌<◌, ◌≤◌, true, neg_ℤ, length};
ghost use Rattle.std.specs.List.{list_all};
ghost use Rattle.rp_geometry.specs.searches.Certificate.{is_balanced, is_contradiction, is_multiplier};
ghost use Rattle.rp_geometry.specs.searches.Elimination.{terms_if, reduced_terms, normal_terms, negated_terms};
ghost use Rattle.rp_elim.specs.Factors.{AreFactorsSmall};
ghost use Rattle.rp_elim.specs.Written.{if_found};

use crate::lowest::write_lowest;
use rp_space::{Outside, Term, is_balanced, is_contradiction, is_multiplier};

/// Writes to `found` the 1 to 4 `terms`, with positive multipliers in lowest terms, if they refute; returns whether
/// they do. They refute that all their half-spaces are positive (`strict`), or that none is negative. The multipliers
/// may have either sign. Returns false if two multipliers have different signs or one is 0. Then no positive multiples
/// of all terms cancel, or a term can be dropped and a smaller set comes first.
pub fn refutation(strict: bool, terms: &[Term], found: &mut Outside) -> bool
    requires some { 0 < length terms.now }
    requires few { length terms.now ≤ 4 }
    requires small { AreFactorsSmall terms.now }
    ensures { if_found result found.new ≡ terms_if strict (normal_terms terms.now) }
{
    if are_multipliers(terms) {
        return positive_refutation(strict, terms, found);
    }
    if are_negated_multipliers(terms) {
        return positive_refutation(strict, negated(terms).items(), found);
    }
    false
}

/// Writes to `found` the 1 to 4 `terms` in lowest terms, if they refute; returns whether they do. They refute that all
/// their half-spaces are positive (`strict`), or that none is negative. All multipliers are positive.
pub fn positive_refutation(strict: bool, terms: &[Term], found: &mut Outside) -> bool
    requires some { 0 < length terms.now }
    requires few { length terms.now ≤ 4 }
    requires multipliers { list_all (λ t. is_multiplier t.factor) terms.now ≡ true }
    ensures { if_found result found.new ≡ terms_if strict (reduced_terms terms.now) }
{
    if !cancel(strict, terms) {
        return false;
    }
    write_lowest(terms, found);
    true
}

/// Returns `terms` if `is_found`, otherwise `None`.
pub fn if_found(is_found: bool, terms: Outside) -> Option<Outside>
    ensures { result ≡ if_found is_found terms }
{
    if is_found { Some(terms) } else { None }
}

/// Returns whether the 1 to 4 positive multiples `terms` contradict and cancel. Most that are tried cancel, so the
/// contradiction is tested first.
fn cancel(strict: bool, terms: &[Term]) -> bool
    requires few { length terms.now ≤ 4 }
    requires multipliers { list_all (λ t. is_multiplier t.factor) terms.now ≡ true }
    ensures { result ≡ (is_contradiction strict terms.now && is_balanced terms.now) }
{
    is_contradiction(terms, strict) && is_balanced(terms)
}

/// Returns whether each multiplier of `terms` is from 1 to 2^75 - 1.
pub fn are_multipliers(terms: &[Term]) -> bool
    ensures { result ≡ list_all (λ t. is_multiplier t.factor) terms.now }
{
    terms.iter().all(|term| is_multiplier(term.by))
}

/// Returns whether the negative of each multiplier of `terms` is from 1 to 2^75 - 1.
pub fn are_negated_multipliers(terms: &[Term]) -> bool
    ensures { result ≡ list_all (λ t. is_multiplier (neg_ℤ t.factor)) terms.now }
{
    terms.iter().all(|term| is_negated_multiplier(term.by))
}

/// Returns whether the negative of `by` is from 1 to 2^75 - 1.
fn is_negated_multiplier(by: i128) -> bool
    ensures { result ≡ is_multiplier (neg_ℤ by) }
{
    by.checked_neg()
        .is_some_and(|opposite| is_multiplier(opposite))
}

/// Returns `terms`, at most 4, with their multipliers negated. The negated multipliers are from 1 to 2^75 - 1.
pub fn negated(terms: &[Term]) -> Outside
    requires few { length terms.now ≤ 4 }
    requires multipliers { list_all (λ t. is_multiplier (neg_ℤ t.factor)) terms.now ≡ true }
    ensures { result ≡ negated_terms terms.now }
{
    let mut negated = Outside::new();
    for term in terms {
        negated.push(negative(term));
    }
    negated
}

/// Returns `term` with its multiplier negated.
fn negative(term: &Term) -> Term
    requires { is_multiplier (neg_ℤ term.now.factor) ≡ true }
    ensures factor { result.factor ≡ neg_ℤ term.now.factor }
    ensures half { result.of ≡ term.now.of }
{
    Term {
        by: -term.by,
        half: term.half,
    }
}
