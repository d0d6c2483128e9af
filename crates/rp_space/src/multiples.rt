//! Sums of multiples of half-spaces.
ghost use Rattle.std.specs.Prelude.{◌≡◌, true, length, ◌≤◌, ◌*◌, ◌^◌, ◌*ℤ◌};
ghost use Rattle.std.specs.List.{list_all};
ghost use Rattle.rp_algebra.specs.Within.{IsWithin};
ghost use Rattle.rp_geometry.specs.searches.Certificate.{weighted_sum, is_balanced, is_contradiction, is_multiplier};
ghost use Rattle.rp_space.specs.FourNumbers.{number_of};

use crate::half::Half;
use crate::outside::Term;

/// The greatest multiplier, 2^75 - 1.
const MAX_MULTIPLIER: i128 = 37778931862957161709567;

/// A choice of one of the four numbers of a half-space.
#[derive(Clone, Copy)]
enum Number {
    A,
    B,
    C,
    D,
}

/// Returns whether `by` is from 1 to 2^75 - 1.
pub fn is_multiplier(by: i128) -> bool
    ensures { result ≡ is_multiplier by }
{
    1 <= by && by <= MAX_MULTIPLIER
}

/// Returns whether the multiples of `a`, of `b` and of `c` each add up to 0. There are at most four `terms`, whose
/// multipliers are from 1 to 2^75 - 1, so every sum stays within 128 bits.
pub fn is_balanced(terms: &[Term]) -> bool
    requires few { length terms.now ≤ 4 }
    requires multipliers { list_all (λ t. is_multiplier t.factor) terms.now ≡ true }
    ensures { result ≡ is_balanced terms.now }
{
    weighted_sum(terms, Number::A) == 0
        && weighted_sum(terms, Number::B) == 0
        && weighted_sum(terms, Number::C) == 0
}

/// Returns whether the multiples of `d` add up to at most 0 (`strict`), or to less than 0. There are at most four
/// `terms`, whose multipliers are from 1 to 2^75 - 1, so the sum stays within 128 bits.
pub fn is_contradiction(terms: &[Term], strict: bool) -> bool
    requires few { length terms.now ≤ 4 }
    requires multipliers { list_all (λ t. is_multiplier t.factor) terms.now ≡ true }
    ensures { result ≡ is_contradiction strict terms.now }
{
    let sum = weighted_sum(terms, Number::D);
    if strict { sum <= 0 } else { sum < 0 }
}

/// Returns the sum of the multiples of the number `which` of each half-space of `terms`.
fn weighted_sum(terms: &[Term], which: Number) -> i128
    requires few { length terms.now ≤ 4 }
    requires multipliers { list_all (λ t. is_multiplier t.factor) terms.now ≡ true }
    ensures { result ≡ weighted_sum (number_of which) terms.now }
{
    let mut sum = 0;
    for term in terms {
        sum += multiple(term, which);
    }
    sum
}

/// Returns the multiple of the number `which` of the half-space of `term`.
fn multiple(term: &Term, which: Number) -> i128
    requires { is_multiplier term.now.factor ≡ true }
    ensures value { result ≡ term.now.factor *ℤ number_of which term.now.of }
    ensures small { IsWithin (2 ^ 75 * (3 * 2 ^ 48)) result }
{
    term.by * number_of(&term.half, which) as i128
}

/// Returns the number `which` of `half`.
fn number_of(half: &Half, which: Number) -> i64
    ensures value { result ≡ number_of which half.now }
    ensures small { IsWithin (3 * 2 ^ 48) result }
{
    let (a, b, c, d) = half.numbers();
    match which {
        Number::A => a,
        Number::B => b,
        Number::C => c,
        Number::D => d,
    }
}
