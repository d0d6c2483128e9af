//! Comparisons of two forms, test by test.
ghost use Rattle.std.specs.Prelude.{◌≡◌, true, false};
ghost use Rattle.rp_semantics.specs.Form.{subtract_from_whole};
ghost use Rattle.rp_semantics.specs.Compare.{show_then_no, is_covered, touches_outside, relation_by_rests, relation_by_overlap, relation_of_parts};
ghost use Rattle.rp_oracle.specs.Refines.{Refines};
ghost use Rattle.rp_eval.specs.Relations.{relation_of, cover_each_other};

use rp_oracle::{Oracle, Stopped};
use std::alloc::Global;

/// The eight relations of the region connection calculus, of a first form to a second one.
#[derive(Clone, Copy, Debug, PartialEq, Eq)]
pub enum Rcc8 {
    /// They are not in contact.
    DC,
    /// They are in contact and share no point.
    EC,
    /// They share a point, and neither is within the other.
    PO,
    /// They have the same points.
    EQ,
    /// The first is a proper part of the second, and some form is in contact with both and shares a point with neither.
    TPP,
    /// The first is a proper part of the second, and no form is in contact with both and shares a point with neither.
    NTPP,
    /// `TPP` with the forms exchanged.
    TPPi,
    /// `NTPP` with the forms exchanged.
    NTPPi,
}

/// Returns whether `form` has no part. A strict test of `tests`, which is not counted, shows that its first part has a
/// point.
///
/// # Errors
///
/// `Stopped` with the reason if the strict test is stopped.
pub fn is_empty<T: Oracle>(alloc: Global, form: &T::Form, tests: &mut T) -> Result<bool, Stopped>
    ensures { Refines (λ is_so. is_so) result tests.new (show_then_no T.tester (T.parts_of form.now) tests.old) }
{
    match T::parts(form) {
        [] => Ok(true),
        [first, ..] => {
            tests.has_point(alloc, first)?;
            Ok(false)
        }
    }
}

/// Returns whether every point of `a` is in `b`: `tests` subtracts `b` from `a`, and no part is left.
///
/// # Errors
///
/// `Stopped` with the reason if a test is stopped.
pub fn within<T: Oracle>(
    alloc: Global,
    a: &T::Form,
    b: &T::Form,
    tests: &mut T,
) -> Result<bool, Stopped>
    ensures { Refines (λ is_so. is_so) result tests.new (is_covered T.tester (T.parts_of a.now) (T.parts_of b.now) tests.old) }
{
    let left = tests.minus(alloc, a, b)?;
    is_empty(alloc, &left, tests)
}

/// Returns whether `a` and `b` have the same points: `tests` shows that `a` is within `b`, and then that `b` is within
/// `a`.
///
/// # Errors
///
/// `Stopped` with the reason if a test is stopped.
pub fn equal<T: Oracle>(
    alloc: Global,
    a: &T::Form,
    b: &T::Form,
    tests: &mut T,
) -> Result<bool, Stopped>
    ensures { Refines (λ is_so. is_so) result tests.new (cover_each_other T.tester (T.parts_of a.now) (T.parts_of b.now) tests.old) }
{
    if !within(alloc, a, b, tests)? {
        return Ok(false);
    }
    within(alloc, b, a, tests)
}

/// Returns the relation of `a` to `b`, by `tests`. Both have parts.
///
/// # Errors
///
/// `Stopped` with the reason if a test is stopped.
pub fn found_relation<T: Oracle>(
    alloc: Global,
    a: &T::Form,
    b: &T::Form,
    tests: &mut T,
) -> Result<Rcc8, Stopped>
    ensures { Refines relation_of result tests.new (relation_of_parts T.tester (T.parts_of a.now) (T.parts_of b.now) tests.old) }
{
    if tests.overlap(alloc, a, b)? {
        relation_together(alloc, a, b, tests)
    } else {
        relation_apart(alloc, a, b, tests)
    }
}

/// Returns the relation of two forms without a common point: `EC` if they are in contact, otherwise `DC`.
fn relation_apart<T: Oracle>(
    alloc: Global,
    a: &T::Form,
    b: &T::Form,
    tests: &mut T,
) -> Result<Rcc8, Stopped>
    ensures { Refines relation_of result tests.new (relation_by_overlap T.tester (T.parts_of a.now) (T.parts_of b.now) false tests.old) }
{
    let touches = tests.contact(alloc, a, b)?;
    Ok(if touches { Rcc8::EC } else { Rcc8::DC })
}

/// Returns the relation of two forms with a common point, by subtracting each from the other.
fn relation_together<T: Oracle>(
    alloc: Global,
    a: &T::Form,
    b: &T::Form,
    tests: &mut T,
) -> Result<Rcc8, Stopped>
    ensures { Refines relation_of result tests.new (relation_by_overlap T.tester (T.parts_of a.now) (T.parts_of b.now) true tests.old) }
{
    let first_alone = tests.minus(alloc, a, b)?;
    let second_alone = tests.minus(alloc, b, a)?;
    relation_by_rests(alloc, a, b, &first_alone, &second_alone, tests)
}

/// Returns the relation of two forms with a common point. `first_alone` is the rest of `a` outside `b`; `second_alone`
/// is the rest of `b` outside `a`.
fn relation_by_rests<T: Oracle>(
    alloc: Global,
    a: &T::Form,
    b: &T::Form,
    first_alone: &T::Form,
    second_alone: &T::Form,
    tests: &mut T,
) -> Result<Rcc8, Stopped>
    ensures { Refines relation_of result tests.new (relation_by_rests T.tester (T.parts_of a.now) (T.parts_of b.now) (T.parts_of first_alone.now) (T.parts_of second_alone.now) tests.old) }
{
    match (
        T::parts(first_alone).is_empty(),
        T::parts(second_alone).is_empty(),
    ) {
        (true, true) => Ok(Rcc8::EQ),
        (true, false) => {
            let touches = touches_outside(alloc, a, b, tests)?;
            Ok(if touches { Rcc8::TPP } else { Rcc8::NTPP })
        }
        (false, true) => {
            let touches = touches_outside(alloc, b, a, tests)?;
            Ok(if touches { Rcc8::TPPi } else { Rcc8::NTPPi })
        }
        (false, false) => Ok(Rcc8::PO),
    }
}

/// Returns whether `part` is in contact with the outside of `whole`.
fn touches_outside<T: Oracle>(
    alloc: Global,
    part: &T::Form,
    whole: &T::Form,
    tests: &mut T,
) -> Result<bool, Stopped>
    ensures { Refines (λ is_so. is_so) result tests.new (touches_outside T.tester (T.parts_of part.now) (T.parts_of whole.now) tests.old) }
{
    let outside = outside(alloc, whole, tests)?;
    tests.contact(alloc, part, &outside)
}

/// Returns the complement of `form` in the cube, by `tests`.
///
/// # Errors
///
/// `Stopped` with the reason if a test is stopped.
pub fn outside<T: Oracle>(alloc: Global, form: &T::Form, tests: &mut T) -> Result<T::Form, Stopped>
    ensures { Refines T.parts_of result tests.new (subtract_from_whole T.tester (T.parts_of form.now) tests.old) }
{
    let whole = T::whole(alloc)?;
    tests.minus(alloc, &whole, form)
}
