//! Pairs of lots, judged one after another on the next lines of a report.
ghost use Rattle.std.specs.Prelude.{◌≡◌, ◌++◌, ◌∷◌, [], IfOk, OnOk, length, map};
ghost use Rattle.std.specs.List.{AllByRecursion};
ghost use Rattle.rp_reports.specs.Check.{line_tester};
ghost use Rattle.rp_oracle.specs.Refines.{Refines};
ghost use Rattle.rp_contacts.specs.Meets.{pair_test, meet_each, IsPairWithin};
ghost use Rattle.rp_contacts.specs.Apart.{apart_each};

use rp_contacts::Pair;
use rp_oracle::Stopped;
use rp_proximity::Reach;
use rp_trail::{Form, Trail, common, touching};
use std::alloc::{AllocError, Global};

/// Returns whether the two lots of each of `pairs` meet, as `reach` says, in order, on the next lines of `trail`. A lot
/// of a pair is an index of `forms`. Only pairs of parts whose boxes let them meet are tested, up to the first that
/// does, and no test is counted.
pub(crate) fn meet_in_turn(
    alloc: Global,
    forms: &[Form],
    pairs: &[Pair],
    reach: Reach,
    trail: &mut Trail<'_>,
) -> Result<Vec<bool>, Stopped>
    requires { AllByRecursion (IsPairWithin forms.now) pairs.now }
    ensures comes { Refines (λ met. met.items) result trail.new (meet_each line_tester reach (map (λ f. f.items) forms.now) [] pairs.now trail.old) }
    ensures each { IfOk result (λ met. length met.items ≡ length pairs.now) }
{
    let mut met = Vec::new(alloc);
    for i in 0..pairs.len() {
        let pair = pairs[i];
        let meets = do_meet(&forms[pair.first], &forms[pair.second], reach, trail)?;
        put(&mut met, meets)?;
    }
    Ok(met)
}

/// Checks on the next lines of `trail` that the two lots of each of `pairs` share no point, in order. A lot of a pair
/// is an index of `forms`. Only pairs of parts whose boxes share more than boundary are tested, and no test is counted.
/// `TakenWrong` at the first line that shows a common point.
pub(crate) fn show_apart_in_turn(
    forms: &[Form],
    pairs: &[Pair],
    trail: &mut Trail<'_>,
) -> Result<(), Stopped>
    requires { AllByRecursion (IsPairWithin forms.now) pairs.now }
    ensures { Refines (λ x. x) result trail.new (apart_each line_tester (map (λ f. f.items) forms.now) pairs.now trail.old) }
{
    for i in 0..pairs.len() {
        let pair = pairs[i];
        if common(&forms[pair.first], &forms[pair.second], true, trail)? {
            return Err(Stopped::TakenWrong);
        }
    }
    Ok(())
}

/// Appends `meets` to `met`.
fn put(met: &mut Vec<bool>, meets: bool) -> Result<(), AllocError>
    ensures { OnOk result (met.new.items ≡ met.old.items ++ meets ∷ []) }
{
    met.push(meets)?;
    Ok(())
}

/// Returns whether two forms meet, as `reach` says, on the next lines. Only pairs of parts whose boxes let them meet
/// are tested, and no test is counted.
fn do_meet(
    first: &Form,
    second: &Form,
    reach: Reach,
    trail: &mut Trail<'_>,
) -> Result<bool, Stopped>
    ensures { Refines (λ meets. meets) result trail.new (pair_test line_tester reach first.now.items second.now.items trail.old) }
{
    match reach {
        Reach::Overlap => common(first, second, true, trail),
        Reach::Touch => touching(first, second, true, trail),
    }
}
