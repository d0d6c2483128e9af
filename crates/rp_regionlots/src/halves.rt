//! Pairs of lots, judged in halves of work.
ghost use Rattle.std.specs.Prelude.{◌≡◌, ◌≤◌, [], IfOk, OnOk, length, map};
ghost use Rattle.std.specs.List.{AllByRecursion};
ghost use Rattle.rp_semantics.specs.Walk.{most_tests, first_tester};
ghost use Rattle.rp_oracle.specs.Refines.{Refines};
ghost use Rattle.rp_contacts.specs.Meets.{meet_each, IsPairWithin};
ghost use Rattle.rp_region.specs.Makes.{Makes};
ghost use Rattle.rp_regionlots.specs.Shown.{pair_test, shown, shown_at, with_all_shown, ShowsNothingCounted, ArePairsWithin};

use rp_boxindex::Watch;
use rp_contacts::Pair;
use rp_oracle::Stopped;
use rp_parallel::{Judge, judge_all};
use rp_proximity::Reach;
use rp_region::{OpFault, Region, Work};
use std::alloc::{AllocError, Global};
use std::thread::Threads;

/// The result of the tests of a pair: whether the two meet, and the proof lines.
#[derive(Drop)]
pub(crate) struct Shown {
    pub meets: bool,
    pub work: Work,
}

/// Pairs of lots, each of which is judged by itself. A lot of a pair is an index of `forms`.
#[derive(Drop)]
struct Judging<'a, W: Watch> {
    forms: &'a [Region],
    watch: &'a W,
    pairs: &'a [Pair],
    reach: Reach,
    ghost within: { ArePairsWithin forms.now pairs.now },
}

impl<W: Watch> Judge for Judging<'_, W> {
    type Out = Shown;

    ghost size = { λ s. length s.pairs.now };

    ghost meaning = { λ s i. shown_at s.reach s.forms.now s.pairs.now i };

    fn count(&self) -> usize {
        self.pairs.len()
    }

    fn judge(&self, alloc: Global, i: usize) -> Result<Shown, AllocError> {
        self.watch.item(i);
        judge_pair(alloc, self.forms, self.pairs[i], self.reach)
    }
}

/// Returns whether the two lots of each of `pairs` meet, as `reach` says, in order. A lot of a pair is an index of
/// `forms`. The proof lines of all pairs are appended to `work`. Only pairs of parts whose boxes let them meet are
/// tested, up to the first that does, and no test is counted.
///
/// The pairs are judged in halves, and a run of at most `grain` is not split. `watch` is called for each pair as its
/// tests begin. The answers and the proof lines are equal for every grain.
///
/// # Errors
///
/// `Stopped` with the reason if a test is stopped.
pub fn meet_in_halves<R: Threads + Sync, W: Watch>(
    rt: &R,
    alloc: Global,
    watch: &W,
    grain: usize,
    forms: &[Region],
    pairs: &[Pair],
    reach: Reach,
    work: &mut Work,
) -> Result<Vec<bool>, Stopped>
    requires grain { 1 ≤ grain }
    requires within { AllByRecursion (IsPairWithin forms.now) pairs.now }
    ensures comes { Refines (λ met. met.items) result work.new (meet_each first_tester reach forms.now [] pairs.now work.old) }
    ensures each { IfOk result (λ met. length met.items ≡ length pairs.now) }
{
    let all = judge_pairs(rt, alloc, watch, grain, forms, pairs, reach)?;
    let met = met_of(alloc, &all)?;
    // This makes the invariant of `work` known, which bounds the number of tests.
    let _ = work.tests();
    append_shown(alloc, work, all)?;
    Ok(met)
}

/// Returns the results of the tests of each pair, in order.
fn judge_pairs<R: Threads + Sync, W: Watch>(
    rt: &R,
    alloc: Global,
    watch: &W,
    grain: usize,
    forms: &[Region],
    pairs: &[Pair],
    reach: Reach,
) -> Result<Vec<Shown>, AllocError>
    requires grain { 1 ≤ grain }
    requires within { AllByRecursion (IsPairWithin forms.now) pairs.now }
    ensures { IfOk result (λ all. all.items ≡ map (shown reach forms.now) pairs.now) }
{
    let judging = Judging {
        forms,
        watch,
        pairs,
        reach,
    };
    judge_all(rt, alloc, grain, &judging)
}

/// Returns the result of the tests of `pair`.
fn judge_pair(
    alloc: Global,
    forms: &[Region],
    pair: Pair,
    reach: Reach,
) -> Result<Shown, AllocError>
    requires { IsPairWithin forms.now pair }
    ensures { IfOk result (λ one. one ≡ shown reach forms.now pair) }
{
    let mut work = Work::new(alloc);
    match do_meet(
        alloc,
        &forms[pair.first],
        &forms[pair.second],
        reach,
        &mut work,
    ) {
        Ok(meets) => Ok(Shown { meets, work }),
        Err(OpFault::Memory(error)) => Err(error),
        Err(OpFault::Limit) => unreachable!(),
    }
}

/// Returns whether two regions meet, as `reach` says. Only pairs of parts whose boxes let them meet are tested, and no
/// test is counted.
fn do_meet(
    alloc: Global,
    first: &Region,
    second: &Region,
    reach: Reach,
    work: &mut Work,
) -> Result<bool, OpFault>
    ensures { Makes (λ meets. meets) result work.old work.new (pair_test reach first.now second.now) }
{
    match reach {
        Reach::Overlap => Ok(first.first_common(alloc, second, true, work)?.is_some()),
        Reach::Touch => Ok(first.first_touch(alloc, second, true, work)?.is_some()),
    }
}

/// Returns for each pair whether it meets.
fn met_of(alloc: Global, all: &[Shown]) -> Result<Vec<bool>, AllocError>
    ensures { IfOk result (λ met. met.items ≡ map (λ s. s.meets) all.now) }
{
    let mut met = Vec::new(alloc);
    for one in all {
        met.push(one.meets)?;
    }
    Ok(met)
}

/// Appends the proof lines of all pairs in order; they are moved.
fn append_shown(alloc: Global, work: &mut Work, all: Vec<Shown>) -> Result<(), AllocError>
    requires few { work.old.tests ≤ most_tests }
    requires uncounted { AllByRecursion ShowsNothingCounted all.items }
    ensures { OnOk result (work.new ≡ with_all_shown work.old all.items) }
{
    // As a rule each pair has one line.
    work.reserve(all.len())?;
    for one in all {
        work.append(alloc, one.work)?;
    }
    Ok(())
}
