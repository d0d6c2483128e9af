//! Work that is split into halves.
ghost use Rattle.std.specs.Prelude.{◌≡◌, ◌-◌, ◌≤◌, IfOk};
ghost use Rattle.std.specs.Thread.{IsSync};
ghost use Rattle.rp_parallel.specs.Meanings.{meanings_from, meanings_of};

use crate::judge::Judge;
use std::alloc::{AllocError, Global};
use std::thread::{Threads, join};

/// The greatest number of threads that judge at once. Each needs a stack of its own, so more of them could leave no
/// memory on a small machine.
const MOST_THREADS: usize = 8;

/// Returns the meanings of all items of `judge`, in order.
///
/// A run of at most `grain` items is judged in one thread. A longer run is split in the middle, and its halves are
/// judged in two threads, if two are available and no more than 8 run; otherwise it is judged in one thread.
///
/// # Errors
///
/// `AllocError` for want of memory.
pub fn judge_all<R: Threads + Sync, J: Judge>(
    rt: &R,
    alloc: Global,
    grain: usize,
    judge: &J,
) -> Result<Vec<J::Out>, AllocError>
    requires { 1 ≤ grain }
    ensures { IfOk result (λ outs. outs.items ≡ meanings_of (J.meaning judge.now) (J.size judge.now)) }
{
    judge_run(rt, alloc, grain, MOST_THREADS, judge, 0, judge.count())
}

/// Returns the meanings of the items from `first` to below `end`. The run is split into halves down to runs of at most
/// `grain` items, as long as there are threads for both halves.
fn judge_run<R: Threads + Sync, J: Judge>(
    rt: &R,
    alloc: Global,
    grain: usize,
    threads: usize,
    judge: &J,
    first: usize,
    end: usize,
) -> Result<Vec<J::Out>, AllocError>
    requires grain { 1 ≤ grain }
    requires ordered { first ≤ end }
    requires within { end ≤ J.size judge.now }
    ensures { IfOk result (λ outs. outs.items ≡ meanings_from (J.meaning judge.now) first (end - first)) }
{
    if end - first <= grain || threads < 2 {
        return judge_in_order(alloc, judge, first, end);
    }
    let middle = first + (end - first) / 2;
    let half = threads / 2;
    let (front, back) = join(
        rt,
        || -> Result<Vec<J::Out>, AllocError>
            requires { IsSync R.row × (1 ≤ grain) × (first ≤ middle) × (middle ≤ J.size judge.now) }
            ensures { IfOk result (λ outs. outs.items ≡ meanings_from (J.meaning judge.entry.now) first (middle - first)) }
        { judge_run(rt, alloc, grain, half, judge, first, middle) },
        || -> Result<Vec<J::Out>, AllocError>
            requires { IsSync R.row × (1 ≤ grain) × (middle ≤ end) × (end ≤ J.size judge.now) }
            ensures { IfOk result (λ outs. outs.items ≡ meanings_from (J.meaning judge.entry.now) middle (end - middle)) }
        { judge_run(rt, alloc, grain, half, judge, middle, end) },
    );
    let mut outs = front?;
    let mut others = back?;
    outs.append(&mut others)?;
    Ok(outs)
}

/// Returns the meanings of the items from `first` to below `end`, judged one after the other.
fn judge_in_order<J: Judge>(
    alloc: Global,
    judge: &J,
    first: usize,
    end: usize,
) -> Result<Vec<J::Out>, AllocError>
    requires ordered { first ≤ end }
    requires within { end ≤ J.size judge.now }
    ensures { IfOk result (λ outs. outs.items ≡ meanings_from (J.meaning judge.now) first (end - first)) }
{
    let mut outs = Vec::new(alloc);
    for i in first..end {
        outs.push(judge.judge(alloc, i)?)?;
    }
    Ok(outs)
}
