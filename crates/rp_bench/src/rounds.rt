//! Rounds that run the same search on the same cell.
ghost use Rattle.std.specs.Prelude.{◌≡◌, ◌≤◌, ◌<◌, ◌*◌, length};
ghost use Rattle.std.specs.Option.{unwrap_or};
ghost use Rattle.rp_bench.specs.Found.{size_found};

use crate::task::Task;
use rp_space::Half;

/// The results of the rounds.
#[derive(Clone, Copy)]
pub struct Tally {
    /// The number of points or terms that the last round found; `None` if it found none.
    pub last: Option<usize>,
    /// The sum of these numbers over all rounds.
    pub total: u64,
}

/// Runs the search of `task` on `cell`, which has at most 64 half-spaces, as often as the task says.
pub fn ask(task: &Task, cell: &[Half]) -> Tally
    requires few { length cell.now ≤ 64 }
    requires once { 0 < task.now.times }
    ensures last { result.last ≡ size_found task.now.search cell.now }
    ensures total { result.total ≡ task.now.times * unwrap_or (size_found task.now.search cell.now) 0 }
{
    let mut last = None;
    let mut total = 0;
    for _ in 0..task.times {
        last = task.search.size_found(cell);
        total += last.unwrap_or(0) as u64;
    }
    Tally { last, total }
}
