//! All lots of one layer are shown to be apart.
ghost use Rattle.std.specs.Prelude.{◌≤◌};
ghost use Rattle.rp_semantics.specs.Walk.{first_tester};
ghost use Rattle.rp_model.specs.states.State.{state_of_parts};
ghost use Rattle.rp_model.specs.states.Sound.{IsSound};
ghost use Rattle.rp_model.specs.commands.Verdict.{clear};
ghost use Rattle.rp_model.specs.commands.Reply.{reply};
ghost use Rattle.rp_model.specs.commands.Audit.{row_audit};
ghost use Rattle.rp_contacts.specs.Asked.{Answers};

use crate::halves::meet_in_halves;
use rp_answer::RowEnd;
use rp_boxindex::Watch;
use rp_contacts::audit_left;
use rp_lots::Keeper;
use rp_proximity::Reach;
use rp_region::Work;
use std::alloc::Global;
use std::thread::Threads;

/// Answers `audit`: how many live lots there are, with a proof line in `work` for each pair of parts whose boxes share
/// more than boundary, of two live lots of one layer: they share no point. `Limit` exactly where there are more of
/// these pairs than may be tested. The state is sound, so no two live lots of one layer share a point.
///
/// The pairs of lots that have such a pair of parts are judged in halves, of which one of at most `grain` is not split;
/// `watch` is told of each as its tests begin.
pub fn audit<R: Threads + Sync, W: Watch, K: Keeper<Work>>(
    rt: &R,
    alloc: Global,
    watch: &W,
    grain: usize,
    keeper: &K,
    work: &mut Work,
) -> Result<u32, RowEnd>
    requires grain { 1 ≤ grain }
    requires sound { IsSound (state_of_parts (K.state keeper.now)) }
    ensures { Answers (λ live. reply (clear live)) result work.new (row_audit first_tester (K.state keeper.now) work.old) }
{
    let left = audit_left::<Work, K>(alloc, keeper, work)?;
    meet_in_halves(
        rt,
        alloc,
        watch,
        grain,
        keeper.forms(),
        &left.pairs,
        Reach::Overlap,
        work,
    )?;
    Ok(left.live)
}
