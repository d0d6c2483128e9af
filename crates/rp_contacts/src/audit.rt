//! All lots of one layer are to be shown apart: before the pairs of lots are judged.
ghost use Rattle.std.specs.Prelude.{IfOk};
ghost use Rattle.std.specs.List.{AllByRecursion};
ghost use Rattle.rp_model.specs.commands.Audit.{row_audit};
ghost use Rattle.rp_contacts.specs.Meets.{IsPairWithin};
ghost use Rattle.rp_contacts.specs.Apart.{LeavesAudit};

use crate::behind::{later_pairs, live_places};
use crate::pair::Pair;
use rp_lots::{Keeper, count_tests};
use rp_oracle::{Oracle, Stopped};
use rp_proximity::Reach;
use std::alloc::Global;

/// What is left of `audit` once its tests are counted: how many lots are live, and the pairs of those of one layer that
/// have parts which may share a point, in order, which are to be judged: no two of them may meet.
#[derive(Drop)]
pub struct AuditLeft {
    pub live: u32,
    pub pairs: Vec<Pair>,
}

/// Begins `audit`, up to the tests of pairs, which are counted in `tests`. `Limit` exactly where more pairs of parts,
/// of two live lots of one layer, have boxes that share more than boundary than may be tested.
pub fn audit_left<T: Oracle, K: Keeper<T>>(
    alloc: Global,
    keeper: &K,
    tests: &mut T,
) -> Result<AuditLeft, Stopped>
    ensures within { IfOk result (λ left. AllByRecursion (IsPairWithin (K.state keeper.now).lots) left.pairs.items) }
    ensures left { LeavesAudit result (K.state keeper.now).lots T.tester tests.new (row_audit T.tester (K.state keeper.now) tests.old) }
{
    keeper.keep_limit();
    let places = live_places(alloc, keeper.history(), None)?;
    let near = later_pairs::<T, K>(alloc, keeper, &places, Reach::Overlap)?;
    count_tests(tests, near.tests)?;
    let live = places.len() as u32;
    Ok(AuditLeft {
        live,
        pairs: near.pairs,
    })
}
