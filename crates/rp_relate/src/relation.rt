//! The eight relations of the region connection calculus (Randell, Cui and Cohn).
ghost use Rattle.std.specs.Prelude.{◌≡◌, Err, IsNone, IfSome, IfOk};
ghost use Rattle.rp_geometry.specs.sets.Shape.{shape_of_parts};
ghost use Rattle.rp_geometry.specs.sets.Relation.{StandIn};
ghost use Rattle.rp_semantics.specs.Walk.{first_tester};
ghost use Rattle.rp_semantics.specs.Compare.{relation_of_parts};
ghost use Rattle.rp_region.specs.Makes.{Makes};
ghost use Rattle.rp_eval.specs.Relations.{relation_of};
ghost use Rattle.rp_relate.specs.Relations.{first_empty, MakesRelation, TellsEmpty};

use rp_eval::Rcc8;
use rp_region::{OpFault, Region, Work};
use std::alloc::{AllocError, Global};
use thiserror::Error;

/// The reason why there is no relation of two regions.
#[derive(Clone, Copy, Debug, PartialEq, Eq, Drop, Error)]
pub enum RccFault {
    /// A region has no point: the first region (1); or the second region (2), and the first has one.
    #[error("region {0} has no point")]
    EmptyRegion(u8),
    /// More tests than a command may count, or more parts than a region or more half-spaces than a part may have.
    #[error("a limit of tests, parts or half-spaces is passed")]
    Limit,
    /// There was no memory.
    #[error("out of memory")]
    Memory(AllocError),
}

impl From<OpFault> for RccFault {
    ghost use Rattle.std.specs.Prelude.{◌≡◌};
    ghost use Rattle.rp_relate.specs.Relations.{fault_of_relation};

    ghost from_gives = { λ x e. e ≡ fault_of_relation x };

    fn from(fault: OpFault) -> RccFault {
        match fault {
            OpFault::Limit => RccFault::Limit,
            OpFault::Memory(fault) => RccFault::Memory(fault),
        }
    }
}

/// Returns which of the eight relations `a` has to `b`, by tests of `work`. The comparisons are:
///
/// 1. whether `a` and `b` share a point;
/// 2. if they share none, whether they are in contact;
/// 3. if they share one, the difference of `a` and `b` and the difference of `b` and `a`;
/// 4. if one is a part of the other, its contact with the outside of the whole.
///
/// A part touches the outside of its whole iff some region is in contact with both and shares a point with neither: the
/// outside is one. The whole cube has no outside, so each proper part of it is `NTPP`.
///
/// # Errors
///
/// - `EmptyRegion(1)` iff `a` has no point, before any test.
/// - `EmptyRegion(2)` iff `a` has a point and `b` has none, before any test.
/// - `Limit` iff one of the comparisons has it.
/// - `Memory` for want of memory.
pub fn rcc(alloc: Global, a: &Region, b: &Region, work: &mut Work) -> Result<Rcc8, RccFault>
    ensures empty { IfSome (first_empty a.now b.now) (λ k. (result ≡ Err (RccFault.EmptyRegion k)) × (work.new ≡ work.old)) }
    ensures makes { IsNone (first_empty a.now b.now) → MakesRelation result work.old work.new (relation_of_parts first_tester a.now b.now) }
    ensures right { IfOk result (λ r. StandIn (relation_of r) (shape_of_parts a.now) (shape_of_parts b.now)) }
    ensures told { TellsEmpty result (shape_of_parts a.now) (shape_of_parts b.now) }
{
    if a.parts().is_empty() {
        return Err(RccFault::EmptyRegion(1));
    }
    if b.parts().is_empty() {
        return Err(RccFault::EmptyRegion(2));
    }
    Ok(found_relation(alloc, a, b, work)?)
}

/// Returns the relation of `a` and `b`, which have parts.
fn found_relation(alloc: Global, a: &Region, b: &Region, work: &mut Work) -> Result<Rcc8, OpFault>
    ensures { Makes relation_of result work.old work.new (relation_of_parts first_tester a.now b.now) }
{
    let mut walked = work.fresh(alloc);
    let relation = rp_eval::found_relation(alloc, a, b, &mut walked);
    work.take_over(walked, relation)
}
