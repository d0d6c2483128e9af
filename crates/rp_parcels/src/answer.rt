//! What a row has come to, as the answer of a call.
ghost use Rattle.std.specs.Prelude.{◌≡◌, IfErr};
ghost use Rattle.rp_geometry.specs.searches.ProofLine.{in_line};
ghost use Rattle.rp_region.specs.Pairs.{IsLast};
ghost use Rattle.rp_answer.specs.Views.{refusal_of};
ghost use Rattle.rp_parcels.specs.Rows.{cause_of, refuses, IsTold};
ghost use Rattle.rp_parcels.specs.Shown.{EndsInside, IsShown, EndIsShown};
ghost use Rattle.rp_parcels.specs.Taken.{settled, IsTaken};

use crate::fault::ParcelFault;
use rp_answer::{Refusal, RowEnd};
use rp_cert::Proof;
use rp_lists::Copied;
use rp_oracle::Stopped;
use rp_region::Work;
use rp_space::Inside;

/// Returns what a row has come to (`came`) on `walked`, a work that was begun fresh, is taken over by `work` and
/// answered. A refusal carries the points of the last proof line, where it is shown by points.
pub(crate) fn answered<A: Drop>(
    work: &mut Work,
    walked: Work,
    came: Result<A, RowEnd>,
) -> Result<A, ParcelFault>
    requires { EndIsShown walked.proofs came }
    ensures taken { IsTaken came walked result work.old work.new }
    ensures told { IfErr result (IsTold work.new.proofs) }
{
    match work.take_over(walked, settled(came))? {
        Ok(found) => Ok(found),
        Err(refusal) => Err(fault_of(refusal, work)),
    }
}

/// Returns what a row has come to, of which a refusal is no stop.
fn settled<A: Drop>(came: Result<A, RowEnd>) -> Result<Result<A, Refusal>, Stopped>
    ensures { result ≡ settled came }
{
    match came {
        Ok(found) => Ok(Ok(found)),
        Err(RowEnd::Refused(refusal)) => Ok(Err(refusal)),
        Err(RowEnd::Stopped(stopped)) => Err(stopped),
    }
}

/// Returns the fault of a refusal, with the points of the last proof line where they show it.
fn fault_of(refusal: Refusal, work: &Work) -> ParcelFault
    requires { IsShown work.now.proofs (refusal_of refusal) }
    ensures cause { cause_of result ≡ refuses (refusal_of refusal) }
    ensures told { IsTold work.now.proofs result }
{
    match refusal {
        Refusal::Known(id) => ParcelFault::Known(id),
        Refusal::Unknown(id) => ParcelFault::Unknown(id),
        Refusal::Repeated(id) => ParcelFault::Repeated(id),
        Refusal::Layers(id) => ParcelFault::Layers(id),
        Refusal::Same => ParcelFault::Same,
        Refusal::Few => ParcelFault::Few,
        Refusal::Empty => ParcelFault::Empty,
        Refusal::EmptySide(side) => ParcelFault::EmptySide(side),
        Refusal::EmptyChild(child) => ParcelFault::EmptyChild(child),
        Refusal::Overlaps(id) => ParcelFault::Overlaps(id, last_points(work)),
        Refusal::Outside(child) => ParcelFault::Outside(child, last_points(work)),
        Refusal::ChildrenOverlap(first, second) => {
            ParcelFault::ChildrenOverlap(first, second, last_points(work))
        }
        Refusal::Gap => ParcelFault::Gap(last_points(work)),
        Refusal::Bad(_) => unreachable!(),
        Refusal::Limit => unreachable!(),
        Refusal::EmptyRegion(_) => unreachable!(),
    }
}

/// Returns the points of the last proof line.
fn last_points(work: &Work) -> Inside
    requires { EndsInside work.now.proofs }
    ensures { IsLast (in_line result) work.now.proofs }
{
    match work.proofs() {
        [.., Proof::In(points)] => points.copy(),
        _ => unreachable!(),
    }
}
