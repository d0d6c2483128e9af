//! The search for the first pair of parts of two lists that meet, test by test.
ghost use Rattle.std.specs.Prelude.{is_some, IfOk, IfSome};
ghost use Rattle.rp_semantics.specs.Form.{test_pair_if, first_with_part, first_pair};
ghost use Rattle.rp_region.specs.Makes.{Makes};
ghost use Rattle.rp_region.specs.Pairs.{chosen_pair, IsLast};

use crate::fault::OpFault;
use crate::part::Part;
use crate::witness::Witness;
use crate::work::Work;

/// Returns a witness of the first pair of one of `parts` and one of `others` that meets, if there is one. If `near`,
/// only the pairs are tested whose boxes let them meet.
pub(crate) fn first_pair<W: Witness>(
    parts: &[Part],
    others: &[Part],
    near: bool,
    work: &mut Work,
) -> Result<Option<W>, OpFault>
    ensures makes { Makes is_some result work.old work.new (first_pair (chosen_pair near W.may_meet) W.test parts.now others.now) }
    ensures told { IfOk result (λ o. IfSome o (λ x. IsLast (W.line x) work.new.proofs)) }
{
    for part in parts {
        if let Some(found) = first_with_part(part, others, near, work)? {
            return Ok(Some(found));
        }
    }
    Ok(None)
}

/// Returns a witness that `part` meets the first of `others` that it meets, if there is one. If `near`, only those are
/// tested whose boxes let them meet.
fn first_with_part<W: Witness>(
    part: &Part,
    others: &[Part],
    near: bool,
    work: &mut Work,
) -> Result<Option<W>, OpFault>
    ensures makes { Makes is_some result work.old work.new (first_with_part (chosen_pair near W.may_meet) W.test part.now others.now) }
    ensures told { IfOk result (λ o. IfSome o (λ x. IsLast (W.line x) work.new.proofs)) }
{
    for other in others {
        if let Some(found) = test_pair(part, other, near, work)? {
            return Ok(Some(found));
        }
    }
    Ok(None)
}

/// Returns a witness that `part` and `other` meet, if there is one, by one test. If `near` and their boxes do not let
/// them meet, no test is made.
fn test_pair<W: Witness>(
    part: &Part,
    other: &Part,
    near: bool,
    work: &mut Work,
) -> Result<Option<W>, OpFault>
    ensures makes { Makes is_some result work.old work.new (test_pair_if (chosen_pair near W.may_meet part.now other.now) W.test part.now other.now) }
    ensures told { IfOk result (λ o. IfSome o (λ x. IsLast (W.line x) work.new.proofs)) }
{
    let may_meet = W::may_meet(part, other);
    if near && !may_meet {
        return Ok(None);
    }
    if may_meet {
        return Ok(W::find(work, part, other)?);
    }
    W::refute(work, part, other)?;
    Ok(None)
}
