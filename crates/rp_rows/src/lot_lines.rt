//! The verdict lines of lots.
ghost use Rattle.std.specs.Prelude.{◌≡◌, ◌≤◌, ◌∷◌, ◌++◌, [], IfOk, OnOk, length, map, option_map, option_copied};
ghost use Rattle.rp_model.specs.states.State.{lot_with_id, most_kept_parts};
ghost use Rattle.rp_model.specs.commands.Verdict.{Verdict as ModelVerdict, neighbour_lines, lot_lines};
ghost use Rattle.rp_history.specs.Lots.{lot_of};
ghost use Rattle.rp_proximity.specs.There.{owner_verdict};
ghost use Rattle.rp_answer.specs.Views.{verdict_of};
ghost use Rattle.rp_rows.specs.Access.{told_access};
ghost use Rattle.rp_rows.specs.Lots.{lots_under};

use crate::access::Access;
use rp_answer::{Verdict, Verdicts, one_line};
use rp_history::{History, LotLine};
use rp_lists::{Name, Names};
use std::alloc::{AllocError, Global};

/// Returns the verdict for `owner`: the parcel, or that there is none.
pub fn owner_verdict(owner: Option<Name>) -> Verdict
    ensures { verdict_of result ≡ owner_verdict owner }
{
    match owner {
        Some(id) => Verdict::Parcel(id),
        None => Verdict::Nobody,
    }
}

/// Returns the verdict lines of the neighbours `ids`.
///
/// # Errors
///
/// `AllocError` if memory runs out.
pub fn neighbour_lines(alloc: Global, ids: &[Name]) -> Result<Verdicts, AllocError>
    requires { length ids.now ≤ most_kept_parts }
    ensures { IfOk result (λ lines. map verdict_of lines.items ≡ neighbour_lines ids.now) }
{
    parcel_lines(alloc, Verdict::Neighbours(ids.len() as u32), ids)
}

/// Returns the verdict lines of `access`: those of its chain, and then those of its levels.
///
/// # Errors
///
/// `AllocError` if memory runs out.
pub fn access_lines(alloc: Global, access: &Access) -> Result<Verdicts, AllocError>
    ensures { IfOk result (λ lines. map verdict_of lines.items ≡ told_access access.now) }
{
    let mut lines = match &access.chain {
        None => one_line(alloc, Verdict::NoAccess)?,
        Some(ids) => {
            let steps = ids.items().len().saturating_sub(1);
            parcel_lines(alloc, Verdict::Access(steps as u32), ids.items())?
        }
    };
    for (steps, id) in access.levels.items() {
        lines.push(Verdict::Level(*steps, *id))?;
    }
    Ok(lines)
}

/// Returns the line of `first`, and one line for each of `ids`.
fn parcel_lines(alloc: Global, first: Verdict, ids: &[Name]) -> Result<Verdicts, AllocError>
    ensures { IfOk result (λ lines. map verdict_of lines.items ≡ verdict_of first ∷ map ModelVerdict.parcel ids.now) }
{
    let mut lines = one_line(alloc, first)?;
    for id in ids {
        lines.push(Verdict::Parcel(*id))?;
    }
    Ok(lines)
}

/// Returns the verdict line of `lot`.
pub(crate) fn lot_line(alloc: Global, lot: &LotLine) -> Result<Verdict, AllocError>
    ensures { IfOk result (λ line. verdict_of line ∷ [] ≡ lot_lines (lot_of lot.now ∷ [])) }
{
    Ok(Verdict::Lot(LotLine {
        id: lot.id,
        layer: lot.layer,
        born: lot.born,
        ended: lot.ended,
        origins: Names::copy_of(alloc, lot.origins.items())?,
    }))
}

/// Returns the lot `id` of `history`; `None` iff it was never registered.
fn lot_under<'a>(history: &'a History, id: &Name) -> Option<&'a LotLine>
    ensures { option_map lot_of (option_copied result) ≡ lot_with_id id.now history.now }
{
    let place = history.place_of(id)?;
    Some(&history.lots()[place])
}

/// Appends the lines of the lots `ids` to `lines`, in the order of `ids`. Ids that were never registered have no line.
pub(crate) fn add_each(
    alloc: Global,
    history: &History,
    ids: &[Name],
    lines: &mut Verdicts,
) -> Result<(), AllocError>
    ensures { OnOk result (map verdict_of lines.new.items ≡ map verdict_of lines.old.items ++ lot_lines (lots_under ids.now history.now)) }
{
    for id in ids {
        if let Some(lot) = lot_under(history, id) {
            lines.push(lot_line(alloc, lot)?)?;
        }
    }
    Ok(())
}
