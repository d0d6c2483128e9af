//! Births and ends of lots.
ghost use Rattle.std.specs.Prelude.{◌≡◌, ◌≤◌, ◌++◌, false, None, IsTrue, map, length, IfOk};
ghost use Rattle.std.specs.List.{AllByRecursion};
ghost use Rattle.rp_language.specs.Name.{is_among};
ghost use Rattle.rp_model.specs.states.State.{ids_of, born_at, ended_at};
ghost use Rattle.rp_model.specs.states.Sound.{are_distinct};
ghost use Rattle.rp_history.specs.Lots.{lot_of, new_lot_of};

use crate::list::LotList;
use crate::lot::{Birth, LotLine};
use rp_lists::{Listed, Name, Names};
use std::alloc::{AllocError, Global};

/// Returns the lots of `births`, born at `line`, in order.
pub(crate) fn lots_born(
    alloc: Global,
    line: u32,
    births: &[Birth],
) -> Result<Listed<LotLine>, AllocError>
    ensures { IfOk result (λ born. map lot_of born.items ≡ map (born_at line) (map new_lot_of births.now)) }
{
    let mut born = Listed::new(alloc);
    for birth in births {
        born.push(lot_born(alloc, line, birth)?)?;
    }
    Ok(born)
}

/// Returns the lot of `birth`, born at `line`.
fn lot_born(alloc: Global, line: u32, birth: &Birth) -> Result<LotLine, AllocError>
    ensures { IfOk result (λ lot. lot_of lot ≡ born_at line (new_lot_of birth.now)) }
{
    Ok(LotLine {
        id: birth.id,
        layer: birth.layer,
        born: line,
        ended: None,
        origins: Names::copy_of(alloc, birth.origins.items())?,
    })
}

/// Ends the lots `ids` at `line`, each if it is live. The spare capacity stays.
pub(crate) fn end_all(list: &mut LotList, line: u32, ids: &[Name])
    ensures lots { list.new.lots ≡ map (ended_at line ids.now) list.old.lots }
    ensures spare { list.old.spare ≤ list.new.spare }
{
    for id in ids {
        list.end(line, id);
    }
}

/// Appends the live lots `born`, whose ids are new, in order. The caller has made room for them.
pub(crate) fn append(list: &mut LotList, born: Listed<LotLine>)
    requires room { length born.items ≤ list.old.spare }
    requires live { AllByRecursion (λ l. l.ended ≡ None) (map lot_of born.items) }
    requires fresh { AllByRecursion (λ l. is_among l.id (ids_of list.old.lots) ≡ false) (map lot_of born.items) }
    requires distinct { IsTrue (are_distinct (ids_of (map lot_of born.items))) }
    ensures { list.new.lots ≡ list.old.lots ++ map lot_of born.items }
{
    for lot in born.into_items() {
        list.push(lot);
    }
}
