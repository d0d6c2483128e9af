//! Lots that are born in the place of others.
ghost use Rattle.std.specs.Prelude.{◌≡◌, ◌∷◌, ◌++◌, [], IfOk, OnOk};
ghost use Rattle.rp_history.specs.declared.lot.Birth.{Birth};
ghost use Rattle.rp_lots.specs.Changes.{replacing};

use crate::change::{Change, Replaced};
use rp_answer::RowEnd;
use rp_history::Birth;
use rp_lists::{Listed, Name, Names};
use std::alloc::{AllocError, Global};

/// Puts the birth of the lot `id` of `layer`, whose one origin is the lot `origin`, behind `births`, and its `form`
/// behind `forms`. After `AllocError` neither is used further.
pub fn add_born<F: Drop>(
    alloc: Global,
    layer: Name,
    origin: Name,
    id: Name,
    form: F,
    births: &mut Listed<Birth>,
    forms: &mut Listed<F>,
) -> Result<(), AllocError>
    ensures births { OnOk result ((b : Birth) × (births.new.items ≡ births.old.items ++ b ∷ []) × (b.id ≡ id) × (b.layer ≡ layer) × (b.origins.items ≡ origin ∷ [])) }
    ensures forms { OnOk result (forms.new.items ≡ forms.old.items ++ form ∷ []) }
{
    births.push(born_of(alloc, layer, origin, id)?)?;
    forms.push(form)?;
    Ok(())
}

/// Returns the birth of a lot with one origin.
fn born_of(alloc: Global, layer: Name, origin: Name, id: Name) -> Result<Birth, AllocError>
    ensures { IfOk result (λ birth. (birth.id ≡ id) × (birth.layer ≡ layer) × (birth.origins.items ≡ origin ∷ [])) }
{
    let origins = Names::copy_of(alloc, &[origin])?;
    Ok(Birth { id, layer, origins })
}

/// Returns the change of `row`, which lets lots end and others be born.
pub fn replacing<F: Drop>(row: Result<Replaced<F>, RowEnd>) -> Result<Change<F>, RowEnd>
    ensures { result ≡ replacing row }
{
    Ok(Change::Replaced(row?))
}
