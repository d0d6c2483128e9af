//! Lots end, and others are born in their place.
ghost use Rattle.std.specs.Prelude.{◌≡◌, map, OnOk, OnErr};
ghost use Rattle.rp_history.specs.Lots.{lots_after, AreBornBefore, AreNew};
ghost use Rattle.rp_history.specs.Parts.{new_lots};
ghost use Rattle.rp_store.specs.Kept.{AreFew};
ghost use Rattle.rp_lots.specs.Changes.{replaced_of};

use rp_lots::Replaced;
use rp_store::{Forms, Lots};
use std::alloc::{AllocError, Global};

/// Makes the change at the line: lots end, as far as they are live, and others are born in their place, which go last.
/// All lots were born before the line; the new ids are new and distinct, their origins are known, and there is room for
/// them. After `AllocError` all is as before.
pub(crate) fn replace<F: Forms>(
    lots: &mut Lots<F>,
    alloc: Global,
    line: u32,
    change: Replaced<F::Form>,
) -> Result<(), AllocError>
    requires later { AreBornBefore line lots.old }
    requires new { AreNew lots.old (new_lots change.births.items (map F.parts_of change.forms.items)) }
    requires few { AreFew (lots_after line lots.old (replaced_of F.parts_of change)) }
    ensures ok { OnOk result (lots.new ≡ lots_after line lots.old (replaced_of F.parts_of change)) }
    ensures err { OnErr result (lots.new ≡ lots.old) }
{
    let Replaced {
        ends,
        births,
        forms,
    } = change;
    let ended = ends.items();
    let born = births.items();
    lots.replace(alloc, line, ended, born, forms)
}
