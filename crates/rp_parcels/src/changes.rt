//! Parcels are registered, cut, subdivided and consolidated, each by the row that is written once.
ghost use Rattle.std.specs.Prelude.{◌≡◌, ◌+◌, ◌≤◌, [], length, map, IfOk, IfErr, OnOk};
ghost use Rattle.std.specs.List.{AllByRecursion};
ghost use Rattle.rp_geometry.specs.parts.Parts.{IsRegion};
ghost use Rattle.rp_semantics.specs.Walk.{first_tester};
ghost use Rattle.rp_model.specs.states.State.{lots_replaced};
ghost use Rattle.rp_model.specs.commands.Register.{row_register};
ghost use Rattle.rp_model.specs.commands.Cut.{row_cut};
ghost use Rattle.rp_model.specs.commands.Subdivide.{row_subdivide};
ghost use Rattle.rp_model.specs.commands.Consolidate.{row_consolidate};
ghost use Rattle.rp_history.specs.Lots.{lots_in, lots_after};
ghost use Rattle.rp_history.specs.Parts.{new_lots};
ghost use Rattle.rp_subdivide.specs.Children.{formed_children};
ghost use Rattle.rp_parcels.specs.Kept.{AreSound};
ghost use Rattle.rp_parcels.specs.Register.{IsLater, child_of};
ghost use Rattle.rp_parcels.specs.Rows.{Changes, IsTold};
ghost use Rattle.rp_parcels.specs.Shown.{EndIsShown};
ghost use Rattle.rp_parcels.specs.Taken.{IsMade, IsFitFor};

use crate::answer::answered;
use crate::child::Child;
use crate::fault::ParcelFault;
use crate::parcels::Parcels;
use rp_answer::RowEnd;
use rp_boxindex::{VisitCount, Watch};
use rp_changes::{consolidate, cut, make_lot};
use rp_lists::{Listed, Name};
use rp_lots::Replaced;
use rp_region::{Region, Work};
use rp_subdivide::{Child as FormedChild, subdivide};
use std::alloc::{AllocError, Global};

impl Parcels {
    /// Registers `region` as the new parcel `id` of `layer`, born at `line`, which is above every birth and every end,
    /// by tests of `work`. Refusals, in this order: `Known(id)`; `Empty`; `Limit` where all parcels together would keep
    /// more than 65,536 parts, or too many pairs of a new part and a part of a live parcel of the layer have boxes that
    /// meet; `Overlaps` with the first live parcel of the layer that shares a point. After a refusal all is as before.
    pub fn register<W: Watch>(
        &mut self,
        alloc: Global,
        watch: &W,
        line: u32,
        layer: Name,
        id: Name,
        region: Region,
        work: &mut Work,
    ) -> Result<(), ParcelFault>
        requires { IsLater line self.old }
        ensures row { Changes result line work.old work.new self.old self.new (row_register first_tester (lots_in layer self.old) id region) }
        ensures told { IfErr result (IsTold work.new.proofs) }
        ensures sound { OnOk result (AreSound self.new) }
        ensures later { OnOk result (IsLater (line + 1) self.new) }
    {
        // Only so that it is known that the parts are those of a region.
        let _ = region.parts();
        let mut walked = work.fresh(alloc);
        let visits = VisitCount::counted();
        let came = make_lot(alloc, &self.keeper(&visits), layer, id, region, &mut walked);
        visits.tell(watch);
        self.make(alloc, line, walked, came, work)
    }

    /// Cuts a live parcel in two at the line, which is above every birth and every end: `first` gets its points in the
    /// region `by`, `second` the others. Refusals, in this order: `Unknown(id)` where it isn't live, `Known(first)`,
    /// `Known(second)`, `Same` where both are one name, `EmptySide(1)`, `EmptySide(2)`, `Limit`; a limit of the
    /// operations on regions comes at its turn. After a refusal all is as before.
    pub fn cut(
        &mut self,
        alloc: Global,
        line: u32,
        id: Name,
        by: &Region,
        first: Name,
        second: Name,
        work: &mut Work,
    ) -> Result<(), ParcelFault>
        requires { IsLater line self.old }
        ensures row { Changes result line work.old work.new self.old self.new (row_cut first_tester (lots_in [] self.old) id by.now first second) }
        ensures told { IfErr result (IsTold work.new.proofs) }
        ensures sound { OnOk result (AreSound self.new) }
        ensures later { OnOk result (IsLater (line + 1) self.new) }
    {
        // Only so that it is known that the parts are those of a region.
        let _ = by.parts();
        let mut walked = work.fresh(alloc);
        let came = cut(
            alloc,
            &self.keeper(&VisitCount::uncounted()),
            id,
            by,
            first,
            second,
            &mut walked,
        );
        self.make(alloc, line, walked, came, work)
    }

    /// Divides the live parcel `id` into `children` at `line`, which is above every birth and every end, by tests of
    /// `work`. Refusals, in this order: `Few` where there are fewer than two children, `Unknown(id)` where it isn't
    /// live, `Known` with the first new id that was ever registered, `Repeated` with the first that stood before,
    /// `EmptyChild`, `Limit` where all parcels together would keep more than 65,536 parts, `Outside` with the first
    /// child that isn't within the parcel, `Limit` where too many pairs of parts of two children have boxes that meet,
    /// `ChildrenOverlap` with the first two that share a point, `Gap` where the parcel has a point that no child has; a
    /// limit of the operations on regions comes at its turn. After a refusal all is as before.
    pub fn subdivide(
        &mut self,
        alloc: Global,
        line: u32,
        id: Name,
        children: &[Child],
        work: &mut Work,
    ) -> Result<(), ParcelFault>
        requires later { IsLater line self.old }
        requires few { length children.now ≤ 1024 }
        ensures row { Changes result line work.old work.new self.old self.new (row_subdivide first_tester (lots_in [] self.old) id (map child_of children.now)) }
        ensures told { IfErr result (IsTold work.new.proofs) }
        ensures sound { OnOk result (AreSound self.new) }
        ensures later { OnOk result (IsLater (line + 1) self.new) }
    {
        let children = formed(alloc, children)?;
        let mut walked = work.fresh(alloc);
        let came = subdivide(
            alloc,
            &self.keeper(&VisitCount::uncounted()),
            id,
            children,
            &mut walked,
        );
        self.make(alloc, line, walked, came, work)
    }

    /// Makes the parcel `new` of the live parcels `ids` of one layer, at `line`, which is above every birth and every
    /// end: its parts are theirs, in the order given. Refusals, in this order: `Few` where there are fewer than two
    /// ids, `Unknown` with the first that isn't live, `Repeated` with the first that stood before, `Layers` with the
    /// first whose layer isn't that of the first id, `Known(new)`, `Limit` where the region would have more than 1,024
    /// parts or all parcels together more than 65,536. After a refusal all is as before. It makes no test.
    pub fn consolidate(
        &mut self,
        alloc: Global,
        line: u32,
        new: Name,
        ids: &[Name],
        work: &mut Work,
    ) -> Result<(), ParcelFault>
        requires { IsLater line self.old }
        ensures row { Changes result line work.old work.new self.old self.new (row_consolidate (lots_in [] self.old) new ids.now) }
        ensures told { IfErr result (IsTold work.new.proofs) }
        ensures sound { OnOk result (AreSound self.new) }
        ensures later { OnOk result (IsLater (line + 1) self.new) }
    {
        let mut walked = work.fresh(alloc);
        let came = consolidate(
            alloc,
            &self.keeper(&VisitCount::uncounted()),
            new,
            ids,
            &mut walked,
        );
        self.make(alloc, line, walked, came, work)
    }

    /// Makes the change that a row has come to (`came`) on `walked`, a work that was begun fresh, which `work` takes
    /// over. After a fault all parcels are as before.
    fn make(
        &mut self,
        alloc: Global,
        line: u32,
        walked: Work,
        came: Result<Replaced<Region>, RowEnd>,
        work: &mut Work,
    ) -> Result<(), ParcelFault>
        requires later { IsLater line self.old }
        requires shown { EndIsShown walked.proofs came }
        requires fit { IsFitFor line self.old came }
        ensures made { IsMade came line walked result work.old work.new self.old self.new }
        ensures told { IfErr result (IsTold work.new.proofs) }
        ensures sound { OnOk result (AreSound self.new) }
        ensures later { OnOk result (IsLater (line + 1) self.new) }
    {
        let Replaced {
            ends,
            births,
            forms,
        } = answered(work, walked, came)?;
        self.replace(alloc, line, ends.items(), births.items(), forms)?;
        Ok(())
    }
}

/// Children with copies of their regions, in order.
fn formed(alloc: Global, children: &[Child]) -> Result<Listed<FormedChild<Region>>, AllocError>
    ensures each { IfOk result (λ made. formed_children (λ form. form) made ≡ map child_of children.now) }
    ensures regions { IfOk result (λ made. AllByRecursion (λ c. IsRegion c.form) made.items) }
{
    let mut made = Listed::new(alloc);
    for child in children {
        // Only so that it is known that the parts are those of a region.
        let _ = child.region.parts();
        let form = child.region.copy(alloc)?;
        made.push(FormedChild { id: child.id, form })?;
    }
    Ok(made)
}
