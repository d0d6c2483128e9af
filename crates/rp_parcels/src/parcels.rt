//! The register of parcels: its contents, and its changes.
ghost use Rattle.std.specs.Prelude.{◌≡◌, ◌+◌, ◌≤◌, [], length, map, option_copied, IfOk, IfErr, OnOk, OnErr};
ghost use Rattle.rp_semantics.specs.Walk.{no_work};
ghost use Rattle.rp_model.specs.states.State.{live_lot, parts_of_lot, bare_lot, lots_replaced, most_kept_parts};
ghost use Rattle.rp_model.specs.commands.Retire.{row_retire};
ghost use Rattle.rp_history.specs.Lots.{lots_in, lots_after};
ghost use Rattle.rp_parcels.specs.Kept.{AreSound};
ghost use Rattle.rp_parcels.specs.Register.{IsLater, IsFitChange};
ghost use Rattle.rp_history.specs.Parts.{new_lots};
ghost use Rattle.rp_parcels.specs.declared.fault.ParcelFault.TheVariants.{Unknown};
ghost use Rattle.rp_parcels.specs.Rows.{Changes};

use crate::fault::ParcelFault;
use crate::keeper::ParcelKeeper;
use rp_boxindex::VisitCount;
use rp_history::{Birth, History};
use rp_lists::{Listed, Name};
use rp_region::Region;
use rp_regionlots::Regions;
use rp_store::Lots;
use std::alloc::{AllocError, Global};
use std::marker::Model;

/// All parcels that were ever registered, in the order of registration, with their regions. A contract sees them as the
/// lots of a sound state. Ids are distinct, live parcels of one layer share no point, every parcel has a point, and the
/// limits of parts hold. Every end is above its birth, and origins come before and are of the same layer.
#[derive(Drop)]
pub struct Parcels {
    lots: Lots<Regions>,
}

impl Model for Parcels {
    ghost use Rattle.std.specs.Prelude.{List};
    ghost use Rattle.rp_model.specs.states.State.{Lot};
    ghost use Rattle.rp_parcels.specs.Kept.{AreSound};

    ghost Value = { List (Lot (Unit {0})) };

    ghost view = { λ a. a.lots };

    ghost invariant = { λ a. AreSound a.lots };
}

impl Parcels {
    /// Returns the register of no parcels.
    ///
    /// # Errors
    ///
    /// `AllocError` if memory runs out.
    pub fn new(alloc: Global) -> Result<Parcels, AllocError>
        ensures { IfOk result (λ parcels. parcels ≡ []) }
    {
        Ok(Parcels {
            lots: Lots::new(alloc),
        })
    }

    /// Returns the births and ends of all parcels, ended ones included.
    pub fn history(&self) -> &History
        ensures value { result.now ≡ map bare_lot self.now }
        ensures few { length self.now ≤ most_kept_parts }
        ensures sound { AreSound self.now }
    {
        self.lots.history()
    }

    /// Returns the region of the live parcel `id`, without a walk over all parcels; `None` iff it is not live.
    pub fn region(&self, id: Name) -> Option<&Region>
        ensures { option_copied result ≡ parts_of_lot (live_lot id self.now) }
    {
        self.lots.find(&id)
    }

    /// Returns the parcels as they are stored.
    pub(crate) fn lots(&self) -> &Lots<Regions>
        ensures value { result.now ≡ self.now }
        ensures sound { AreSound self.now }
    {
        &self.lots
    }

    /// Returns the parcels as a keeper of lots. `visits` counts the visited nodes of their index.
    pub(crate) fn keeper<'a>(&'a self, visits: &'a VisitCount) -> ParcelKeeper<'a>
        ensures value { result.parcels.now ≡ self.now }
        ensures sound { AreSound self.now }
    {
        // This makes the invariant known, which says that the parcels are sound.
        let _ = &self.lots;
        ParcelKeeper {
            parcels: self,
            visits,
        }
    }

    /// Ends the parcels `ends` at `line`, and appends a parcel for each of `births`, with its region of `regions`.
    /// After `AllocError` all is as before.
    pub(crate) fn replace(
        &mut self,
        alloc: Global,
        line: u32,
        ends: &[Name],
        births: &[Birth],
        regions: Listed<Region>,
    ) -> Result<(), AllocError>
        requires later { IsLater line self.old }
        requires each { length births.now ≡ length regions.items }
        requires fit { IsFitChange line self.old ends.now (new_lots births.now regions.items) }
        ensures ok { OnOk result (self.new ≡ lots_after line self.old (lots_replaced ends.now (new_lots births.now regions.items))) }
        ensures err { OnErr result (self.new ≡ self.old) }
        ensures sound { OnOk result (AreSound self.new) }
        ensures later { OnOk result (IsLater (line + 1) self.new) }
    {
        self.lots.replace(alloc, line, ends, births, regions)?;
        Ok(())
    }

    /// Ends the live parcel `id` at `line`, which is above every birth and every end. Takes no memory.
    ///
    /// # Errors
    ///
    /// `Unknown(id)` iff it is not live. All is then as before.
    pub fn retire(&mut self, line: u32, id: Name) -> Result<(), ParcelFault>
        requires { IsLater line self.old }
        ensures row { Changes result line no_work no_work self.old self.new (row_retire (lots_in [] self.old) id) }
        ensures fault { IfErr result (λ e. e ≡ Unknown id) }
        ensures sound { OnOk result (AreSound self.new) }
        ensures later { OnOk result (IsLater (line + 1) self.new) }
    {
        match self.history().check_live(id) {
            Ok(_) => {
                self.lots.end(line, id);
                Ok(())
            }
            Err(_) => Err(ParcelFault::Unknown(id)),
        }
    }
}
