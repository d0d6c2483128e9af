//! Contact between parcels, access from one to another, and the audit that all are apart, by the generic rows.
ghost use Rattle.std.specs.Prelude.{◌≡◌, ◌≤◌, [], length};
ghost use Rattle.rp_semantics.specs.Walk.{first_tester};
ghost use Rattle.rp_model.specs.states.State.{live_lots};
ghost use Rattle.rp_model.specs.commands.Verdict.{clear, neighbour_lines};
ghost use Rattle.rp_model.specs.commands.Reply.{reply, reply_lines};
ghost use Rattle.rp_model.specs.commands.Access.{row_access};
ghost use Rattle.rp_model.specs.commands.Audit.{row_audit};
ghost use Rattle.rp_model.specs.commands.Neighbours.{row_neighbours};
ghost use Rattle.rp_history.specs.Lots.{lots_in};
ghost use Rattle.rp_parcels.specs.Access.{access_reply};
ghost use Rattle.rp_parcels.specs.Rows.{Answers};

use crate::answer::answered;
use crate::fault::ParcelFault;
use crate::parcels::Parcels;
use rp_boxindex::{VisitCount, Watch};
use rp_lists::{Name, Names};
use rp_region::Work;
use rp_regionlots::{access, audit, neighbours};
use rp_rows::Access;
use std::alloc::Global;
use std::thread::Threads;

impl Parcels {
    /// Returns the live parcels of the layer of `id` in contact with it, in the order of registration.
    ///
    /// The items are the other live parcels of the layer that have a pair of parts with it whose boxes meet, the
    /// boundary included. They are judged in halves, and a run of at most `grain` is not split; the answer and the
    /// proof lines are equal for every grain.
    ///
    /// # Errors
    ///
    /// The first of these, in this order:
    ///
    /// * `Unknown(id)` if `id` is not live;
    /// * `Limit` if there are too many pairs of parts whose boxes meet, the boundary included.
    ///
    /// `Memory` if memory runs out.
    pub fn neighbours<R: Threads + Sync, W: Watch>(
        &self,
        rt: &R,
        alloc: Global,
        watch: &W,
        grain: usize,
        id: Name,
        work: &mut Work,
    ) -> Result<Names, ParcelFault>
        requires { 1 ≤ grain }
        ensures row { Answers (λ ids. reply_lines (neighbour_lines ids.items)) result work.old work.new (row_neighbours first_tester (lots_in [] self.now) id) }
    {
        let mut walked = work.fresh(alloc);
        let visits = VisitCount::counted();
        let keeper = self.keeper(&visits);
        let came = neighbours(rt, alloc, watch, grain, &keeper, id, &mut walked);
        visits.tell(watch);
        answered(work, walked, came)
    }

    /// Returns a shortest chain of live parcels of one layer from `from` to `to`, each in contact with the next.
    /// Returns also the level of each parcel of the layer from which a chain leads to `to`: the number of steps of a
    /// shortest one.
    ///
    /// The items are the pairs of live parcels of the layer that have a pair of parts whose boxes meet, the boundary
    /// included. They are judged in halves, and a run of at most `grain` is not split; the answer and the proof lines
    /// are equal for every grain.
    ///
    /// # Errors
    ///
    /// The first of these, in this order:
    ///
    /// * `Unknown(from)` or `Unknown(to)` if one is not live;
    /// * `Layers(to)` if the layers differ;
    /// * `Limit` if there are too many pairs of parts whose boxes meet, the boundary included.
    ///
    /// `Memory` if memory runs out.
    pub fn access<R: Threads + Sync, W: Watch>(
        &self,
        rt: &R,
        alloc: Global,
        watch: &W,
        grain: usize,
        from: Name,
        to: Name,
        work: &mut Work,
    ) -> Result<Access, ParcelFault>
        requires { 1 ≤ grain }
        ensures row { Answers access_reply result work.old work.new (row_access first_tester (lots_in [] self.now) from to) }
    {
        let mut walked = work.fresh(alloc);
        let visits = VisitCount::counted();
        let keeper = self.keeper(&visits);
        let came = access(rt, alloc, watch, grain, &keeper, from, to, &mut walked);
        visits.tell(watch);
        answered(work, walked, came)
    }

    /// Returns the number of live parcels of all layers. For each pair of parts, of two live parcels of one layer,
    /// whose boxes share more than boundary, a proof line in `work` shows that they share no point.
    ///
    /// The items are the pairs of parcels that have such a pair of parts. They are judged in halves, and a run of at
    /// most `grain` is not split; the answer and the proof lines are equal for every grain.
    ///
    /// # Errors
    ///
    /// `Limit` iff there are too many of these pairs of parts. `Memory` if memory runs out.
    pub fn audit<R: Threads + Sync, W: Watch>(
        &self,
        rt: &R,
        alloc: Global,
        watch: &W,
        grain: usize,
        work: &mut Work,
    ) -> Result<u32, ParcelFault>
        requires { 1 ≤ grain }
        ensures row { Answers (λ n. reply (clear n)) result work.old work.new (row_audit first_tester (lots_in [] self.now)) }
    {
        let mut walked = work.fresh(alloc);
        let visits = VisitCount::counted();
        let keeper = self.keeper(&visits);
        let came = audit(rt, alloc, watch, grain, &keeper, &mut walked);
        visits.tell(watch);
        answered(work, walked, came)
    }

    /// Returns the number of live parcels of all layers.
    pub fn count_live(&self) -> u32
        ensures { result ≡ length (live_lots self.now) }
    {
        self.history().live_count() as u32
    }
}
