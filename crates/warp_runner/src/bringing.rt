//! Bringing a connection on: each file that it wants is lent from the shared cache.

ghost use Rattle.std.specs.Prelude.{◌≡◌, ◌⊎◌, IfOk};
ghost use Rattle.std.specs.Arc.{arc_value};
ghost use Rattle.turn_cell.specs.Calls.{view_of};
ghost use Rattle.conn_loop.specs.Supplies.{Supplies};
ghost use Rattle.dispatcher.specs.Runs.{LeavesPolls};
ghost use Rattle.dispatcher.specs.Stripes.{HasGrown};
ghost use Rattle.warp_runner.specs.Acts.{AreOfCells, HaveGrown};
ghost use Rattle.warp_runner.specs.Asking.{HasAsked};
ghost use Rattle.warp_runner.specs.Leases.{HasGivenBack, way_of};
ghost use Rattle.warp_runner.specs.Runs.{HasBrought};
ghost use Rattle.warp_runner.specs.declared.bringing.Brought.TheVariants.{Spent};
ghost use Rattle.fd_cache.specs.declared.acquired.ReleaseOut.TheVariants.{Released};

use crate::runner::ServerRunner;
use conn_loop::{End, Supply};
use fd_cache::{Acquired, Lease, ReleaseOut};
use outside::{Clock, Files};
use poller::Poller;
use reg_keys::Dir;
use std::sync::Wait;
use warp_books::{Book, Finished};
use warp_jobs::{Gate, Session, Went};
use warp_passes::{acquire, release};

/// How far a run brought a connection.
#[derive(Clone, Copy)]
pub(crate) enum Brought {
    /// Its link must be waited for, in this direction.
    Waits(Dir),
    /// It is over.
    Over(End),
    /// The cell of the cache takes no more calls.
    Spent,
}

/// The cell of the cache takes no more calls.
#[derive(Clone, Copy)]
pub(crate) struct CacheSpent;

impl<P: Poller, F: Files, C: Clock, B: Book<Finished<P::Link, F>>, G: Gate> ServerRunner<
    P,
    F,
    C,
    B,
    G,
> {
    /// Brings a connection on until its link must be waited for, or it is over.
    ///
    /// A lease that it doesn't need any more is kept until it wants another file or the run ends: the next
    /// request is often for the same one.
    pub(crate) fn bring_on<R: Wait>(&mut self, rt: &R, session: &mut Session<P::Link, F>) -> Brought
        requires own { AreOfCells (arc_value self.old.shared).times self.old.timed
            (arc_value self.old.shared).cache self.old.cached
            (arc_value self.old.shared).tally self.old.tallied }
        ensures own { AreOfCells (arc_value self.new.shared).times self.new.timed
            (arc_value self.new.shared).cache self.new.cached
            (arc_value self.new.shared).tally self.new.tallied }
        ensures brought { HasBrought result session.old session.new }
        ensures same { (self.new.shared ≡ self.old.shared) × (self.new.limit ≡ self.old.limit) }
        ensures asked { HasAsked (C.told self.old.clock) (C.told self.new.clock) }
        ensures grown { HasGrown (view_of self.old.cached) (view_of self.new.cached) }
        ensures rest { (self.new.timed ≡ self.old.timed) × (self.new.tallied ≡ self.old.tallied)
            × (self.new.poller ≡ self.old.poller) × (self.new.book ≡ self.old.book) }
    {
        // A law of connections, for the proof: it does nothing when run.
        session.keeps_its_counts();
        let mut kept: Option<Lease<F>> = None;
        'files: loop {
            let went = session.advance(&mut self.files, &mut self.clock, &mut self.scratch);
            kept = match self.keep(rt, kept, session.spent_lease()) {
                Ok(kept) => kept,
                Err(_) => return Brought::Spent,
            };
            // The same law.
            session.keeps_its_counts();
            match went {
                Went::Waits(dir) => return self.leave_off(rt, kept, Brought::Waits(dir)),
                Went::Over(end) => return self.leave_off(rt, kept, Brought::Over(end)),
                Went::Asks => match self.find(rt, session.wanted(), kept.take()) {
                    Ok(got) => session.supply(got),
                    Err(_) => return Brought::Spent,
                },
            }
        }
    }

    /// Gives a lease back, if there is one, and says how far the connection was brought.
    fn leave_off<R: Wait>(&mut self, rt: &R, lease: Option<Lease<F>>, brought: Brought) -> Brought
        requires own { AreOfCells (arc_value self.old.shared).times self.old.timed
            (arc_value self.old.shared).cache self.old.cached
            (arc_value self.old.shared).tally self.old.tallied }
        ensures own { AreOfCells (arc_value self.new.shared).times self.new.timed
            (arc_value self.new.shared).cache self.new.cached
            (arc_value self.new.shared).tally self.new.tallied }
        ensures brought { (result ≡ brought) ⊎ (result ≡ Spent) }
        ensures gave { HasGivenBack lease Released (view_of self.old.cached) (view_of self.new.cached)
            ⊎ (result ≡ Spent) }
        ensures same { (self.new.shared ≡ self.old.shared) × (self.new.limit ≡ self.old.limit) }
        ensures clock { self.new.clock ≡ self.old.clock }
        ensures grown { HasGrown (view_of self.old.cached) (view_of self.new.cached) }
        ensures rest { (self.new.timed ≡ self.old.timed) × (self.new.tallied ≡ self.old.tallied)
            × (self.new.poller ≡ self.old.poller) × (self.new.book ≡ self.old.book) }
    {
        match self.give_back(rt, lease) {
            Ok(()) => brought,
            Err(_) => Brought::Spent,
        }
    }

    /// Keeps the lease that was spent last, and gives the one before back.
    fn keep<R: Wait>(
        &mut self,
        rt: &R,
        kept: Option<Lease<F>>,
        spent: Option<Lease<F>>,
    ) -> Result<Option<Lease<F>>, CacheSpent>
        requires own { AreOfCells (arc_value self.old.shared).times self.old.timed
            (arc_value self.old.shared).cache self.old.cached
            (arc_value self.old.shared).tally self.old.tallied }
        ensures own { AreOfCells (arc_value self.new.shared).times self.new.timed
            (arc_value self.new.shared).cache self.new.cached
            (arc_value self.new.shared).tally self.new.tallied }
        ensures same { (self.new.shared ≡ self.old.shared) × (self.new.limit ≡ self.old.limit) }
        ensures clock { self.new.clock ≡ self.old.clock }
        ensures grown { HasGrown (view_of self.old.cached) (view_of self.new.cached) }
        ensures rest { (self.new.timed ≡ self.old.timed) × (self.new.tallied ≡ self.old.tallied)
            × (self.new.poller ≡ self.old.poller) × (self.new.book ≡ self.old.book) }
    {
        let Some(lease) = spent else {
            return Ok(kept);
        };
        match self.give_back(rt, kept) {
            Ok(()) => Ok(Some(lease)),
            Err(spent) => Err(spent),
        }
    }

    /// Gives a lease back, if there is one.
    pub(crate) fn give_back<R: Wait>(
        &mut self,
        rt: &R,
        lease: Option<Lease<F>>,
    ) -> Result<(), CacheSpent>
        requires own { AreOfCells (arc_value self.old.shared).times self.old.timed
            (arc_value self.old.shared).cache self.old.cached
            (arc_value self.old.shared).tally self.old.tallied }
        ensures own { AreOfCells (arc_value self.new.shared).times self.new.timed
            (arc_value self.new.shared).cache self.new.cached
            (arc_value self.new.shared).tally self.new.tallied }
        ensures same { (self.new.shared ≡ self.old.shared) × (self.new.limit ≡ self.old.limit) }
        ensures clock { self.new.clock ≡ self.old.clock }
        ensures stays { HaveGrown (view_of self.old.cached) (view_of self.new.cached)
            (view_of self.old.tallied) (view_of self.new.tallied)
            × LeavesPolls P.meaning self.old.poller self.new.poller }
        ensures rest { (self.new.timed ≡ self.old.timed) × (self.new.tallied ≡ self.old.tallied)
            × (self.new.poller ≡ self.old.poller) × (self.new.book ≡ self.old.book) }
        ensures gave { HasGivenBack lease (way_of result) (view_of self.old.cached)
            (view_of self.new.cached) }
    {
        let Some(lease) = lease else {
            return Ok(());
        };
        match release(rt, &self.shared.cache, &mut self.cached, lease) {
            ReleaseOut::Released => Ok(()),
            ReleaseOut::Spent => Err(CacheSpent),
        }
    }

    /// What stands at a path: the file of a lease that was kept, or what the shared cache finds.
    fn find<R: Wait>(
        &mut self,
        rt: &R,
        path: &str,
        kept: Option<Lease<F>>,
    ) -> Result<Supply<Lease<F>>, CacheSpent>
        requires own { AreOfCells (arc_value self.old.shared).times self.old.timed
            (arc_value self.old.shared).cache self.old.cached
            (arc_value self.old.shared).tally self.old.tallied }
        ensures own { AreOfCells (arc_value self.new.shared).times self.new.timed
            (arc_value self.new.shared).cache self.new.cached
            (arc_value self.new.shared).tally self.new.tallied }
        ensures there { IfOk result
            (λ got. Supplies F.folder (λ lease. F.file_path lease.file) path.now got) }
        ensures same { (self.new.shared ≡ self.old.shared) × (self.new.limit ≡ self.old.limit) }
        ensures clock { self.new.clock ≡ self.old.clock }
        ensures grown { HasGrown (view_of self.old.cached) (view_of self.new.cached) }
        ensures rest { (self.new.timed ≡ self.old.timed) × (self.new.tallied ≡ self.old.tallied)
            × (self.new.poller ≡ self.old.poller) × (self.new.book ≡ self.old.book) }
    {
        let Some(lease) = kept else {
            return self.look_up(rt, path);
        };
        if F::is_at(&lease.file, path) {
            return Ok(Supply::Leased(lease));
        }
        match self.give_back(rt, Some(lease)) {
            Ok(()) => self.look_up(rt, path),
            Err(spent) => Err(spent),
        }
    }

    /// What the shared cache finds at a path.
    fn look_up<R: Wait>(&mut self, rt: &R, path: &str) -> Result<Supply<Lease<F>>, CacheSpent>
        requires own { AreOfCells (arc_value self.old.shared).times self.old.timed
            (arc_value self.old.shared).cache self.old.cached
            (arc_value self.old.shared).tally self.old.tallied }
        ensures own { AreOfCells (arc_value self.new.shared).times self.new.timed
            (arc_value self.new.shared).cache self.new.cached
            (arc_value self.new.shared).tally self.new.tallied }
        ensures there { IfOk result
            (λ got. Supplies F.folder (λ lease. F.file_path lease.file) path.now got) }
        ensures same { (self.new.shared ≡ self.old.shared) × (self.new.limit ≡ self.old.limit) }
        ensures clock { self.new.clock ≡ self.old.clock }
        ensures grown { HasGrown (view_of self.old.cached) (view_of self.new.cached) }
        ensures rest { (self.new.timed ≡ self.old.timed) × (self.new.tallied ≡ self.old.tallied)
            × (self.new.poller ≡ self.old.poller) × (self.new.book ≡ self.old.book) }
    {
        match acquire(
            self.alloc,
            rt,
            &self.shared.cache,
            &mut self.cached,
            path,
            &mut self.files,
        ) {
            Acquired::Leased(lease) => Ok(Supply::Leased(lease)),
            Acquired::Absent => Ok(Supply::Absent),
            Acquired::Failed => Ok(Supply::Failed),
            Acquired::NoMemory => Ok(Supply::NoMemory),
            Acquired::Spent => Err(CacheSpent),
        }
    }
}
