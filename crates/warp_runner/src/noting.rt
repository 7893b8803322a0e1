//! Words with the tally, which all dispatchers share.
ghost use Rattle.std.specs.Prelude.{◌≡◌, ℕ, Option};
ghost use Rattle.std.specs.Arc.{arc_value};
ghost use Rattle.turn_cell.specs.Calls.{view_of};
ghost use Rattle.event_mgr.specs.Manager.{MgrView};
ghost use Rattle.timeout_mgr.specs.Calls.{view_of as seen_of};
ghost use Rattle.dispatcher.specs.Firings.{Jobs};
ghost use Rattle.dispatcher.specs.Runs.{LeavesPolls};
ghost use Rattle.warp_runner.specs.Acts.{AreOfCells, HaveGrown, told_of};
ghost use Rattle.warp_tally.specs.declared.calls.TallyCall.TheVariants.{Look, Stop};
ghost use Rattle.warp_passes.specs.TallyCalls.{HasCalled};
ghost use Rattle.warp_runner.specs.Journal.{FitsUntil};

use crate::runner::ServerRunner;
use dispatcher::calls_of_runs;
use outside::{Clock, Files};
use poller::Poller;
use std::sync::Wait;
use warp_books::{Book, Finished};
use warp_jobs::{Gate, Job};
use warp_passes::{TallyOut, look, stop};

impl<P: Poller, F: Files, C: Clock, B: Book<Finished<P::Link, F>>, G: Gate> ServerRunner<
    P,
    F,
    C,
    B,
    G,
> {
    /// Asks the tally for its counts.
    pub fn look<R: Wait>(&mut self, rt: &R) -> TallyOut
        requires own { AreOfCells (arc_value self.old.shared).times self.old.timed
            (arc_value self.old.shared).cache self.old.cached
            (arc_value self.old.shared).tally self.old.tallied }
        ensures own { AreOfCells (arc_value self.new.shared).times self.new.timed
            (arc_value self.new.shared).cache self.new.cached
            (arc_value self.new.shared).tally self.new.tallied }
        ensures fits { (stop : Option ℕ) (v : MgrView) (jobs : Jobs)
            → FitsUntil self.old.limit stop
            (told_of v (view_of self.old.tallied) (seen_of self.old.timed) (B.told self.old.book)) jobs
            → FitsUntil self.new.limit stop
            (told_of v (view_of self.new.tallied) (seen_of self.new.timed) (B.told self.new.book)) jobs }
        ensures same { (self.new.shared ≡ self.old.shared) × (self.new.limit ≡ self.old.limit) }
        ensures clock { self.new.clock ≡ self.old.clock }
        ensures timed { self.new.timed ≡ self.old.timed }
        ensures stays { HaveGrown (view_of self.old.cached) (view_of self.new.cached)
            (view_of self.old.tallied) (view_of self.new.tallied)
            × LeavesPolls P.meaning self.old.poller self.new.poller }
        ensures called { HasCalled Look (view_of self.old.tallied) result (view_of self.new.tallied) }
    {
        // A law of the calls, for the proof: it does nothing when run.
        calls_of_runs::<Job<P, F>>();
        look(rt, &self.shared.tally, &mut self.tallied)
    }

    /// Tells the tally that this dispatcher stops with this code. The first stop counts and is kept.
    pub fn note_stop<R: Wait>(&mut self, rt: &R, code: u8) -> TallyOut
        requires own { AreOfCells (arc_value self.old.shared).times self.old.timed
            (arc_value self.old.shared).cache self.old.cached
            (arc_value self.old.shared).tally self.old.tallied }
        ensures own { AreOfCells (arc_value self.new.shared).times self.new.timed
            (arc_value self.new.shared).cache self.new.cached
            (arc_value self.new.shared).tally self.new.tallied }
        ensures fits { (stop : Option ℕ) (v : MgrView) (jobs : Jobs)
            → FitsUntil self.old.limit stop
            (told_of v (view_of self.old.tallied) (seen_of self.old.timed) (B.told self.old.book)) jobs
            → FitsUntil self.new.limit stop
            (told_of v (view_of self.new.tallied) (seen_of self.new.timed) (B.told self.new.book)) jobs }
        ensures same { (self.new.shared ≡ self.old.shared) × (self.new.limit ≡ self.old.limit) }
        ensures clock { self.new.clock ≡ self.old.clock }
        ensures timed { self.new.timed ≡ self.old.timed }
        ensures stays { HaveGrown (view_of self.old.cached) (view_of self.new.cached)
            (view_of self.old.tallied) (view_of self.new.tallied)
            × LeavesPolls P.meaning self.old.poller self.new.poller }
        ensures called { HasCalled (Stop code) (view_of self.old.tallied) result (view_of self.new.tallied) }
    {
        // A law of the calls, for the proof: it does nothing when run.
        calls_of_runs::<Job<P, F>>();
        stop(rt, &self.shared.tally, &mut self.tallied, code)
    }
}
