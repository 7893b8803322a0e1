//! The beginning: the listener gets an opening, is added to a poller, and is registered.
ghost use Rattle.std.specs.Prelude.{◌≡◌, ◌≤◌, None, Some, IfSome, IfErr};
ghost use Rattle.poller.specs.declared.poller.AddOut.TheVariants.{Failed};
ghost use Rattle.std.specs.Arc.{arc_value};
ghost use Rattle.turn_cell.specs.Calls.{view_of};
ghost use Rattle.event_mgr.specs.Manager.{MgrView, IsOfMgr, mgr_view};
ghost use Rattle.timeout_mgr.specs.Calls.{view_of as seen_of};
ghost use Rattle.poller.specs.Polls.{HasToken};
ghost use Rattle.dispatcher.specs.Firings.{Jobs};
ghost use Rattle.dispatcher.specs.Runs.{HasMadeCalls};
ghost use Rattle.warp_runner.specs.Acts.{Acts, AreOfCells, Did, HaveGrown, told_of};
ghost use Rattle.warp_runner.specs.Deeds.{IsStarting, IsStartingAt, IsStartFault};
ghost use Rattle.warp_runner.specs.Journal.{JournalFits, FitsUntil};
ghost use Rattle.warp_runner.specs.Runs.{HasFaulted, NamesOne, begun_by, code_of_start, named};

use crate::calls::open_until_given;
use crate::codes::{NO_MEMORY, POLL_FAULT, SPENT};
use crate::runner::ServerRunner;
use crate::serving::Ran;
use dispatcher::calls_of_runs;
use event_mgr::{EventManager, MgrPass};
use outside::{Clock, Files};
use poller::{AddOut, Poller};
use reg_keys::{Event, Opening};
use std::sync::Wait;
use warp_books::{Book, Finished};
use warp_jobs::{Gate, Job, Listening};

impl<P: Poller, F: Files, C: Clock, B: Book<Finished<P::Link, F>>, G: Gate> ServerRunner<
    P,
    F,
    C,
    B,
    G,
> {
    /// Gives the listener an opening, adds it to the poller, and registers it for reading with no mark, so
    /// that it runs at once. It answers the event that this named, or the code with which the dispatcher
    /// stops. Then the listener is kept where it was not registered.
    pub fn begin_listening<R: Wait>(
        &mut self,
        rt: &R,
        mgr: &EventManager<Job<P, F>>,
        pass: &mut MgrPass<Job<P, F>>,
        listener: P::Listener,
    ) -> Result<Option<Event>, u8>
        requires mgr { IsOfMgr mgr.now pass.old }
        requires own { AreOfCells (arc_value self.old.shared).times self.old.timed
            (arc_value self.old.shared).cache self.old.cached
            (arc_value self.old.shared).tally self.old.tallied }
        requires unfailed { (P.Listener.told listener).failed_row ≡ 0 }
        ensures mgr { IsOfMgr mgr.now pass.new }
        ensures own { AreOfCells (arc_value self.new.shared).times self.new.timed
            (arc_value self.new.shared).cache self.new.cached
            (arc_value self.new.shared).tally self.new.tallied }
        ensures fits { (jobs : Jobs)
            → JournalFits self.old.limit
            (told_of (mgr_view pass.old) (view_of self.old.tallied)
            (seen_of self.old.timed) (B.told self.old.book)) jobs
            → FitsUntil self.new.limit (code_of_start result)
            (told_of (mgr_view pass.new) (view_of self.new.tallied) (seen_of self.new.timed)
            (B.told self.new.book)) jobs }
        ensures same { (self.new.shared ≡ self.old.shared) × (self.new.limit ≡ self.old.limit) }
        ensures clock { self.new.clock ≡ self.old.clock }
        ensures timed { self.new.timed ≡ self.old.timed }
        ensures stays { HaveGrown (view_of self.old.cached) (view_of self.new.cached)
            (view_of self.old.tallied) (view_of self.new.tallied)
            × (P.meaning.polled self.new.poller ≡ P.meaning.polled self.old.poller) }
        ensures made { HasMadeCalls (mgr_view pass.old) (begun_by result) (mgr_view pass.new) }
        ensures faulted { IfErr result (λ code. code ≡ 8 → 1 ≤ (P.meaning.faults self.new.poller).polls) }
    {
        // A law of the calls, for the proof: it does nothing when run.
        calls_of_runs::<Job<P, F>>();
        let ran = self.start(rt, mgr, pass, listener);
        match ran.stopped {
            None => Ok(ran.first),
            Some(code) => Err(code),
        }
    }

    /// The same, as what a run comes to.
    fn start<R: Wait>(
        &mut self,
        rt: &R,
        mgr: &EventManager<Job<P, F>>,
        pass: &mut MgrPass<Job<P, F>>,
        listener: P::Listener,
    ) -> Ran
        requires mgr { IsOfMgr mgr.now pass.old }
        requires own { AreOfCells (arc_value self.old.shared).times self.old.timed
            (arc_value self.old.shared).cache self.old.cached
            (arc_value self.old.shared).tally self.old.tallied }
        requires unfailed { (P.Listener.told listener).failed_row ≡ 0 }
        ensures mgr { IsOfMgr mgr.now pass.new }
        ensures own { AreOfCells (arc_value self.new.shared).times self.new.timed
            (arc_value self.new.shared).cache self.new.cached
            (arc_value self.new.shared).tally self.new.tallied }
        ensures did { (acts : Acts)
            × Did (told_of (mgr_view pass.old) (view_of self.old.tallied) (seen_of self.old.timed)
            (B.told self.old.book)) acts (named result) (told_of (mgr_view pass.new)
            (view_of self.new.tallied) (seen_of self.new.timed) (B.told self.new.book))
            × IsStarting (P.Listener.told listener) acts result.stopped }
        ensures same { (self.new.shared ≡ self.old.shared) × (self.new.limit ≡ self.old.limit) }
        ensures clock { self.new.clock ≡ self.old.clock }
        ensures timed { self.new.timed ≡ self.old.timed }
        ensures stays { HaveGrown (view_of self.old.cached) (view_of self.new.cached)
            (view_of self.old.tallied) (view_of self.new.tallied)
            × (P.meaning.polled self.new.poller ≡ P.meaning.polled self.old.poller) }
        ensures one { NamesOne result }
        ensures faulted { HasFaulted result.stopped (P.meaning.faults self.new.poller).polls }
    {
        // A law of the calls, for the proof: it does nothing when run.
        calls_of_runs::<Job<P, F>>();
        match open_until_given(rt, mgr, pass) {
            Ok(opening) => self.start_at(rt, mgr, pass, opening, listener),
            Err(_) => Ran::after(Some(SPENT)),
        }
    }

    /// The same of a listener that has an opening.
    fn start_at<R: Wait>(
        &mut self,
        rt: &R,
        mgr: &EventManager<Job<P, F>>,
        pass: &mut MgrPass<Job<P, F>>,
        opening: Opening,
        listener: P::Listener,
    ) -> Ran
        requires mgr { IsOfMgr mgr.now pass.old }
        requires own { AreOfCells (arc_value self.old.shared).times self.old.timed
            (arc_value self.old.shared).cache self.old.cached
            (arc_value self.old.shared).tally self.old.tallied }
        requires unfailed { (P.Listener.told listener).failed_row ≡ 0 }
        requires token { HasToken opening }
        ensures mgr { IsOfMgr mgr.now pass.new }
        ensures own { AreOfCells (arc_value self.new.shared).times self.new.timed
            (arc_value self.new.shared).cache self.new.cached
            (arc_value self.new.shared).tally self.new.tallied }
        ensures did { (acts : Acts)
            × Did (told_of (mgr_view pass.old) (view_of self.old.tallied) (seen_of self.old.timed)
            (B.told self.old.book)) acts (named result) (told_of (mgr_view pass.new)
            (view_of self.new.tallied) (seen_of self.new.timed) (B.told self.new.book))
            × IsStartingAt opening (P.Listener.told listener) acts result.stopped }
        ensures same { (self.new.shared ≡ self.old.shared) × (self.new.limit ≡ self.old.limit) }
        ensures clock { self.new.clock ≡ self.old.clock }
        ensures timed { self.new.timed ≡ self.old.timed }
        ensures stays { HaveGrown (view_of self.old.cached) (view_of self.new.cached)
            (view_of self.old.tallied) (view_of self.new.tallied)
            × (P.meaning.polled self.new.poller ≡ P.meaning.polled self.old.poller) }
        ensures one { NamesOne result }
        ensures faulted { HasFaulted result.stopped (P.meaning.faults self.new.poller).polls }
    {
        // A law of the calls, for the proof: it does nothing when run.
        calls_of_runs::<Job<P, F>>();
        let mut listener = listener;
        if let Some(code) = not_listened(self.poller.add_listener(opening, &mut listener)) {
            self.back = Some(listener);
            return Ran::after(Some(code));
        }
        match Box::new(self.alloc, Listening::new(opening, listener)) {
            Ok(listening) => self.listen_again(rt, mgr, pass, listening, None),
            Err(failed) => {
                self.back = Some(failed.value.into_listener());
                Ran::after(Some(NO_MEMORY))
            }
        }
    }
}

/// The code with which a dispatcher stops whose poller didn't take the listener.
fn not_listened(out: AddOut) -> Option<u8>
    ensures code { IfSome result (λ code. IsStartFault code) }
    ensures cause { result ≡ Some 8 → out ≡ Failed }
{
    match out {
        AddOut::Added => None,
        AddOut::Failed => Some(POLL_FAULT),
        AddOut::NoMemory => Some(NO_MEMORY),
    }
}
