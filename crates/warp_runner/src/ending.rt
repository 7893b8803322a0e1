//! The end of a connection: it is closed, its watch cancelled, and it is handed to the book.

ghost use Rattle.std.specs.Prelude.{◌≡◌, ◌++◌, [], List};
ghost use Rattle.std.specs.Arc.{arc_value};
ghost use Rattle.outside.specs.ListenCauses.{IsUntouched};
ghost use Rattle.turn_cell.specs.Calls.{view_of};
ghost use Rattle.event_mgr.specs.Manager.{MgrView, IsOfMgr, mgr_view};
ghost use Rattle.timeout_mgr.specs.declared.view.TimeCall.{TimeCall};
ghost use Rattle.timeout_mgr.specs.Calls.{IsOf, name_of_watch, view_of as seen_of};
ghost use Rattle.timeout_mgr.specs.Passes.{calls_of};
ghost use Rattle.dispatcher.specs.Runs.{LeavesPolls};
ghost use Rattle.warp_books.specs.Truth.{IsGivenUp};
ghost use Rattle.warp_jobs.specs.Sessions.{MayFinish, finished_as};
ghost use Rattle.warp_runner.specs.Acts.{Acts, AreOfCells, Did, HaveGrown, told_of};
ghost use Rattle.warp_runner.specs.Deeds.{AreCancels, IsEnding, IsEndingBare, IsHanding, IsParting, finished_held, unserved};
ghost use Rattle.warp_runner.specs.Leases.{GaveBackWhatItHeld};

use crate::calls::close;
use crate::codes::SPENT;
use crate::runner::ServerRunner;
use dispatcher::calls_of_runs;
use event_mgr::{EventManager, MgrPass};
use outside::{Clock, Files};
use poller::Poller;
use reg_keys::Opening;
use std::sync::Wait;
use timeout_mgr::{CancelOut, TimePass, Timeouts, Watch};
use warp_books::{Book, Finish, Finished, books_add_up, unserved_connections_are_true};
use warp_jobs::{Gate, Job, Parts, Session};
use warp_passes::{TallyOut, finish};
use warp_tally::Counted;

impl<P: Poller, F: Files, C: Clock, B: Book<Finished<P::Link, F>>, G: Gate> ServerRunner<
    P,
    F,
    C,
    B,
    G,
> {
    /// Ends a connection so: closes its opening, cancels its watch, counts it as finished and hands it to the
    /// book. It answers the code with which the dispatcher stops, if it does.
    pub(crate) fn end<R: Wait>(
        &mut self,
        rt: &R,
        mgr: &EventManager<Job<P, F>>,
        pass: &mut MgrPass<Job<P, F>>,
        session: Session<P::Link, F>,
        end: Finish,
    ) -> Option<u8>
        requires mgr { IsOfMgr mgr.now pass.old }
        requires own { AreOfCells (arc_value self.old.shared).times self.old.timed
            (arc_value self.old.shared).cache self.old.cached
            (arc_value self.old.shared).tally self.old.tallied }
        requires may { MayFinish end session.conn }
        ensures mgr { IsOfMgr mgr.now pass.new }
        ensures own { AreOfCells (arc_value self.new.shared).times self.new.timed
            (arc_value self.new.shared).cache self.new.cached
            (arc_value self.new.shared).tally self.new.tallied }
        ensures did { (acts : Acts)
            × Did (told_of (mgr_view pass.old) (view_of self.old.tallied)
            (seen_of self.old.timed) (B.told self.old.book)) acts [] (told_of (mgr_view pass.new)
            (view_of self.new.tallied) (seen_of self.new.timed) (B.told self.new.book))
            × IsEnding session.watch (finished_held session end) acts result }
        ensures same { (self.new.shared ≡ self.old.shared) × (self.new.limit ≡ self.old.limit) }
        ensures clock { self.new.clock ≡ self.old.clock }
        ensures stays { HaveGrown (view_of self.old.cached) (view_of self.new.cached)
            (view_of self.old.tallied) (view_of self.new.tallied)
            × LeavesPolls P.meaning self.old.poller self.new.poller }
    {
        let opening = session.opening();
        // A law of the calls, for the proof: it does nothing when run.
        calls_of_runs::<Job<P, F>>();
        match close(rt, mgr, pass, opening) {
            Ok(()) => self.part(rt, session, end),
            Err(_) => Some(SPENT),
        }
    }

    /// Ends a connection whose opening is closed.
    pub(crate) fn part<R: Wait>(
        &mut self,
        rt: &R,
        session: Session<P::Link, F>,
        end: Finish,
    ) -> Option<u8>
        requires own { AreOfCells (arc_value self.old.shared).times self.old.timed
            (arc_value self.old.shared).cache self.old.cached
            (arc_value self.old.shared).tally self.old.tallied }
        requires may { MayFinish end session.conn }
        ensures own { AreOfCells (arc_value self.new.shared).times self.new.timed
            (arc_value self.new.shared).cache self.new.cached
            (arc_value self.new.shared).tally self.new.tallied }
        ensures did { (acts : Acts)
            × ((v : MgrView)
            → Did (told_of v (view_of self.old.tallied) (seen_of self.old.timed) (B.told self.old.book)) acts
            [] (told_of v (view_of self.new.tallied) (seen_of self.new.timed) (B.told self.new.book)))
            × IsParting session.watch (finished_held session end) acts result }
        ensures gave { GaveBackWhatItHeld session.conn result (view_of self.old.cached)
            (view_of self.new.cached) }
        ensures same { (self.new.shared ≡ self.old.shared) × (self.new.limit ≡ self.old.limit) }
        ensures clock { self.new.clock ≡ self.old.clock }
        ensures stays { HaveGrown (view_of self.old.cached) (view_of self.new.cached)
            (view_of self.old.tallied) (view_of self.new.tallied)
            × LeavesPolls P.meaning self.old.poller self.new.poller }
    {
        // A law of the calls, for the proof: it does nothing when run.
        calls_of_runs::<Job<P, F>>();
        let Parts { done, watch, lease } = session.finish(end);
        cancel(rt, &self.shared.times, &mut self.timed, watch);
        let stopped = self.hand(rt, done);
        match self.give_back(rt, lease) {
            Ok(()) => stopped,
            Err(_) => Some(SPENT),
        }
    }

    /// Ends a connection of which nothing was read or written, and which has no watch.
    pub(crate) fn refuse<R: Wait>(
        &mut self,
        rt: &R,
        mgr: &EventManager<Job<P, F>>,
        pass: &mut MgrPass<Job<P, F>>,
        opening: Opening,
        link: P::Link,
        end: Finish,
    ) -> Option<u8>
        requires mgr { IsOfMgr mgr.now pass.old }
        requires own { AreOfCells (arc_value self.old.shared).times self.old.timed
            (arc_value self.old.shared).cache self.old.cached
            (arc_value self.old.shared).tally self.old.tallied }
        requires untouched { IsUntouched (P.Link.told link) }
        requires given_up { IsGivenUp end }
        ensures mgr { IsOfMgr mgr.now pass.new }
        ensures own { AreOfCells (arc_value self.new.shared).times self.new.timed
            (arc_value self.new.shared).cache self.new.cached
            (arc_value self.new.shared).tally self.new.tallied }
        ensures did { (acts : Acts)
            × Did (told_of (mgr_view pass.old) (view_of self.old.tallied)
            (seen_of self.old.timed) (B.told self.old.book)) acts [] (told_of (mgr_view pass.new)
            (view_of self.new.tallied) (seen_of self.new.timed) (B.told self.new.book))
            × IsEndingBare (unserved opening (P.Link.told link) end) acts result }
        ensures same { (self.new.shared ≡ self.old.shared) × (self.new.limit ≡ self.old.limit) }
        ensures clock { self.new.clock ≡ self.old.clock }
        ensures stays { HaveGrown (view_of self.old.cached) (view_of self.new.cached)
            (view_of self.old.tallied) (view_of self.new.tallied)
            × LeavesPolls P.meaning self.old.poller self.new.poller }
    {
        // A law of the calls, for the proof: it does nothing when run.
        calls_of_runs::<Job<P, F>>();
        unserved_connections_are_true();
        match close(rt, mgr, pass, opening) {
            Ok(()) => {
                let moments = Vec::new(self.alloc);
                self.hand(rt, Finished::new(opening, link, moments, 0, 0, end))
            }
            Err(_) => Some(SPENT),
        }
    }

    /// Counts a connection as finished, and hands it to the book where it counted.
    pub(crate) fn hand<R: Wait>(&mut self, rt: &R, done: Finished<P::Link, F>) -> Option<u8>
        requires own { AreOfCells (arc_value self.old.shared).times self.old.timed
            (arc_value self.old.shared).cache self.old.cached
            (arc_value self.old.shared).tally self.old.tallied }
        ensures own { AreOfCells (arc_value self.new.shared).times self.new.timed
            (arc_value self.new.shared).cache self.new.cached
            (arc_value self.new.shared).tally self.new.tallied }
        ensures did { (acts : Acts)
            × ((v : MgrView)
            → Did (told_of v (view_of self.old.tallied) (seen_of self.old.timed) (B.told self.old.book)) acts
            [] (told_of v (view_of self.new.tallied) (seen_of self.new.timed) (B.told self.new.book)))
            × IsHanding (finished_as done.opening
            (P.Link.told done.link) done.moments.items done.bytes done.waits done.end) acts result }
        ensures cached { self.new.cached ≡ self.old.cached }
        ensures same { (self.new.shared ≡ self.old.shared) × (self.new.limit ≡ self.old.limit) }
        ensures clock { self.new.clock ≡ self.old.clock }
        ensures stays { HaveGrown (view_of self.old.cached) (view_of self.new.cached)
            (view_of self.old.tallied) (view_of self.new.tallied)
            × LeavesPolls P.meaning self.old.poller self.new.poller }
    {
        // Laws, for the proof: they do nothing when run.
        calls_of_runs::<Job<P, F>>();
        books_add_up();
        match finish(rt, &self.shared.tally, &mut self.tallied, done.opening) {
            TallyOut::Done(reply) => match reply.counted {
                Counted::Yes => {
                    self.book.finished(done);
                    None
                }
                Counted::No => None,
                Counted::NoMemory => None,
            },
            TallyOut::Spent => Some(SPENT),
        }
    }
}

/// Cancels a watch, again and again while others are in the way.
pub(crate) fn cancel<R: Wait>(rt: &R, times: &Timeouts, pass: &mut TimePass, watch: Watch)
    requires { IsOf times.now pass.old }
    ensures own { IsOf times.now pass.new }
    ensures cancels { (cancels : List TimeCall) × AreCancels (name_of_watch watch) cancels
        × (calls_of (seen_of pass.new) ≡ calls_of (seen_of pass.old) ++ cancels) }
{
    let mut left = watch;
    for _ in rt.forever() {
        match times.cancel(pass, left) {
            CancelOut::Cancelled | CancelOut::Gone => return,
            CancelOut::Again(back) => left = back,
        }
    }
}
