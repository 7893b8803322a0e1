//! A sweep of the watches: connections on which nothing happened since the last one are ended.
ghost use Rattle.std.specs.Prelude.{◌≡◌, ℕ, [], map, Option};
ghost use Rattle.std.specs.Arc.{arc_value};
ghost use Rattle.stripe_table.specs.Calls.{shut_key};
ghost use Rattle.warp_jobs.specs.Tags.{tag_of};
ghost use Rattle.turn_cell.specs.Calls.{view_of};
ghost use Rattle.event_mgr.specs.Manager.{MgrView, IsOfMgr, mgr_view};
ghost use Rattle.timeout_mgr.specs.Calls.{view_of as seen_of};
ghost use Rattle.timeout_mgr.specs.Passes.{calls_of};
ghost use Rattle.dispatcher.specs.Firings.{Jobs};
ghost use Rattle.dispatcher.specs.Runs.{HasMadeCalls, LeavesPolls};
ghost use Rattle.warp_runner.specs.Acts.{Acts, AreOfCells, Did, HaveGrown, told_of};
ghost use Rattle.warp_runner.specs.Deeds.{InTurn, IsLetGo, IsTimingOut};
ghost use Rattle.warp_runner.specs.Journal.{JournalFits, FitsUntil};
ghost use Rattle.warp_runner.specs.Sweeps.{HasSweptOnce};

use crate::codes::SPENT;
use crate::runner::ServerRunner;
use dispatcher::calls_of_runs;
use event_mgr::{CloseOut, EventManager, MgrPass, calls_weigh};
use outside::{Clock, Files};
use poller::Poller;
use reg_keys::{Key, Opening};
use std::sync::Wait;
use stripe_table::ShutList;
use timeout_mgr::Expired;
use warp_books::{Book, Finish, Finished};
use warp_jobs::{Gate, Job};

impl<P: Poller, F: Files, C: Clock, B: Book<Finished<P::Link, F>>, G: Gate> ServerRunner<
    P,
    F,
    C,
    B,
    G,
> {
    /// Sweeps the watches, and ends each connection on which nothing happened since the last sweep. `expired`
    /// has room for the openings that the sweep gives, and is empty where none is left over. It answers the
    /// code with which the dispatcher stops, if it does.
    pub fn sweep<R: Wait>(
        &mut self,
        rt: &R,
        mgr: &EventManager<Job<P, F>>,
        pass: &mut MgrPass<Job<P, F>>,
        expired: &mut Expired,
    ) -> Option<u8>
        requires mgr { IsOfMgr mgr.now pass.old }
        requires own { AreOfCells (arc_value self.old.shared).times self.old.timed
            (arc_value self.old.shared).cache self.old.cached
            (arc_value self.old.shared).tally self.old.tallied }
        ensures mgr { IsOfMgr mgr.now pass.new }
        ensures own { AreOfCells (arc_value self.new.shared).times self.new.timed
            (arc_value self.new.shared).cache self.new.cached
            (arc_value self.new.shared).tally self.new.tallied }
        ensures fits { (stop : Option ℕ) (jobs : Jobs)
            → FitsUntil self.old.limit stop
            (told_of (mgr_view pass.old) (view_of self.old.tallied) (seen_of self.old.timed)
            (B.told self.old.book)) jobs → FitsUntil self.new.limit stop (told_of (mgr_view pass.new)
            (view_of self.new.tallied) (seen_of self.new.timed) (B.told self.new.book)) jobs }
        ensures stops { (jobs : Jobs)
            → JournalFits self.old.limit
            (told_of (mgr_view pass.old) (view_of self.old.tallied) (seen_of self.old.timed)
            (B.told self.old.book)) jobs → FitsUntil self.new.limit result (told_of (mgr_view pass.new)
            (view_of self.new.tallied) (seen_of self.new.timed) (B.told self.new.book)) jobs }
        ensures same { (self.new.shared ≡ self.old.shared) × (self.new.limit ≡ self.old.limit) }
        ensures clock { self.new.clock ≡ self.old.clock }
        ensures stays { HaveGrown (view_of self.old.cached) (view_of self.new.cached)
            (view_of self.old.tallied) (view_of self.new.tallied)
            × LeavesPolls P.meaning self.old.poller self.new.poller }
        ensures made { HasMadeCalls (mgr_view pass.old) [] (mgr_view pass.new) }
        ensures swept { HasSweptOnce (calls_of (seen_of self.old.timed)) (calls_of (seen_of self.new.timed)) }
    {
        // A law of the calls, for the proof: it does nothing when run.
        calls_of_runs::<Job<P, F>>();
        self.shared.times.sweep(&mut self.timed, expired);
        self.time_out_all(rt, mgr, pass, expired)
    }

    /// Times out each of these openings, until one stops the dispatcher.
    fn time_out_all<R: Wait>(
        &mut self,
        rt: &R,
        mgr: &EventManager<Job<P, F>>,
        pass: &mut MgrPass<Job<P, F>>,
        expired: &mut Expired,
    ) -> Option<u8>
        requires mgr { IsOfMgr mgr.now pass.old }
        requires own { AreOfCells (arc_value self.old.shared).times self.old.timed
            (arc_value self.old.shared).cache self.old.cached
            (arc_value self.old.shared).tally self.old.tallied }
        ensures mgr { IsOfMgr mgr.now pass.new }
        ensures own { AreOfCells (arc_value self.new.shared).times self.new.timed
            (arc_value self.new.shared).cache self.new.cached
            (arc_value self.new.shared).tally self.new.tallied }
        ensures did { (acts : Acts)
            × Did (told_of (mgr_view pass.old) (view_of self.old.tallied)
            (seen_of self.old.timed) (B.told self.old.book)) acts [] (told_of (mgr_view pass.new)
            (view_of self.new.tallied) (seen_of self.new.timed) (B.told self.new.book))
            × InTurn IsTimingOut expired.old acts result }
        ensures same { (self.new.shared ≡ self.old.shared) × (self.new.limit ≡ self.old.limit) }
        ensures clock { self.new.clock ≡ self.old.clock }
        ensures stays { HaveGrown (view_of self.old.cached) (view_of self.new.cached)
            (view_of self.old.tallied) (view_of self.new.tallied)
            × LeavesPolls P.meaning self.old.poller self.new.poller }
    {
        // Laws of the calls, for the proof: they do nothing when run.
        calls_of_runs::<Job<P, F>>();
        calls_weigh::<Job<P, F>>();
        while let Some(opening) = expired.pop_first() {
            if let Some(code) = self.time_out(rt, mgr, pass, opening) {
                return Some(code);
            }
        }
        None
    }

    /// A sweep gave this opening: closes it, and ends what waited there.
    fn time_out<R: Wait>(
        &mut self,
        rt: &R,
        mgr: &EventManager<Job<P, F>>,
        pass: &mut MgrPass<Job<P, F>>,
        opening: Opening,
    ) -> Option<u8>
        requires mgr { IsOfMgr mgr.now pass.old }
        requires own { AreOfCells (arc_value self.old.shared).times self.old.timed
            (arc_value self.old.shared).cache self.old.cached
            (arc_value self.old.shared).tally self.old.tallied }
        ensures mgr { IsOfMgr mgr.now pass.new }
        ensures own { AreOfCells (arc_value self.new.shared).times self.new.timed
            (arc_value self.new.shared).cache self.new.cached
            (arc_value self.new.shared).tally self.new.tallied }
        ensures did { (acts : Acts)
            × Did (told_of (mgr_view pass.old) (view_of self.old.tallied)
            (seen_of self.old.timed) (B.told self.old.book)) acts [] (told_of (mgr_view pass.new)
            (view_of self.new.tallied) (seen_of self.new.timed) (B.told self.new.book))
            × IsTimingOut opening acts result }
        ensures same { (self.new.shared ≡ self.old.shared) × (self.new.limit ≡ self.old.limit) }
        ensures clock { self.new.clock ≡ self.old.clock }
        ensures stays { HaveGrown (view_of self.old.cached) (view_of self.new.cached)
            (view_of self.old.tallied) (view_of self.new.tallied)
            × LeavesPolls P.meaning self.old.poller self.new.poller }
    {
        // Laws of the calls, for the proof: they do nothing when run.
        calls_of_runs::<Job<P, F>>();
        calls_weigh::<Job<P, F>>();
        match mgr.close_fd(rt, pass, opening) {
            CloseOut::Shut(list) => self.let_go_all(rt, list),
            CloseOut::NotOpen => None,
            CloseOut::Spent => Some(SPENT),
        }
    }

    /// Ends each connection of these that waited under an opening which a sweep gave.
    fn let_go_all<R: Wait>(&mut self, rt: &R, list: ShutList<Job<P, F>>) -> Option<u8>
        requires own { AreOfCells (arc_value self.old.shared).times self.old.timed
            (arc_value self.old.shared).cache self.old.cached
            (arc_value self.old.shared).tally self.old.tallied }
        ensures own { AreOfCells (arc_value self.new.shared).times self.new.timed
            (arc_value self.new.shared).cache self.new.cached
            (arc_value self.new.shared).tally self.new.tallied }
        ensures did { (acts : Acts)
            × ((v : MgrView)
            → Did (told_of v (view_of self.old.tallied) (seen_of self.old.timed) (B.told self.old.book)) acts
            [] (told_of v (view_of self.new.tallied) (seen_of self.new.timed) (B.told self.new.book)))
            × InTurn IsLetGo (map (shut_key (λ job. tag_of job)) list) acts result }
        ensures same { (self.new.shared ≡ self.old.shared) × (self.new.limit ≡ self.old.limit) }
        ensures clock { self.new.clock ≡ self.old.clock }
        ensures stays { HaveGrown (view_of self.old.cached) (view_of self.new.cached)
            (view_of self.old.tallied) (view_of self.new.tallied)
            × LeavesPolls P.meaning self.old.poller self.new.poller }
    {
        // A law of the calls, for the proof: it does nothing when run.
        calls_of_runs::<Job<P, F>>();
        let mut list = list;
        while let Some(waited) = list.pop_first() {
            if let Some(code) = self.let_go(rt, waited) {
                return Some(code);
            }
        }
        None
    }

    /// Ends a connection that waited under an opening which a sweep gave.
    fn let_go<R: Wait>(&mut self, rt: &R, waited: (Key, Option<Job<P, F>>)) -> Option<u8>
        requires own { AreOfCells (arc_value self.old.shared).times self.old.timed
            (arc_value self.old.shared).cache self.old.cached
            (arc_value self.old.shared).tally self.old.tallied }
        ensures own { AreOfCells (arc_value self.new.shared).times self.new.timed
            (arc_value self.new.shared).cache self.new.cached
            (arc_value self.new.shared).tally self.new.tallied }
        ensures did { (acts : Acts)
            × ((v : MgrView)
            → Did (told_of v (view_of self.old.tallied) (seen_of self.old.timed) (B.told self.old.book)) acts
            [] (told_of v (view_of self.new.tallied) (seen_of self.new.timed) (B.told self.new.book)))
            × IsLetGo (shut_key (λ job. tag_of job) waited) acts result }
        ensures same { (self.new.shared ≡ self.old.shared) × (self.new.limit ≡ self.old.limit) }
        ensures clock { self.new.clock ≡ self.old.clock }
        ensures stays { HaveGrown (view_of self.old.cached) (view_of self.new.cached)
            (view_of self.old.tallied) (view_of self.new.tallied)
            × LeavesPolls P.meaning self.old.poller self.new.poller }
    {
        // A law of the calls, for the proof: it does nothing when run.
        calls_of_runs::<Job<P, F>>();
        match waited.1 {
            Some(Job::Serve(session)) => {
                // The same of connections.
                session.keeps_its_counts();
                self.part(rt, Box::into_inner(session), Finish::TimedOut)
            }
            Some(Job::Listen(_listening)) => None,
            None => None,
        }
    }
}
