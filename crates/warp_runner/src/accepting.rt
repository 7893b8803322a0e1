//! A run of the listener: one link is accepted, and begins to be served.
ghost use Rattle.std.specs.Prelude.{◌≡◌, ◌∷◌, ◌<◌, [], None, Some, IfSome};
ghost use Rattle.std.specs.Arc.{arc_value};
ghost use Rattle.outside.specs.ListenCauses.{IsUntouched};
ghost use Rattle.turn_cell.specs.Calls.{view_of};
ghost use Rattle.event_mgr.specs.Manager.{MgrView, IsOfMgr, mgr_view};
ghost use Rattle.timeout_mgr.specs.Calls.{view_of as seen_of};
ghost use Rattle.poller.specs.Polls.{HasToken};
ghost use Rattle.dispatcher.specs.Runs.{LeavesPolls};
ghost use Rattle.warp_runner.specs.Acts.{Acts, AreOfCells, Did, HaveGrown, told_of};
ghost use Rattle.warp_runner.specs.Deeds.{IsAdmitting, IsBeginning, IsEntering, IsFailing, IsGoingOn, IsLeaving, IsListenerRun, IsListening, IsTakingLink, IsTurningAway, IsUnmade};
ghost use Rattle.warp_runner.specs.Runs.{NamesOne, named};

use crate::calls::{close, open, register_until_taken};
use crate::codes::{ACCEPT_FAULT, NO_MEMORY, SPENT};
use crate::runner::ServerRunner;
use crate::serving::Ran;
use conn_loop::{Conn, End};
use dispatcher::calls_of_runs;
use event_mgr::{EventManager, MgrPass, OpenOut};
use outside::{AcceptOut, Clock, Files};
use poller::{AddOut, Poller};
use reg_keys::{Dir, Marks, Opening};
use std::sync::Wait;
use timeout_mgr::AddWatch;
use warp_books::{Book, Finish, Finished, Turned};
use warp_jobs::{Gate, Job, Listening, Session};
use warp_passes::{TallyOut, accept, turn_away};
use warp_tally::Counted;

impl<P: Poller, F: Files, C: Clock, B: Book<Finished<P::Link, F>>, G: Gate> ServerRunner<
    P,
    F,
    C,
    B,
    G,
> {
    /// Runs the listener: accepts one link, and registers the listener again. After a link it names no mark,
    /// so that it runs again at once; where no link was there it names the mark that this run was given.
    pub(crate) fn listen<R: Wait>(
        &mut self,
        rt: &R,
        mgr: &EventManager<Job<P, F>>,
        pass: &mut MgrPass<Job<P, F>>,
        listening: Box<Listening<P::Listener>>,
        marks: Marks,
    ) -> Ran
        requires mgr { IsOfMgr mgr.now pass.old }
        requires own { AreOfCells (arc_value self.old.shared).times self.old.timed
            (arc_value self.old.shared).cache self.old.cached
            (arc_value self.old.shared).tally self.old.tallied }
        ensures mgr { IsOfMgr mgr.now pass.new }
        ensures own { AreOfCells (arc_value self.new.shared).times self.new.timed
            (arc_value self.new.shared).cache self.new.cached
            (arc_value self.new.shared).tally self.new.tallied }
        ensures did { (acts : Acts)
            × Did (told_of (mgr_view pass.old) (view_of self.old.tallied) (seen_of self.old.timed)
            (B.told self.old.book)) acts (named result) (told_of (mgr_view pass.new)
            (view_of self.new.tallied) (seen_of self.new.timed) (B.told self.new.book))
            × IsListenerRun self.old.limit listening.value marks acts result.stopped }
        ensures same { (self.new.shared ≡ self.old.shared) × (self.new.limit ≡ self.old.limit) }
        ensures clock { self.new.clock ≡ self.old.clock }
        ensures stays { HaveGrown (view_of self.old.cached) (view_of self.new.cached)
            (view_of self.old.tallied) (view_of self.new.tallied)
            × LeavesPolls P.meaning self.old.poller self.new.poller }
    {
        // A law of the calls, for the proof: it does nothing when run.
        calls_of_runs::<Job<P, F>>();
        let mut listening = listening;
        match listening.accept() {
            AcceptOut::Accepted(link) => self.take_link(rt, mgr, pass, listening, link),
            AcceptOut::NotYet => self.listen_again(rt, mgr, pass, listening, Some(marks.read)),
            AcceptOut::NoMemory => self.listen_again(rt, mgr, pass, listening, None),
            AcceptOut::Failed => self.go_on_failed(rt, mgr, pass, listening),
        }
    }

    /// Begins to serve a link that the listener gave, and goes on with the listener.
    fn take_link<R: Wait>(
        &mut self,
        rt: &R,
        mgr: &EventManager<Job<P, F>>,
        pass: &mut MgrPass<Job<P, F>>,
        listening: Box<Listening<P::Listener>>,
        link: P::Link,
    ) -> Ran
        requires mgr { IsOfMgr mgr.now pass.old }
        requires own { AreOfCells (arc_value self.old.shared).times self.old.timed
            (arc_value self.old.shared).cache self.old.cached
            (arc_value self.old.shared).tally self.old.tallied }
        requires untouched { IsUntouched (P.Link.told link) }
        ensures mgr { IsOfMgr mgr.now pass.new }
        ensures own { AreOfCells (arc_value self.new.shared).times self.new.timed
            (arc_value self.new.shared).cache self.new.cached
            (arc_value self.new.shared).tally self.new.tallied }
        ensures did { (acts : Acts)
            × Did (told_of (mgr_view pass.old) (view_of self.old.tallied) (seen_of self.old.timed)
            (B.told self.old.book)) acts (named result) (told_of (mgr_view pass.new)
            (view_of self.new.tallied) (seen_of self.new.timed) (B.told self.new.book))
            × IsTakingLink self.old.limit listening.value acts result.stopped }
        ensures same { (self.new.shared ≡ self.old.shared) × (self.new.limit ≡ self.old.limit) }
        ensures clock { self.new.clock ≡ self.old.clock }
        ensures stays { HaveGrown (view_of self.old.cached) (view_of self.new.cached)
            (view_of self.old.tallied) (view_of self.new.tallied)
            × LeavesPolls P.meaning self.old.poller self.new.poller }
    {
        // A law of the calls, for the proof: it does nothing when run.
        calls_of_runs::<Job<P, F>>();
        let begun = self.begin(rt, mgr, pass, link);
        match begun.stopped {
            Some(_) => begun,
            None => {
                let gone_on = self.go_on(rt, mgr, pass, listening);
                Ran {
                    first: begun.first,
                    second: gone_on.first,
                    stopped: gone_on.stopped,
                }
            }
        }
    }

    /// Registers the listener again, or closes it where it has given as many links as it was to.
    fn go_on<R: Wait>(
        &mut self,
        rt: &R,
        mgr: &EventManager<Job<P, F>>,
        pass: &mut MgrPass<Job<P, F>>,
        listening: Box<Listening<P::Listener>>,
    ) -> Ran
        requires mgr { IsOfMgr mgr.now pass.old }
        requires own { AreOfCells (arc_value self.old.shared).times self.old.timed
            (arc_value self.old.shared).cache self.old.cached
            (arc_value self.old.shared).tally self.old.tallied }
        ensures mgr { IsOfMgr mgr.now pass.new }
        ensures own { AreOfCells (arc_value self.new.shared).times self.new.timed
            (arc_value self.new.shared).cache self.new.cached
            (arc_value self.new.shared).tally self.new.tallied }
        ensures did { (acts : Acts)
            × Did (told_of (mgr_view pass.old) (view_of self.old.tallied) (seen_of self.old.timed)
            (B.told self.old.book)) acts (named result) (told_of (mgr_view pass.new)
            (view_of self.new.tallied) (seen_of self.new.timed) (B.told self.new.book))
            × IsGoingOn self.old.limit listening.value acts result.stopped }
        ensures same { (self.new.shared ≡ self.old.shared) × (self.new.limit ≡ self.old.limit) }
        ensures clock { self.new.clock ≡ self.old.clock }
        ensures stays { HaveGrown (view_of self.old.cached) (view_of self.new.cached)
            (view_of self.old.tallied) (view_of self.new.tallied)
            × LeavesPolls P.meaning self.old.poller self.new.poller }
        ensures one { NamesOne result }
    {
        // A law of the calls, for the proof: it does nothing when run.
        calls_of_runs::<Job<P, F>>();
        if listening.accepted() >= self.limit {
            self.leave(rt, mgr, pass, listening)
        } else {
            self.listen_again(rt, mgr, pass, listening, None)
        }
    }

    /// Registers the listener again after an accept that failed, or stops where 1,000 in a row did.
    fn go_on_failed<R: Wait>(
        &mut self,
        rt: &R,
        mgr: &EventManager<Job<P, F>>,
        pass: &mut MgrPass<Job<P, F>>,
        listening: Box<Listening<P::Listener>>,
    ) -> Ran
        requires mgr { IsOfMgr mgr.now pass.old }
        requires own { AreOfCells (arc_value self.old.shared).times self.old.timed
            (arc_value self.old.shared).cache self.old.cached
            (arc_value self.old.shared).tally self.old.tallied }
        ensures mgr { IsOfMgr mgr.now pass.new }
        ensures own { AreOfCells (arc_value self.new.shared).times self.new.timed
            (arc_value self.new.shared).cache self.new.cached
            (arc_value self.new.shared).tally self.new.tallied }
        ensures did { (acts : Acts)
            × Did (told_of (mgr_view pass.old) (view_of self.old.tallied) (seen_of self.old.timed)
            (B.told self.old.book)) acts (named result) (told_of (mgr_view pass.new)
            (view_of self.new.tallied) (seen_of self.new.timed) (B.told self.new.book))
            × IsFailing listening.value acts result.stopped }
        ensures same { (self.new.shared ≡ self.old.shared) × (self.new.limit ≡ self.old.limit) }
        ensures clock { self.new.clock ≡ self.old.clock }
        ensures stays { HaveGrown (view_of self.old.cached) (view_of self.new.cached)
            (view_of self.old.tallied) (view_of self.new.tallied)
            × LeavesPolls P.meaning self.old.poller self.new.poller }
        ensures one { NamesOne result }
    {
        // A law of the calls, for the proof: it does nothing when run.
        calls_of_runs::<Job<P, F>>();
        if listening.is_broken() {
            self.back = Some(Box::into_inner(listening).into_listener());
            Ran::after(Some(ACCEPT_FAULT))
        } else {
            self.listen_again(rt, mgr, pass, listening, None)
        }
    }

    /// The limit is reached: the listener is closed and kept.
    fn leave<R: Wait>(
        &mut self,
        rt: &R,
        mgr: &EventManager<Job<P, F>>,
        pass: &mut MgrPass<Job<P, F>>,
        listening: Box<Listening<P::Listener>>,
    ) -> Ran
        requires mgr { IsOfMgr mgr.now pass.old }
        requires own { AreOfCells (arc_value self.old.shared).times self.old.timed
            (arc_value self.old.shared).cache self.old.cached
            (arc_value self.old.shared).tally self.old.tallied }
        ensures mgr { IsOfMgr mgr.now pass.new }
        ensures own { AreOfCells (arc_value self.new.shared).times self.new.timed
            (arc_value self.new.shared).cache self.new.cached
            (arc_value self.new.shared).tally self.new.tallied }
        ensures did { (acts : Acts)
            × Did (told_of (mgr_view pass.old) (view_of self.old.tallied) (seen_of self.old.timed)
            (B.told self.old.book)) acts (named result) (told_of (mgr_view pass.new)
            (view_of self.new.tallied) (seen_of self.new.timed) (B.told self.new.book))
            × IsLeaving listening.value acts result.stopped }
        ensures same { (self.new.shared ≡ self.old.shared) × (self.new.limit ≡ self.old.limit) }
        ensures clock { self.new.clock ≡ self.old.clock }
        ensures stays { HaveGrown (view_of self.old.cached) (view_of self.new.cached)
            (view_of self.old.tallied) (view_of self.new.tallied)
            × LeavesPolls P.meaning self.old.poller self.new.poller }
        ensures one { NamesOne result }
    {
        // A law of the calls, for the proof: it does nothing when run.
        calls_of_runs::<Job<P, F>>();
        let closed = close(rt, mgr, pass, listening.opening());
        self.back = Some(Box::into_inner(listening).into_listener());
        match closed {
            Ok(()) => Ran::named(None),
            Err(_) => Ran::after(Some(SPENT)),
        }
    }

    /// Registers the listener for reading, with this mark or with none.
    pub(crate) fn listen_again<R: Wait>(
        &mut self,
        rt: &R,
        mgr: &EventManager<Job<P, F>>,
        pass: &mut MgrPass<Job<P, F>>,
        listening: Box<Listening<P::Listener>>,
        mark: Option<u64>,
    ) -> Ran
        requires mgr { IsOfMgr mgr.now pass.old }
        requires own { AreOfCells (arc_value self.old.shared).times self.old.timed
            (arc_value self.old.shared).cache self.old.cached
            (arc_value self.old.shared).tally self.old.tallied }
        ensures mgr { IsOfMgr mgr.now pass.new }
        ensures own { AreOfCells (arc_value self.new.shared).times self.new.timed
            (arc_value self.new.shared).cache self.new.cached
            (arc_value self.new.shared).tally self.new.tallied }
        ensures did { (acts : Acts)
            × Did (told_of (mgr_view pass.old) (view_of self.old.tallied) (seen_of self.old.timed)
            (B.told self.old.book)) acts (named result) (told_of (mgr_view pass.new)
            (view_of self.new.tallied) (seen_of self.new.timed) (B.told self.new.book))
            × IsListening listening.value mark acts result.stopped }
        ensures same { (self.new.shared ≡ self.old.shared) × (self.new.limit ≡ self.old.limit) }
        ensures clock { self.new.clock ≡ self.old.clock }
        ensures timed { self.new.timed ≡ self.old.timed }
        ensures stays { HaveGrown (view_of self.old.cached) (view_of self.new.cached)
            (view_of self.old.tallied) (view_of self.new.tallied)
            × LeavesPolls P.meaning self.old.poller self.new.poller }
        ensures one { NamesOne result }
    {
        // A law of the calls, for the proof: it does nothing when run.
        calls_of_runs::<Job<P, F>>();
        let opening = listening.opening();
        let job = Job::Listen(listening);
        match register_until_taken(rt, mgr, pass, opening, Dir::Read, mark, job) {
            Ok(event) => Ran::named(event),
            Err(_) => Ran::after(Some(SPENT)),
        }
    }

    /// Begins to serve a link: gives it an opening, counts it, and lets it in. Where no opening
    /// is to be had it is turned away.
    fn begin<R: Wait>(
        &mut self,
        rt: &R,
        mgr: &EventManager<Job<P, F>>,
        pass: &mut MgrPass<Job<P, F>>,
        link: P::Link,
    ) -> Ran
        requires mgr { IsOfMgr mgr.now pass.old }
        requires own { AreOfCells (arc_value self.old.shared).times self.old.timed
            (arc_value self.old.shared).cache self.old.cached
            (arc_value self.old.shared).tally self.old.tallied }
        requires untouched { IsUntouched (P.Link.told link) }
        ensures mgr { IsOfMgr mgr.now pass.new }
        ensures own { AreOfCells (arc_value self.new.shared).times self.new.timed
            (arc_value self.new.shared).cache self.new.cached
            (arc_value self.new.shared).tally self.new.tallied }
        ensures did { (acts : Acts)
            × Did (told_of (mgr_view pass.old) (view_of self.old.tallied) (seen_of self.old.timed)
            (B.told self.old.book)) acts (named result) (told_of (mgr_view pass.new)
            (view_of self.new.tallied) (seen_of self.new.timed) (B.told self.new.book))
            × IsBeginning acts result.stopped }
        ensures same { (self.new.shared ≡ self.old.shared) × (self.new.limit ≡ self.old.limit) }
        ensures clock { self.new.clock ≡ self.old.clock }
        ensures stays { HaveGrown (view_of self.old.cached) (view_of self.new.cached)
            (view_of self.old.tallied) (view_of self.new.tallied)
            × LeavesPolls P.meaning self.old.poller self.new.poller }
        ensures one { NamesOne result }
    {
        // A law of the calls, for the proof: it does nothing when run.
        calls_of_runs::<Job<P, F>>();
        match open(rt, mgr, pass) {
            OpenOut::Opened(opening) => self.admit(rt, mgr, pass, opening, link),
            OpenOut::Full => self.turn_link_away(rt),
            OpenOut::Taken(_) => self.turn_link_away(rt),
            OpenOut::Spent => Ran::after(Some(SPENT)),
        }
    }

    /// Counts a link that is turned away.
    fn turn_link_away<R: Wait>(&mut self, rt: &R) -> Ran
        requires own { AreOfCells (arc_value self.old.shared).times self.old.timed
            (arc_value self.old.shared).cache self.old.cached
            (arc_value self.old.shared).tally self.old.tallied }
        ensures own { AreOfCells (arc_value self.new.shared).times self.new.timed
            (arc_value self.new.shared).cache self.new.cached
            (arc_value self.new.shared).tally self.new.tallied }
        ensures did { (acts : Acts)
            × ((v : MgrView)
            → Did (told_of v (view_of self.old.tallied) (seen_of self.old.timed) (B.told self.old.book)) acts
            [] (told_of v (view_of self.new.tallied) (seen_of self.new.timed) (B.told self.new.book)))
            × IsTurningAway acts result.stopped }
        ensures same { (self.new.shared ≡ self.old.shared) × (self.new.limit ≡ self.old.limit) }
        ensures clock { self.new.clock ≡ self.old.clock }
        ensures stays { HaveGrown (view_of self.old.cached) (view_of self.new.cached)
            (view_of self.old.tallied) (view_of self.new.tallied)
            × LeavesPolls P.meaning self.old.poller self.new.poller }
        ensures none { named result ≡ [] }
        ensures one { NamesOne result }
    {
        // A law of the calls, for the proof: it does nothing when run.
        calls_of_runs::<Job<P, F>>();
        match turn_away(rt, &self.shared.tally, &mut self.tallied) {
            TallyOut::Done(_) => Ran::named(None),
            TallyOut::Spent => Ran::after(Some(SPENT)),
        }
    }

    /// Counts a link that has an opening, and lets it in.
    fn admit<R: Wait>(
        &mut self,
        rt: &R,
        mgr: &EventManager<Job<P, F>>,
        pass: &mut MgrPass<Job<P, F>>,
        opening: Opening,
        link: P::Link,
    ) -> Ran
        requires mgr { IsOfMgr mgr.now pass.old }
        requires own { AreOfCells (arc_value self.old.shared).times self.old.timed
            (arc_value self.old.shared).cache self.old.cached
            (arc_value self.old.shared).tally self.old.tallied }
        requires untouched { IsUntouched (P.Link.told link) }
        requires token { HasToken opening }
        ensures mgr { IsOfMgr mgr.now pass.new }
        ensures own { AreOfCells (arc_value self.new.shared).times self.new.timed
            (arc_value self.new.shared).cache self.new.cached
            (arc_value self.new.shared).tally self.new.tallied }
        ensures did { (acts : Acts)
            × Did (told_of (mgr_view pass.old) (view_of self.old.tallied) (seen_of self.old.timed)
            (B.told self.old.book)) acts (named result) (told_of (mgr_view pass.new)
            (view_of self.new.tallied) (seen_of self.new.timed) (B.told self.new.book))
            × IsAdmitting opening acts result.stopped }
        ensures same { (self.new.shared ≡ self.old.shared) × (self.new.limit ≡ self.old.limit) }
        ensures clock { self.new.clock ≡ self.old.clock }
        ensures stays { HaveGrown (view_of self.old.cached) (view_of self.new.cached)
            (view_of self.old.tallied) (view_of self.new.tallied)
            × LeavesPolls P.meaning self.old.poller self.new.poller }
        ensures one { NamesOne result }
    {
        // A law of the calls, for the proof: it does nothing when run.
        calls_of_runs::<Job<P, F>>();
        match accept(rt, &self.shared.tally, &mut self.tallied, opening) {
            TallyOut::Done(reply) => match reply.counted {
                Counted::Yes => self.enter(rt, mgr, pass, opening, link),
                Counted::NoMemory => Ran::after(Some(NO_MEMORY)),
                Counted::No => unreachable!(),
            },
            TallyOut::Spent => Ran::after(Some(SPENT)),
        }
    }

    /// Lets a link in that has an opening and was counted: it is added to the poller, gets a watch, and is
    /// registered for reading, with no mark, so that it runs at once.
    fn enter<R: Wait>(
        &mut self,
        rt: &R,
        mgr: &EventManager<Job<P, F>>,
        pass: &mut MgrPass<Job<P, F>>,
        opening: Opening,
        link: P::Link,
    ) -> Ran
        requires mgr { IsOfMgr mgr.now pass.old }
        requires own { AreOfCells (arc_value self.old.shared).times self.old.timed
            (arc_value self.old.shared).cache self.old.cached
            (arc_value self.old.shared).tally self.old.tallied }
        requires untouched { IsUntouched (P.Link.told link) }
        requires token { HasToken opening }
        ensures mgr { IsOfMgr mgr.now pass.new }
        ensures own { AreOfCells (arc_value self.new.shared).times self.new.timed
            (arc_value self.new.shared).cache self.new.cached
            (arc_value self.new.shared).tally self.new.tallied }
        ensures did { (acts : Acts)
            × Did (told_of (mgr_view pass.old) (view_of self.old.tallied) (seen_of self.old.timed)
            (B.told self.old.book)) acts (named result) (told_of (mgr_view pass.new)
            (view_of self.new.tallied) (seen_of self.new.timed) (B.told self.new.book))
            × IsEntering opening acts result.stopped }
        ensures same { (self.new.shared ≡ self.old.shared) × (self.new.limit ≡ self.old.limit) }
        ensures clock { self.new.clock ≡ self.old.clock }
        ensures stays { HaveGrown (view_of self.old.cached) (view_of self.new.cached)
            (view_of self.old.tallied) (view_of self.new.tallied)
            × LeavesPolls P.meaning self.old.poller self.new.poller }
        ensures one { NamesOne result }
    {
        // A law of the calls, for the proof: it does nothing when run.
        calls_of_runs::<Job<P, F>>();
        let mut link = link;
        if let Some(end) = not_added(self.poller.add(opening, &mut link)) {
            return Ran::after(self.refuse(rt, mgr, pass, opening, link, end));
        }
        let Ok(conn) = Conn::<F>::new(self.alloc) else {
            let end = Finish::Ended(End::NoMemory);
            return Ran::after(self.refuse(rt, mgr, pass, opening, link, end));
        };
        let AddWatch::Added(watch) = self.shared.times.add(&mut self.timed, opening) else {
            let end = Finish::TurnedAway(Turned::Watches);
            return Ran::after(self.refuse(rt, mgr, pass, opening, link, end));
        };
        match Box::new(self.alloc, Session::new(opening, link, conn, watch)) {
            Ok(session) => self.register(rt, mgr, pass, session, Dir::Read, None),
            Err(failed) => {
                let end = Finish::Ended(End::NoMemory);
                Ran::after(self.end(rt, mgr, pass, failed.value, end))
            }
        }
    }
}

/// How a connection ends that the poller didn't take.
fn not_added(out: AddOut) -> Option<Finish>
    ensures { IfSome result (λ end. IsUnmade end) }
{
    match out {
        AddOut::Added => None,
        AddOut::Failed => Some(Finish::TurnedAway(Turned::Poller)),
        AddOut::NoMemory => Some(Finish::Ended(End::NoMemory)),
    }
}
