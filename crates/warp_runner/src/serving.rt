//! A run of a connection.
ghost use Rattle.std.specs.Prelude.{◌≡◌, ◌∷◌, [], Option, Some, None};
ghost use Rattle.std.specs.Arc.{arc_value};
ghost use Rattle.reg_keys.specs.declared.event.EventName.{EventName};
ghost use Rattle.turn_cell.specs.Calls.{view_of};
ghost use Rattle.event_mgr.specs.Manager.{MgrView, IsOfMgr, mgr_view};
ghost use Rattle.timeout_mgr.specs.declared.view.TimeCall.TheVariants.{Tickle};
ghost use Rattle.timeout_mgr.specs.Calls.{view_of as seen_of};
ghost use Rattle.reg_keys.specs.declared.entry.LoadKind.TheVariants as Kinds;
ghost use Rattle.dispatcher.specs.Entries.{Firing};
ghost use Rattle.dispatcher.specs.Runs.{LeavesPolls, code_of, events_of, pair_of};
ghost use Rattle.warp_jobs.specs.Tags.{tag_of};
ghost use Rattle.warp_runner.specs.Acts.{Acts, AreOfCells, Did, HaveGrown, told_of, watched};
ghost use Rattle.warp_runner.specs.Asking.{HasAsked};
ghost use Rattle.warp_runner.specs.Deeds.{IsConnectionRun, IsRegistering, end_of_shut, mark_at};
ghost use Rattle.warp_runner.specs.Runs.{HasRun, NamesOne, IsServing, held_in, named};

use crate::bringing::Brought;
use crate::calls::{Registered, register};
use crate::codes::SPENT;
use crate::runner::ServerRunner;
use dispatcher::{AfterRun, EventPair, calls_of_runs};
use event_mgr::{EventManager, MgrPass};
use outside::{Clock, Files};
use poller::Poller;
use reg_keys::{Dir, Event, Marks};
use std::sync::Wait;
use timeout_mgr::TickleOut;
use warp_books::{Book, Finish, Finished, Turned};
use warp_jobs::{Gate, Job, Session};

/// What a run came to: the events that its calls named, and the code with which it
/// stopped the dispatcher, if it did.
#[derive(Drop)]
pub struct Ran {
    pub first: Option<Event>,
    pub second: Option<Event>,
    pub stopped: Option<u8>,
}

impl Ran {
    /// At most one event, and the dispatcher goes on.
    pub(crate) fn named(first: Option<Event>) -> Ran
        ensures { result ≡ record { first = first; second = None; stopped = None } }
    {
        Ran {
            first,
            second: None,
            stopped: None,
        }
    }

    /// No event, and the dispatcher stops where there is a code.
    pub(crate) fn after(stopped: Option<u8>) -> Ran
        ensures { result ≡ record { first = None; second = None; stopped = stopped } }
    {
        Ran {
            first: None,
            second: None,
            stopped,
        }
    }

    /// The same, as a dispatcher takes it.
    pub(crate) fn outcome(self) -> AfterRun
        ensures events { events_of (pair_of result) ≡ named self }
        ensures code { code_of result ≡ self.stopped }
    {
        let events = EventPair {
            first: self.first,
            second: self.second,
        };
        match self.stopped {
            Some(code) => AfterRun::Stop(code, events),
            None => AfterRun::Events(events),
        }
    }
}

/// The mark of a direction.
fn mark_of(dir: Dir, marks: Marks) -> u64
    ensures { result ≡ mark_at dir marks }
{
    match dir {
        Dir::Read => marks.read,
        Dir::Write => marks.write,
    }
}

impl<P: Poller, F: Files, C: Clock, B: Book<Finished<P::Link, F>>, G: Gate> ServerRunner<
    P,
    F,
    C,
    B,
    G,
> {
    /// Runs a job: brings a connection on, or accepts a link. The marks are those with which it fired.
    pub fn run_job<R: Wait>(
        &mut self,
        rt: &R,
        mgr: &EventManager<Job<P, F>>,
        pass: &mut MgrPass<Job<P, F>>,
        job: Job<P, F>,
        marks: Marks,
    ) -> Ran
        requires mgr { IsOfMgr mgr.now pass.old }
        requires own { AreOfCells (arc_value self.old.shared).times self.old.timed
            (arc_value self.old.shared).cache self.old.cached
            (arc_value self.old.shared).tally self.old.tallied }
        ensures mgr { IsOfMgr mgr.now pass.new }
        ensures own { AreOfCells (arc_value self.new.shared).times self.new.timed
            (arc_value self.new.shared).cache self.new.cached
            (arc_value self.new.shared).tally self.new.tallied }
        ensures ran { (f : Firing) → f.1.kind ≡ Kinds.Job (tag_of job) → f.1.marks ≡ marks
            → HasRun self.old.limit f
            (told_of (mgr_view pass.old) (view_of self.old.tallied) (seen_of self.old.timed)
            (B.told self.old.book)) (named result) result.stopped (told_of (mgr_view pass.new)
            (view_of self.new.tallied) (seen_of self.new.timed) (B.told self.new.book)) }
        ensures same { (self.new.shared ≡ self.old.shared) × (self.new.limit ≡ self.old.limit) }
        ensures asked { HasAsked (C.told self.old.clock) (C.told self.new.clock) }
        ensures stays { HaveGrown (view_of self.old.cached) (view_of self.new.cached)
            (view_of self.old.tallied) (view_of self.new.tallied)
            × LeavesPolls P.meaning self.old.poller self.new.poller }
    {
        match job {
            Job::Serve(session) => self.serve(rt, mgr, pass, session, marks),
            Job::Listen(listening) => self.listen(rt, mgr, pass, listening, marks),
        }
    }

    /// Runs a connection: brings it on, and registers it again with the mark that this run was given, or
    /// ends it.
    pub(crate) fn serve<R: Wait>(
        &mut self,
        rt: &R,
        mgr: &EventManager<Job<P, F>>,
        pass: &mut MgrPass<Job<P, F>>,
        session: Box<Session<P::Link, F>>,
        marks: Marks,
    ) -> Ran
        requires mgr { IsOfMgr mgr.now pass.old }
        requires own { AreOfCells (arc_value self.old.shared).times self.old.timed
            (arc_value self.old.shared).cache self.old.cached
            (arc_value self.old.shared).tally self.old.tallied }
        ensures mgr { IsOfMgr mgr.now pass.new }
        ensures own { AreOfCells (arc_value self.new.shared).times self.new.timed
            (arc_value self.new.shared).cache self.new.cached
            (arc_value self.new.shared).tally self.new.tallied }
        ensures did { (acts : Acts)
            × Did (told_of (mgr_view pass.old) (view_of self.old.tallied) (seen_of self.old.timed)
            (B.told self.old.book)) acts (named result) (told_of (mgr_view pass.new)
            (view_of self.new.tallied) (seen_of self.new.timed) (B.told self.new.book))
            × IsConnectionRun session.value marks acts result.stopped }
        ensures counted { session.value.conn.waits ≡ session.value.number }
        ensures same { (self.new.shared ≡ self.old.shared) × (self.new.limit ≡ self.old.limit) }
        ensures asked { HasAsked (C.told self.old.clock) (C.told self.new.clock) }
        ensures stays { HaveGrown (view_of self.old.cached) (view_of self.new.cached)
            (view_of self.old.tallied) (view_of self.new.tallied)
            × LeavesPolls P.meaning self.old.poller self.new.poller }
    {
        // Laws of the calls and of connections, for the proof: they do nothing when run.
        calls_of_runs::<Job<P, F>>();
        session.keeps_its_counts();
        let mut session = session;
        self.gate.pass(session.opening());
        if !self.is_alive(&session) {
            return Ran::after(self.end(rt, mgr, pass, Box::into_inner(session), Finish::TimedOut));
        }
        match self.bring_on(rt, &mut *session) {
            Brought::Waits(dir) => {
                self.register(rt, mgr, pass, session, dir, Some(mark_of(dir, marks)))
            }
            Brought::Over(end) => {
                let stopped = self.end(rt, mgr, pass, Box::into_inner(session), Finish::Ended(end));
                Ran::after(stopped)
            }
            Brought::Spent => Ran::after(Some(SPENT)),
        }
    }

    /// Registers a connection, with this mark or with none. Where it is refused, it ends.
    pub(crate) fn register<R: Wait>(
        &mut self,
        rt: &R,
        mgr: &EventManager<Job<P, F>>,
        pass: &mut MgrPass<Job<P, F>>,
        session: Box<Session<P::Link, F>>,
        dir: Dir,
        mark: Option<u64>,
    ) -> Ran
        requires mgr { IsOfMgr mgr.now pass.old }
        requires own { AreOfCells (arc_value self.old.shared).times self.old.timed
            (arc_value self.old.shared).cache self.old.cached
            (arc_value self.old.shared).tally self.old.tallied }
        ensures mgr { IsOfMgr mgr.now pass.new }
        ensures own { AreOfCells (arc_value self.new.shared).times self.new.timed
            (arc_value self.new.shared).cache self.new.cached
            (arc_value self.new.shared).tally self.new.tallied }
        ensures did { (acts : Acts)
            × Did (told_of (mgr_view pass.old) (view_of self.old.tallied) (seen_of self.old.timed)
            (B.told self.old.book)) acts (named result) (told_of (mgr_view pass.new)
            (view_of self.new.tallied) (seen_of self.new.timed) (B.told self.new.book))
            × IsRegistering session.value dir mark acts result.stopped }
        ensures same { (self.new.shared ≡ self.old.shared) × (self.new.limit ≡ self.old.limit) }
        ensures clock { self.new.clock ≡ self.old.clock }
        ensures stays { HaveGrown (view_of self.old.cached) (view_of self.new.cached)
            (view_of self.old.tallied) (view_of self.new.tallied)
            × LeavesPolls P.meaning self.old.poller self.new.poller }
        ensures one { NamesOne result }
    {
        // A law of the calls, for the proof: it does nothing when run.
        calls_of_runs::<Job<P, F>>();
        let opening = session.opening();
        match register(rt, mgr, pass, opening, dir, mark, Job::Serve(session)) {
            Registered::Waits(event) => Ran::named(event),
            Registered::Crowded(back) => {
                let session = Box::into_inner(session_of(back));
                let end = Finish::TurnedAway(Turned::Crowded);
                Ran::after(self.end(rt, mgr, pass, session, end))
            }
            Registered::Shut(back) => {
                let session = Box::into_inner(session_of(back));
                let end = end_of_shut(self.is_alive(&session));
                Ran::after(self.end(rt, mgr, pass, session, end))
            }
            Registered::Spent => Ran::after(Some(SPENT)),
        }
    }

    /// Tickles the watch over a connection: whether no sweep gave it.
    fn is_alive(&mut self, session: &Session<P::Link, F>) -> bool
        requires own { AreOfCells (arc_value self.old.shared).times self.old.timed
            (arc_value self.old.shared).cache self.old.cached
            (arc_value self.old.shared).tally self.old.tallied }
        ensures own { AreOfCells (arc_value self.new.shared).times self.new.timed
            (arc_value self.new.shared).cache self.new.cached
            (arc_value self.new.shared).tally self.new.tallied }
        ensures same { (self.new.shared ≡ self.old.shared) × (self.new.limit ≡ self.old.limit) }
        ensures clock { self.new.clock ≡ self.old.clock }
        ensures did { (v : MgrView)
            → Did (told_of v (view_of self.old.tallied) (seen_of self.old.timed) (B.told self.old.book))
            (watched (Tickle session.now.watch result ∷ []))
            [] (told_of v (view_of self.new.tallied) (seen_of self.new.timed) (B.told self.new.book)) }
        ensures rest { (self.new.cached ≡ self.old.cached) × (self.new.tallied ≡ self.old.tallied)
            × (self.new.poller ≡ self.old.poller) × (self.new.book ≡ self.old.book) }
    {
        // A law of the calls, for the proof: it does nothing when run.
        calls_of_runs::<Job<P, F>>();
        match self.shared.times.tickle(&mut self.timed, session.watch()) {
            TickleOut::Alive => true,
            TickleOut::Gone => false,
        }
    }
}

/// How a connection ends whose opening was found closed.
fn end_of_shut(is_alive: bool) -> Finish
    ensures { result ≡ end_of_shut is_alive }
{
    if is_alive {
        Finish::TurnedAway(Turned::Shut)
    } else {
        Finish::TimedOut
    }
}

/// The connection of a job that is one.
fn session_of<P: Poller, F: Files>(job: Job<P, F>) -> Box<Session<P::Link, F>>
    requires { IsServing job }
    ensures { held_in job ≡ Some result.value }
{
    match job {
        Job::Serve(session) => session,
        Job::Listen(_) => unreachable!(),
    }
}
