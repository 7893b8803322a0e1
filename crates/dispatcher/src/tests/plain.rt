//! A runner that has the body of a run alone, and what stands by the time that the next job runs.
ghost use Rattle.std.specs.Prelude.{◌≡◌, [], IfNone, IfOk};
ghost use Rattle.std.specs.Option.{option_to_list};
ghost use Rattle.ready_queue.specs.Calls.{IsOf};
ghost use Rattle.ready_queue.specs.Props.{history_prop};
ghost use Rattle.std.proofs.Props.{props};
ghost use Rattle.event_mgr.specs.Manager.{IsOfMgr, mgr_view};
ghost use Rattle.dispatcher.specs.Runs.{HasMadeCalls, events_of};
ghost use Rattle.dispatcher.specs.Turns.{AreOf};

use crate::tests::planned::{Job, Planned};
use crate::{DispPass, EventPair, PlainRunner, Run, Turned, calls_of_runs, turn};
use event_mgr::{EventManager, MgrPass, OpenOut};
use outside::Count;
use poller::Reports;
use ready_queue::{QPass, ReadyQueue, TakeOut};
use reg_keys::{Dir, Dirs, Event, Opening};
use std::alloc::Global;
use std::sync::Wait;
use std::test::Fail;
use stripe_table::{Fired, Load, Payload, RegisterReply};

/// The body of a run that looks into the queue, by a pass of its own, and registers for another opening,
/// whose event is named at once.
#[derive(Drop)]
struct Watcher<'a> {
    queue: &'a ReadyQueue,
    place: QPass,
    /// How many runs found an event in the queue. They take it.
    found: u64,
    /// What the next run is to register for.
    next: Option<Opening>,
    ghost own: { IsOf queue.now place } by { Prim.hlevel (history_prop, props) },
}

/// The events of a run that named this one, if any.
fn named(event: Option<Event>) -> EventPair
    ensures { events_of result ≡ option_to_list event }
{
    EventPair {
        first: event,
        second: None,
    }
}

/// Registers for reading without a mark, so that an event is named at once.
fn register_at_once<T: Load, R: Wait>(
    rt: &R,
    mgr: &EventManager<T>,
    pass: &mut MgrPass<T>,
    opening: Opening,
    job: T,
) -> EventPair
    requires own { IsOfMgr mgr.now pass.old }
    ensures own { IsOfMgr mgr.now pass.new }
    ensures made { HasMadeCalls (mgr_view pass.old) (events_of result) (mgr_view pass.new) }
{
    calls_of_runs::<T>();
    match mgr.register(rt, pass, opening, Dir::Read, None, Payload::Job(job)) {
        RegisterReply::Waits(_, event) => named(event),
        RegisterReply::Shut(_) => named(None),
        RegisterReply::Crowded(_) => named(None),
        RegisterReply::Spent(_) => named(None),
    }
}

impl<'a> Run<Job> for Watcher<'a> {
    fn run<R: Wait>(
        &mut self,
        rt: &R,
        mgr: &EventManager<Job>,
        pass: &mut MgrPass<Job>,
        fired: &mut Fired<Job>,
    ) -> EventPair
        requires own { IsOfMgr mgr.now pass.old }
        ensures own { IsOfMgr mgr.now pass.new }
        ensures made { HasMadeCalls (mgr_view pass.old) (events_of result) (mgr_view pass.new) }
        ensures flag { IfNone fired.old.job (events_of result ≡ []) }
    {
        calls_of_runs::<Job>();
        let Some(_job) = fired.job.take() else {
            return named(None);
        };
        if let TakeOut::Taken(_event) = self.queue.take(rt, &mut self.place) {
            self.found = self.found.saturating_add(1);
        }
        let Some(opening) = self.next.take() else {
            return named(None);
        };
        register_at_once(rt, mgr, pass, opening, Job)
    }
}

/// Opens a descriptor.
fn open<R: Wait>(rt: &R, mgr: &EventManager<Job>, pass: &mut MgrPass<Job>) -> Result<Opening, Fail>
    requires { IsOfMgr mgr.now pass.old }
    ensures { IsOfMgr mgr.now pass.new }
{
    match mgr.open_fd(rt, pass) {
        OpenOut::Opened(o) => Ok(o),
        _ => Err(Fail::from("not opened")),
    }
}

/// Registers a job that waits for a report.
fn register<R: Wait>(
    rt: &R,
    mgr: &EventManager<Job>,
    pass: &mut MgrPass<Job>,
    opening: Opening,
    dir: Dir,
) -> bool
    requires { IsOfMgr mgr.now pass.old }
    ensures { IsOfMgr mgr.now pass.new }
{
    let mark = Some(opening.number);
    let reply = mgr.register(rt, pass, opening, dir, mark, Payload::Job(Job));
    matches!(reply, RegisterReply::Waits(_, None))
}

/// An opening of which two jobs wait for a report, and one of which none does.
fn waiting_and_free<R: Wait>(
    rt: &R,
    mgr: &EventManager<Job>,
    pass: &mut MgrPass<Job>,
) -> Result<(Opening, Opening), Fail>
    requires { IsOfMgr mgr.now pass.old }
    ensures { IsOfMgr mgr.now pass.new }
{
    let both = open(rt, mgr, pass)?;
    let free = open(rt, mgr, pass)?;
    if register(rt, mgr, pass, both, Dir::Read) && register(rt, mgr, pass, both, Dir::Write) {
        Ok((both, free))
    } else {
        Err(Fail::from("not registered"))
    }
}

/// A poller that reports this opening once, for both directions.
fn poller_of(alloc: Global, opening: Opening) -> Result<Planned, Fail> {
    let mut plan = Vec::with_capacity(alloc, 1)?;
    plan.push((opening, Dirs::Both))?;
    Ok(Planned {
        plan,
        fails: false,
        idle: None,
        faults: Count::new(),
    })
}

/// A body that has found nothing, and is to register for this opening.
fn watch_for<'a>(
    queue: &'a ReadyQueue,
    place: &mut QPass,
    next: Opening,
) -> Result<Watcher<'a>, Fail>
    requires { IsOf queue.now place.old }
    ensures { IsOf queue.now place.new }
{
    let own = queue.split(place)?;
    Ok(Watcher {
        queue,
        place: own,
        found: 0,
        next: Some(next),
    })
}

/// How two turns come out, and how many runs found an event in the queue.
fn two_turns<'a, R: Wait>(
    rt: &R,
    mgr: &EventManager<Job>,
    queue: &ReadyQueue,
    passes: &mut DispPass<Job>,
    runner: &mut PlainRunner<Planned, Watcher<'a>>,
    reports: &mut Reports,
) -> (Turned, Turned, u64)
    requires { AreOf mgr.now queue.now passes.old }
{
    reports.clear();
    let first = turn(rt, mgr, queue, passes, runner, reports, 8);
    reports.clear();
    let second = turn(rt, mgr, queue, passes, runner, reports, 8);
    (first, second, runner.body.found)
}

#[test]
fn an_event_that_a_run_named_is_queued_before_the_next_job_runs(
    rt: HostRuntime,
) -> Result<(), Fail> {
    let alloc = rt.alloc();
    let (mgr, mut pass) = EventManager::<Job>::new(alloc)?;
    let (queue, mut place) = ReadyQueue::new(alloc, 8)?;
    let (both, free) = waiting_and_free(&rt, &mgr, &mut pass)?;
    let mut runner = PlainRunner {
        poller: poller_of(alloc, both)?,
        body: watch_for(&queue, &mut place, free)?,
    };
    let mut passes = DispPass::new(alloc, pass, place)?;
    let mut reports = Reports::new(alloc)?;
    let came = two_turns(&rt, &mgr, &queue, &mut passes, &mut runner, &mut reports);
    let reported = Turned::Done { reports: 1, ran: 0 };
    let ran = Turned::Done { reports: 0, ran: 2 };
    assert_eq!(rt; came, (reported, ran, 1));
    Ok(())
}
