//! A dispatcher on one thread. Each call on it succeeds with ample memory.
ghost use Rattle.std.specs.Prelude.{◌≡◌, ◌<◌, None, IfOk};
ghost use Rattle.event_mgr.specs.Manager.{IsOfMgr};
ghost use Rattle.dispatcher.specs.Turns.{AreOf, stop_of};

use crate::tests::planned::{Job, Keeper, Planned};
use crate::{DispPass, Turned, turn};
use event_mgr::{EventManager, MgrPass, OpenOut};
use outside::Count;
use poller::Reports;
use ready_queue::ReadyQueue;
use reg_keys::{Dir, Dirs, Key, Opening};
use std::alloc::{AllocError, Global};
use std::sync::Wait;
use std::test::Fail;
use stripe_table::{Payload, RegisterReply};

/// How many events a turn may take.
const MAX: u32 = 100;

/// What turns are made with: the shared things, and one dispatcher's own.
#[derive(Drop)]
struct Bench {
    mgr: EventManager<Job>,
    queue: ReadyQueue,
    passes: DispPass<Job>,
    reports: Reports,
}

/// A bench with a queue of this capacity and an empty hand.
fn bench_of(alloc: Global, capacity: u32) -> Result<Bench, AllocError>
    requires { 0 < capacity }
    ensures { IfOk result (λ b. AreOf b.mgr b.queue b.passes) }
{
    let (mgr, mgr_pass) = EventManager::new(alloc)?;
    let (queue, queue_pass) = ReadyQueue::new(alloc, capacity)?;
    let passes = DispPass::new(alloc, mgr_pass, queue_pass)?;
    let reports = Reports::new(alloc)?;
    Ok(Bench {
        mgr,
        queue,
        passes,
        reports,
    })
}

/// A runner that hasn't stopped, with room for so many keys and so many planned pairs.
fn keeper_of(alloc: Global, room: usize) -> Result<Keeper, AllocError>
    ensures { IfOk result (λ k. k.stopped ≡ None) }
{
    Ok(Keeper {
        poller: Planned {
            plan: Vec::with_capacity(alloc, room)?,
            fails: false,
            idle: None,
            faults: Count::new(),
        },
        runs: Some(Vec::with_capacity(alloc, room)?),
        shuts: Some(Vec::with_capacity(alloc, room)?),
        stops: false,
        stopped: None,
    })
}

/// Opens a descriptor.
fn open<R: Wait>(rt: &R, mgr: &EventManager<Job>, pass: &mut MgrPass<Job>) -> Option<Opening>
    requires { IsOfMgr mgr.now pass.old }
    ensures { IsOfMgr mgr.now pass.new }
{
    match mgr.open_fd(rt, pass) {
        OpenOut::Opened(o) => Some(o),
        _ => None,
    }
}

/// Registers a job of an opening that waits for a report.
fn register<R: Wait>(
    rt: &R,
    mgr: &EventManager<Job>,
    pass: &mut MgrPass<Job>,
    o: Opening,
    dir: Dir,
) -> Option<Key>
    requires { IsOfMgr mgr.now pass.old }
    ensures { IsOfMgr mgr.now pass.new }
{
    match mgr.register(rt, pass, o, dir, Some(o.number), Payload::Job(Job)) {
        RegisterReply::Waits(key, None) => Some(key),
        _ => None,
    }
}

/// One turn of the dispatcher.
fn take_turn<R: Wait>(rt: &R, bench: &mut Bench, keeper: &mut Keeper) -> Turned
    requires own { AreOf bench.old.mgr bench.old.queue bench.old.passes }
    requires stop { keeper.old.stopped ≡ None }
    ensures own { AreOf bench.new.mgr bench.new.queue bench.new.passes }
    ensures stop { keeper.new.stopped ≡ stop_of result }
{
    let Bench {
        mgr,
        queue,
        passes,
        reports,
    } = bench;
    reports.clear();
    turn(rt, mgr, queue, passes, keeper, reports, MAX)
}

/// How many reports a turn made and how many keys it ran, where it was done.
fn done<R: Wait>(rt: &R, bench: &mut Bench, keeper: &mut Keeper) -> Result<(u64, u64), Fail>
    requires own { AreOf bench.old.mgr bench.old.queue bench.old.passes }
    requires stop { keeper.old.stopped ≡ None }
    ensures own { AreOf bench.new.mgr bench.new.queue bench.new.passes }
    ensures stop { IfOk result (λ _. keeper.new.stopped ≡ None) }
{
    match take_turn(rt, bench, keeper) {
        Turned::Done { reports, ran } => Ok((reports, ran)),
        Turned::PollFault => Err(Fail::from("a poll fault")),
        Turned::Stop(_) => Err(Fail::from("stopped")),
        Turned::Spent => Err(Fail::from("spent")),
    }
}

/// How many keys are kept in a list, if it is told.
fn many(keys: &Option<Vec<Key>>) -> Option<usize> {
    match keys {
        Some(keys) => Some(keys.len()),
        None => None,
    }
}

/// The place of a key in a list that is told.
fn key_at(keys: &Option<Vec<Key>>, place: usize) -> Option<Key> {
    match keys {
        Some(keys) => keys.get(place).copied(),
        None => None,
    }
}

/// Opens a descriptor whose job for reading waits for a report, and plans that report.
fn plan_one<R: Wait>(rt: &R, bench: &mut Bench, keeper: &mut Keeper) -> Result<Key, Fail>
    requires own { AreOf bench.old.mgr bench.old.queue bench.old.passes }
    requires stop { keeper.old.stopped ≡ None }
    ensures own { AreOf bench.new.mgr bench.new.queue bench.new.passes }
    ensures stop { keeper.new.stopped ≡ None }
{
    let Some(o) = open(rt, &bench.mgr, &mut bench.passes.mgr) else {
        return Err(Fail::from("not opened"));
    };
    let Some(key) = register(rt, &bench.mgr, &mut bench.passes.mgr, o, Dir::Read) else {
        return Err(Fail::from("not registered"));
    };
    keeper.poller.plan.push((o, Dirs::Read))?;
    Ok(key)
}

/// Opens a descriptor whose jobs for reading and for writing wait for a report, and plans that report.
fn plan_both<R: Wait>(rt: &R, bench: &mut Bench, keeper: &mut Keeper) -> Result<(Key, Key), Fail>
    requires own { AreOf bench.old.mgr bench.old.queue bench.old.passes }
    requires stop { keeper.old.stopped ≡ None }
    ensures own { AreOf bench.new.mgr bench.new.queue bench.new.passes }
    ensures stop { keeper.new.stopped ≡ None }
{
    let Some(o) = open(rt, &bench.mgr, &mut bench.passes.mgr) else {
        return Err(Fail::from("not opened"));
    };
    let Some(first) = register(rt, &bench.mgr, &mut bench.passes.mgr, o, Dir::Read) else {
        return Err(Fail::from("not registered"));
    };
    let Some(second) = register(rt, &bench.mgr, &mut bench.passes.mgr, o, Dir::Write) else {
        return Err(Fail::from("not registered"));
    };
    keeper.poller.plan.push((o, Dirs::Both))?;
    Ok((first, second))
}

/// The same for this many descriptors.
fn plan_many<R: Wait>(
    rt: &R,
    bench: &mut Bench,
    keeper: &mut Keeper,
    count: u64,
) -> Result<(), Fail>
    requires own { AreOf bench.old.mgr bench.old.queue bench.old.passes }
    requires stop { keeper.old.stopped ≡ None }
    ensures own { AreOf bench.new.mgr bench.new.queue bench.new.passes }
    ensures stop { keeper.new.stopped ≡ None }
{
    for _ in 0..count {
        plan_one(rt, bench, keeper)?;
    }
    Ok(())
}

/// No two keys of a list are the same.
fn are_distinct(keys: &[Key]) -> bool {
    for (place, key) in keys.iter().enumerate() {
        if keys[..place].iter().any(|k| k == key) {
            return false;
        }
    }
    true
}

/// A dispatcher on one thread: what its turns are made with, and a runner that keeps keys.
#[derive(Drop)]
struct Desk {
    bench: Bench,
    keeper: Keeper,
}

/// A desk with a queue of this capacity, an empty hand, and room for so many keys and planned pairs.
fn desk_of(alloc: Global, capacity: u32, room: usize) -> Result<Desk, AllocError>
    requires { 0 < capacity }
    ensures own { IfOk result (λ d. AreOf d.bench.mgr d.bench.queue d.bench.passes) }
    ensures stop { IfOk result (λ d. d.keeper.stopped ≡ None) }
{
    Ok(Desk {
        bench: bench_of(alloc, capacity)?,
        keeper: keeper_of(alloc, room)?,
    })
}

impl Desk {
    /// How many reports a turn made and how many keys it ran, where it was done, and whether its poll was to wait
    /// for nothing.
    fn turns<R: Wait>(&mut self, rt: &R) -> Result<(u64, u64, Option<bool>), Fail>
        requires own { AreOf self.old.bench.mgr self.old.bench.queue self.old.bench.passes }
        requires stop { self.old.keeper.stopped ≡ None }
        ensures own { AreOf self.new.bench.mgr self.new.bench.queue self.new.bench.passes }
        ensures stop { IfOk result (λ _. self.new.keeper.stopped ≡ None) }
    {
        let (reports, ran) = done(rt, &mut self.bench, &mut self.keeper)?;
        Ok((reports, ran, self.keeper.poller.idle))
    }

    /// How many keys were run and shut, as far as that is told.
    fn counts(&self) -> (Option<usize>, Option<usize>) {
        (many(&self.keeper.runs), many(&self.keeper.shuts))
    }

    /// Whether this key was run first.
    fn ran_first(&self, key: Key) -> bool {
        key_at(&self.keeper.runs, 0) == Some(key)
    }

    /// Whether this key was shut first.
    fn shut_first(&self, key: Key) -> bool {
        key_at(&self.keeper.shuts, 0) == Some(key)
    }

    /// Whether no key ran twice.
    fn ran_each_once(&self) -> bool {
        match &self.keeper.runs {
            Some(keys) => are_distinct(keys),
            None => false,
        }
    }
}

#[test]
fn a_job_runs_in_the_turn_after_its_report(rt: HostRuntime) -> Result<(), Fail> {
    let mut desk = desk_of(rt.alloc(), 8, 8)?;
    let key = plan_one(&rt, &mut desk.bench, &mut desk.keeper)?;
    assert_eq!(rt; desk.turns(&rt)?, (1, 0, Some(true)));
    assert_eq!(rt; desk.turns(&rt)?, (0, 1, Some(false)));
    assert_eq!(rt; desk.counts().0, Some(1));
    assert!(rt; desk.ran_first(key));
    assert_eq!(rt; desk.turns(&rt)?, (0, 0, Some(true)));
    Ok(())
}

/// How many descriptors become ready at once.
const READY: u64 = 40;

#[test]
fn each_ready_descriptor_runs_once_over_a_queue_of_one_event(rt: HostRuntime) -> Result<(), Fail> {
    let mut desk = desk_of(rt.alloc(), 1, 64)?;
    plan_many(&rt, &mut desk.bench, &mut desk.keeper, READY)?;
    let (reports, early, _) = desk.turns(&rt)?;
    assert_eq!(rt; reports, READY);
    let (none, late, _) = desk.turns(&rt)?;
    assert_eq!(rt; (none, early.wrapping_add(late)), (0, READY));
    assert_eq!(rt; desk.bench.passes.hand.len(), 0);
    assert_eq!(rt; desk.counts().0, Some(40));
    assert!(rt; desk.ran_each_once());
    Ok(())
}

/// How a turn comes out whose runner stops at its first job.
fn stopped<R: Wait>(rt: &R, desk: &mut Desk) -> Turned
    requires own { AreOf desk.old.bench.mgr desk.old.bench.queue desk.old.bench.passes }
    requires stop { desk.old.keeper.stopped ≡ None }
{
    desk.keeper.stops = true;
    take_turn(rt, &mut desk.bench, &mut desk.keeper)
}

#[test]
fn a_runner_that_stops_ends_the_turn_and_is_given_the_jobs_behind(
    rt: HostRuntime,
) -> Result<(), Fail> {
    let mut desk = desk_of(rt.alloc(), 8, 8)?;
    let (first, second) = plan_both(&rt, &mut desk.bench, &mut desk.keeper)?;
    assert_eq!(rt; desk.turns(&rt)?, (1, 0, Some(true)));
    assert_eq!(rt; stopped(&rt, &mut desk), Turned::Stop(7));
    assert_eq!(rt; desk.counts(), (Some(1), Some(1)));
    assert!(rt; desk.ran_first(first));
    assert!(rt; desk.shut_first(second));
    Ok(())
}

#[test]
fn a_poll_that_fails_is_a_poll_fault(rt: HostRuntime) -> Result<(), Fail> {
    let mut desk = desk_of(rt.alloc(), 8, 8)?;
    desk.keeper.poller.fails = true;
    let came = take_turn(&rt, &mut desk.bench, &mut desk.keeper);
    assert_eq!(rt; came, Turned::PollFault);
    Ok(())
}
