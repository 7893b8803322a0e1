//! Waits that can't begin, and waits that another thread ends.
ghost use Rattle.std.specs.Prelude.{[], IfOk};
ghost use Rattle.event_mgr.specs.Manager.{IsOfMgr};
ghost use Rattle.dispatcher.specs.Turns.{AreOf};

use crate::{WaitOut, wait};
use dispatcher::DispPass;
use event_mgr::{CloseOut, EventManager, MgrPass, OpenOut};
use ready_queue::{PutOut, ReadyQueue, TakeOut};
use reg_keys::{Dir, Dirs, Event, Opening};
use std::alloc::{AllocError, Global};
use std::sync::Wait;
use std::test::Fail;
use std::thread::{Threads, join, yield_now};
use stripe_table::{DispatchReply, Load, Payload, RegisterReply, ReportReply};

/// How many turns a thread makes before it gives up, closes the opening, and the test fails.
const TURNS: u64 = 1_000_000;

/// The places of a descriptor.
const PLACES: usize = 4;

/// A job that does nothing.
#[derive(Drop)]
struct Job;

impl Load for Job {
    ghost tag = { λ job. [] };
}

/// A manager and a queue of one place, with the passes of one thread.
#[derive(Drop)]
struct Shared {
    mgr: EventManager<Job>,
    queue: ReadyQueue,
}

/// New shared things, and the first passes of them.
fn new_shared(alloc: Global) -> Result<(Shared, DispPass<Job>), AllocError>
    ensures { IfOk result (λ s. AreOf s.0.mgr s.0.queue s.1) }
{
    let (mgr, mgr_pass) = EventManager::new(alloc)?;
    let (queue, queue_pass) = ReadyQueue::new(alloc, 1)?;
    let passes = DispPass::new(alloc, mgr_pass, queue_pass)?;
    Ok((Shared { mgr, queue }, passes))
}

/// The passes of one more thread.
fn further(
    shared: &Shared,
    passes: &mut DispPass<Job>,
    alloc: Global,
) -> Result<DispPass<Job>, AllocError>
    requires { AreOf shared.now.mgr shared.now.queue passes.old }
    ensures own { AreOf shared.now.mgr shared.now.queue passes.new }
    ensures further { IfOk result (λ p. AreOf shared.now.mgr shared.now.queue p) }
{
    let mgr_pass = shared.mgr.split(alloc, &mut passes.mgr)?;
    let queue_pass = shared.queue.split(&mut passes.queue)?;
    DispPass::new(alloc, mgr_pass, queue_pass)
}

/// Opens a descriptor.
fn open<R: Wait>(rt: &R, shared: &Shared, passes: &mut DispPass<Job>) -> Result<Opening, Fail>
    requires { AreOf shared.now.mgr shared.now.queue passes.old }
    ensures { AreOf shared.now.mgr shared.now.queue passes.new }
{
    match shared.mgr.open_fd(rt, &mut passes.mgr) {
        OpenOut::Opened(o) => Ok(o),
        _ => Err(Fail::from("not opened")),
    }
}

/// Closes an opening. Whether it was live.
fn close<R: Wait>(rt: &R, shared: &Shared, passes: &mut DispPass<Job>, o: Opening) -> bool
    requires { AreOf shared.now.mgr shared.now.queue passes.old }
    ensures { AreOf shared.now.mgr shared.now.queue passes.new }
{
    matches!(
        shared.mgr.close_fd(rt, &mut passes.mgr, o),
        CloseOut::Shut(_)
    )
}

/// Waits for reading, with the mark of an opening that nothing was reported of.
fn wait_to_read<R: Wait>(rt: &R, shared: &Shared, passes: &mut DispPass<Job>, o: Opening) -> WaitOut
    requires { AreOf shared.now.mgr shared.now.queue passes.old }
    ensures { AreOf shared.now.mgr shared.now.queue passes.new }
{
    wait(
        rt,
        &shared.mgr,
        &shared.queue,
        passes,
        o,
        Dir::Read,
        Some(o.number),
    )
}

#[test]
fn a_wait_on_a_closed_opening_is_shut(rt: HostRuntime) -> Result<(), Fail> {
    let (shared, mut passes) = new_shared(rt.alloc())?;
    let o = open(&rt, &shared, &mut passes)?;
    assert_eq!(rt; close(&rt, &shared, &mut passes, o), true);
    let out = wait_to_read(&rt, &shared, &mut passes, o);
    assert_eq!(rt; matches!(out, WaitOut::Shut), true);
    Ok(())
}

/// Registers a job for reading. Whether it waits.
fn register<R: Wait>(rt: &R, shared: &Shared, passes: &mut DispPass<Job>, o: Opening) -> bool
    requires { AreOf shared.now.mgr shared.now.queue passes.old }
    ensures { AreOf shared.now.mgr shared.now.queue passes.new }
{
    let load = Payload::Job(Job);
    matches!(
        shared
            .mgr
            .register(rt, &mut passes.mgr, o, Dir::Read, Some(o.number), load),
        RegisterReply::Waits(_, _)
    )
}

#[test]
fn a_wait_beside_four_waiting_jobs_is_crowded(rt: HostRuntime) -> Result<(), Fail> {
    let (shared, mut passes) = new_shared(rt.alloc())?;
    let o = open(&rt, &shared, &mut passes)?;
    for _ in 0..PLACES {
        assert_eq!(rt; register(&rt, &shared, &mut passes, o), true);
    }
    let out = wait_to_read(&rt, &shared, &mut passes, o);
    assert_eq!(rt; matches!(out, WaitOut::Crowded), true);
    Ok(())
}

/// What the thread beside the waiting one does where the queue has no event.
#[derive(Clone, Copy, PartialEq, Eq)]
enum Beside {
    /// It only dispatches what is in the queue.
    Dispatches,
    /// It reports the opening ready.
    Reports,
    /// It closes the opening.
    Closes,
}

/// Dispatches an event. Whether a registration ran.
fn dispatch<R: Wait>(rt: &R, mgr: &EventManager<Job>, pass: &mut MgrPass<Job>, event: Event) -> bool
    requires { IsOfMgr mgr.now pass.old }
    ensures { IsOfMgr mgr.now pass.new }
{
    match mgr.dispatch(rt, pass, event) {
        DispatchReply::Ran(list, _) => list.len() > 0,
        _ => false,
    }
}

/// Reports an opening ready, and dispatches the event that this names, if any. Whether a registration ran.
fn report<R: Wait>(rt: &R, mgr: &EventManager<Job>, pass: &mut MgrPass<Job>, o: Opening) -> bool
    requires { IsOfMgr mgr.now pass.old }
    ensures { IsOfMgr mgr.now pass.new }
{
    match mgr.report(rt, pass, o, Dirs::Read) {
        ReportReply::Noted(Some(event)) => dispatch(rt, mgr, pass, event),
        _ => false,
    }
}

/// One turn of the thread beside. Whether the wait has its end.
fn turn<R: Wait>(
    rt: &R,
    shared: &Shared,
    passes: &mut DispPass<Job>,
    o: Opening,
    beside: Beside,
) -> bool
    requires { AreOf shared.now.mgr shared.now.queue passes.old }
    ensures { AreOf shared.now.mgr shared.now.queue passes.new }
{
    if let TakeOut::Taken(event) = shared.queue.take(rt, &mut passes.queue) {
        return dispatch(rt, &shared.mgr, &mut passes.mgr, event);
    }
    match beside {
        Beside::Dispatches => false,
        Beside::Reports => report(rt, &shared.mgr, &mut passes.mgr, o),
        Beside::Closes => close(rt, shared, passes, o),
    }
}

/// Turns until the wait has its end. Where that doesn't come, the opening is closed, so that the wait ends.
fn turns<R: Wait>(
    rt: &R,
    shared: &Shared,
    mut passes: DispPass<Job>,
    o: Opening,
    beside: Beside,
) -> bool
    requires { AreOf shared.now.mgr shared.now.queue passes }
{
    for _ in 0..TURNS {
        if turn(rt, shared, &mut passes, o, beside) {
            return true;
        }
        yield_now();
    }
    let _live = close(rt, shared, &mut passes, o);
    false
}

/// A thread waits, and another turns beside it. How the wait came out, and whether the other saw its end.
fn wait_beside<R: Threads + Wait + Sync>(
    rt: &R,
    shared: &Shared,
    passes: DispPass<Job>,
    others: DispPass<Job>,
    o: Opening,
    beside: Beside,
) -> (WaitOut, bool)
    requires passes { AreOf shared.now.mgr shared.now.queue passes }
    requires others { AreOf shared.now.mgr shared.now.queue others }
{
    join(
        rt,
        || -> WaitOut
            requires { AreOf shared.now.mgr shared.now.queue passes }
        { waits(rt, shared, passes, o) },
        || -> bool
            requires { AreOf shared.now.mgr shared.now.queue others }
        { turns(rt, shared, others, o, beside) },
    )
}

/// The waiting thread.
fn waits<R: Wait>(rt: &R, shared: &Shared, mut passes: DispPass<Job>, o: Opening) -> WaitOut
    requires { AreOf shared.now.mgr shared.now.queue passes }
{
    wait_to_read(rt, shared, &mut passes, o)
}

/// Whether a wait came out ready, with a mark for reading later than the opening.
fn is_ready_after(out: &WaitOut, o: Opening) -> bool {
    match out {
        WaitOut::Ready(marks) => marks.read > o.number,
        _ => false,
    }
}

#[test]
fn a_wait_is_ready_once_its_direction_is_reported(rt: HostRuntime) -> Result<(), Fail> {
    let (shared, mut passes) = new_shared(rt.alloc())?;
    let o = open(&rt, &shared, &mut passes)?;
    let others = further(&shared, &mut passes, rt.alloc())?;
    let (out, ended) = wait_beside(&rt, &shared, passes, others, o, Beside::Reports);
    assert_eq!(rt; (is_ready_after(&out, o), ended), (true, true));
    Ok(())
}

#[test]
fn a_wait_whose_opening_is_closed_is_closed_or_shut(rt: HostRuntime) -> Result<(), Fail> {
    let (shared, mut passes) = new_shared(rt.alloc())?;
    let o = open(&rt, &shared, &mut passes)?;
    let others = further(&shared, &mut passes, rt.alloc())?;
    let (out, ended) = wait_beside(&rt, &shared, passes, others, o, Beside::Closes);
    assert_eq!(rt;
        matches!(out, WaitOut::Closed) || matches!(out, WaitOut::Shut),
        true
    );
    assert_eq!(rt; ended, true);
    Ok(())
}

#[test]
fn an_event_waits_for_its_place_in_the_queue(rt: HostRuntime) -> Result<(), Fail> {
    let (shared, mut passes) = new_shared(rt.alloc())?;
    let o = open(&rt, &shared, &mut passes)?;
    let others = further(&shared, &mut passes, rt.alloc())?;
    assert_eq!(rt; report(&rt, &shared.mgr, &mut passes.mgr, o), false);
    let first = shared.queue.put(&rt, &mut passes.queue, Event::named(o, 0));
    assert_eq!(rt; matches!(first, PutOut::Put), true);
    let (out, ended) = wait_beside(&rt, &shared, passes, others, o, Beside::Dispatches);
    assert_eq!(rt; (is_ready_after(&out, o), ended), (true, true));
    Ok(())
}
