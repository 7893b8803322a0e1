//! The calls that a run makes on the manager of events.
ghost use Rattle.std.specs.Prelude.{◌≡◌};
ghost use Rattle.event_mgr.specs.Manager.{IsOfMgr, mgr_view};
ghost use Rattle.warp_runner.specs.Calls.{HasClosedIt, HasOpenedIt, HasOpenedUntil, HasRegisteredIt, HasTriedUntil, HoldsJob, IsJob};

use dispatcher::calls_of_runs;
use event_mgr::{CloseOut, EventManager, MgrPass, OpenOut, calls_weigh};
use reg_keys::{Dir, Event, Opening};
use std::sync::Wait;
use stripe_table::{Load, Payload, RegisterReply};

/// A stripe, a cell or the queue takes no more calls.
#[derive(Clone, Copy)]
pub(crate) struct NumbersSpent;

/// How a registration came out.
#[derive(Drop)]
pub(crate) enum Registered<T> {
    /// It waits, and named this event, if any.
    Waits(Option<Event>),
    /// The descriptor has no place. The job comes back.
    Crowded(T),
    /// The opening is closed. The job comes back.
    Shut(T),
    /// The stripe takes no more registrations. The job is dropped.
    Spent,
}

/// Opens a descriptor.
pub(crate) fn open<T: Load, R: Wait>(
    rt: &R,
    mgr: &EventManager<T>,
    pass: &mut MgrPass<T>,
) -> OpenOut
    requires { IsOfMgr mgr.now pass.old }
    ensures own { IsOfMgr mgr.now pass.new }
    ensures opened { HasOpenedIt (mgr_view pass.old) result (mgr_view pass.new) }
{
    // Laws of the calls, for the proof: they do nothing when run.
    calls_of_runs::<T>();
    calls_weigh::<T>();
    mgr.open_fd(rt, pass)
}

/// Opens a descriptor, and tries again where none is to be had, which nothing hinders: it is for the
/// listener, before anything else is open.
pub(crate) fn open_until_given<T: Load, R: Wait>(
    rt: &R,
    mgr: &EventManager<T>,
    pass: &mut MgrPass<T>,
) -> Result<Opening, NumbersSpent>
    requires { IsOfMgr mgr.now pass.old }
    ensures own { IsOfMgr mgr.now pass.new }
    ensures opened { HasOpenedUntil (mgr_view pass.old) result (mgr_view pass.new) }
{
    // Laws of the calls, for the proof: they do nothing when run.
    calls_of_runs::<T>();
    calls_weigh::<T>();
    for _ in rt.forever() {
        match open(rt, mgr, pass) {
            OpenOut::Opened(opening) => return Ok(opening),
            OpenOut::Spent => return Err(NumbersSpent),
            OpenOut::Full => {}
            OpenOut::Taken(_) => {}
        }
    }
    unreachable!()
}

/// Closes an opening. What waited there is dropped.
pub(crate) fn close<T: Load, R: Wait>(
    rt: &R,
    mgr: &EventManager<T>,
    pass: &mut MgrPass<T>,
    opening: Opening,
) -> Result<(), NumbersSpent>
    requires { IsOfMgr mgr.now pass.old }
    ensures own { IsOfMgr mgr.now pass.new }
    ensures closed { HasClosedIt opening (mgr_view pass.old) result (mgr_view pass.new) }
{
    // Laws of the calls, for the proof: they do nothing when run.
    calls_of_runs::<T>();
    calls_weigh::<T>();
    match mgr.close_fd(rt, pass, opening) {
        CloseOut::Shut(_) => Ok(()),
        CloseOut::NotOpen => Ok(()),
        CloseOut::Spent => Err(NumbersSpent),
    }
}

/// Registers a job.
pub(crate) fn register<T: Load, R: Wait>(
    rt: &R,
    mgr: &EventManager<T>,
    pass: &mut MgrPass<T>,
    opening: Opening,
    dir: Dir,
    mark: Option<u64>,
    job: T,
) -> Registered<T>
    requires { IsOfMgr mgr.now pass.old }
    ensures own { IsOfMgr mgr.now pass.new }
    ensures registered { HasRegisteredIt (T.tag job) opening dir mark job (mgr_view pass.old) result
        (mgr_view pass.new) }
{
    // Laws of the calls, for the proof: they do nothing when run.
    calls_of_runs::<T>();
    calls_weigh::<T>();
    match mgr.register(rt, pass, opening, dir, mark, Payload::Job(job)) {
        RegisterReply::Waits(_, event) => Registered::Waits(event),
        RegisterReply::Crowded(back) => Registered::Crowded(job_of(back)),
        RegisterReply::Shut(back) => Registered::Shut(job_of(back)),
        RegisterReply::Spent(_) => Registered::Spent,
    }
}

/// The job of a load.
fn job_of<T: Load>(load: Payload<T>) -> T
    requires { IsJob load }
    ensures { HoldsJob load result }
{
    match load {
        Payload::Job(job) => job,
        Payload::Flag => unreachable!(),
    }
}

/// Registers a job, and tries again where it is refused, which nothing hinders: it is for the listener, whose
/// opening is open and has one registration at a time.
pub(crate) fn register_until_taken<T: Load, R: Wait>(
    rt: &R,
    mgr: &EventManager<T>,
    pass: &mut MgrPass<T>,
    opening: Opening,
    dir: Dir,
    mark: Option<u64>,
    job: T,
) -> Result<Option<Event>, NumbersSpent>
    requires { IsOfMgr mgr.now pass.old }
    ensures own { IsOfMgr mgr.now pass.new }
    ensures registered { HasTriedUntil (T.tag job) opening dir mark (mgr_view pass.old) result
        (mgr_view pass.new) }
{
    // Laws of the calls, for the proof: they do nothing when run.
    calls_of_runs::<T>();
    calls_weigh::<T>();
    let mut job = job;
    for _ in rt.forever() {
        job = match register(rt, mgr, pass, opening, dir, mark, job) {
            Registered::Waits(event) => return Ok(event),
            Registered::Spent => return Err(NumbersSpent),
            Registered::Crowded(back) => back,
            Registered::Shut(back) => back,
        };
    }
    unreachable!()
}
