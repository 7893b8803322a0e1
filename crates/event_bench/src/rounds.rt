//! The rounds of one thread, on an opening of its own.
ghost use Rattle.event_mgr.specs.Manager.{IsOfMgr};

use crate::job::Job;
use crate::order::{Order, What};
use event_mgr::{EventManager, MgrPass, WithdrawOut};
use reg_keys::{Dir, Dirs, Event, Opening};
use std::sync::Wait;
use stripe_table::{DispatchReply, Payload, RegisterReply, ReportReply};

/// A thread's pass, its opening, the mark that it last saw there, and how many rounds
/// came out as they should.
#[derive(Drop)]
pub(crate) struct Row<T> {
    pub pass: MgrPass<T>,
    pub opening: Opening,
    pub mark: u64,
    pub done: u64,
}

/// Makes the rounds that are asked for, up to one that comes out otherwise.
pub(crate) fn make_rounds<T: Job, R: Wait>(
    rt: &R,
    mgr: &EventManager<T>,
    row: &mut Row<T>,
    order: &Order,
)
    requires { IsOfMgr mgr.now row.old.pass }
    ensures { IsOfMgr mgr.now row.new.pass }
{
    // A new opening counts as ready, so that this clears what a registration would be due at.
    if matches!(order.what, What::Register) && !wait_and_withdraw(rt, mgr, row, Some(row.mark)) {
        return;
    }
    for round in 0..order.rounds {
        let came_out = match order.what {
            What::Report => report(rt, mgr, row),
            What::Register => wait_and_withdraw(rt, mgr, row, None),
            What::Dispatch => register_and_dispatch(rt, mgr, row, round),
            What::Cycle => go_round(rt, mgr, row, round),
        };
        if !came_out {
            return;
        }
        row.done = round + 1;
    }
}

/// A report that names no event.
fn report<T: Job, R: Wait>(rt: &R, mgr: &EventManager<T>, row: &mut Row<T>) -> bool
    requires { IsOfMgr mgr.now row.old.pass }
    ensures { IsOfMgr mgr.now row.new.pass }
{
    let read = Dirs::Read;
    matches!(
        mgr.report(rt, &mut row.pass, row.opening, read),
        ReportReply::Noted(None)
    )
}

/// A registration that waits, and its withdrawal.
fn wait_and_withdraw<T: Job, R: Wait>(
    rt: &R,
    mgr: &EventManager<T>,
    row: &mut Row<T>,
    mark: Option<u64>,
) -> bool
    requires { IsOfMgr mgr.now row.old.pass }
    ensures { IsOfMgr mgr.now row.new.pass }
{
    let job = Payload::Job(T::new(row.done));
    let RegisterReply::Waits(key, None) = mgr.register(
        rt,
        &mut row.pass,
        row.opening,
        Dir::Read,
        mark,
        job,
    ) else {
        return false;
    };
    matches!(
        mgr.withdraw(rt, &mut row.pass, key),
        WithdrawOut::Back(Some(_))
    )
}

/// A registration that is due at once, and the dispatch of the event that it names.
fn register_and_dispatch<T: Job, R: Wait>(
    rt: &R,
    mgr: &EventManager<T>,
    row: &mut Row<T>,
    round: u64,
) -> bool
    requires { IsOfMgr mgr.now row.old.pass }
    ensures { IsOfMgr mgr.now row.new.pass }
{
    let job = Payload::Job(T::new(round));
    let RegisterReply::Waits(_, Some(event)) = mgr.register(
        rt,
        &mut row.pass,
        row.opening,
        Dir::Read,
        None,
        job,
    ) else {
        return false;
    };
    dispatch(rt, mgr, row, event)
}

/// The way of an event: a registration that waits, the report that names the event, and its dispatch.
fn go_round<T: Job, R: Wait>(rt: &R, mgr: &EventManager<T>, row: &mut Row<T>, round: u64) -> bool
    requires { IsOfMgr mgr.now row.old.pass }
    ensures { IsOfMgr mgr.now row.new.pass }
{
    let job = Payload::Job(T::new(round));
    let mark = Some(row.mark);
    let RegisterReply::Waits(_, None) = mgr.register(
        rt,
        &mut row.pass,
        row.opening,
        Dir::Read,
        mark,
        job,
    ) else {
        return false;
    };
    let read = Dirs::Read;
    let ReportReply::Noted(Some(event)) = mgr.report(rt, &mut row.pass, row.opening, read) else {
        return false;
    };
    dispatch(rt, mgr, row, event)
}

/// Runs one job, and keeps the mark that it was given.
fn dispatch<T: Job, R: Wait>(rt: &R, mgr: &EventManager<T>, row: &mut Row<T>, event: Event) -> bool
    requires { IsOfMgr mgr.now row.old.pass }
    ensures { IsOfMgr mgr.now row.new.pass }
{
    let DispatchReply::Ran(mut fired, None) = mgr.dispatch(rt, &mut row.pass, event) else {
        return false;
    };
    let Some(first) = fired.pop_first() else {
        return false;
    };
    row.mark = first.marks.read;
    first.job.is_some()
}
