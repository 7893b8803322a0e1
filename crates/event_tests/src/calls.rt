//! The calls that a run makes on the manager.
ghost use Rattle.std.specs.Prelude.{◌≡◌, ◌+◌, ℕ, []};
ghost use Rattle.reg_keys.specs.declared.opening.Opening.{Opening};
ghost use Rattle.event_mgr.specs.Manager.{IsOfMgr, mgr_view};
ghost use Rattle.dispatcher.specs.Firings.{Jobs};
ghost use Rattle.dispatcher.specs.Runs.{HasMadeCalls};
ghost use Rattle.event_tests.specs.Accounting.{Accounts, Owes, finishes_in, tag_of};
ghost use Rattle.event_tests.specs.Serving.{IsTakenUp, events_of_again};

use crate::book::Book;
use crate::job::Job;
use dispatcher::calls_of_runs;
use event_mgr::{CloseOut, EventManager, MgrPass, calls_weigh};
use reg_keys::{Dir, Event, Opening};
use std::sync::Wait;
use stripe_table::{Load, Payload, RegisterReply};

/// How a registration came out.
#[derive(Drop)]
pub(crate) enum Again {
    /// It waits. The event that it named, if any, is to be given.
    Waits(Option<Event>),
    /// It was refused.
    Refused,
}

/// Registers the job that comes after the one of this number, with the mark that the run was given.
pub(crate) fn register_again<T: Load, R: Wait>(
    rt: &R,
    mgr: &EventManager<T>,
    pass: &mut MgrPass<T>,
    opening: Opening,
    number: u64,
    dir: Dir,
    mark: u64,
    job: T,
) -> Again
    requires own { IsOfMgr mgr.now pass.old }
    requires next { T.tag job ≡ tag_of opening (number + 1) }
    ensures own { IsOfMgr mgr.now pass.new }
    ensures made { HasMadeCalls (mgr_view pass.old) (events_of_again result) (mgr_view pass.new) }
    ensures taken { IsTakenUp opening number (mgr_view pass.old) result (mgr_view pass.new) }
{
    // Lets the contract speak of the number.
    let _number = number;
    // Laws of the calls, for the proof: they do nothing when run.
    calls_of_runs::<T>();
    calls_weigh::<T>();
    match mgr.register(rt, pass, opening, dir, Some(mark), Payload::Job(job)) {
        RegisterReply::Waits(_, event) => Again::Waits(event),
        RegisterReply::Shut(_) => Again::Refused,
        RegisterReply::Crowded(_) => Again::Refused,
        RegisterReply::Spent(_) => Again::Refused,
    }
}

/// Closes an opening. What waited there is dropped.
pub(crate) fn close<T: Load, R: Wait>(
    rt: &R,
    mgr: &EventManager<T>,
    pass: &mut MgrPass<T>,
    opening: Opening,
)
    requires { IsOfMgr mgr.now pass.old }
    ensures own { IsOfMgr mgr.now pass.new }
    ensures made { HasMadeCalls (mgr_view pass.old) [] (mgr_view pass.new) }
    ensures owes { (p : Opening) (n : ℕ) (finishes : Opening → ℕ → ℕ) (jobs : Jobs)
        → Owes p n finishes (mgr_view pass.old) jobs → Owes p n finishes (mgr_view pass.new) jobs }
{
    // Laws of the calls, for the proof: they do nothing when run.
    calls_of_runs::<T>();
    calls_weigh::<T>();
    let _closed: CloseOut<T> = mgr.close_fd(rt, pass, opening);
}

/// Closes the opening of a connection, which is finished from the job of this number.
pub(crate) fn finish<R: Wait>(
    rt: &R,
    mgr: &EventManager<Job>,
    pass: &mut MgrPass<Job>,
    book: &mut Book,
    opening: Opening,
    number: u64,
    read: u64,
)
    requires { IsOfMgr mgr.now pass.old }
    ensures own { IsOfMgr mgr.now pass.new }
    ensures made { HasMadeCalls (mgr_view pass.old) [] (mgr_view pass.new) }
    ensures finished { (jobs : Jobs)
        → Owes opening number (finishes_in book.old.finished.items) (mgr_view pass.old) jobs
        → Accounts (finishes_in book.new.finished.items) (mgr_view pass.new) jobs }
{
    close(rt, mgr, pass, opening);
    book.finish(opening, number, read);
}
