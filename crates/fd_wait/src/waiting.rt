//! The wait. It registers a flag, queues the event that the registration named, if any, and asks until the
//! flag has run or its opening was closed. Others make the turns in which that happens.
ghost use Rattle.std.specs.Prelude.{◌≡◌};
ghost use Rattle.ready_queue.specs.declared.rule.Move.TheVariants.{Put};
ghost use Rattle.ready_queue.specs.Calls.{IsOf, view_of, capacity_of, HasMoved};
ghost use Rattle.event_mgr.specs.Manager.{IsOfMgr, mgr_view};
ghost use Rattle.dispatcher.specs.Turns.{AreOf};
ghost use Rattle.fd_wait.specs.Waiting.{HasWaited, AsksUntil};

use dispatcher::DispPass;
use event_mgr::{AskOut, EventManager, MgrPass};
use ready_queue::{PutOut, QPass, ReadyQueue};
use reg_keys::{
    Dir, Event, Key, Marks, Opening, legal_draws_each_once, legal_runs_once,
    legal_runs_what_was_registered, legal_tells_of_flags,
};
use std::sync::Wait;
use std::thread::yield_now;
use stripe_table::{Load, Payload, RegisterReply};

/// How a wait came out.
#[derive(Drop)]
pub enum WaitOut {
    /// The flag has run, with these marks: the direction was reported ready.
    Ready(Marks),
    /// The opening was closed while the flag waited.
    Closed,
    /// The opening wasn't live as the flag was to be registered.
    Shut,
    /// The opening's four places were taken, or 512 flags of its stripe hadn't been asked for.
    Crowded,
    /// The numbers of the opening's stripe were used up, or its cell had 2^62 entries.
    Spent,
}

/// Waits until an opening is reported ready for a direction, or is closed. A mark tells which report the
/// caller has used up.
///
/// The caller gets no job and runs none: others report, dispatch and close. Where the queue is full it tries
/// again until the event that its registration named is put, and between two tries, of the queue as of the
/// flag, it yields. If another asks for its flag, it is told nothing and asks for ever.
pub fn wait<T: Load, R: Wait>(
    rt: &R,
    mgr: &EventManager<T>,
    queue: &ReadyQueue,
    passes: &mut DispPass<T>,
    opening: Opening,
    dir: Dir,
    mark: Option<u64>,
) -> WaitOut
    requires own { AreOf mgr.now queue.now passes.old }
    ensures own { AreOf mgr.now queue.now passes.new }
    ensures hand { passes.new.hand ≡ passes.old.hand }
    ensures waited { HasWaited (capacity_of queue.now) opening dir mark (mgr_view passes.old.mgr)
        (view_of passes.old.queue) result (mgr_view passes.new.mgr) (view_of passes.new.queue) }
{
    // Laws of legal histories, for the proof: they do nothing when run.
    legal_runs_once();
    legal_draws_each_once();
    legal_runs_what_was_registered();
    legal_tells_of_flags();
    match mgr.register(rt, &mut passes.mgr, opening, dir, mark, Payload::Flag) {
        RegisterReply::Waits(key, Some(event)) => {
            put_until_taken(rt, queue, &mut passes.queue, event);
            ask_until_told(rt, mgr, &mut passes.mgr, key)
        }
        RegisterReply::Waits(key, None) => ask_until_told(rt, mgr, &mut passes.mgr, key),
        RegisterReply::Shut(_) => WaitOut::Shut,
        RegisterReply::Crowded(_) => WaitOut::Crowded,
        RegisterReply::Spent(_) => WaitOut::Spent,
    }
}

/// Puts an event. A full queue is tried again.
fn put_until_taken<R: Wait>(rt: &R, queue: &ReadyQueue, pass: &mut QPass, event: Event)
    requires { IsOf queue.now pass.old }
    ensures own { IsOf queue.now pass.new }
    ensures put { HasMoved (capacity_of queue.now) (Put event) (view_of pass.old) (view_of pass.new) }
{
    let mut event = event;
    for _ in rt.forever() {
        match queue.put(rt, pass, event) {
            PutOut::Put => return,
            PutOut::Full(back) => event = back,
        }
        yield_now();
    }
    unreachable!()
}

/// Asks for a flag until it has run or was closed. `Unknown` says that another has asked for it and was told:
/// how the wait ended can't be known any more, so it asks on as where the flag waits.
fn ask_until_told<T: Load, R: Wait>(
    rt: &R,
    mgr: &EventManager<T>,
    pass: &mut MgrPass<T>,
    key: Key,
) -> WaitOut
    requires { IsOfMgr mgr.now pass.old }
    ensures own { IsOfMgr mgr.now pass.new }
    ensures asked { AsksUntil key (mgr_view pass.old) result (mgr_view pass.new) }
{
    for _ in rt.forever() {
        match mgr.ask(rt, pass, key) {
            AskOut::Ran(_, marks) => return WaitOut::Ready(marks),
            AskOut::Closed => return WaitOut::Closed,
            AskOut::Spent => return WaitOut::Spent,
            AskOut::Waiting | AskOut::Unknown => {}
        }
        yield_now();
    }
    unreachable!()
}
