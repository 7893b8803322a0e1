//! Dispatching one event: the stripe gives what fired, and each of it is run before anything else is
//! dispatched.
ghost use Rattle.std.specs.Prelude.{◌≡◌, ◌<◌, ◌≤◌, [], ◌∷◌, length, map, None, IfOk, IfErr};
ghost use Rattle.reg_keys.specs.declared.opening.Opening.{Opening};
ghost use Rattle.ready_queue.specs.Calls.{capacity_of};
ghost use Rattle.event_mgr.specs.Manager.{mgr_view};
ghost use Rattle.stripe_table.specs.Calls.{fired_key};
ghost use Rattle.dispatcher.specs.Entries.{firings};
ghost use Rattle.dispatcher.specs.Told.{Gains};
ghost use Rattle.dispatcher.specs.Books.{IsAccounted};
ghost use Rattle.dispatcher.specs.Firings.{jobs_of, job_keys_of};
ghost use Rattle.dispatcher.specs.Runs.{LeavesPolls};
ghost use Rattle.dispatcher.specs.Turns.{AreOf, IsReady, Leaves, GoesOn, book_of, book_with, work_with, code_of_halt, TakesNone, HasRunKeys, HasRunAll, HasHalted};

use crate::enqueue::put_or_keep_any;
use crate::hand::HAND;
use crate::outcome::Halt;
use crate::pass::DispPass;
use crate::runner::{AfterRun, EventPair, Runner};
use event_mgr::{EventManager, calls_weigh};
use ready_queue::ReadyQueue;
use reg_keys::Event;
use std::sync::Wait;
use stripe_table::{DispatchReply, Fired, FiredList, Load};

/// Runs what fired, in order. The events that a run gave are put or kept before the next one begins. With a
/// code, the jobs after the run that stopped went to `shut`.
fn run_all<T: Load, X: Runner<T>, R: Wait>(
    rt: &R,
    mgr: &EventManager<T>,
    queue: &ReadyQueue,
    passes: &mut DispPass<T>,
    runner: &mut X,
    list: FiredList<T>,
) -> Option<u8>
    requires own { AreOf mgr.now queue.now passes.old }
    requires stop { X.meaning.stop runner.old ≡ None }
    requires room { length passes.old.hand < HAND }
    requires fits { (o : Opening) × X.meaning.fits runner.old (mgr_view passes.old.mgr)
        (jobs_of (firings o (map (fired_key T.tag) list))) }
    ensures leaves { Leaves X.meaning X.Poller.meaning mgr.now queue.now result runner.old
        passes.new runner.new }
    ensures room { length passes.new.hand < HAND }
    ensures events { IsAccounted (capacity_of queue.now) (book_of passes.old) (book_of passes.new) }
    ensures takes { TakesNone passes.old passes.new }
    ensures ran { (o : Opening) → HasRunAll X.meaning
        (firings o (map (fired_key T.tag) list)) passes.old runner.old result passes.new runner.new }
{
    let mut list = list;
    while let Some(mut fired) = list.pop_first() {
        match runner.run(rt, mgr, &mut passes.mgr, &mut fired) {
            AfterRun::Events(pair) => {
                let EventPair { first, second } = pair;
                put_or_keep_any(rt, queue, &mut passes.queue, &mut passes.hand, first);
                put_or_keep_any(rt, queue, &mut passes.queue, &mut passes.hand, second);
            }
            AfterRun::Stop(code, pair) => {
                let EventPair { first, second } = pair;
                put_or_keep_any(rt, queue, &mut passes.queue, &mut passes.hand, first);
                put_or_keep_any(rt, queue, &mut passes.queue, &mut passes.hand, second);
                shut_all::<T, X>(passes, runner, list);
                return Some(code);
            }
        }
    }
    None
}

/// Gives the jobs that are left to `shut`, in order.
fn shut_all<T: Load, X: Runner<T>>(passes: &DispPass<T>, runner: &mut X, list: FiredList<T>)
    requires fits { (o : Opening) × X.meaning.fits runner.old (mgr_view passes.now.mgr)
        (jobs_of (firings o (map (fired_key T.tag) list))) }
    ensures stop { X.meaning.stop runner.new ≡ X.meaning.stop runner.old }
    ensures fits { X.meaning.fits runner.new (mgr_view passes.now.mgr) [] }
    ensures runs { X.meaning.runs runner.new ≡ X.meaning.runs runner.old }
    ensures shuts { (o : Opening)
        → Gains (X.meaning.shuts runner.old) (X.meaning.shuts runner.new)
        (job_keys_of (firings o (map (fired_key T.tag) list))) }
    ensures keeps { X.meaning.keeps runner.old runner.new }
    ensures poller { LeavesPolls X.Poller.meaning (X.meaning.poller_of runner.old)
        (X.meaning.poller_of runner.new) }
{
    // Lets the proof speak of the passes.
    let _passes = passes;
    let mut list = list;
    while let Some(fired) = list.pop_first() {
        let Fired {
            key,
            dir: _,
            marks: _,
            job,
        } = fired;
        if let Some(job) = job {
            runner.shut(key, job);
        }
    }
}

/// Dispatches an event and runs what fired. The event that the dispatch named is put or kept before the first
/// run. It answers how many keys fired, at most four.
pub(crate) fn dispatch<T: Load, X: Runner<T>, R: Wait>(
    rt: &R,
    mgr: &EventManager<T>,
    queue: &ReadyQueue,
    passes: &mut DispPass<T>,
    runner: &mut X,
    event: Event,
) -> Result<u64, Halt>
    requires ready { IsReady X.meaning mgr.now queue.now passes.old runner.old }
    requires room { length passes.old.hand < HAND }
    ensures leaves { Leaves X.meaning X.Poller.meaning mgr.now queue.now
        (code_of_halt result) runner.old passes.new runner.new }
    ensures room { IfOk result (λ _. length passes.new.hand < HAND) }
    ensures went { IfOk result (λ n. GoesOn X.meaning (capacity_of queue.now) n
        (book_with [] (event ∷ []) passes.old) passes.old runner.old passes.new runner.new) }
    ensures takes { IfOk result (λ _. TakesNone passes.old passes.new) }
    ensures few { IfOk result (λ n. n ≤ 4) }
    ensures halted { IfErr result
        (λ halt. HasHalted X.meaning [] (event ∷ []) [] passes.old runner.old halt passes.new runner.new) }
{
    // A law of the manager's calls, for the proof: it does nothing when run.
    calls_weigh::<T>();
    match mgr.dispatch(rt, &mut passes.mgr, event) {
        DispatchReply::Ran(list, next) => {
            let fired = list.len() as u64;
            put_or_keep_any(rt, queue, &mut passes.queue, &mut passes.hand, next);
            match run_all::<T, X, R>(rt, mgr, queue, passes, runner, list) {
                None => Ok(fired),
                Some(code) => Err(Halt::Stop(code)),
            }
        }
        DispatchReply::Stale => Ok(0),
        DispatchReply::Spent(back) => {
            passes.hand.push(back);
            Err(Halt::Spent)
        }
    }
}
