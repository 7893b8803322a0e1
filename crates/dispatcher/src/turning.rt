//! A turn of a dispatcher: the hand, the queue, the poll and the reports, in this order.
ghost use Rattle.std.specs.Prelude.{◌≡◌, ◌+◌, ◌*◌, ◌<◌, ◌≤◌, ◌⊎◌, ◌==◌, ◌&&◌, [], ◌∷◌, length, None, IfOk, IfErr};
ghost use Rattle.ready_queue.specs.Calls.{view_of, capacity_of};
ghost use Rattle.event_mgr.specs.Manager.{mgr_view};
ghost use Rattle.dispatcher.specs.Books.{IsAccounted, WasFullWithin, taken};
ghost use Rattle.dispatcher.specs.Runs.{LeavesPolls};
ghost use Rattle.dispatcher.specs.Turns.{AreOf, IsReady, Leaves, GoesOn, book_of, book_with, work_with, code_of_halt, TakesNone, EventsTaken, HasPolledOnce, HasRunKeys, HasHalted, HasReportedOne, HasReportedAll, HasLeftReports, HasTurned, stop_of};

use crate::dispatch::dispatch;
use crate::enqueue::put_or_keep_any;
use crate::hand::{HAND, Hand};
use crate::outcome::{Halt, ReportOut, TurnTally, Turned};
use crate::pass::DispPass;
use crate::runner::Runner;
use event_mgr::{EventManager, calls_weigh};
use poller::{PollOut, Poller, REPORTS, Reports};
use ready_queue::{PutOut, ReadyQueue, TakeOut};
use reg_keys::{Dirs, Event, Opening};
use std::sync::Wait;
use stripe_table::{Load, ReportReply};

/// How many events may be in the hand before an event is taken or a report is made.
///
/// A dispatch may name nine events, its own and two for each of its four keys. So the hand has room for what
/// a few of them name while the queue is full, but not for every case: a dispatcher that empties its hand
/// over a full queue dispatches each event in it, and where these name more than the hand holds,
/// `put_or_keep` tries again until somebody takes from the queue. A queue with a place for each event that is
/// out at a time is never full.
const KEPT: usize = HAND / 2;

/// One turn: it puts or dispatches what is in the hand, takes at most `max` events from the queue and
/// dispatches each, polls once, and reports each pair that the poll gave. A poll may wait where no event was
/// taken and none is in the hand.
///
/// The caller owes passes of this manager and this queue, a runner that hasn't stopped, and `reports` that
/// are empty (`Reports::clear`).
///
/// An event that a call names is put into the queue before the next job runs and before the next event is
/// taken. Where the queue is full it stays in the hand; the hand's events are put, or dispatched as they are,
/// in the next turn, and within this one before the next event or report where there are 32 or more. Where
/// fewer than four places of the hand are free, the turn waits until the queue takes the event. Nothing is
/// allocated but by the runner and the poller.
pub fn turn<T: Load, X: Runner<T>, R: Wait>(
    rt: &R,
    mgr: &EventManager<T>,
    queue: &ReadyQueue,
    passes: &mut DispPass<T>,
    runner: &mut X,
    reports: &mut Reports,
    max: u32,
) -> Turned
    requires ready { IsReady X.meaning mgr.now queue.now passes.old runner.old }
    requires empty { reports.old ≡ [] }
    ensures own { AreOf mgr.now queue.now passes.new }
    ensures stop { X.meaning.stop runner.new ≡ stop_of result }
    ensures fits { X.meaning.fits runner.new (mgr_view passes.new.mgr) [] }
    ensures turned { HasTurned X.meaning X.Poller.meaning
        (capacity_of queue.now) max passes.old runner.old result reports.new passes.new runner.new }
{
    let kept = match empty_hand::<T, X, R>(rt, mgr, queue, passes, runner) {
        Ok(ran) => ran,
        Err(halt) => return halt.turned(),
    };
    let taken = match take_events::<T, X, R>(rt, mgr, queue, passes, runner, max) {
        Ok(count) => count,
        Err(halt) => return halt.turned(),
    };
    let idle = may_wait(taken.handled, &passes.hand);
    match poll_once::<T, X, R>(rt, runner, idle, reports) {
        PollOut::Polled => {}
        PollOut::Failed => return Turned::PollFault,
    }
    match report_all::<T, X, R>(rt, mgr, queue, passes, runner, reports) {
        Ok(told) => Turned::Done {
            reports: told.handled,
            ran: kept + taken.ran + told.ran,
        },
        Err(halt) => halt.turned(),
    }
}

/// A poll may wait where no event was taken and none is in the hand.
fn may_wait(taken: u64, hand: &Hand) -> bool
    ensures { result ≡ ((taken == 0) && (length hand.now == 0)) }
{
    taken == 0 && hand.len() == 0
}

/// Polls once. Nothing of the runner changes but its poller.
fn poll_once<T: Load, X: Runner<T>, R: Wait>(
    rt: &R,
    runner: &mut X,
    idle: bool,
    reports: &mut Reports,
) -> PollOut
    requires { reports.old ≡ [] }
    ensures { HasPolledOnce X.meaning X.Poller.meaning idle runner.old result reports.new runner.new }
{
    runner.poller().poll(rt, idle, reports)
}

/// Puts an event of the hand into the queue, or dispatches it by itself where the queue is full.
fn put_or_dispatch<T: Load, X: Runner<T>, R: Wait>(
    rt: &R,
    mgr: &EventManager<T>,
    queue: &ReadyQueue,
    passes: &mut DispPass<T>,
    runner: &mut X,
    event: Event,
) -> Result<u64, Halt>
    requires ready { IsReady X.meaning mgr.now queue.now passes.old runner.old }
    requires room { length passes.old.hand < HAND }
    ensures leaves { Leaves X.meaning X.Poller.meaning mgr.now queue.now
        (code_of_halt result) runner.old passes.new runner.new }
    ensures room { IfOk result (λ _. length passes.new.hand < HAND) }
    ensures went { IfOk result (λ n. GoesOn X.meaning (capacity_of queue.now) n
        (book_with (event ∷ []) [] passes.old) passes.old runner.old passes.new runner.new) }
    ensures takes { IfOk result (λ _. TakesNone passes.old passes.new) }
    ensures few { IfOk result (λ n. n ≤ 4) }
    ensures halted { IfErr result
        (λ halt. HasHalted X.meaning (event ∷ []) [] [] passes.old runner.old halt passes.new runner.new) }
{
    match queue.put(rt, &mut passes.queue, event) {
        PutOut::Put => Ok(0),
        PutOut::Full(back) => dispatch::<T, X, R>(rt, mgr, queue, passes, runner, back),
    }
}

/// Puts or dispatches each event that is in the hand. It answers how many keys fired.
fn empty_hand<T: Load, X: Runner<T>, R: Wait>(
    rt: &R,
    mgr: &EventManager<T>,
    queue: &ReadyQueue,
    passes: &mut DispPass<T>,
    runner: &mut X,
) -> Result<u64, Halt>
    requires ready { IsReady X.meaning mgr.now queue.now passes.old runner.old }
    ensures leaves { Leaves X.meaning X.Poller.meaning mgr.now queue.now
        (code_of_halt result) runner.old passes.new runner.new }
    ensures room { IfOk result (λ _. 0 < length passes.old.hand → length passes.new.hand < HAND) }
    ensures went { IfOk result (λ n. GoesOn X.meaning (capacity_of queue.now) n
        (book_of passes.old) passes.old runner.old passes.new runner.new) }
    ensures emptied { IfOk result
        (λ _. WasFullWithin (capacity_of queue.now) (view_of passes.old.queue) (view_of passes.new.queue)
        ⊎ (passes.new.hand ≡ [])) }
    ensures takes { IfOk result (λ _. TakesNone passes.old passes.new) }
    ensures few { IfOk result (λ n. n ≤ 4 * HAND) }
    ensures halted { IfErr result
        (λ halt. HasHalted X.meaning [] [] [] passes.old runner.old halt passes.new runner.new) }
{
    let mut ran = 0u64;
    for _ in 0..passes.hand.len() {
        let Some(event) = passes.hand.pop_first() else {
            return Ok(ran);
        };
        match put_or_dispatch::<T, X, R>(rt, mgr, queue, passes, runner, event) {
            Ok(fired) => ran += fired,
            Err(halt) => return Err(halt),
        }
    }
    Ok(ran)
}

/// The same, where `KEPT` events or more are in the hand. Where the queue takes them, the hand has room
/// again.
fn relieve<T: Load, X: Runner<T>, R: Wait>(
    rt: &R,
    mgr: &EventManager<T>,
    queue: &ReadyQueue,
    passes: &mut DispPass<T>,
    runner: &mut X,
) -> Result<u64, Halt>
    requires ready { IsReady X.meaning mgr.now queue.now passes.old runner.old }
    ensures leaves { Leaves X.meaning X.Poller.meaning mgr.now queue.now
        (code_of_halt result) runner.old passes.new runner.new }
    ensures room { IfOk result (λ _. length passes.new.hand < HAND) }
    ensures went { IfOk result (λ n. GoesOn X.meaning (capacity_of queue.now) n
        (book_of passes.old) passes.old runner.old passes.new runner.new) }
    ensures takes { IfOk result (λ _. TakesNone passes.old passes.new) }
    ensures few { IfOk result (λ n. n ≤ 4 * HAND) }
    ensures halted { IfErr result
        (λ halt. HasHalted X.meaning [] [] [] passes.old runner.old halt passes.new runner.new) }
{
    if passes.hand.len() < KEPT {
        return Ok(0);
    }
    empty_hand::<T, X, R>(rt, mgr, queue, passes, runner)
}

/// Takes at most `max` events, and dispatches each.
fn take_events<T: Load, X: Runner<T>, R: Wait>(
    rt: &R,
    mgr: &EventManager<T>,
    queue: &ReadyQueue,
    passes: &mut DispPass<T>,
    runner: &mut X,
    max: u32,
) -> Result<TurnTally, Halt>
    requires ready { IsReady X.meaning mgr.now queue.now passes.old runner.old }
    ensures leaves { Leaves X.meaning X.Poller.meaning mgr.now queue.now
        (code_of_halt result) runner.old passes.new runner.new }
    ensures went { IfOk result (λ count. GoesOn X.meaning (capacity_of queue.now) count.ran
        (book_of passes.old) passes.old runner.old passes.new runner.new) }
    ensures takes { IfOk result (λ _. EventsTaken (capacity_of queue.now) max passes.old passes.new) }
    ensures counted { IfOk result
        (λ count. taken (λ _. 1) (book_of passes.new) ≡ taken (λ _. 1) (book_of passes.old) + count.handled) }
    ensures few { IfOk result (λ count. count.ran ≤ (4 * HAND + 4) * max) }
    ensures halted { IfErr result
        (λ halt. HasHalted X.meaning [] [] [] passes.old runner.old halt passes.new runner.new) }
{
    let mut count = TurnTally { handled: 0, ran: 0 };
    for _ in 0..max {
        match relieve::<T, X, R>(rt, mgr, queue, passes, runner) {
            Ok(ran) => count.ran += ran,
            Err(halt) => return Err(halt),
        }
        let TakeOut::Taken(event) = queue.take(rt, &mut passes.queue) else {
            return Ok(count);
        };
        match dispatch::<T, X, R>(rt, mgr, queue, passes, runner, event) {
            Ok(ran) => count.ran += ran,
            Err(halt) => return Err(halt),
        }
        count.handled += 1;
    }
    Ok(count)
}

/// Reports one pair, and puts or keeps the event that the report named.
fn report_one<T: Load, X: Runner<T>, R: Wait>(
    rt: &R,
    mgr: &EventManager<T>,
    queue: &ReadyQueue,
    passes: &mut DispPass<T>,
    runner: &X,
    opening: Opening,
    dirs: Dirs,
) -> ReportOut
    requires own { AreOf mgr.now queue.now passes.old }
    requires room { length passes.old.hand < HAND }
    requires fits { X.meaning.fits runner.now (mgr_view passes.old.mgr) [] }
    ensures own { AreOf mgr.now queue.now passes.new }
    ensures fits { X.meaning.fits runner.now (mgr_view passes.new.mgr) [] }
    ensures takes { TakesNone passes.old passes.new }
    ensures reported { HasReportedOne X.meaning (capacity_of queue.now)
        (opening, dirs) passes.old runner.now result passes.new }
{
    // Lets the proof speak of the runner.
    let _runner = runner;
    // A law of the manager's calls, for the proof: it does nothing when run.
    calls_weigh::<T>();
    match mgr.report(rt, &mut passes.mgr, opening, dirs) {
        ReportReply::Noted(event) => {
            put_or_keep_any(rt, queue, &mut passes.queue, &mut passes.hand, event);
            ReportOut::Made
        }
        ReportReply::Stale => ReportOut::Made,
        ReportReply::Spent => ReportOut::Spent,
    }
}

/// Reports each pair, in order.
fn report_all<T: Load, X: Runner<T>, R: Wait>(
    rt: &R,
    mgr: &EventManager<T>,
    queue: &ReadyQueue,
    passes: &mut DispPass<T>,
    runner: &mut X,
    reports: &mut Reports,
) -> Result<TurnTally, Halt>
    requires ready { IsReady X.meaning mgr.now queue.now passes.old runner.old }
    ensures leaves { Leaves X.meaning X.Poller.meaning mgr.now queue.now
        (code_of_halt result) runner.old passes.new runner.new }
    ensures events { IfOk result
        (λ _. IsAccounted (capacity_of queue.now) (book_of passes.old) (book_of passes.new)) }
    ensures takes { IfOk result (λ _. TakesNone passes.old passes.new) }
    ensures few { IfOk result (λ count. count.ran ≤ 4 * HAND * REPORTS) }
    ensures ran { IfOk result (λ count.
        HasReportedAll X.meaning count passes.old runner.old reports.old passes.new runner.new reports.new) }
    ensures halted { IfErr result (λ halt.
        HasLeftReports X.meaning passes.old runner.old reports.old halt passes.new runner.new reports.new) }
{
    // Makes the bound on the reports known to the proof.
    let _most = reports.len();
    let mut count = TurnTally { handled: 0, ran: 0 };
    while let Some((opening, dirs)) = reports.pop_first() {
        match relieve::<T, X, R>(rt, mgr, queue, passes, runner) {
            Ok(ran) => count.ran += ran,
            Err(halt) => {
                put_first(reports, opening, dirs);
                return Err(halt);
            }
        }
        match report_one::<T, X, R>(rt, mgr, queue, passes, runner, opening, dirs) {
            ReportOut::Made => {}
            ReportOut::Spent => {
                put_first(reports, opening, dirs);
                return Err(Halt::Spent);
            }
        }
        count.handled += 1;
    }
    Ok(count)
}

/// Puts a pair back before the others, which all go round once. It is done once in a turn at most, as the
/// turn ends.
fn put_first(reports: &mut Reports, opening: Opening, dirs: Dirs)
    requires { length reports.old < REPORTS }
    ensures { reports.new ≡ (opening, dirs) ∷ reports.old }
{
    let others = reports.len();
    reports.push(opening, dirs);
    for _ in 0..others {
        if let Some((next, ready)) = reports.pop_first() {
            reports.push(next, ready);
        }
    }
}
