//! The beat of a server: from time to time connections on which nothing happens are ended, and open files
//! that nobody asks for are closed.
ghost use Rattle.std.specs.Prelude.{◌≡◌, IfOk, IfSome, None};
ghost use Rattle.turn_cell.specs.Calls.{view_of};
ghost use Rattle.timeout_mgr.specs.Calls.{view_of as seen_of};
ghost use Rattle.timeout_mgr.specs.Passes.{calls_of};
ghost use Rattle.poller.specs.Faults.{PollerFaults};
ghost use Rattle.warp_runner.specs.Sweeps.{HasSweptOnce};
ghost use Rattle.warp_core.specs.Beats.{HasBeat, HasCleaned, HasReaped, HasReapedTwice};
ghost use Rattle.warp_core.specs.Rows.{HasGoneOn, MayHalt, Serves, beat_of};
ghost use Rattle.warp_core.specs.SweepTimes.{IsDueAt, KeepsOn};

use crate::row::{Halted, Row};
use fd_cache::{Basket, Lease};
use outside::{Clock, Files};
use poller::Poller;
use std::alloc::{AllocError, Global};
use std::sync::Wait;
use timeout_mgr::Expired;
use warp_books::{Book, Finished};
use warp_jobs::{Gate, Job};
use warp_passes::{ReapOut, Shared, reap_once};

/// What the dispatcher needs that keeps the beats.
#[derive(Drop)]
pub(crate) struct Beats<F: Files> {
    seconds: u64,
    /// The moment of the last sweep; before the first one, the first moment that was asked for.
    last: Option<u64>,
    expired: Expired,
    /// Reaps fill it, and it is empty between them.
    basket: Basket<Lease<F>>,
}

impl<F: Files> Beats<F> {
    /// Nothing was asked yet. All memory that beats need is taken here.
    pub(crate) fn new(alloc: Global, seconds: u64) -> Result<Beats<F>, AllocError>
        ensures { IfOk result (λ beats. (beats.seconds ≡ seconds) × (beats.last ≡ None)) }
    {
        Ok(Beats {
            seconds,
            last: None,
            expired: Expired::new(alloc)?,
            basket: Basket::new(alloc)?,
        })
    }

    /// Whether a sweep is due at this moment, which then is the moment of the last one.
    /// At the first moment none is.
    fn is_due(&mut self, now: u64) -> bool
        ensures due { IsDueAt self.old.seconds self.old.last now result self.new.last }
        ensures seconds { self.new.seconds ≡ self.old.seconds }
    {
        let Some(last) = self.last else {
            self.last = Some(now);
            return false;
        };
        if now < last || now - last < self.seconds {
            return false;
        }
        self.last = Some(now);
        true
    }
}

/// Asks the clock, and sweeps where that is due, if the dispatcher keeps the beats. It answers why the
/// dispatcher makes no further turn, if so.
pub(crate) fn beat<P: Poller, F: Files, C: Clock, B: Book<Finished<P::Link, F>>, G: Gate, R: Wait>(
    rt: &R,
    shared: &Shared<Job<P, F>, F>,
    row: &mut Row<P, F, C, B, G>,
) -> Option<Halted>
    requires { Serves B.told P.meaning.faults shared.now row.old }
    ensures serves { Serves B.told P.meaning.faults shared.now row.new }
    ensures goes_on { HasGoneOn row.old row.new }
    ensures may_halt { IfSome result (λ halted. MayHalt B.told P.meaning.faults row.new halted) }
    ensures beat { HasBeat C.told row.old.beats row.old result row.new }
    ensures on { KeepsOn (beat_of C.told row.old) (beat_of C.told row.new) }
{
    let Some(mut beats) = row.beats.take() else {
        return None;
    };
    let now = row.runner.clock.now();
    if !beats.is_due(now) {
        row.beats = Some(beats);
        return None;
    }
    let (halted, left) = clean(rt, shared, row, beats);
    row.beats = Some(left);
    halted
}

/// Ends the connections on which nothing happened since the last sweep, and closes each file that nobody uses
/// at this moment. What keeps the beats comes back.
fn clean<P: Poller, F: Files, C: Clock, B: Book<Finished<P::Link, F>>, G: Gate, R: Wait>(
    rt: &R,
    shared: &Shared<Job<P, F>, F>,
    row: &mut Row<P, F, C, B, G>,
    beats: Beats<F>,
) -> (Option<Halted>, Beats<F>)
    requires { Serves B.told P.meaning.faults shared.now row.old }
    ensures serves { Serves B.told P.meaning.faults shared.now row.new }
    ensures goes_on { HasGoneOn row.old row.new }
    ensures clock { row.new.runner.clock ≡ row.old.runner.clock }
    ensures may_halt { IfSome result.0 (λ halted. MayHalt B.told P.meaning.faults row.new halted) }
    ensures cleaned { HasCleaned row.old result.0 row.new }
    ensures keeps { (result.1.seconds ≡ beats.seconds) × (result.1.last ≡ beats.last) }
{
    let Beats {
        seconds,
        last,
        mut expired,
        basket,
    } = beats;
    if let Some(halted) = sweep(rt, shared, row, &mut expired) {
        return (
            Some(halted),
            Beats {
                seconds,
                last,
                expired,
                basket,
            },
        );
    }
    let (halted, basket) = reap_twice(rt, shared, row, basket);
    (
        halted,
        Beats {
            seconds,
            last,
            expired,
            basket,
        },
    )
}

/// Sweeps the watches, and ends the connections whose openings the sweep gave.
fn sweep<P: Poller, F: Files, C: Clock, B: Book<Finished<P::Link, F>>, G: Gate, R: Wait>(
    rt: &R,
    shared: &Shared<Job<P, F>, F>,
    row: &mut Row<P, F, C, B, G>,
    expired: &mut Expired,
) -> Option<Halted>
    requires { Serves B.told P.meaning.faults shared.now row.old }
    ensures serves { Serves B.told P.meaning.faults shared.now row.new }
    ensures goes_on { HasGoneOn row.old row.new }
    ensures clock { row.new.runner.clock ≡ row.old.runner.clock }
    ensures may_halt { IfSome result (λ halted. MayHalt B.told P.meaning.faults row.new halted) }
    ensures swept { HasSweptOnce (calls_of (seen_of row.old.runner.timed))
        (calls_of (seen_of row.new.runner.timed)) }
{
    match row
        .runner
        .sweep(rt, &shared.mgr, &mut row.disp.mgr, expired)
    {
        Some(code) => Some(Halted::WithCode(code)),
        None => None,
    }
}

/// Closes the files that nobody asked for since the last beat.
///
/// It reaps twice: the first reap ends the grace of the files that were asked for since the last beat.
fn reap_twice<P: Poller, F: Files, C: Clock, B: Book<Finished<P::Link, F>>, G: Gate, R: Wait>(
    rt: &R,
    shared: &Shared<Job<P, F>, F>,
    row: &mut Row<P, F, C, B, G>,
    basket: Basket<Lease<F>>,
) -> (Option<Halted>, Basket<Lease<F>>)
    requires { Serves B.told P.meaning.faults shared.now row.old }
    ensures serves { Serves B.told P.meaning.faults shared.now row.new }
    ensures goes_on { HasGoneOn row.old row.new }
    ensures clock { row.new.runner.clock ≡ row.old.runner.clock }
    ensures may_halt { IfSome result.0 (λ halted. MayHalt B.told P.meaning.faults row.new halted) }
    ensures timed { row.new.runner.timed ≡ row.old.runner.timed }
    ensures reaped { result.0 ≡ None
        → HasReapedTwice (view_of row.old.runner.cached) (view_of row.new.runner.cached) }
{
    let (halted, basket) = reap(rt, shared, row, basket);
    match halted {
        Some(_) => (halted, basket),
        None => reap(rt, shared, row, basket),
    }
}

/// Closes the files that nobody asked for since the last reap.
fn reap<P: Poller, F: Files, C: Clock, B: Book<Finished<P::Link, F>>, G: Gate, R: Wait>(
    rt: &R,
    shared: &Shared<Job<P, F>, F>,
    row: &mut Row<P, F, C, B, G>,
    basket: Basket<Lease<F>>,
) -> (Option<Halted>, Basket<Lease<F>>)
    requires { Serves B.told P.meaning.faults shared.now row.old }
    ensures serves { Serves B.told P.meaning.faults shared.now row.new }
    ensures goes_on { HasGoneOn row.old row.new }
    ensures clock { row.new.runner.clock ≡ row.old.runner.clock }
    ensures may_halt { IfSome result.0 (λ halted. MayHalt B.told P.meaning.faults row.new halted) }
    ensures timed { row.new.runner.timed ≡ row.old.runner.timed }
    ensures reaped { result.0 ≡ None
        → HasReaped (view_of row.old.runner.cached) (view_of row.new.runner.cached) }
{
    let mut basket = basket;
    // It is empty, which the proof wants to see.
    basket.clear();
    let (out, back) = reap_once(rt, &shared.cache, &mut row.runner.cached, basket);
    match out {
        ReapOut::Reaped => (None, back),
        ReapOut::Spent => (Some(Halted::Spent), back),
    }
}
