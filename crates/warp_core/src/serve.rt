//! The server from its listener to its end.
ghost use Rattle.std.specs.Prelude.{◌≡◌, ◌⊎◌, ◌<◌, ◌≤◌, [], All, IfOk, None, Some, length, map};
ghost use Rattle.std.specs.Arc.{arc_value};
ghost use Rattle.turn_cell.specs.Weights.{weigh};
ghost use Rattle.poller.specs.Faults.{PollerFaults};
ghost use Rattle.warp_books.specs.Books.{IsBookOf};
ghost use Rattle.warp_passes.specs.Cells.{SeatsAreOnce};
ghost use Rattle.warp_passes.specs.Levels.{ArePassesLevel};
ghost use Rattle.warp_passes.specs.Passes.{AreOf, pass_view};
ghost use Rattle.dispatcher.specs.Stripes.{Each};
ghost use Rattle.warp_core.specs.declared.row.Halted.TheVariants as Halts;
ghost use Rattle.warp_core.specs.Beats.{KeptBeats};
ghost use Rattle.warp_core.specs.Ends.{EndsSo, HasCause};
ghost use Rattle.warp_core.specs.Events.{KeepAllEvents};
ghost use Rattle.warp_core.specs.Journals.{AreExplained, SomeDid};
ghost use Rattle.warp_core.specs.Rows.{HasGoneOn, OneDid, Serves, beat_of, known_by, stop_in};
ghost use Rattle.warp_core.specs.SweepTimes.{KeepsOn};

use crate::making::{Parts, rows_of};
use crate::row::{Halted, Row};
use crate::served::{ServeEnd, Served};
use crate::settling::settle;
use crate::turns::{halt, serve_row};
use fd_cache::Lease;
use outside::{Clock, Files};
use poller::Poller;
use ready_queue::histories_are_first_in_first_out;
use reg_keys::legal_stripes_happen_once;
use std::alloc::{AllocError, Global};
use std::sync::{Arc, Wait};
use std::thread::{Threads, for_each_mut};
use warp_books::{Book, Finished};
use warp_jobs::{Gate, Job, Kit};
use warp_passes::{
    ServePass, Shared, grown_passes_hold_the_seats, level_passes_add_up,
    moved_passes_hold_the_seats, shared_among,
};
use warp_runner::POLL_FAULT;

/// How many dispatchers are turned side by side at most.
const THREADS: usize = 64;

/// Serves what the listener gives, with one dispatcher for each kit, until `limit` links were accepted and
/// each is finished, or a dispatcher stops. Every `seconds` connections on which nothing happened are ended.
///
/// The caller owes 1 to 64 kits whose books are empty, a listener with no failed accept behind it, and a
/// `limit` and `seconds` of 1 or more. An error is want of memory for what the dispatchers share.
pub fn serve_loop<P, F, C, B, G, R>(
    rt: &R,
    alloc: Global,
    listener: P::Listener,
    kits: Vec<Kit<P, F, C, B, G>>,
    limit: u64,
    seconds: u64,
) -> Result<Served<P, F, C, B, G>, AllocError>
where
    P: Poller + Send + Drop,
    F: Files + Send + Drop,
    C: Clock + Send + Drop,
    B: Book<Finished<P::Link, F>> + Send,
    G: Gate + Send + Drop,
    R: Threads + Wait + Sync,
    P::Link: Send,
    P::Listener: Send,
    F::File: Send,
    requires kits { (0 < length kits.items) × (length kits.items ≤ 64) }
    requires books { All (λ kit. IsBookOf [] (B.told kit.book)) kits.items }
    requires listener { (P.Listener.told listener).failed_row ≡ 0 }
    requires least { (0 < limit) × (0 < seconds) }
    ensures own { IfOk result
        (λ served. All (λ pass. AreOf (arc_value served.shared) pass) served.passes.items) }
    ensures level { IfOk result (λ served. ArePassesLevel pass_view served.passes.items) }
    ensures events { IfOk result (λ served. KeepAllEvents pass_view served.passes.items) }
    ensures explained { IfOk result
        (λ served. AreExplained B.told limit served.passes.items served.kits.items) }
    ensures count { IfOk result (λ served. length served.kits.items ≡ length kits.items) }
    ensures ends { IfOk result (λ served. EndsSo pass_view limit served.end served.passes.items
        (weigh (λ kit. (P.meaning.faults kit.poller).polls) served.kits.items)) }
    ensures cause { IfOk result
        (λ served. HasCause served.end (SomeDid B.told limit served.passes.items served.kits.items)) }
    ensures beats { IfOk result
        (λ served. KeptBeats C.told seconds served.passes.items served.kits.items) }
    ensures same { IfOk result (λ served. (served.limit ≡ limit) × (served.seconds ≡ seconds)) }
{
    // Laws of seats, of level passes and of histories, for the proof: they do nothing when run.
    moved_passes_hold_the_seats::<ServePass<Job<P, F>, F>, Row<P, F, C, B, G>, Lease<F>>();
    level_passes_add_up::<ServePass<Job<P, F>, F>, Lease<F>>();
    legal_stripes_happen_once();
    histories_are_first_in_first_out();
    let count = kits.len();
    let parts = Parts::with_capacity(alloc, count)?;
    let (shared, passes) = shared_among(alloc, count)?;
    let shared = Arc::new(alloc, shared)?;
    let mut rows = rows_of(alloc, &shared, passes, kits, limit, seconds)?;
    let end = listen_and_serve(rt, &shared, rows.as_mut_slice(), listener, limit);
    let Parts {
        passes,
        kits,
        listener,
    } = parts.fill(rows);
    Ok(Served {
        end,
        shared,
        passes,
        kits,
        listener,
        limit,
        seconds,
    })
}

/// The first dispatcher begins to listen, and then all are turned until the server ended.
fn listen_and_serve<P, F, C, B, G, R>(
    rt: &R,
    shared: &Shared<Job<P, F>, F>,
    rows: &mut [Row<P, F, C, B, G>],
    listener: P::Listener,
    limit: u64,
) -> ServeEnd
where
    P: Poller + Send,
    F: Files + Send,
    C: Clock + Send,
    B: Book<Finished<P::Link, F>> + Send,
    G: Gate + Send,
    R: Threads + Wait + Sync,
    P::Link: Send,
    P::Listener: Send,
    F::File: Send,
    requires some { 0 < length rows.old }
    requires serve { All (λ row. Serves B.told P.meaning.faults shared.now row) rows.old }
    requires limit { All (λ row. row.runner.limit ≡ limit) rows.old }
    requires new { SeatsAreOnce known_by rows.old × All (λ row. row.disp.hand ≡ []) rows.old }
    requires listener { (P.Listener.told listener).failed_row ≡ 0 }
    ensures serve { All (λ row. Serves B.told P.meaning.faults shared.now row) rows.new
        × All (λ row. row.runner.limit ≡ limit) rows.new }
    ensures beats { Each KeepsOn (map (beat_of C.told) rows.old) (map (beat_of C.told) rows.new) }
    ensures level { ArePassesLevel known_by rows.new }
    ensures cause { HasCause result (OneDid B.told limit rows.new) }
    ensures ends { EndsSo known_by limit result rows.new
        (weigh (λ row. (P.meaning.faults row.runner.poller).polls) rows.new) }
{
    begin(rt, shared, rows, listener);
    serve_on(rt, shared, rows, limit)
}

/// The first dispatcher begins to listen.
fn begin<P: Poller, F: Files, C: Clock, B: Book<Finished<P::Link, F>>, G: Gate, R: Wait>(
    rt: &R,
    shared: &Shared<Job<P, F>, F>,
    rows: &mut [Row<P, F, C, B, G>],
    listener: P::Listener,
)
    requires some { 0 < length rows.old }
    requires serve { All (λ row. Serves B.told P.meaning.faults shared.now row) rows.old }
    requires seats { SeatsAreOnce known_by rows.old }
    requires hands { All (λ row. row.disp.hand ≡ []) rows.old }
    requires listener { (P.Listener.told listener).failed_row ≡ 0 }
    ensures serve { All (λ row. Serves B.told P.meaning.faults shared.now row) rows.new }
    ensures seats { SeatsAreOnce known_by rows.new }
    ensures limit { map (λ row. row.runner.limit) rows.new ≡ map (λ row. row.runner.limit) rows.old }
    ensures beats { Each KeepsOn (map (beat_of C.told) rows.old) (map (beat_of C.told) rows.new) }
{
    // A law of seats, for the proof: it does nothing when run.
    grown_passes_hold_the_seats::<Row<P, F, C, B, G>, Lease<F>>();
    let row = &mut rows[0];
    listen(rt, shared, row, listener);
}

/// A dispatcher begins to listen, or makes no turn.
fn listen<P: Poller, F: Files, C: Clock, B: Book<Finished<P::Link, F>>, G: Gate, R: Wait>(
    rt: &R,
    shared: &Shared<Job<P, F>, F>,
    row: &mut Row<P, F, C, B, G>,
    listener: P::Listener,
)
    requires serves { Serves B.told P.meaning.faults shared.now row.old }
    requires hand { row.old.disp.hand ≡ [] }
    requires listener { (P.Listener.told listener).failed_row ≡ 0 }
    ensures serves { Serves B.told P.meaning.faults shared.now row.new }
    ensures goes_on { HasGoneOn row.old row.new }
    ensures on { KeepsOn (beat_of C.told row.old) (beat_of C.told row.new) }
{
    // Nothing has stopped the dispatcher.
    row.halted = None;
    match row
        .runner
        .begin_listening(rt, &shared.mgr, &mut row.disp.mgr, listener)
    {
        Ok(None) => {}
        Ok(Some(event)) => row.disp.hand.push(event),
        Err(code) => halt(rt, shared, row, halted_with(code)),
    }
}

/// Why a dispatcher makes no turn that couldn't begin to listen.
fn halted_with(code: u8) -> Halted
    ensures faulted { result ≡ Halts.PollFault → code ≡ 8 }
    ensures stops { (stop_in (Some result) ≡ None) ⊎ (stop_in (Some result) ≡ Some code) }
{
    if code == POLL_FAULT {
        Halted::PollFault
    } else {
        Halted::WithCode(code)
    }
}

/// Turns all dispatchers until the server ended.
fn serve_on<P, F, C, B, G, R>(
    rt: &R,
    shared: &Shared<Job<P, F>, F>,
    rows: &mut [Row<P, F, C, B, G>],
    limit: u64,
) -> ServeEnd
where
    P: Poller + Send,
    F: Files + Send,
    C: Clock + Send,
    B: Book<Finished<P::Link, F>> + Send,
    G: Gate + Send,
    R: Threads + Wait + Sync,
    P::Link: Send,
    P::Listener: Send,
    F::File: Send,
    requires some { 0 < length rows.old }
    requires serve { All (λ row. Serves B.told P.meaning.faults shared.now row) rows.old }
    requires limit { All (λ row. row.runner.limit ≡ limit) rows.old }
    requires seats { SeatsAreOnce known_by rows.old }
    ensures serve { All (λ row. Serves B.told P.meaning.faults shared.now row) rows.new }
    ensures limit { All (λ row. row.runner.limit ≡ limit) rows.new }
    ensures beats { Each KeepsOn (map (beat_of C.told) rows.old) (map (beat_of C.told) rows.new) }
    ensures level { ArePassesLevel known_by rows.new }
    ensures cause { HasCause result (OneDid B.told limit rows.new) }
    ensures ends { EndsSo known_by limit result rows.new
        (weigh (λ row. (P.meaning.faults row.runner.poller).polls) rows.new) }
{
    for _ in rt.forever() {
        if let Some(end) = settle(rt, shared, rows, limit) {
            return end;
        }
        turn_all(rt, shared, rows);
    }
    unreachable!()
}

/// Turns all dispatchers, each in a thread of its own, until they make no further turn.
fn turn_all<P, F, C, B, G, R>(
    rt: &R,
    shared: &Shared<Job<P, F>, F>,
    rows: &mut [Row<P, F, C, B, G>],
)
where
    P: Poller + Send,
    F: Files + Send,
    C: Clock + Send,
    B: Book<Finished<P::Link, F>> + Send,
    G: Gate + Send,
    R: Threads + Wait + Sync,
    P::Link: Send,
    P::Listener: Send,
    F::File: Send,
    requires serve { All (λ row. Serves B.told P.meaning.faults shared.now row) rows.old }
    requires seats { SeatsAreOnce known_by rows.old }
    ensures serve { All (λ row. Serves B.told P.meaning.faults shared.now row) rows.new }
    ensures seats { SeatsAreOnce known_by rows.new }
    ensures limit { map (λ row. row.runner.limit) rows.new ≡ map (λ row. row.runner.limit) rows.old }
    ensures beats { Each KeepsOn (map (beat_of C.told) rows.old) (map (beat_of C.told) rows.new) }
{
    // A law of seats, for the proof: it does nothing when run.
    grown_passes_hold_the_seats::<Row<P, F, C, B, G>, Lease<F>>();
    for_each_mut(
        rt,
        rows,
        THREADS,
        &|_i: usize, row: &mut Row<P, F, C, B, G>| -> ()
            requires { Serves B.told P.meaning.faults shared.now row.old }
            ensures { Serves B.told P.meaning.faults shared.entry.now row.new × HasGoneOn row.old row.new
                × KeepsOn (beat_of C.told row.old) (beat_of C.told row.new) }
        { serve_row(rt, shared, row) },
    );
}
