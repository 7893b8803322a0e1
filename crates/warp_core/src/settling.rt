//! How a server ends whose dispatchers made their last turns.
ghost use Rattle.std.specs.Prelude.{◌≡◌, ◌+◌, ◌<◌, All, Any, IfSome, IsSomeAnd, IsTrue, length, map};
ghost use Rattle.turn_cell.specs.Calls.{view_of};
ghost use Rattle.turn_cell.specs.Weights.{weigh};
ghost use Rattle.poller.specs.Faults.{PollerFaults};
ghost use Rattle.dispatcher.specs.Stripes.{Each};
ghost use Rattle.warp_passes.specs.Cells.{CameLevel, OwnIsKept, SeatsAreOnce};
ghost use Rattle.warp_passes.specs.Levels.{ArePassesLevel};
ghost use Rattle.warp_core.specs.Ends.{EndsSo, HasCause};
ghost use Rattle.warp_core.specs.Rows.{HasGoneOn, OneDid, Serves, beat_of, known_by};
ghost use Rattle.warp_core.specs.Settling.{EndOf, HasLooked, SaysSo, ShowsOver};
ghost use Rattle.warp_core.specs.SweepTimes.{KeepsOn};

use crate::row::{Halted, Row};
use crate::served::{Counts, ServeEnd};
use fd_cache::Lease;
use outside::{Clock, Files};
use poller::Poller;
use std::sync::Wait;
use warp_books::{Book, Finished};
use warp_jobs::{Gate, Job};
use warp_passes::{
    Shared, TallyOut, bring_rows_level, grown_passes_hold_the_seats, level_passes_add_up,
    levelled_rows_are_level,
};
use warp_runner::{ACCEPT_FAULT, NO_MEMORY};
use warp_tally::{TallyReply, full_counts_close_each, replies_show_the_counts};

/// Brings the passes of all dispatchers level, and says how the server ended, if it did.
pub(crate) fn settle<
    P: Poller,
    F: Files,
    C: Clock,
    B: Book<Finished<P::Link, F>>,
    G: Gate,
    R: Wait,
>(
    rt: &R,
    shared: &Shared<Job<P, F>, F>,
    rows: &mut [Row<P, F, C, B, G>],
    limit: u64,
) -> Option<ServeEnd>
    requires some { 0 < length rows.old }
    requires serve { All (λ row. Serves B.told P.meaning.faults shared.now row) rows.old }
    requires limit { All (λ row. row.runner.limit ≡ limit) rows.old }
    requires seats { SeatsAreOnce known_by rows.old }
    ensures serve { All (λ row. Serves B.told P.meaning.faults shared.now row) rows.new }
    ensures limit { All (λ row. row.runner.limit ≡ limit) rows.new }
    ensures beats { Each KeepsOn (map (beat_of C.told) rows.old) (map (beat_of C.told) rows.new) }
    ensures seats { SeatsAreOnce known_by rows.new }
    ensures level { ArePassesLevel known_by rows.new }
    ensures cause { IfSome result (λ end. HasCause end (OneDid B.told limit rows.new)) }
    ensures ends { IfSome result (λ end. EndsSo known_by limit end rows.new
        (weigh (λ row. (P.meaning.faults row.runner.poller).polls) rows.new)) }
{
    let over = show_over(rt, shared, rows, limit);
    match first_halt(rows) {
        Some(end) => Some(end),
        None => over,
    }
}

/// Brings all passes level, looks at the tally, and brings them level again, so that each has seen the look.
fn show_over<P: Poller, F: Files, C: Clock, B: Book<Finished<P::Link, F>>, G: Gate, R: Wait>(
    rt: &R,
    shared: &Shared<Job<P, F>, F>,
    rows: &mut [Row<P, F, C, B, G>],
    limit: u64,
) -> Option<ServeEnd>
    requires some { 0 < length rows.old }
    requires serve { All (λ row. Serves B.told P.meaning.faults shared.now row) rows.old }
    requires limit { All (λ row. row.runner.limit ≡ limit) rows.old }
    requires seats { SeatsAreOnce known_by rows.old }
    ensures serve { All (λ row. Serves B.told P.meaning.faults shared.now row) rows.new }
    ensures limit { All (λ row. row.runner.limit ≡ limit) rows.new }
    ensures beats { Each KeepsOn (map (beat_of C.told) rows.old) (map (beat_of C.told) rows.new) }
    ensures seats { SeatsAreOnce known_by rows.new }
    ensures level { ArePassesLevel known_by rows.new }
    ensures ends { ShowsOver known_by limit result rows.new }
{
    // Laws, for the proof: they do nothing when run.
    level_passes_add_up::<Row<P, F, C, B, G>, Lease<F>>();
    replies_show_the_counts();
    full_counts_close_each();
    bring_level(shared, rows);
    let over = look_first(rt, shared, rows, limit);
    bring_level(shared, rows);
    over
}

/// Brings the passes of all dispatchers level.
fn bring_level<P: Poller, F: Files, C: Clock, B: Book<Finished<P::Link, F>>, G: Gate>(
    shared: &Shared<Job<P, F>, F>,
    rows: &mut [Row<P, F, C, B, G>],
)
    requires serve { All (λ row. Serves B.told P.meaning.faults shared.now row) rows.old }
    requires seats { SeatsAreOnce known_by rows.old }
    ensures serve { All (λ row. Serves B.told P.meaning.faults shared.now row) rows.new }
    ensures limit { map (λ row. row.runner.limit) rows.new ≡ map (λ row. row.runner.limit) rows.old }
    ensures beats { Each KeepsOn (map (beat_of C.told) rows.old) (map (beat_of C.told) rows.new) }
    ensures seats { SeatsAreOnce known_by rows.new }
    ensures level { ArePassesLevel known_by rows.new }
    ensures came { CameLevel known_by rows.old rows.new }
    ensures keeps { OwnIsKept known_by rows.old rows.new }
{
    // A law of levelling, for the proof: it does nothing when run.
    levelled_rows_are_level::<Row<P, F, C, B, G>, Lease<F>>();
    bring_rows_level(shared, rows);
}

/// Looks at the tally with the first dispatcher's pass.
fn look_first<P: Poller, F: Files, C: Clock, B: Book<Finished<P::Link, F>>, G: Gate, R: Wait>(
    rt: &R,
    shared: &Shared<Job<P, F>, F>,
    rows: &mut [Row<P, F, C, B, G>],
    limit: u64,
) -> Option<ServeEnd>
    requires some { 0 < length rows.old }
    requires serve { All (λ row. Serves B.told P.meaning.faults shared.now row) rows.old }
    requires seats { SeatsAreOnce known_by rows.old }
    ensures serve { All (λ row. Serves B.told P.meaning.faults shared.now row) rows.new }
    ensures limit { map (λ row. row.runner.limit) rows.new ≡ map (λ row. row.runner.limit) rows.old }
    ensures beats { Each KeepsOn (map (beat_of C.told) rows.old) (map (beat_of C.told) rows.new) }
    ensures seats { SeatsAreOnce known_by rows.new }
    ensures looked { HasLooked known_by limit result rows.old rows.new }
{
    // A law of seats, for the proof: it does nothing when run.
    grown_passes_hold_the_seats::<Row<P, F, C, B, G>, Lease<F>>();
    let row = &mut rows[0];
    look_for_over(rt, shared, row, limit)
}

/// Whether a look at the tally shows that as many links were accepted as was to be, and that each
/// is finished or was turned away.
fn look_for_over<P: Poller, F: Files, C: Clock, B: Book<Finished<P::Link, F>>, G: Gate, R: Wait>(
    rt: &R,
    shared: &Shared<Job<P, F>, F>,
    row: &mut Row<P, F, C, B, G>,
    limit: u64,
) -> Option<ServeEnd>
    requires { Serves B.told P.meaning.faults shared.now row.old }
    ensures serves { Serves B.told P.meaning.faults shared.now row.new }
    ensures goes_on { HasGoneOn row.old row.new }
    ensures on { KeepsOn (beat_of C.told row.old) (beat_of C.told row.new) }
    ensures says { SaysSo limit result (view_of row.old.runner.tallied) (view_of row.new.runner.tallied) }
{
    // Lets the contract speak of it.
    let _shared = shared;
    match row.runner.look(rt) {
        TallyOut::Spent => Some(ServeEnd::Spent),
        TallyOut::Done(reply) => {
            let counts = Counts {
                accepted: reply.accepted,
                turned: reply.turned,
            };
            if is_over(reply, limit) {
                Some(ServeEnd::Over(counts))
            } else {
                None
            }
        }
    }
}

/// Whether as many links were accepted as was to be, and each is finished or was turned away.
fn is_over(reply: TallyReply, limit: u64) -> bool
    ensures { IsTrue result → (reply.accepted ≡ limit) × (reply.finished + reply.turned ≡ reply.accepted) }
{
    reply.accepted == limit && reply.turned <= limit && reply.finished == limit - reply.turned
}

/// The end of the first dispatcher that makes no further turn, if there is one.
fn first_halt<P: Poller, F: Files, C, B, G>(rows: &[Row<P, F, C, B, G>]) -> Option<ServeEnd>
    ensures { IfSome result (λ end. Any (λ row. IsSomeAnd row.halted (λ halted. EndOf halted end)) rows.now) }
{
    for row in rows {
        if let Some(halted) = row.halted {
            return Some(end_of(halted));
        }
    }
    None
}

/// The end where a dispatcher makes no further turn.
fn end_of(halted: Halted) -> ServeEnd
    ensures { EndOf halted result }
{
    match halted {
        Halted::PollFault => ServeEnd::PollFault,
        Halted::WithCode(ACCEPT_FAULT) => ServeEnd::AcceptFault,
        Halted::WithCode(NO_MEMORY) => ServeEnd::NoMemory,
        Halted::WithCode(_) | Halted::Spent => ServeEnd::Spent,
    }
}
