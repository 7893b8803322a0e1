//! The turns of a dispatcher, until all is served or one of them stops.
ghost use Rattle.std.specs.Prelude.{IfSome};
ghost use Rattle.poller.specs.Faults.{PollerFaults};
ghost use Rattle.warp_core.specs.Beats.{BeginsWithBeat};
ghost use Rattle.warp_core.specs.Rows.{HasGoneOn, MayHalt, Serves, beat_of};
ghost use Rattle.warp_core.specs.SweepTimes.{KeepsOn};

use crate::beat::beat;
use crate::row::{Halted, Row};
use dispatcher::{Turned, turn};
use outside::{Clock, Files};
use poller::Poller;
use std::sync::Wait;
use warp_books::{Book, Finished};
use warp_jobs::{Gate, Job};
use warp_passes::{Shared, TallyOut};
use warp_runner::{POLL_FAULT, SPENT, ServerRunner};

/// How many events a turn takes at most.
const MAX: u32 = 1_024;

/// What the tally shows to a dispatcher.
#[derive(Clone, Copy)]
enum Sight {
    GoesOn,
    /// All that was to be served is finished, or another dispatcher stopped.
    IsOver,
    Spent,
}

/// Turns a dispatcher until all is served or one of them stops.
pub(crate) fn serve_row<
    P: Poller,
    F: Files,
    C: Clock,
    B: Book<Finished<P::Link, F>>,
    G: Gate,
    R: Wait,
>(rt: &R, shared: &Shared<Job<P, F>, F>, row: &mut Row<P, F, C, B, G>)
    requires { Serves B.told P.meaning.faults shared.now row.old }
    ensures serves { Serves B.told P.meaning.faults shared.now row.new }
    ensures goes_on { HasGoneOn row.old row.new }
    ensures on { KeepsOn (beat_of C.told row.old) (beat_of C.told row.new) }
{
    for _ in rt.forever() {
        if !makes_a_round(rt, shared, row) {
            return;
        }
    }
}

/// One round: a beat, a look at the tally, and a turn. It is false where it was the last.
fn makes_a_round<P: Poller, F: Files, C: Clock, B: Book<Finished<P::Link, F>>, G: Gate, R: Wait>(
    rt: &R,
    shared: &Shared<Job<P, F>, F>,
    row: &mut Row<P, F, C, B, G>,
) -> bool
    requires { Serves B.told P.meaning.faults shared.now row.old }
    ensures serves { Serves B.told P.meaning.faults shared.now row.new }
    ensures goes_on { HasGoneOn row.old row.new }
    ensures on { KeepsOn (beat_of C.told row.old) (beat_of C.told row.new) }
    ensures beats { BeginsWithBeat C.told row.old row.new }
{
    if let Some(halted) = beat(rt, shared, row) {
        halt(rt, shared, row, halted);
        return false;
    }
    match look(rt, shared, row) {
        Sight::GoesOn => goes_on(rt, shared, row),
        Sight::IsOver => false,
        Sight::Spent => {
            halt(rt, shared, row, Halted::Spent);
            false
        }
    }
}

/// One turn. It is false where it was the last.
fn goes_on<P: Poller, F: Files, C: Clock, B: Book<Finished<P::Link, F>>, G: Gate, R: Wait>(
    rt: &R,
    shared: &Shared<Job<P, F>, F>,
    row: &mut Row<P, F, C, B, G>,
) -> bool
    requires { Serves B.told P.meaning.faults shared.now row.old }
    ensures serves { Serves B.told P.meaning.faults shared.now row.new }
    ensures goes_on { HasGoneOn row.old row.new }
    ensures on { KeepsOn (beat_of C.told row.old) (beat_of C.told row.new) }
{
    match turn_once(rt, shared, row) {
        None => true,
        Some(halted) => {
            halt(rt, shared, row, halted);
            false
        }
    }
}

/// One turn. It answers why no further one is made, if so.
fn turn_once<P: Poller, F: Files, C: Clock, B: Book<Finished<P::Link, F>>, G: Gate, R: Wait>(
    rt: &R,
    shared: &Shared<Job<P, F>, F>,
    row: &mut Row<P, F, C, B, G>,
) -> Option<Halted>
    requires { Serves B.told P.meaning.faults shared.now row.old }
    ensures serves { Serves B.told P.meaning.faults shared.now row.new }
    ensures goes_on { HasGoneOn row.old row.new }
    ensures on { KeepsOn (beat_of C.told row.old) (beat_of C.told row.new) }
    ensures may_halt { IfSome result (λ halted. MayHalt B.told P.meaning.faults row.new halted) }
{
    row.reports.clear();
    // A turn is made where nothing has stopped the dispatcher.
    row.halted = None;
    row.runner.stop = None;
    let turned = turn::<Job<P, F>, ServerRunner<P, F, C, B, G>, R>(
        rt,
        &shared.mgr,
        &shared.queue,
        &mut row.disp,
        &mut row.runner,
        &mut row.reports,
        MAX,
    );
    match turned {
        Turned::Done { .. } => None,
        Turned::PollFault => Some(Halted::PollFault),
        Turned::Stop(code) => Some(Halted::WithCode(code)),
        Turned::Spent => Some(Halted::Spent),
    }
}

/// The dispatcher makes no further turn. The tally keeps the code if it is the first, so that the others see
/// it. A code that is given here is one with which a deed of the dispatcher stopped it.
pub(crate) fn halt<P: Poller, F: Files, C: Clock, B: Book<Finished<P::Link, F>>, G: Gate, R: Wait>(
    rt: &R,
    shared: &Shared<Job<P, F>, F>,
    row: &mut Row<P, F, C, B, G>,
    halted: Halted,
)
    requires serves { Serves B.told P.meaning.faults shared.now row.old }
    requires may_halt { MayHalt B.told P.meaning.faults row.old halted }
    ensures serves { Serves B.told P.meaning.faults shared.now row.new }
    ensures goes_on { HasGoneOn row.old row.new }
    ensures on { KeepsOn (beat_of C.told row.old) (beat_of C.told row.new) }
{
    // Lets the contract speak of it.
    let _shared = shared;
    match halted {
        Halted::PollFault => {
            let _ = row.runner.note_stop(rt, POLL_FAULT);
            row.halted = Some(Halted::PollFault);
        }
        Halted::WithCode(code) => match row.runner.note_stop(rt, code) {
            TallyOut::Done(_) => row.halted = Some(Halted::WithCode(code)),
            TallyOut::Spent => row.halted = Some(Halted::Spent),
        },
        Halted::Spent => {
            let _ = row.runner.note_stop(rt, SPENT);
            row.halted = Some(Halted::Spent);
        }
    }
}

/// Looks at the tally.
fn look<P: Poller, F: Files, C: Clock, B: Book<Finished<P::Link, F>>, G: Gate, R: Wait>(
    rt: &R,
    shared: &Shared<Job<P, F>, F>,
    row: &mut Row<P, F, C, B, G>,
) -> Sight
    requires { Serves B.told P.meaning.faults shared.now row.old }
    ensures serves { Serves B.told P.meaning.faults shared.now row.new }
    ensures goes_on { HasGoneOn row.old row.new }
    ensures on { KeepsOn (beat_of C.told row.old) (beat_of C.told row.new) }
{
    // Lets the contract speak of it.
    let _shared = shared;
    match row.runner.look(rt) {
        TallyOut::Spent => Sight::Spent,
        TallyOut::Done(reply) => {
            let all = reply.accepted >= row.runner.limit
                && reply.accepted == reply.finished.saturating_add(reply.turned);
            if reply.stop.is_some() || all {
                Sight::IsOver
            } else {
                Sight::GoesOn
            }
        }
    }
}
