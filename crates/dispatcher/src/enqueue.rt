//! What becomes of an event that a call named: it joins the queue, or stays in the hand where the queue is
//! full.
ghost use Rattle.std.specs.Prelude.{◌≡◌, ◌<◌, length};
ghost use Rattle.ready_queue.specs.Calls.{IsOf, view_of, capacity_of};
ghost use Rattle.dispatcher.specs.Enqueue.{IsPutOrKept, IsPutOrKeptAny};

use crate::hand::{HAND, Hand};
use ready_queue::{PutOut, QPass, ReadyQueue};
use reg_keys::Event;
use std::sync::Wait;
use std::thread::yield_now;

/// The places of a hand that stay free: one for each event that may be under way, and one for an event that
/// is handed back.
const SPARE: usize = 4;

/// Puts the event, or keeps it in the hand where the queue is full. Where fewer than `SPARE` places of the
/// hand are free, it tries the queue again until that takes the event.
pub(crate) fn put_or_keep<R: Wait>(
    rt: &R,
    queue: &ReadyQueue,
    pass: &mut QPass,
    hand: &mut Hand,
    event: Event,
)
    requires { IsOf queue.now pass.old }
    ensures own { IsOf queue.now pass.new }
    ensures put_or_kept { IsPutOrKept (capacity_of queue.now) event (view_of pass.old) hand.old
        (view_of pass.new) hand.new }
    ensures room { length hand.old < HAND → length hand.new < HAND }
{
    let mut event = event;
    for _ in rt.forever() {
        match queue.put(rt, pass, event) {
            PutOut::Put => return,
            PutOut::Full(back) => {
                if hand.len() + SPARE <= HAND {
                    hand.push(back);
                    return;
                }
                event = back;
            }
        }
        yield_now();
    }
    unreachable!()
}

/// The same, where there may be no event.
pub(crate) fn put_or_keep_any<R: Wait>(
    rt: &R,
    queue: &ReadyQueue,
    pass: &mut QPass,
    hand: &mut Hand,
    event: Option<Event>,
)
    requires { IsOf queue.now pass.old }
    ensures own { IsOf queue.now pass.new }
    ensures put_or_kept { IsPutOrKeptAny (capacity_of queue.now) event (view_of pass.old) hand.old
        (view_of pass.new) hand.new }
    ensures room { length hand.old < HAND → length hand.new < HAND }
{
    if let Some(event) = event {
        put_or_keep(rt, queue, pass, hand, event);
    }
}
