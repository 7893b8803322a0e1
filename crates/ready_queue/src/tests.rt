//! A small queue on one thread, and one that several threads share.
ghost use Rattle.std.specs.Prelude.{◌≡◌, All, IfOk};
ghost use Rattle.ready_queue.specs.Calls.{IsOf};

use crate::{PutOut, QPass, ReadyQueue, TakeOut};
use reg_keys::{Event, Opening};
use std::alloc::{AllocError, Global};
use std::sync::Wait;
use std::sync::atomic::{AtomicU64, Ordering};
use std::test::Fail;
use std::thread::{Threads, for_each_mut, join, yield_now};

/// How many threads put, how many take, and how many events each of the former puts.
const PUTTERS: u16 = 2;

const TAKERS: usize = 2;

const EVENTS: u64 = 100;

/// How often a thread tries before it gives up, and the test fails.
const TRIES: u64 = 1_000_000;

/// The event of a number of one putter, whose name is the descriptor.
fn event(name: u16, number: u64) -> Event {
    Event::named(
        Opening {
            number: 1,
            fd: name,
        },
        number,
    )
}

/// Whether a put came out as `Put`.
fn is_put(out: PutOut) -> bool {
    matches!(out, PutOut::Put)
}

/// The number of the event that was handed back, where the queue was full.
fn handed_back(out: PutOut) -> Option<u64> {
    match out {
        PutOut::Put => None,
        PutOut::Full(event) => Some(event.number()),
    }
}

/// The number of the event that was taken, where one was.
fn taken(out: TakeOut) -> Option<u64> {
    match out {
        TakeOut::Taken(event) => Some(event.number()),
        TakeOut::Empty => None,
    }
}

#[test]
fn events_leave_in_the_order_in_which_they_joined(rt: HostRuntime) -> Result<(), Fail> {
    let (queue, mut pass) = ReadyQueue::new(rt.alloc(), 2)?;
    assert_eq!(rt; is_put(queue.put(&rt, &mut pass, event(0, 7))), true);
    assert_eq!(rt; is_put(queue.put(&rt, &mut pass, event(0, 5))), true);
    assert_eq!(rt;
        handed_back(queue.put(&rt, &mut pass, event(0, 9))),
        Some(9)
    );
    assert_eq!(rt; taken(queue.take(&rt, &mut pass)), Some(7));
    assert_eq!(rt; taken(queue.take(&rt, &mut pass)), Some(5));
    assert_eq!(rt; taken(queue.take(&rt, &mut pass)), None);
    Ok(())
}

/// A thread that puts the events of its name.
#[derive(Drop)]
struct Putter {
    name: u16,
    pass: QPass,
}

/// A thread that takes events, with the names and numbers of those that it took, in order.
#[derive(Drop)]
struct Taker {
    pass: QPass,
    got: Vec<(u16, u64)>,
}

/// A thread for each name.
fn putters(queue: &ReadyQueue, pass: &mut QPass, alloc: Global) -> Result<Vec<Putter>, AllocError>
    requires { IsOf queue.now pass.old }
    ensures own { IsOf queue.now pass.new }
    ensures passes { IfOk result (λ v. All (λ p. IsOf queue.now p.pass) v.items) }
{
    let mut putters = Vec::new(alloc);
    for name in 0..PUTTERS {
        let pass = queue.split(pass)?;
        putters.push(Putter { name, pass })?;
    }
    Ok(putters)
}

/// Threads that have taken nothing.
fn takers(queue: &ReadyQueue, pass: &mut QPass, alloc: Global) -> Result<Vec<Taker>, AllocError>
    requires { IsOf queue.now pass.old }
    ensures own { IsOf queue.now pass.new }
    ensures passes { IfOk result (λ v. All (λ t. IsOf queue.now t.pass) v.items) }
{
    let mut takers = Vec::new(alloc);
    for _ in 0..TAKERS {
        let pass = queue.split(pass)?;
        let got = Vec::new(alloc);
        takers.push(Taker { pass, got })?;
    }
    Ok(takers)
}

/// Puts all events of one name, in order. A full queue is tried again.
fn put_all<R: Wait>(rt: &R, queue: &ReadyQueue, putter: &mut Putter)
    requires { IsOf queue.now putter.old.pass }
    ensures { IsOf queue.now putter.new.pass }
{
    let mut next = 0;
    for _ in 0..TRIES {
        if next == EVENTS {
            return;
        }
        let name = putter.name;
        match queue.put(rt, &mut putter.pass, event(name, next)) {
            PutOut::Put => next += 1,
            PutOut::Full(_) => yield_now(),
        }
    }
}

/// Takes events until this many were taken by all takers together.
fn take_all<R: Wait>(rt: &R, queue: &ReadyQueue, taker: &mut Taker, count: &AtomicU64)
    requires { IsOf queue.now taker.old.pass }
    ensures { IsOf queue.now taker.new.pass }
{
    for _ in 0..TRIES {
        if count.load(Ordering::SeqCst) == PUTTERS as u64 * EVENTS {
            return;
        }
        let TakeOut::Taken(event) = queue.take(rt, &mut taker.pass) else {
            yield_now();
            continue;
        };
        if taker
            .got
            .push((event.opening().fd, event.number()))
            .is_err()
        {
            return;
        }
        count.fetch_add(1, Ordering::SeqCst);
    }
}

/// All put and all take at once, each in a thread of its own.
fn put_and_take<R: Threads + Wait + Sync>(
    rt: &R,
    queue: &ReadyQueue,
    putters: &mut Vec<Putter>,
    takers: &mut Vec<Taker>,
)
    requires putters { All (λ p. IsOf queue.now p.pass) putters.old.items }
    requires takers { All (λ t. IsOf queue.now t.pass) takers.old.items }
{
    let count = AtomicU64::new(0);
    let shared = &count;
    join(
        rt,
        || -> ()
            requires { All (λ p. IsOf queue.now p.pass) putters.now.items }
        { put_in_threads(rt, queue, putters) },
        || -> ()
            requires { All (λ t. IsOf queue.now t.pass) takers.now.items }
        { take_in_threads(rt, queue, takers, shared) },
    );
}

/// Each putter in a thread of its own.
fn put_in_threads<R: Threads + Wait + Sync>(rt: &R, queue: &ReadyQueue, putters: &mut Vec<Putter>)
    requires { All (λ p. IsOf queue.now p.pass) putters.old.items }
{
    for_each_mut(
        rt,
        putters.as_mut_slice(),
        PUTTERS as usize,
        &|_i: usize, putter: &mut Putter| -> ()
            requires { IsOf queue.now putter.old.pass }
        { put_all(rt, queue, putter) },
    );
}

/// Each taker in a thread of its own.
fn take_in_threads<R: Threads + Wait + Sync>(
    rt: &R,
    queue: &ReadyQueue,
    takers: &mut Vec<Taker>,
    count: &AtomicU64,
)
    requires { All (λ t. IsOf queue.now t.pass) takers.old.items }
{
    for_each_mut(
        rt,
        takers.as_mut_slice(),
        TAKERS,
        &|_i: usize, taker: &mut Taker| -> ()
            requires { IsOf queue.now taker.old.pass }
        { take_all(rt, queue, taker, count) },
    );
}

/// Whether the numbers of one name rise, so that they were taken in the order in which they were put.
fn is_in_order(got: &[(u16, u64)], name: u16) -> bool {
    let mut last = None;
    for (whose, number) in got {
        if *whose != name {
            continue;
        }
        if let Some(before) = last {
            if *number <= before {
                return false;
            }
        }
        last = Some(*number);
    }
    true
}

/// How often each event was taken: for each name its numbers in order.
fn counts(takers: &[Taker], alloc: Global) -> Result<Vec<u64>, AllocError> {
    let mut counts = vec![in alloc; 0; PUTTERS as usize * EVENTS as usize]?;
    for taker in takers {
        count_into(taker.got.as_slice(), counts.as_mut_slice());
    }
    Ok(counts)
}

/// Adds what one taker took.
fn count_into(got: &[(u16, u64)], counts: &mut [u64]) {
    for (name, number) in got {
        let place = (*name as u64).wrapping_mul(EVENTS).wrapping_add(*number);
        if let Some(count) = counts.get_mut(place as usize) {
            *count = count.wrapping_add(1);
        }
    }
}

#[test]
fn threads_take_each_event_once_and_in_order(rt: HostRuntime) -> Result<(), Fail> {
    let (queue, mut pass) = ReadyQueue::new(rt.alloc(), 8)?;
    let mut putters = putters(&queue, &mut pass, rt.alloc())?;
    let mut takers = takers(&queue, &mut pass, rt.alloc())?;
    put_and_take(&rt, &queue, &mut putters, &mut takers);
    for count in counts(takers.as_slice(), rt.alloc())? {
        assert_eq!(rt; count, 1);
    }
    for taker in &takers {
        for name in 0..PUTTERS {
            assert_eq!(rt; is_in_order(taker.got.as_slice(), name), true);
        }
    }
    assert_eq!(rt; taken(queue.take(&rt, &mut pass)), None);
    Ok(())
}
