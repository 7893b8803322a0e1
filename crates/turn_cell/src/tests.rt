//! Cells round three small parts, on one thread and on several.
ghost use Rattle.std.specs.Prelude.{◌≡◌, [], All, IfOk};
ghost use Rattle.turn_cell.specs.Counts.{CountsTo};
ghost use Rattle.turn_cell.specs.Calls.{IsOf};

use crate::{Part, Pass, Stepped, Tried, TurnCell};
use std::alloc::{AllocError, Global};
use std::sync::atomic::{AtomicBool, Ordering};
use std::sync::{Arc, Wait};
use std::test::Fail;
use std::thread;
use std::thread::{Threads, join, yield_now};

/// How many threads share one cell, and how many calls each of them makes.
const THREADS: usize = 4;

const CALLS: u64 = 500;

/// How often a thread looks for another before the test fails.
const LOOKS: u64 = 20_000_000;

#[derive(Drop)]
struct Counter {
    count: u64,
}

impl Part for Counter {
    type Call = u64;

    type Reply = u64;

    type Entry = (u64, u64);

    ghost stands = { λ c h. CountsTo h c.count };

    ghost name = { λ c. [] };

    ghost may = { λ n call. Unit {0} };

    ghost entry = { λ call reply. (call, reply) };

    ghost answers = { λ call reply. Unit {0} };

    fn apply(&mut self, call: u64) -> u64 {
        self.count = self.count.wrapping_add(call);
        self.count
    }
}

fn from_nought() -> Counter
    ensures { result.count ≡ 0 }
{
    Counter { count: 0 }
}

#[test]
fn two_steps_on_two_passes_are_seen_by_the_joined_one(rt: HostRuntime) -> Result<(), Fail> {
    let (cell, mut pass) = TurnCell::new(rt.alloc(), from_nought())?;
    let mut other = cell.split(&mut pass)?;
    let Stepped::Done(first) = cell.step(&rt, &mut pass, 2) else {
        return Err(Fail::from("spent"));
    };
    let Tried::Done(second) = cell.try_step(&mut other, 5) else {
        return Err(Fail::from("held or spent"));
    };
    cell.join(&mut pass, other);
    assert_eq!(rt; (first, second, cell.seen(&mut pass)), (2, 7, 2));
    let Ok(part) = cell.close(pass) else {
        return Err(Fail::from("held"));
    };
    assert_eq!(rt; part.count, 7);
    Ok(())
}

#[test]
fn the_joined_pass_has_seen_the_calls_of_all_threads(rt: HostRuntime) -> Result<(), Fail> {
    let (cell, mut pass) = TurnCell::new(rt.alloc(), from_nought())?;
    let mut passes = passes_of(&cell, &mut pass, rt.alloc())?;
    count_in_threads(&rt, &cell, &mut passes);
    join_all(&cell, &mut pass, passes);
    let all = THREADS as u64 * CALLS;
    assert_eq!(rt; cell.seen(&mut pass), all);
    let Ok(part) = cell.close(pass) else {
        return Err(Fail::from("held"));
    };
    assert_eq!(rt; part.count, all);
    Ok(())
}

/// A pass for each thread.
fn passes_of(
    cell: &TurnCell<Counter>,
    pass: &mut Pass<Counter, (u64, u64)>,
    alloc: Global,
) -> Result<Vec<Pass<Counter, (u64, u64)>>, AllocError>
    requires { IsOf cell.now pass.old }
    ensures own { IsOf cell.now pass.new }
    ensures passes { IfOk result (λ v. All (λ p. IsOf cell.now p) v.items) }
{
    let mut passes = Vec::new(alloc);
    for _ in 0..THREADS {
        passes.push(cell.split(pass)?)?;
    }
    Ok(passes)
}

/// Each pass makes its calls in a thread of its own.
fn count_in_threads<R: Threads + Wait + Sync>(
    rt: &R,
    cell: &TurnCell<Counter>,
    passes: &mut Vec<Pass<Counter, (u64, u64)>>,
)
    requires { All (λ p. IsOf cell.now p) passes.old.items }
    ensures { All (λ p. IsOf cell.now p) passes.new.items }
{
    thread::for_each_mut(
        rt,
        passes.as_mut_slice(),
        THREADS,
        &|_i: usize, mine: &mut Pass<Counter, (u64, u64)>| -> ()
            requires { IsOf cell.now mine.old }
            ensures { IsOf cell.entry.now mine.new }
        { count_up(rt, cell, mine) },
    );
}

fn count_up<R: Wait>(rt: &R, cell: &TurnCell<Counter>, pass: &mut Pass<Counter, (u64, u64)>)
    requires { IsOf cell.now pass.old }
    ensures { IsOf cell.now pass.new }
{
    for _ in 0..CALLS {
        let _ = cell.step(rt, pass, 1);
    }
}

fn join_all(
    cell: &TurnCell<Counter>,
    pass: &mut Pass<Counter, (u64, u64)>,
    passes: Vec<Pass<Counter, (u64, u64)>>,
)
    requires own { IsOf cell.now pass.old }
    requires others { All (λ p. IsOf cell.now p) passes.items }
    ensures { IsOf cell.now pass.new }
{
    for other in passes {
        cell.join(pass, other);
    }
}

/// A part whose call says that it has begun, and ends once it is let go.
#[derive(Drop)]
struct Gate {
    begun: Arc<AtomicBool, Global>,
    open: Arc<AtomicBool, Global>,
}

impl Part for Gate {
    type Call = ();

    type Reply = bool;

    type Entry = bool;

    ghost stands = { λ g h. Unit {0} };

    ghost name = { λ g. [] };

    ghost may = { λ n call. Unit {0} };

    ghost entry = { λ call reply. reply };

    ghost answers = { λ call reply. Unit {0} };

    fn apply(&mut self, _call: ()) -> bool {
        self.begun.store(true, Ordering::SeqCst);
        comes(&self.open)
    }
}

/// Whether the flag is raised within a time.
fn comes(flag: &AtomicBool) -> bool {
    for _ in 0..LOOKS {
        if flag.load(Ordering::SeqCst) {
            return true;
        }
        yield_now();
    }
    false
}

/// Makes the call that holds the turn.
fn hold<R: Wait>(rt: &R, cell: &TurnCell<Gate>, pass: Pass<Gate, bool>) -> bool
    requires { IsOf cell.now pass }
{
    let mut pass = pass;
    matches!(cell.step(rt, &mut pass, ()), Stepped::Done(true))
}

/// Tries while the turn is held, and lets its holder go.
fn disturb(
    cell: &TurnCell<Gate>,
    pass: Pass<Gate, bool>,
    begun: &AtomicBool,
    open: &AtomicBool,
) -> bool
    requires { IsOf cell.now pass }
{
    let mut pass = pass;
    let came = comes(begun);
    let busy = matches!(
        cell.try_step(&mut pass, ()),
        Tried::Busy { count: 0, call: () }
    );
    open.store(true, Ordering::SeqCst);
    came && busy
}

/// One thread holds the turn while another tries.
fn hold_and_disturb<R: Threads + Wait + Sync>(
    rt: &R,
    cell: &TurnCell<Gate>,
    pass: Pass<Gate, bool>,
    other: Pass<Gate, bool>,
    begun: &AtomicBool,
    open: &AtomicBool,
) -> (bool, bool)
    requires own { IsOf cell.now pass }
    requires other { IsOf cell.now other }
{
    join(
        rt,
        || -> bool
            requires { IsOf cell.now pass }
        { hold(rt, cell, pass) },
        || -> bool
            requires { IsOf cell.now other }
        { disturb(cell, other, begun, open) },
    )
}

#[test]
fn a_try_while_the_turn_is_held_is_busy(rt: HostRuntime) -> Result<(), Fail> {
    let begun = Arc::new(rt.alloc(), AtomicBool::new(false))?;
    let open = Arc::new(rt.alloc(), AtomicBool::new(false))?;
    let gate = Gate {
        begun: Arc::try_clone(&begun)?,
        open: Arc::try_clone(&open)?,
    };
    let (cell, mut pass) = TurnCell::new(rt.alloc(), gate)?;
    let other = cell.split(&mut pass)?;
    let (held, busy) = hold_and_disturb(&rt, &cell, pass, other, &begun, &open);
    assert_eq!(rt; (held, busy), (true, true));
    Ok(())
}

/// A note of some value. Two notes of one value are told apart by their serial numbers.
#[derive(Drop)]
struct Banknote {
    value: u64,
    serial: u64,
}

/// A part that takes no note, and hands back what came. Its history shows values alone.
#[derive(Drop)]
struct Counterfoil {
    offers: u64,
}

impl Part for Counterfoil {
    type Call = Banknote;

    type Reply = Banknote;

    type Entry = u64;

    ghost stands = { λ c h. Unit {0} };

    ghost name = { λ c. [] };

    ghost may = { λ n call. Unit {0} };

    ghost entry = { λ call reply. reply.value };

    ghost answers = { λ call reply. reply ≡ call };

    fn apply(&mut self, call: Banknote) -> Banknote {
        self.offers = self.offers.wrapping_add(1);
        call
    }
}

/// Offers a note, and gives what comes back: the very note.
fn offer(cell: &TurnCell<Counterfoil>, pass: Pass<Counterfoil, u64>, note: Banknote) -> Banknote
    requires { IsOf cell.now pass }
    ensures { result ≡ note }
{
    let mut pass = pass;
    match cell.try_step(&mut pass, note) {
        Tried::Done(back) => back,
        Tried::Busy { count: _, call } => call,
        Tried::Spent(call) => call,
    }
}

#[test]
fn a_note_that_is_handed_back_is_the_very_one(rt: HostRuntime) -> Result<(), Fail> {
    let (cell, pass) = TurnCell::new(rt.alloc(), Counterfoil { offers: 0 })?;
    let back = offer(
        &cell,
        pass,
        Banknote {
            value: 5,
            serial: 7,
        },
    );
    assert_eq!(rt; (back.value, back.serial), (5, 7));
    Ok(())
}
