//! Two threads that sweep, and one that tickles the one watch that there is.
ghost use Rattle.std.specs.Prelude.{All, IfOk};
ghost use Rattle.timeout_mgr.specs.Calls.{IsOf};

use crate::{AddWatch, Expired, TickleOut, TimePass, Timeouts, Watch};
use reg_keys::Opening;
use std::alloc::{AllocError, Global};
use std::test::Fail;
use std::thread::{Threads, for_each_mut, join, yield_now};

const SWEEPERS: usize = 2;

/// How often each thread sweeps or tickles.
const TURNS: u64 = 1000;

/// A thread that sweeps, with the number of openings that its sweeps gave.
#[derive(Drop)]
struct Sweeper {
    pass: TimePass,
    out: Expired,
    given: u64,
}

/// A thread that tickles a watch: whether a tickle answered `Gone`, and whether one after it answered
/// `Alive`.
#[derive(Drop)]
struct Tickler {
    pass: TimePass,
    watch: Watch,
    gone: bool,
    came_back: bool,
}

/// The threads that sweep, before they do.
fn sweepers(
    times: &Timeouts,
    pass: &mut TimePass,
    alloc: Global,
) -> Result<Vec<Sweeper>, AllocError>
    requires { IsOf times.now pass.old }
    ensures own { IsOf times.now pass.new }
    ensures passes { IfOk result (λ v. All (λ s. IsOf times.now s.pass) v.items) }
{
    let mut sweepers = Vec::new(alloc);
    for _ in 0..SWEEPERS {
        let pass = times.split(pass)?;
        let out = Expired::new(alloc)?;
        sweepers.push(Sweeper {
            pass,
            out,
            given: 0,
        })?;
    }
    Ok(sweepers)
}

/// Sweeps, and counts what was given.
fn sweep_often(times: &Timeouts, sweeper: &mut Sweeper)
    requires { IsOf times.now sweeper.old.pass }
    ensures { IsOf times.now sweeper.new.pass }
{
    for _ in 0..TURNS {
        times.sweep(&mut sweeper.pass, &mut sweeper.out);
        sweeper.given = sweeper.given.wrapping_add(sweeper.out.len() as u64);
        yield_now();
    }
}

/// Tickles, and looks at the answers.
fn tickle_often(times: &Timeouts, tickler: &mut Tickler)
    requires { IsOf times.now tickler.old.pass }
    ensures { IsOf times.now tickler.new.pass }
{
    for _ in 0..TURNS {
        match times.tickle(&mut tickler.pass, &tickler.watch) {
            TickleOut::Alive => tickler.came_back |= tickler.gone,
            TickleOut::Gone => tickler.gone = true,
        }
        yield_now();
    }
}

/// Each sweeper in a thread of its own.
fn sweep_in_threads<R: Threads + Sync>(rt: &R, times: &Timeouts, sweepers: &mut Vec<Sweeper>)
    requires { All (λ s. IsOf times.now s.pass) sweepers.old.items }
{
    for_each_mut(
        rt,
        sweepers.as_mut_slice(),
        SWEEPERS,
        &|_i: usize, sweeper: &mut Sweeper| -> ()
            requires { IsOf times.now sweeper.old.pass }
        { sweep_often(times, sweeper) },
    );
}

/// All at once, each in a thread of its own.
fn sweep_and_tickle<R: Threads + Sync>(
    rt: &R,
    times: &Timeouts,
    sweepers: &mut Vec<Sweeper>,
    tickler: &mut Tickler,
)
    requires sweepers { All (λ s. IsOf times.now s.pass) sweepers.old.items }
    requires tickler { IsOf times.now tickler.old.pass }
{
    join(
        rt,
        || -> ()
            requires { IsOf times.now tickler.now.pass }
        { tickle_often(times, tickler) },
        || -> ()
            requires { All (λ s. IsOf times.now s.pass) sweepers.now.items }
        { sweep_in_threads(rt, times, sweepers) },
    );
}

/// How often the sweeps of all threads gave the watch's opening.
fn given_in_all(sweepers: &[Sweeper]) -> u64 {
    let mut given = 0u64;
    for sweeper in sweepers {
        given = given.wrapping_add(sweeper.given);
    }
    given
}

#[test]
fn threads_give_a_watch_once_and_it_stays_gone(rt: HostRuntime) -> Result<(), Fail> {
    let (times, mut pass) = Timeouts::new(rt.alloc())?;
    let mut sweepers = sweepers(&times, &mut pass, rt.alloc())?;
    let AddWatch::Added(watch) = times.add(&mut pass, Opening { number: 7, fd: 3 }) else {
        return Err("no watch")?;
    };
    let mut tickler = Tickler {
        pass: times.split(&mut pass)?,
        watch,
        gone: false,
        came_back: false,
    };
    sweep_and_tickle(&rt, &times, &mut sweepers, &mut tickler);
    let lives = matches!(times.tickle(&mut pass, &tickler.watch), TickleOut::Alive);
    let given = given_in_all(sweepers.as_slice());
    assert!(rt; !tickler.came_back);
    assert_eq!(rt; given, if lives { 0 } else { 1 });
    Ok(())
}
