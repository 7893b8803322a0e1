//! What sweeps give to one thread.
ghost use Rattle.timeout_mgr.specs.Calls.{IsOf};

use crate::{AddWatch, CancelOut, Expired, TickleOut, TimePass, Timeouts, Watch};
use reg_keys::Opening;
use std::test::Fail;

/// What was added, or the test fails.
fn added(out: AddWatch) -> Result<Watch, Fail> {
    match out {
        AddWatch::Added(watch) => Ok(watch),
        AddWatch::Full => Err("the table is full")?,
    }
}

/// Whether a tickle answers that the watch lives.
fn is_alive(times: &Timeouts, pass: &mut TimePass, watch: &Watch) -> bool
    requires { IsOf times.now pass.old }
    ensures { IsOf times.now pass.new }
{
    matches!(times.tickle(pass, watch), TickleOut::Alive)
}

#[test]
fn a_third_sweep_gives_what_was_tickled_after_the_first(rt: HostRuntime) -> Result<(), Fail> {
    let (times, mut pass) = Timeouts::new(rt.alloc())?;
    let mut out = Expired::new(rt.alloc())?;
    let opening = Opening { number: 7, fd: 3 };
    let watch = added(times.add(&mut pass, opening))?;
    times.sweep(&mut pass, &mut out);
    assert!(rt; out.pop_first().is_none());
    assert!(rt; is_alive(&times, &mut pass, &watch));
    times.sweep(&mut pass, &mut out);
    assert!(rt; out.pop_first().is_none());
    times.sweep(&mut pass, &mut out);
    assert!(rt; out.pop_first() == Some(opening));
    assert!(rt; out.pop_first().is_none());
    assert!(rt; !is_alive(&times, &mut pass, &watch));
    assert!(rt; matches!(times.cancel(&mut pass, watch), CancelOut::Gone));
    Ok(())
}

#[test]
fn nothing_is_given_of_a_cancelled_watch(rt: HostRuntime) -> Result<(), Fail> {
    let (times, mut pass) = Timeouts::new(rt.alloc())?;
    let mut out = Expired::new(rt.alloc())?;
    let watch = added(times.add(&mut pass, Opening { number: 7, fd: 3 }))?;
    assert!(rt; matches!(times.cancel(&mut pass, watch), CancelOut::Cancelled));
    times.sweep(&mut pass, &mut out);
    assert!(rt; out.pop_first().is_none());
    times.sweep(&mut pass, &mut out);
    assert!(rt; out.pop_first().is_none());
    Ok(())
}

#[test]
fn openings_are_given_in_the_order_of_their_slots(rt: HostRuntime) -> Result<(), Fail> {
    let (times, mut pass) = Timeouts::new(rt.alloc())?;
    let mut out = Expired::new(rt.alloc())?;
    let mut early = times.split(&mut pass)?;
    let _third = added(times.add(&mut pass, Opening { number: 1, fd: 9 }))?;
    let _first = added(times.add(&mut early, Opening { number: 1, fd: 600 }))?;
    let _second = added(times.add(&mut early, Opening { number: 1, fd: 4 }))?;
    times.sweep(&mut pass, &mut out);
    assert!(rt; out.is_empty());
    times.sweep(&mut pass, &mut out);
    assert_eq!(rt; out.len(), 3);
    for fd in [600, 4, 9] {
        assert!(rt; out.pop_first() == Some(Opening { number: 1, fd }));
    }
    assert!(rt; out.pop_first().is_none());
    Ok(())
}

#[test]
fn a_watch_that_one_pass_added_another_tickles(rt: HostRuntime) -> Result<(), Fail> {
    let (times, mut pass) = Timeouts::new(rt.alloc())?;
    let mut other = times.split(&mut pass)?;
    let watch = added(times.add(&mut other, Opening { number: 7, fd: 3 }))?;
    assert!(rt; is_alive(&times, &mut pass, &watch));
    times.join(&mut pass, other);
    assert!(rt; matches!(times.cancel(&mut pass, watch), CancelOut::Cancelled));
    Ok(())
}
