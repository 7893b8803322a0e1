//! Where an add looks.
ghost use Rattle.timeout_mgr.specs.Calls.{IsOf};

use crate::{AddWatch, CancelOut, TimePass, Timeouts, Watch};
use reg_keys::Opening;
use std::test::Fail;

/// Adds a watch.
fn add(times: &Timeouts, pass: &mut TimePass) -> Result<Watch, Fail>
    requires { IsOf times.now pass.old }
    ensures { IsOf times.now pass.new }
{
    match times.add(pass, Opening { number: 1, fd: 0 }) {
        AddWatch::Added(watch) => Ok(watch),
        AddWatch::Full => Err("the table is full")?,
    }
}

/// Adds as many watches.
fn add_often(times: &Timeouts, pass: &mut TimePass, count: usize) -> Result<(), Fail>
    requires { IsOf times.now pass.old }
    ensures { IsOf times.now pass.new }
{
    for _turn in 0..count {
        add(times, pass)?;
    }
    Ok(())
}

#[test]
fn an_add_looks_on_from_where_the_last_one_stopped(rt: HostRuntime) -> Result<(), Fail> {
    let (times, mut pass) = Timeouts::new(rt.alloc())?;
    let first = add(&times, &mut pass)?;
    assert_eq!(rt; first.slot, 0);
    assert!(rt; matches!(times.cancel(&mut pass, first), CancelOut::Cancelled));
    let second = add(&times, &mut pass)?;
    assert_eq!(rt; second.slot, 8);
    let third = add(&times, &mut pass)?;
    assert_eq!(rt; third.slot, 16);
    Ok(())
}

#[test]
fn a_taken_slot_sends_an_add_on(rt: HostRuntime) -> Result<(), Fail> {
    let (times, mut pass) = Timeouts::new(rt.alloc())?;
    let mut other = times.split(&mut pass)?;
    add_often(&times, &mut other, 577)?;
    // The place with the number 576 is taken.
    let watch = add(&times, &mut pass)?;
    assert_eq!(rt; watch.slot, 65 * 8 + 1);
    Ok(())
}

#[test]
fn passes_that_were_split_begin_apart(rt: HostRuntime) -> Result<(), Fail> {
    let (times, mut pass) = Timeouts::new(rt.alloc())?;
    let mut second = times.split(&mut pass)?;
    let mut third = times.split(&mut pass)?;
    assert_eq!(rt; add(&times, &mut second)?.slot, 0);
    assert_eq!(rt; add(&times, &mut third)?.slot, 64 * 8 + 1);
    assert_eq!(rt; add(&times, &mut pass)?.slot, 128 * 8 + 2);
    Ok(())
}
