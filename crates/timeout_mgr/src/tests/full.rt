//! A full table, and a slot that is used again.
ghost use Rattle.timeout_mgr.specs.Calls.{IsOf};

use crate::{AddWatch, CancelOut, Expired, SLOTS, TickleOut, TimePass, Timeouts, Watch};
use reg_keys::Opening;
use std::test::Fail;

/// The opening of a descriptor.
fn opening(fd: u16) -> Opening {
    Opening { number: 1, fd }
}

/// Adds a watch for each descriptor below 4,096, and keeps the last one. A full table answers `None`.
fn fill(times: &Timeouts, pass: &mut TimePass) -> Option<Watch>
    requires { IsOf times.now pass.old }
    ensures { IsOf times.now pass.new }
{
    let mut last = None;
    for fd in 0..SLOTS as u16 {
        let AddWatch::Added(watch) = times.add(pass, opening(fd)) else {
            return None;
        };
        last = Some(watch);
    }
    last
}

#[test]
fn a_full_table_takes_one_more_after_a_cancel(rt: HostRuntime) -> Result<(), Fail> {
    let (times, mut pass) = Timeouts::new(rt.alloc())?;
    let Some(watch) = fill(&times, &mut pass) else {
        return Err("the table is full too early")?;
    };
    assert!(rt; matches!(times.add(&mut pass, opening(0)), AddWatch::Full));
    assert!(rt; matches!(times.cancel(&mut pass, watch), CancelOut::Cancelled));
    assert!(rt; matches!(times.add(&mut pass, opening(0)), AddWatch::Added(_)));
    assert!(rt; matches!(times.add(&mut pass, opening(0)), AddWatch::Full));
    Ok(())
}

#[test]
fn a_slot_is_used_again_under_the_next_number(rt: HostRuntime) -> Result<(), Fail> {
    let (times, mut pass) = Timeouts::new(rt.alloc())?;
    let mut out = Expired::new(rt.alloc())?;
    let Some(old) = fill(&times, &mut pass) else {
        return Err("the table is full too early")?;
    };
    times.sweep(&mut pass, &mut out);
    times.sweep(&mut pass, &mut out);
    assert_eq!(rt; out.len(), SLOTS);
    let Some(new) = fill(&times, &mut pass) else {
        return Err("a slot isn't free again")?;
    };
    assert_eq!(rt; new.slot, old.slot);
    assert_eq!(rt; new.number, 1);
    assert!(rt; matches!(times.tickle(&mut pass, &old), TickleOut::Gone));
    assert!(rt; matches!(times.cancel(&mut pass, old), CancelOut::Gone));
    assert!(rt; matches!(times.tickle(&mut pass, &new), TickleOut::Alive));
    assert!(rt; matches!(times.cancel(&mut pass, new), CancelOut::Cancelled));
    Ok(())
}
