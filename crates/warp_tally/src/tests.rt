//! A tally in a turn cell: worked calls with their replies.
ghost use Rattle.turn_cell.specs.Calls.{IsOf};

use crate::{Counted, Tally, TallyCall, TallyEntry, TallyReply};
use reg_keys::Opening;
use std::test::Fail;
use turn_cell::{Pass, Tried, TurnCell};

/// An opening of descriptor 3.
fn opening(number: u64) -> Opening {
    Opening { number, fd: 3 }
}

/// Makes a call in a cell that nobody else uses.
fn ask(
    cell: &TurnCell<Tally>,
    pass: &mut Pass<Tally, TallyEntry>,
    call: TallyCall,
) -> Result<TallyReply, Fail>
    requires { IsOf cell.now pass.old }
    ensures { IsOf cell.now pass.new }
{
    match cell.try_step(pass, call) {
        Tried::Done(reply) => Ok(reply),
        _ => Err(Fail::from("the cell is held or spent")),
    }
}

/// A reply with these counts.
fn shown(
    counted: Counted,
    accepted: u64,
    turned: u64,
    finished: u64,
    stop: Option<u8>,
) -> TallyReply {
    TallyReply {
        counted,
        accepted,
        turned,
        finished,
        stop,
    }
}

#[test]
fn a_finish_counts_once_and_after_its_accept(rt: HostRuntime) -> Result<(), Fail> {
    let (cell, mut pass) = TurnCell::new(rt.alloc(), Tally::new(rt.alloc()))?;
    let (one, two) = (opening(32), opening(64));
    let calls = [
        (TallyCall::Finish(one), shown(Counted::No, 0, 0, 0, None)),
        (TallyCall::Accept(one), shown(Counted::Yes, 1, 0, 0, None)),
        (TallyCall::Accept(two), shown(Counted::Yes, 2, 0, 0, None)),
        (TallyCall::Finish(two), shown(Counted::Yes, 2, 0, 1, None)),
        (TallyCall::Finish(two), shown(Counted::No, 2, 0, 1, None)),
        (TallyCall::Finish(one), shown(Counted::Yes, 2, 0, 2, None)),
        (TallyCall::Look, shown(Counted::No, 2, 0, 2, None)),
    ];
    for (call, reply) in calls {
        assert!(rt; ask(&cell, &mut pass, call)? == reply);
    }
    Ok(())
}

#[test]
fn what_is_turned_away_counts_as_accepted_and_the_first_stop_stays(
    rt: HostRuntime,
) -> Result<(), Fail> {
    let (cell, mut pass) = TurnCell::new(rt.alloc(), Tally::new(rt.alloc()))?;
    let calls = [
        (TallyCall::TurnAway, shown(Counted::Yes, 1, 1, 0, None)),
        (TallyCall::Stop(4), shown(Counted::Yes, 1, 1, 0, Some(4))),
        (TallyCall::Stop(5), shown(Counted::No, 1, 1, 0, Some(4))),
        (
            TallyCall::Accept(opening(0)),
            shown(Counted::Yes, 2, 1, 0, Some(4)),
        ),
        (TallyCall::Look, shown(Counted::No, 2, 1, 0, Some(4))),
    ];
    for (call, reply) in calls {
        assert!(rt; ask(&cell, &mut pass, call)? == reply);
    }
    Ok(())
}

#[test]
fn openings_of_one_descriptor_are_told_apart(rt: HostRuntime) -> Result<(), Fail> {
    let (cell, mut pass) = TurnCell::new(rt.alloc(), Tally::new(rt.alloc()))?;
    let other = Opening { number: 32, fd: 35 };
    let calls = [
        (
            TallyCall::Accept(opening(32)),
            shown(Counted::Yes, 1, 0, 0, None),
        ),
        (
            TallyCall::Finish(opening(64)),
            shown(Counted::No, 1, 0, 0, None),
        ),
        (TallyCall::Finish(other), shown(Counted::No, 1, 0, 0, None)),
        (
            TallyCall::Finish(opening(32)),
            shown(Counted::Yes, 1, 0, 1, None),
        ),
    ];
    for (call, reply) in calls {
        assert!(rt; ask(&cell, &mut pass, call)? == reply);
    }
    Ok(())
}
