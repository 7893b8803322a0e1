//! What a stripe refuses, where its places, flags and numbers end, and a stripe in a turn cell.
ghost use Rattle.std.specs.Prelude.{◌≡◌, [], List};
ghost use Rattle.reg_keys.specs.declared.entry.Entry.{Entry};
ghost use Rattle.stripe_table.specs.Represents.{ShowsPast};

use super::{Do, Job, perform, run};
use reg_keys::{Dir, Dirs, Opening};
use std::alloc::Global;
use std::test::Fail;
use stripe_table::{OpenReply, Reply, ReportReply, Stripe, StripeCall};
use turn_cell::{Tried, TurnCell};

#[test]
fn what_is_gone_is_refused(rt: HostRuntime) -> Result<(), Fail> {
    run(
        rt.alloc(),
        1,
        &[
            (Do::Open, "Opened 32"),
            (
                Do::Register(32, Dir::Read, Some(32), Some('A')),
                "Waits 64, no event",
            ),
            (Do::Withdraw(64), "Back A"),
            (Do::Withdraw(64), "Gone"),
            (
                Do::Register(32, Dir::Write, Some(32), None),
                "Waits 96, no event",
            ),
            (Do::Withdraw(96), "Back -"),
            (Do::Ask(96), "Unknown"),
            (Do::Open, "Taken 32"),
            (Do::Close(32), "Shut"),
            (Do::Close(32), "NotOpen"),
            (Do::Report(32, Dirs::Both), "Stale"),
            (Do::Register(32, Dir::Read, None, Some('B')), "Shut B"),
        ],
    )
}

#[test]
fn a_fifth_registration_finds_no_place(rt: HostRuntime) -> Result<(), Fail> {
    run(
        rt.alloc(),
        1,
        &[
            (Do::Open, "Opened 32"),
            (
                Do::Register(32, Dir::Read, Some(32), Some('A')),
                "Waits 64, no event",
            ),
            (
                Do::Register(32, Dir::Read, None, Some('B')),
                "Waits 96, no event",
            ),
            (
                Do::Register(32, Dir::Write, Some(32), Some('C')),
                "Waits 128, no event",
            ),
            (
                Do::Register(32, Dir::Write, None, None),
                "Waits 160, no event",
            ),
            (Do::Register(32, Dir::Read, None, Some('E')), "Crowded E"),
            (Do::Report(32, Dirs::Write), "Noted, 224"),
            (
                Do::Dispatch(32, 224),
                "Ran [128 w 32 192 C] [160 w 32 192 -], no event",
            ),
            (
                Do::Register(32, Dir::Read, None, Some('F')),
                "Waits 256, no event",
            ),
            (Do::Register(32, Dir::Read, None, Some('G')), "Crowded G"),
            (Do::Ask(160), "Ran w 32 192"),
            (
                Do::Register(32, Dir::Read, None, Some('G')),
                "Waits 288, no event",
            ),
            (Do::Close(32), "Shut [64 A] [96 B] [256 F] [288 G]"),
        ],
    )
}

#[test]
fn the_numbers_of_a_stripe_end(rt: HostRuntime) -> Result<(), Fail> {
    const LAST: u64 = (1 << 55) - 64;
    run(rt.alloc(), (1 << 50) - 1, &[(Do::Open, "Spent")])?;
    run(
        rt.alloc(),
        (1 << 50) - 2,
        &[
            (Do::Open, "Opened 36028797018963904"),
            (Do::Register(LAST, Dir::Read, None, Some('A')), "Spent A"),
            (Do::Report(LAST, Dirs::Both), "Spent"),
            (Do::Dispatch(LAST, 64), "Spent 64"),
            (Do::Close(LAST), "Shut"),
            (Do::Open, "Spent"),
        ],
    )
}

/// Opens the descriptor, registers four flags for an opening of this number, and closes it.
fn four_flags(alloc: Global, stripe: &mut Stripe<Job>, number: u64) -> Result<(), Fail>
    requires stripe { stripe.old.stripe ≡ 0 }
    requires fits { (past : List Entry) × ShowsPast (λ _. []) past stripe.old }
    ensures stripe { stripe.new.stripe ≡ 0 }
    ensures fits { (past : List Entry) × ShowsPast (λ _. []) past stripe.new }
{
    drop(perform(alloc, stripe, Do::Open)?);
    for _flag in 0..4 {
        drop(perform(
            alloc,
            stripe,
            Do::Register(number, Dir::Read, Some(number), None),
        )?);
    }
    drop(perform(alloc, stripe, Do::Close(number))?);
    Ok(())
}

#[test]
fn a_stripe_has_room_for_512_flags(rt: HostRuntime) -> Result<(), Fail> {
    let mut stripe = Stripe::from_count(rt.alloc(), 0, 1)?;
    for round in 0..128 {
        four_flags(rt.alloc(), &mut stripe, 32 * (1 + 5 * round))?;
    }
    let opened = perform(rt.alloc(), &mut stripe, Do::Open)?;
    assert_eq!(rt; opened.as_str(), "Opened 20512");
    let flag = perform(
        rt.alloc(),
        &mut stripe,
        Do::Register(20512, Dir::Read, Some(20512), None),
    )?;
    assert_eq!(rt; flag.as_str(), "Crowded -");
    let job = perform(
        rt.alloc(),
        &mut stripe,
        Do::Register(20512, Dir::Read, Some(20512), Some('A')),
    )?;
    assert_eq!(rt; job.as_str(), "Waits 20544, no event");
    let told = perform(rt.alloc(), &mut stripe, Do::Ask(64))?;
    assert_eq!(rt; told.as_str(), "Closed");
    let flag = perform(
        rt.alloc(),
        &mut stripe,
        Do::Register(20512, Dir::Read, Some(20512), None),
    )?;
    assert_eq!(rt; flag.as_str(), "Waits 20576, no event");
    Ok(())
}

#[test]
fn a_stripe_lies_in_a_turn_cell(rt: HostRuntime) -> Result<(), Fail> {
    let stripe: Stripe<Job> = Stripe::new(rt.alloc(), 0)?;
    let (cell, mut pass) = TurnCell::new(rt.alloc(), stripe)?;
    let mut other = cell.split(&mut pass)?;
    let Tried::Done(Reply::Open(OpenReply::Opened(o))) = cell.try_step(
        &mut pass,
        StripeCall::Open(0),
    ) else {
        return Err(Fail::from("not opened"));
    };
    assert_eq!(rt; o.number, 32);
    let opening = Opening { number: 32, fd: 0 };
    let Tried::Done(Reply::Report(ReportReply::Noted(None))) = cell.try_step(
        &mut other,
        StripeCall::Report(opening, Dirs::Both),
    ) else {
        return Err(Fail::from("not noted"));
    };
    cell.join(&mut pass, other);
    assert_eq!(rt; cell.seen(&mut pass), 2);
    let Ok(part) = cell.close(pass) else {
        return Err(Fail::from("held"));
    };
    drop(part);
    Ok(())
}
