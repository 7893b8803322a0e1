//! The numbers in a cell of their own: their order, their end, and random-like calls that are answered
//! as the plain body answers them.
ghost use Rattle.turn_cell.specs.Calls.{IsOf};

use super::plain_numbers::plain_reply;
use crate::numbers::{Numbers, NumbersCall, NumbersEntry, NumbersReply};
use reg_keys::DESCRIPTORS;
use std::test::Fail;
use turn_cell::{Pass, Tried, TurnCell};

/// How many random-like calls are made.
const CALLS: u64 = 600;

/// Makes a call in a cell that nobody else uses.
fn ask(
    cell: &TurnCell<Numbers>,
    pass: &mut Pass<Numbers, NumbersEntry>,
    call: NumbersCall,
) -> Result<NumbersReply, Fail>
    requires { IsOf cell.now pass.old }
    ensures { IsOf cell.now pass.new }
{
    match cell.try_step(pass, call) {
        Tried::Done(reply) => Ok(reply),
        _ => Err(Fail::from("the cell is held or spent")),
    }
}

/// Draws all numbers, and fails where one comes out of its order.
fn draw_all(cell: &TurnCell<Numbers>, pass: &mut Pass<Numbers, NumbersEntry>) -> Result<(), Fail>
    requires { IsOf cell.now pass.old }
    ensures { IsOf cell.now pass.new }
{
    for number in 0..DESCRIPTORS as u16 {
        let reply = ask(cell, pass, NumbersCall::Draw)?;
        if reply != NumbersReply::Drawn(number) {
            return Err(Fail::from("a number out of its order"));
        }
    }
    Ok(())
}

#[test]
fn draws_give_the_numbers_in_order_and_then_none(rt: HostRuntime) -> Result<(), Fail> {
    let (cell, mut pass) = TurnCell::new(rt.alloc(), Numbers::new(rt.alloc())?)?;
    draw_all(&cell, &mut pass)?;
    for _ in 0..2 {
        let reply = ask(&cell, &mut pass, NumbersCall::Draw)?;
        assert_eq!(rt; reply, NumbersReply::AllOut);
    }
    Ok(())
}

#[test]
fn a_number_that_was_given_back_is_drawn_again(rt: HostRuntime) -> Result<(), Fail> {
    let (cell, mut pass) = TurnCell::new(rt.alloc(), Numbers::new(rt.alloc())?)?;
    draw_all(&cell, &mut pass)?;
    let calls = [
        (NumbersCall::GiveBack(7), NumbersReply::Back),
        (NumbersCall::GiveBack(4095), NumbersReply::Back),
        (NumbersCall::Draw, NumbersReply::Drawn(7)),
        (NumbersCall::Draw, NumbersReply::Drawn(4095)),
        (NumbersCall::Draw, NumbersReply::AllOut),
    ];
    for (call, reply) in calls {
        assert_eq!(rt; ask(&cell, &mut pass, call)?, reply);
    }
    Ok(())
}

#[test]
fn what_is_not_out_is_not_given_back(rt: HostRuntime) -> Result<(), Fail> {
    let (cell, mut pass) = TurnCell::new(rt.alloc(), Numbers::new(rt.alloc())?)?;
    let calls = [
        (NumbersCall::GiveBack(0), NumbersReply::NotOut),
        (NumbersCall::Draw, NumbersReply::Drawn(0)),
        (NumbersCall::GiveBack(0), NumbersReply::Back),
        (NumbersCall::GiveBack(0), NumbersReply::NotOut),
        (NumbersCall::GiveBack(0), NumbersReply::NotOut),
        (NumbersCall::GiveBack(4096), NumbersReply::NotOut),
        (NumbersCall::GiveBack(u16::MAX), NumbersReply::NotOut),
        (NumbersCall::Draw, NumbersReply::Drawn(0)),
    ];
    for (call, reply) in calls {
        assert_eq!(rt; ask(&cell, &mut pass, call)?, reply);
    }
    Ok(())
}

/// The call that a random-like number stands for: two draws of three, and else a number below 160.
fn call_of(random: u64) -> NumbersCall {
    if random % 3 < 2 {
        NumbersCall::Draw
    } else {
        NumbersCall::GiveBack((random / 3 % 160) as u16)
    }
}

#[test]
fn random_like_calls_are_answered_as_the_plain_body_answers(rt: HostRuntime) -> Result<(), Fail> {
    let (cell, mut pass) = TurnCell::new(rt.alloc(), Numbers::new(rt.alloc())?)?;
    let mut history = Vec::new(rt.alloc());
    let mut state: u64 = 1;
    for _ in 0..CALLS {
        state = state
            .wrapping_mul(6364136223846793005)
            .wrapping_add(1442695040888963407);
        let call = call_of(state >> 33);
        let reply = ask(&cell, &mut pass, call)?;
        assert_eq!(rt; reply, plain_reply(history.as_slice(), call));
        history.push(NumbersEntry { call, reply })?;
    }
    Ok(())
}
