//! The numbers of descriptors, 0 to 4,095, as a part. An opening draws its descriptor's number here, and
//! a close gives it back.
ghost use Rattle.std.specs.Prelude.{List, [], ◌∷◌, IfOk};
ghost use Rattle.event_mgr.specs.declared.numbers.NumbersCall.TheVariants.{Draw, GiveBack};
ghost use Rattle.event_mgr.specs.declared.numbers.NumbersEntry.{NumbersEntry};
ghost use Rattle.event_mgr.specs.Numbers.{numbers_past};
ghost use Rattle.event_mgr.specs.RepresentsNumbers.{RepresentsNumbers};

use crate::free_numbers::FreeNumbers;
use std::alloc::{AllocError, Global};
use turn_cell::Part;

/// A call on the numbers.
#[derive(Clone, Copy, Debug, PartialEq, Eq)]
pub enum NumbersCall {
    /// Takes the least number that isn't out.
    Draw,
    /// Gives a number back.
    GiveBack(u16),
}

/// The reply to a call.
#[derive(Clone, Copy, Debug, PartialEq, Eq)]
pub enum NumbersReply {
    /// This number was drawn, which is below 4,096.
    Drawn(u16),
    /// All 4,096 numbers are out.
    AllOut,
    /// The number isn't out any more.
    Back,
    /// The number wasn't out.
    NotOut,
}

/// A call and its reply, as the history of the numbers has them.
#[derive(Clone, Copy)]
pub struct NumbersEntry {
    pub call: NumbersCall,
    pub reply: NumbersReply,
}

/// The numbers, of which some are out.
#[derive(Drop)]
pub struct Numbers {
    free: FreeNumbers,
}

impl Numbers {
    /// No number is out. All the memory that the numbers ever need is taken here.
    pub fn new(alloc: Global) -> Result<Numbers, AllocError>
        ensures { IfOk result (λ n. RepresentsNumbers [] n) }
    {
        let free = FreeNumbers::all(alloc)?;
        Ok(Numbers { free })
    }

    /// Takes the least number that isn't out.
    fn draw(&mut self) -> NumbersReply
        requires { (past : List NumbersEntry) × RepresentsNumbers past self.old }
        ensures { (past : List NumbersEntry) → RepresentsNumbers past self.old
            → RepresentsNumbers (record { call = Draw; reply = result } ∷ past) self.new }
    {
        match self.free.take_least() {
            Some(number) => NumbersReply::Drawn(number),
            None => NumbersReply::AllOut,
        }
    }

    /// Gives a number back.
    fn give_back(&mut self, number: u16) -> NumbersReply
        requires { (past : List NumbersEntry) × RepresentsNumbers past self.old }
        ensures { (past : List NumbersEntry) → RepresentsNumbers past self.old
            → RepresentsNumbers (record { call = GiveBack number; reply = result } ∷ past) self.new }
    {
        if self.free.put_back(number) {
            NumbersReply::Back
        } else {
            NumbersReply::NotOut
        }
    }
}

impl Part for Numbers {
    type Call = NumbersCall;

    type Reply = NumbersReply;

    type Entry = NumbersEntry;

    // The numbers stand for the entries alone, whatever their seats.
    ghost stands = { λ n h. RepresentsNumbers (numbers_past h) n };

    ghost name = { λ _. [] };

    ghost may = { λ _ _. Unit {0} };

    ghost entry = { λ call reply. record { call = call; reply = reply } };

    // The entry tells all of a reply.
    ghost answers = { λ _ _. Unit {0} };

    fn apply(&mut self, call: NumbersCall) -> NumbersReply {
        match call {
            NumbersCall::Draw => self.draw(),
            NumbersCall::GiveBack(number) => self.give_back(number),
        }
    }
}
