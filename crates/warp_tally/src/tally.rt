//! The tally itself, as a part of a turn cell.
ghost use Rattle.std.specs.Prelude.{◌≡◌, [], ◌∷◌};
ghost use Rattle.warp_tally.specs.declared.calls.TallyCall.TheVariants.{Accept, TurnAway, Finish, Stop};
ghost use Rattle.warp_tally.specs.Tallies.{tally_past, reply_with};
ghost use Rattle.warp_tally.specs.RepresentsTally.{RepresentsTally, totals_in};
ghost use Rattle.warp_tally.specs.Moves.{HasMoved, HasRoom};

use crate::calls::{Counted, TallyCall, TallyEntry, TallyReply};
use crate::open_set::OpenSet;
use reg_keys::Opening;
use std::alloc::Global;
use turn_cell::Part;

/// How many links were accepted, turned away and finished, which openings are accepted and not finished, and
/// the first stop.
#[derive(Drop)]
pub struct Tally {
    open: OpenSet,
    accepted: u64,
    turned: u64,
    finished: u64,
    stop: Option<u8>,
}

impl Tally {
    /// Nothing was counted. It takes no memory.
    pub fn new(alloc: Global) -> Tally
        ensures { RepresentsTally [] result }
    {
        Tally {
            open: OpenSet::new(alloc),
            accepted: 0,
            turned: 0,
            finished: 0,
            stop: None,
        }
    }

    /// Does what the call asks: whether it counted.
    fn count(&mut self, call: TallyCall) -> Counted
        requires { HasRoom self.old }
        ensures { HasMoved call result self.old self.new }
    {
        match call {
            TallyCall::Accept(o) => self.accept(o),
            TallyCall::TurnAway => self.turn_away(),
            TallyCall::Finish(o) => self.finish(o),
            TallyCall::Stop(code) => self.keep_stop(code),
            TallyCall::Look => Counted::No,
        }
    }

    fn accept(&mut self, o: Opening) -> Counted
        requires { HasRoom self.old }
        ensures { HasMoved (Accept o) result self.old self.new }
    {
        if self.open.add(o).is_err() {
            return Counted::NoMemory;
        }
        self.accepted += 1;
        Counted::Yes
    }

    fn turn_away(&mut self) -> Counted
        requires { HasRoom self.old }
        ensures { HasMoved TurnAway result self.old self.new }
    {
        self.accepted += 1;
        self.turned += 1;
        Counted::Yes
    }

    fn finish(&mut self, o: Opening) -> Counted
        requires { HasRoom self.old }
        ensures { HasMoved (Finish o) result self.old self.new }
    {
        if !self.open.take(o) {
            return Counted::No;
        }
        self.finished += 1;
        Counted::Yes
    }

    fn keep_stop(&mut self, code: u8) -> Counted
        ensures { HasMoved (Stop code) result self.old self.new }
    {
        if self.stop.is_some() {
            return Counted::No;
        }
        self.stop = Some(code);
        Counted::Yes
    }

    /// The reply to a call that counted or didn't.
    fn reply(&self, counted: Counted) -> TallyReply
        ensures { result ≡ reply_with counted (totals_in self.now) }
    {
        TallyReply {
            counted,
            accepted: self.accepted,
            turned: self.turned,
            finished: self.finished,
            stop: self.stop,
        }
    }
}

impl Part for Tally {
    type Call = TallyCall;

    type Reply = TallyReply;

    type Entry = TallyEntry;

    // The tally stands for the entries alone, whatever their seats.
    ghost stands = { λ t h. RepresentsTally (tally_past h) t };

    ghost name = { λ _. [] };

    ghost may = { λ _ _. Unit {0} };

    ghost entry = { λ call reply. record { call = call; reply = reply } };

    ghost answers = { λ _ _. Unit {0} };

    fn apply(&mut self, call: TallyCall) -> TallyReply {
        let counted = self.count(call);
        self.reply(counted)
    }
}
