//! A poller that plays a script: some of its polls fail, and every other one reports openings in turn.
ghost use Rattle.std.specs.Prelude.{◌≡◌, ◌≤◌, [], MatchOption, length, ◌<◌};
ghost use Rattle.poller.specs.Polls.{HasToken};
ghost use Rattle.poller.specs.Rounds.{no_faults};

use crate::limits::KEPT;
use crate::piece_listener::PieceListener;
use outside::{Count, PieceLink};
use poller::{AddOut, PollOut, Poller, REPORTS, Reports};
use reg_keys::{Dirs, Opening};
use std::alloc::Global;
use std::collections::VecDeque;
use std::sync::Wait;

/// A poller that plays a script. It keeps each opening that was added until another one of its descriptor is,
/// and takes all of them for ready at any time: to whoever finds nothing there the link says so.
#[derive(Drop)]
pub struct PiecePoller {
    openings: VecDeque<Opening>,
    failing: Vec<u64>,
    polls: Count,
    poll_faults: Count,
    ghost few: { length openings.items ≤ 4096 },
}

impl PiecePoller {
    ghost use Rattle.piece_net.specs.PiecePolls.{IsPlaceFor, Keeping, calls_of, faults_of, openings_after, openings_of, reports_in_turn};

    /// A poller to which nothing was added. Its polls are numbered from 1, and those in `failing` fail.
    pub fn new(alloc: Global, failing: Vec<u64>) -> PiecePoller
        ensures openings { openings_of result ≡ [] }
        ensures calls { calls_of result ≡ record { failing = failing.items; calls = 0 } }
        ensures faults { faults_of result ≡ no_faults }
    {
        PiecePoller {
            openings: VecDeque::new(alloc),
            failing,
            polls: Count::new(),
            poll_faults: Count::new(),
        }
    }

    /// How many polls there were.
    pub fn polls(&self) -> u64
        ensures { result ≡ (calls_of self.now).calls }
    {
        self.polls.now()
    }

    /// How many openings it keeps.
    pub fn kept(&self) -> usize
        ensures count { result ≡ length (openings_of self.now) }
        ensures few { result ≤ KEPT }
    {
        self.openings.len()
    }

    /// The place of the opening that has this descriptor.
    #[tactic(auto, using(crate::proofs::TurnLemmas::without_found, crate::proofs::TurnLemmas::without_passed, crate::proofs::TurnLemmas::without_none))]
    fn place_of(&self, fd: u16) -> Option<usize>
        ensures { IsPlaceFor (openings_of self.now) fd result }
    {
        for place in 0..self.openings.len() {
            if self.openings[place].fd == fd {
                return Some(place);
            }
        }
        None
    }

    /// Keeps an opening, in place of the one that has its descriptor.
    fn keep(&mut self, opening: Opening) -> AddOut
        ensures keeps { Keeping opening (openings_of self.old) (openings_of self.new) result }
        ensures calls { calls_of self.new ≡ calls_of self.old }
        ensures faults { faults_of self.new ≡ faults_of self.old }
    {
        if self.openings.reserve(1).is_err() {
            return AddOut::NoMemory;
        }
        match self.place_of(opening.fd) {
            Some(place) => {
                let _replaced = self.openings.remove(place);
            }
            None if self.openings.len() == KEPT => return AddOut::NoMemory,
            None => {}
        }
        self.openings.push_back_reserved(opening);
        AddOut::Added
    }

    /// Reports the first openings, as many as one poll may, and puts them after the others.
    #[tactic(auto, using(crate::proofs::TurnLemmas::turn_goes_on, crate::proofs::TurnLemmas::turn_given, crate::proofs::TurnLemmas::turn_after))]
    fn go_round(&mut self, out: &mut Reports)
        requires { out.old ≡ [] }
        ensures given { out.new ≡ reports_in_turn (openings_of self.old) }
        ensures after { openings_of self.new ≡ openings_after (openings_of self.old) }
        ensures calls { calls_of self.new ≡ calls_of self.old }
        ensures faults { faults_of self.new ≡ faults_of self.old }
    {
        let count = self.openings.len().min(REPORTS);
        for place in 0..count {
            out.push(self.openings[place], Dirs::Both);
        }
        self.openings.rotate_left(count);
    }
}

impl Poller for PiecePoller {
    type Link = PieceLink;

    type Listener = PieceListener;

    ghost use Rattle.std.specs.Prelude.{None};
    ghost use Rattle.piece_net.specs.PiecePolls.{IsPoll, Keeping, calls_of, faults_of, openings_of};

    ghost meaning = { record { faults = faults_of; polled = λ _. None; polls = IsPoll } };

    fn add(&mut self, opening: Opening, link: &mut PieceLink) -> AddOut
        requires { HasToken opening }
        ensures link { link.new ≡ link.old }
        ensures keeps { Keeping opening (openings_of self.old) (openings_of self.new) result }
        ensures calls { calls_of self.new ≡ calls_of self.old }
        ensures faults { faults_of self.new ≡ faults_of self.old }
    {
        self.keep(opening)
    }

    fn add_listener(&mut self, opening: Opening, listener: &mut PieceListener) -> AddOut
        requires { HasToken opening }
        ensures listener { listener.new ≡ listener.old }
        ensures keeps { Keeping opening (openings_of self.old) (openings_of self.new) result }
        ensures calls { calls_of self.new ≡ calls_of self.old }
        ensures faults { faults_of self.new ≡ faults_of self.old }
    {
        self.keep(opening)
    }

    fn poll<R: Wait>(&mut self, _rt: &R, idle: bool, out: &mut Reports) -> PollOut
        requires { out.old ≡ [] }
        ensures polls { IsPoll self.old idle result out.new self.new }
    {
        self.polls.rise();
        if self.failing.contains(&self.polls.now()) {
            self.poll_faults.rise();
            return PollOut::Failed;
        }
        self.go_round(out);
        PollOut::Polled
    }

    ghost polls_alone = { λ old idle result out new polls. polls.leaves };
}
