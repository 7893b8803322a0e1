//! A poller of a memory net. It delivers the steps of its links' scripts, one for each report.
ghost use Rattle.std.specs.Prelude.{◌≡◌, ◌<◌, [], length};
ghost use Rattle.poller.specs.Polls.{HasToken};

use crate::delivery_seat::DeliverySeat;
use crate::limits::REPORTS;
use crate::mem_link::MemLink;
use crate::mem_listener::MemListener;
use crate::poller::{AddOut, PollOut, Poller};
use crate::reports::Reports;
use reg_keys::{Dirs, Opening};
use std::alloc::Global;
use std::collections::VecDeque;
use std::sync::Wait;

/// A link or a listener that was added, under its opening.
#[derive(Drop)]
struct Entry {
    opening: Opening,
    delivery: DeliverySeat,
}

/// A poller of a memory net. It never fails, and a poll allocates nothing.
#[derive(Drop)]
pub struct MemPoller {
    entries: VecDeque<Entry>,
}

impl Entry {
    ghost use Rattle.poller.specs.Rounds.{HasMet};

    /// Meets the entry, and says whether it stays: one that is at its end doesn't. Where its link hasn't
    /// left, its word is raised and it is reported.
    fn meet(&mut self, out: &mut Reports) -> bool
        requires { length out.old < REPORTS }
        ensures { HasMet self.old result self.new out.old out.new }
    {
        if self.delivery.is_done() {
            return false;
        }
        if self.delivery.has_left() {
            return true;
        }
        self.delivery.deliver();
        out.push(self.opening, Dirs::Both);
        true
    }
}

impl MemPoller {
    ghost use Rattle.poller.specs.Rounds.{HasMetFirst, IsRound};

    /// A poller to which nothing was added.
    pub(crate) fn new(alloc: Global) -> MemPoller
        ensures { result.entries.items ≡ [] }
    {
        MemPoller {
            entries: VecDeque::new(alloc),
        }
    }

    /// Meets the first entry, which then goes after the others where it stays.
    fn meet_first(&mut self, out: &mut Reports)
        requires room { length out.old < REPORTS }
        requires some { 0 < length self.old.entries.items }
        ensures { HasMetFirst self.old.entries.items self.new.entries.items out.old out.new }
    {
        let Some(mut entry) = self.entries.pop_front() else {
            unreachable!()
        };
        if !entry.meet(out) {
            return;
        }
        self.entries.push_back_reserved(entry);
    }

    /// Goes round the entries.
    fn go_round(&mut self, out: &mut Reports)
        requires { out.old ≡ [] }
        ensures { IsRound self.old.entries.items self.new.entries.items out.new }
    {
        for _met in 0..self.entries.len() {
            if out.len() == REPORTS {
                return;
            }
            self.meet_first(out);
        }
    }
}

impl Poller for MemPoller {
    type Link = MemLink;

    type Listener = MemListener;

    ghost use Rattle.std.specs.Prelude.{None, refl};
    ghost use Rattle.std.proofs.Common.{arith};
    ghost use Rattle.poller.specs.declared.poller.PollOut.TheVariants.{Polled};
    ghost use Rattle.poller.specs.NetLinks.{IsSameLink};
    ghost use Rattle.poller.specs.Rounds.{Adding, IsRound, no_faults};

    ghost meaning = { record {
      faults = λ _. no_faults;
      polled = λ _. None;
      polls = λ old idle result out new. (result ≡ Polled) × IsRound old.entries.items new.entries.items out;
    } };

    fn add(&mut self, opening: Opening, link: &mut MemLink) -> AddOut
        requires { HasToken opening }
        ensures link { IsSameLink link.old link.new }
        ensures adds { Adding opening link.old.seat.delivery link.new.seat.delivery
            self.old.entries.items self.new.entries.items result }
    {
        if link.is_added() {
            return AddOut::Added;
        }
        if self.entries.reserve(1).is_err() {
            return AddOut::NoMemory;
        }
        if let Some(delivery) = link.take_delivery() {
            self.entries.push_back_reserved(Entry { opening, delivery });
        }
        AddOut::Added
    }

    fn add_listener(&mut self, opening: Opening, listener: &mut MemListener) -> AddOut
        requires { HasToken opening }
        ensures listener { listener.new ≡ record listener.old { delivery = listener.new.delivery } }
        ensures adds { Adding opening listener.old.delivery listener.new.delivery self.old.entries.items
            self.new.entries.items result }
    {
        if listener.is_added() {
            return AddOut::Added;
        }
        if self.entries.reserve(1).is_err() {
            return AddOut::NoMemory;
        }
        if let Some(delivery) = listener.take_delivery() {
            self.entries.push_back_reserved(Entry { opening, delivery });
        }
        AddOut::Added
    }

    fn poll<R: Wait>(&mut self, _rt: &R, _idle: bool, out: &mut Reports) -> PollOut
        requires { out.old ≡ [] }
        ensures polled { result ≡ Polled }
        ensures round { IsRound self.old.entries.items self.new.entries.items out.new }
    {
        self.go_round(out);
        PollOut::Polled
    }

    ghost polls_alone = { λ old idle result out new polls.
        record { links = refl; later = Prim.omega arith } };
}
