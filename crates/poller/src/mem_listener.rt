//! The listener of a memory net, which gives a link for each script, in order.
ghost use Rattle.std.specs.Prelude.{◌≡◌, ◌<◌, ◌≤◌, ◌+◌, ◌-◌, ◌^◌, ◌↔◌, IfOk, IsTrue, OnErr, OnOk, None, Some, length};
ghost use Rattle.outside.specs.Counts.{more_by_one, nothing_counted};
ghost use Rattle.outside.specs.ListenCauses.{IfAccepted, IsPlannedAt, IsUntouched, accept_waits_after, accepted_after};
ghost use Rattle.poller.specs.Deliveries.{limits_of};
ghost use Rattle.poller.specs.NetLinks.{fresh_net_link, net_link_of, told_of, waits_of};
ghost use Rattle.poller.specs.NetListeners.{AcceptsNet, IsListener, NetListener};
ghost use Rattle.poller.specs.LinkSeats.{fresh_link_seat};
ghost use Rattle.poller.specs.Scripts.{AreScripts, plans_from, room_at, steps_at};

use crate::delivery_seat::DeliverySeat;
use crate::laid_script::lay_out;
use crate::limits::ACCEPTS;
use crate::link_seat::LinkSeat;
use crate::mem_link::MemLink;
use crate::script::Script;
use crate::seat_dealer::SeatDealer;
use outside::{AcceptOut, Count, Link, Listener, Room};
use std::alloc::{AllocError, Global};
use std::collections::VecDeque;
use std::marker::Model;

/// The listener of a memory net. It tells its plans, the numbers and inputs of the scripts, and never fails.
#[derive(Drop)]
pub struct MemListener {
    alloc: Global,
    seat: LinkSeat,
    dealer: SeatDealer,
    scripts: VecDeque<Script>,
    accepted: Count,
    waits: Count,
}

impl Model for MemListener {
    ghost Value = { NetListener };

    ghost view = { λ listener. record {
      table = listener.seat.table;
      scripts = listener.dealer.scripts;
      accepted = listener.accepted;
      raised = listener.seat.delivered;
      looks = listener.seat.looks;
      waits = listener.waits;
      delivery = listener.seat.delivery;
    } };

    ghost invariant = { λ listener.
        IsListener listener.seat listener.dealer listener.scripts.items listener.accepted.n };
}

impl MemListener {
    /// The listener of a net whose words aren't dealt but the first, which is the seat's.
    pub(crate) fn new(
        alloc: Global,
        seat: LinkSeat,
        dealer: SeatDealer,
        scripts: VecDeque<Script>,
    ) -> MemListener
        requires { IsListener seat dealer scripts.items 0 }
        ensures scripts { result.scripts ≡ scripts.items }
        ensures accepted { result.accepted.n ≡ 0 }
        ensures raised { result.raised ≡ seat.delivered }
        ensures waits { result.waits.n ≡ 0 }
        ensures delivery { result.delivery ≡ seat.delivery }
    {
        MemListener {
            alloc,
            seat,
            dealer,
            scripts,
            accepted: Count::new(),
            waits: Count::new(),
        }
    }

    /// Whether it was added to a poller.
    pub(crate) fn is_added(&self) -> bool
        ensures { IsTrue result ↔ (self.now.delivery ≡ None) }
    {
        self.seat.is_added()
    }

    /// Gives its delivery to a poller, where no poller has it yet.
    pub(crate) fn take_delivery(&mut self) -> Option<DeliverySeat>
        ensures delivery { result ≡ self.old.delivery }
        ensures taken { self.new ≡ record self.old { delivery = None } }
    {
        self.seat.take_delivery()
    }
}

/// The link of the next word, which is that of a script.
fn next_link(alloc: Global, dealer: &mut SeatDealer, script: &Script) -> Result<MemLink, AllocError>
    requires next { (1 ≤ dealer.old.next) × (dealer.old.next < length (limits_of dealer.old.scripts)) }
    requires steps { script.now.steps.items ≡ steps_at dealer.old.scripts (dealer.old.next - 1) }
    requires room { script.now.room ≡ room_at dealer.old.scripts (dealer.old.next - 1) }
    requires short { length script.now.steps.items < 2 ^ 32 }
    ensures link { IfOk result (λ link.
        net_link_of link ≡ fresh_net_link dealer.old.table dealer.old.scripts (dealer.old.next - 1)) }
    ensures seat { IfOk result (λ link. link.seat ≡ fresh_link_seat dealer.old) }
    ensures waits { IfOk result (λ link. waits_of link ≡ nothing_counted) }
    ensures next { OnOk result (dealer.new ≡ record dealer.old { next = dealer.old.next + 1 }) }
    ensures none { OnErr result (dealer.new ≡ dealer.old) }
{
    let laid = lay_out(alloc, &script.steps)?;
    let room = Room::new(alloc, script.room)?;
    let seat = dealer.deal(script.steps.len() as u64)?;
    Ok(MemLink::new(seat, laid, room))
}

impl Listener for MemListener {
    ghost use Rattle.std.proofs.Common.{arith};
    ghost use Rattle.poller.specs.PlanLaws.{numbers_apart};

    type Link = MemLink;

    ghost told = { λ listener. record {
      accepted = listener.accepted.n;
      waits = listener.waits.n;
      faults = 0;
      failed_row = 0;
      plans = Some (plans_from 0 listener.scripts);
    } };

    fn accept(&mut self) -> AcceptOut<MemLink>
        ensures untouched { IfAccepted result (λ link. IsUntouched (told_of link)) }
        ensures planned { IfAccepted result (λ link.
            IsPlannedAt (Some (plans_from 0 self.old.scripts)) self.old.accepted.n (told_of link).plan) }
        ensures accepts { AcceptsNet self.old self.new result }
        ensures counted { self.new.accepted.n ≡ accepted_after result self.old.accepted.n }
        ensures waited { self.new.waits.n ≡ accept_waits_after result self.old.waits.n }
    {
        let allowed = ACCEPTS * (self.seat.delivered() + 1);
        if self.accepted.now() >= allowed {
            self.waits.rise();
            return AcceptOut::NotYet;
        }
        let Some(script) = self.scripts.front() else {
            self.waits.rise();
            return AcceptOut::NotYet;
        };
        let Ok(link) = next_link(self.alloc, &mut self.dealer, script) else {
            return AcceptOut::NoMemory;
        };
        let _given = self.scripts.pop_front();
        self.accepted.rise();
        AcceptOut::Accepted(link)
    }

    ghost plans_apart = { λ listener. numbers_apart listener.scripts };

    ghost row_fits = { λ _. Prim.omega arith };

    ghost accepted_fits = { λ listener. listener.accepted.fits };

    ghost waits_fit = { λ listener. listener.waits.fits };

    ghost faults_fit = { λ _. Prim.omega arith };
}
