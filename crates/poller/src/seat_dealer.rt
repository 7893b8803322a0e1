//! The words of a net that no link has yet. They are dealt in order, each with the one seat that may raise
//! it.
ghost use Rattle.std.specs.Prelude.{◌≡◌, ◌<◌, ◌+◌, IfOk, OnErr, OnOk, Some, length, slice_index};
ghost use Rattle.std.specs.Arc.{arc_value};
ghost use Rattle.poller.specs.Deliveries.{first_knowledge, limits_of};
ghost use Rattle.poller.specs.LinkSeats.{DealerState, IsDealer, fresh_link_seat};
ghost use Rattle.poller.specs.Seats.{IsOf, scripts_of, knowledge_of, table_of};

use crate::delivery_seat::DeliverySeat;
use crate::link_seat::LinkSeat;
use crate::net::{Net, NetSeat};
use std::alloc::{AllocError, Global};
use std::marker::Model;
use std::sync::Arc;

/// The seat that raises the words from one number on to the last.
#[derive(Drop)]
pub(crate) struct SeatDealer {
    net: Arc<Net, Global>,
    seat: NetSeat,
    next: usize,
}

impl Model for SeatDealer {
    ghost Value = { DealerState };

    ghost view = { λ dealer. record {
      table = table_of (arc_value dealer.net);
      scripts = scripts_of (arc_value dealer.net);
      next = dealer.next;
    } };

    ghost invariant = { λ dealer. IsDealer (arc_value dealer.net) dealer.seat dealer.next };
}

impl SeatDealer {
    /// All words of a net.
    pub(crate) fn new(net: Arc<Net, Global>, seat: NetSeat) -> SeatDealer
        requires own { IsOf (arc_value net) seat }
        requires all { knowledge_of seat ≡ first_knowledge (limits_of (scripts_of (arc_value net))) }
        ensures { result
            ≡ record { table = table_of (arc_value net); scripts = scripts_of (arc_value net); next = 0 } }
    {
        SeatDealer { net, seat, next: 0 }
    }

    /// Deals the next word, which is raised so often at most. It is an error where a net has too many owners.
    pub(crate) fn deal(&mut self, limit: u64) -> Result<LinkSeat, AllocError>
        requires some { self.old.next < length (limits_of self.old.scripts) }
        requires limit { limit ≡ slice_index (limits_of self.old.scripts) self.old.next }
        ensures dealt { IfOk result (λ seat. seat ≡ fresh_link_seat self.old) }
        ensures next { OnOk result (self.new ≡ record self.old { next = self.old.next + 1 }) }
        ensures none { OnErr result (self.new ≡ self.old) }
    {
        let reader_net = Arc::try_clone(&self.net)?;
        let deliverer_net = Arc::try_clone(&self.net)?;
        let word = self.next;
        let mut deliverer = self.net.first(&mut self.seat);
        let reader = self.net.reader(&mut deliverer);
        self.next += 1;
        let delivery = DeliverySeat::new(deliverer_net, deliverer, word, limit);
        Ok(LinkSeat::new(reader_net, reader, word, delivery))
    }
}
