//! The seat that delivers a word. It is with the link or listener until that is added, and then with the
//! poller.
ghost use Rattle.std.specs.Prelude.{◌≡◌, ◌<◌, ◌≤◌, ◌+◌, ◌==◌, ◌||◌, ◌↔◌, IsTrue, length, nat_lt, slice_index};
ghost use Rattle.std.specs.Arc.{arc_value};
ghost use Rattle.poller.specs.Deliveries.{limits_of};
ghost use Rattle.poller.specs.LinkSeats.{DeliveryState, IsDeliverySeat, delivery_state};
ghost use Rattle.poller.specs.Seats.{IsDeliverer, IsOf, scripts_of, knowledge_of, table_of};

use crate::net::{Net, NetSeat};
use std::alloc::Global;
use std::marker::Model;
use std::sync::Arc;

/// The one seat that may raise a word, with how often it did and may.
#[derive(Drop)]
pub(crate) struct DeliverySeat {
    net: Arc<Net, Global>,
    seat: NetSeat,
    word: usize,
    delivered: u64,
    limit: u64,
    left: bool,
}

impl Model for DeliverySeat {
    ghost Value = { DeliveryState };

    ghost view = { λ d. delivery_state (arc_value d.net) d.seat d.word d.delivered d.limit };

    ghost invariant = { λ d. IsDeliverySeat (arc_value d.net) d.seat d.word d.delivered d.limit d.left };
}

impl DeliverySeat {
    /// The seat of a word that wasn't raised yet and is raised so often at most.
    pub(crate) fn new(net: Arc<Net, Global>, seat: NetSeat, word: usize, limit: u64) -> DeliverySeat
        requires own { IsOf (arc_value net) seat }
        requires inside { word < length (limits_of (scripts_of (arc_value net))) }
        requires alone { IsDeliverer seat word }
        requires fresh { ((knowledge_of seat).seen ≡ 0) × ((knowledge_of seat).looks ≡ 0)
            × ((knowledge_of seat).left ≡ 0) }
        requires most { limit ≡ slice_index (limits_of (scripts_of (arc_value net))) word }
        ensures { result ≡ record {
          table = table_of (arc_value net);
          word = word;
          delivered = 0;
          limit = limit;
          left = 0;
          looks = 0;
        } }
    {
        DeliverySeat {
            net,
            seat,
            word,
            delivered: 0,
            limit,
            left: false,
        }
    }

    /// Whether it is at its end: the link was found to have left, or all steps were delivered.
    pub(crate) fn is_done(&self) -> bool
        ensures done { result ≡ (nat_lt 0 self.now.left || (self.now.delivered == self.now.limit)) }
        ensures within { self.now.delivered ≤ self.now.limit }
    {
        self.left || self.delivered == self.limit
    }

    /// Whether the link has left, at one look.
    pub(crate) fn has_left(&mut self) -> bool
        ensures found { self.new ≡ record self.old { left = self.new.left; looks = self.old.looks + 1 } }
        ensures left { IsTrue result ↔ (0 < self.new.left) }
    {
        self.left = self.net.has_left(&mut self.seat, self.word);
        self.left
    }

    /// Delivers one more step, where not all were.
    pub(crate) fn deliver(&mut self)
        requires { self.old.delivered < self.old.limit }
        ensures { self.new ≡ record self.old { delivered = self.old.delivered + 1 } }
    {
        self.net.deliver(&mut self.seat, self.word);
        self.delivered += 1;
    }
}
