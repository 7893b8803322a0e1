//! What a link or a listener knows of its net. Where it is dropped it notes in the net that it leaves.
ghost use Rattle.std.specs.Prelude.{◌≡◌, ◌<◌, ◌≤◌, ◌+◌, ◌^◌, ◌↔◌, IsTrue, Some, None, false, length, slice_index};
ghost use Rattle.std.specs.Arc.{arc_value};
ghost use Rattle.poller.specs.Deliveries.{limits_of};
ghost use Rattle.poller.specs.LinkSeats.{DeliveryState, IsLinkSeat, LinkSeatState};
ghost use Rattle.poller.specs.Seats.{IsOf, IsReader, scripts_of, knowledge_of, table_of};

use crate::delivery_seat::DeliverySeat;
use crate::net::{Net, NetSeat};
use std::alloc::Global;
use std::marker::Model;
use std::sync::Arc;

/// A seat that reads a word, and, until it is added to a poller, the seat that delivers that word. It hasn't
/// noted that it leaves.
pub(crate) struct LinkSeat {
    net: Arc<Net, Global>,
    seat: NetSeat,
    word: usize,
    delivery: Option<DeliverySeat>,
}

impl Model for LinkSeat {
    ghost Value = { LinkSeatState };

    ghost view = { λ link. record {
      table = table_of (arc_value link.net);
      scripts = scripts_of (arc_value link.net);
      word = link.word;
      delivered = (knowledge_of link.seat).seen;
      looks = (knowledge_of link.seat).looks;
      delivery = link.delivery;
    } };

    ghost invariant = { λ link. IsLinkSeat (arc_value link.net) link.seat link.word link.delivery };
}

impl LinkSeat {
    /// The seat of a word of which nothing was delivered yet.
    pub(crate) fn new(
        net: Arc<Net, Global>,
        seat: NetSeat,
        word: usize,
        delivery: DeliverySeat,
    ) -> LinkSeat
        requires own { IsOf (arc_value net) seat }
        requires inside { word < length (limits_of (scripts_of (arc_value net))) }
        requires reads { IsReader seat word }
        requires fresh { ((knowledge_of seat).seen ≡ 0) × ((knowledge_of seat).looks ≡ 0) }
        requires stands { (knowledge_of seat).gone ≡ false }
        requires delivery { (delivery.table ≡ table_of (arc_value net)) × (delivery.word ≡ word)
            × (delivery.limit ≡ slice_index (limits_of (scripts_of (arc_value net))) word) }
        ensures { result ≡ record {
          table = table_of (arc_value net);
          scripts = scripts_of (arc_value net);
          word = word;
          delivered = 0;
          looks = 0;
          delivery = Some delivery;
        } }
    {
        LinkSeat {
            net,
            seat,
            word,
            delivery: Some(delivery),
        }
    }

    /// How many steps were delivered, at one look.
    pub(crate) fn delivered(&mut self) -> u64
        ensures found { self.new ≡ record self.old { delivered = result; looks = self.old.looks + 1 } }
        ensures later { self.old.delivered ≤ result }
        ensures most { result ≤ slice_index (limits_of self.old.scripts) self.old.word }
    {
        self.net.delivered(&mut self.seat, self.word)
    }

    /// Whether a poller has the seat that delivers its word.
    pub(crate) fn is_added(&self) -> bool
        ensures { IsTrue result ↔ (self.now.delivery ≡ None) }
    {
        self.delivery.is_none()
    }

    /// Gives the seat that delivers its word to a poller, where no poller has it yet.
    pub(crate) fn take_delivery(&mut self) -> Option<DeliverySeat>
        ensures delivery { result ≡ self.old.delivery }
        ensures taken { self.new ≡ record self.old { delivery = None } }
    {
        self.delivery.take()
    }
}

impl Drop for LinkSeat {
    fn drop(self) {
        let LinkSeat {
            net,
            mut seat,
            word,
            delivery: _,
        } = self;
        net.leave(&mut seat, word);
    }
}
