//! The kinds of atomic step on a net's table, and what each tells the seat that makes it.
ghost use Rattle.poller.specs.Deliveries.{delivered, deliverer_of, first_of, looked, noted, others_of, reader_of, received};

use crate::seat_knowledge::SeatKnowledge;
use atomic_table::{Play, Split};

/// A `fetch_add`: a step is delivered.
pub(crate) struct Deliver;

impl Play<u8, SeatKnowledge> for Deliver {
    ghost then = { delivered };
}

/// A load by a link or a listener.
pub(crate) struct Receive;

impl Play<u8, SeatKnowledge> for Receive {
    ghost then = { received };
}

/// A load by a poller, of the note that a link makes as it leaves.
pub(crate) struct Look;

impl Play<u8, SeatKnowledge> for Look {
    ghost then = { looked };
}

/// A store by a link that leaves.
pub(crate) struct Leave;

impl Play<u8, SeatKnowledge> for Leave {
    ghost then = { noted };
}

/// The first of the words that a seat raises goes to a seat of its own.
pub(crate) struct First;

impl Split<SeatKnowledge> for First {
    ghost left = { λ v. record v { role = others_of v.role } };

    ghost right = { λ v. record v { role = first_of v.role } };
}

/// A seat is split off that reads the first of the words that a seat raises. The seat then delivers that word
/// alone.
pub(crate) struct Reading;

impl Split<SeatKnowledge> for Reading {
    ghost left = { λ v. record v { role = deliverer_of v.role } };

    ghost right = { λ v. record v { role = reader_of v.role } };
}
