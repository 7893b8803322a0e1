//! The words of a memory net, which its listener, its links and its pollers share.
//!
//! There is a word for the listener, number 0, and one for each script, from 1 on: it counts the steps that
//! were delivered. One seat alone may raise a word, so what the word has is known to that seat. Others read
//! it, and what they find is no less than what they found before and no more than the script has. One seat
//! alone reads a word. After these words stands for each one more, its note, in which the seat that reads
//! the word notes that it leaves, and which is zero as long as that seat stands.
ghost use Rattle.std.specs.Prelude.{◌≡◌, ◌≤◌, ◌<◌, ◌+◌, ◌*◌, ◌^◌, ◌↔◌, IfOk, IsTrue, length, slice_index, true};
ghost use Rattle.poller.specs.Deliveries.{HasWords, IsNet, deliverer_of, first_of, first_knowledge, limits_of, others_of, reader_of};

use crate::plays::{Deliver, First, Leave, Look, Reading, Receive};
use crate::script::Script;
use crate::seat_knowledge::SeatKnowledge;
use atomic_table::{Seat, Table, TableRule};
use std::alloc::{AllocError, Global};

/// A seat of a net. The table has no slots, so the type of their values is of no account.
pub(crate) type NetSeat = Seat<u8, SeatKnowledge>;

/// The rule of a net's table. Its key is the scripts, which are read for their lengths alone.
pub(crate) struct Deliveries;

impl TableRule<u8, SeatKnowledge, Vec<Script>> for Deliveries {
    ghost holds = { λ key. IsNet (limits_of key.items) };

    ghost first = { λ key. first_knowledge (limits_of key.items) };
}

/// The words: those that are counted in, and as many in which links note that they leave.
#[derive(Drop)]
pub(crate) struct Net {
    table: Table<u8, SeatKnowledge, Vec<Script>, Deliveries, Global>,
    counts: usize,
    ghost sized: { (table.shared.table_id.words ≡ 2 * counts)
        × (counts ≡ length (limits_of table.shared.key.items)) },
}

impl Net {
    ghost use Rattle.poller.specs.Seats.{IsDeliverer, IsOf, IsReader, scripts_of, knowledge_of};

    /// Words that are zero, and the seat that raises all of them.
    pub(crate) fn open(alloc: Global, scripts: &Vec<Script>) -> Result<(Net, NetSeat), AllocError>
        requires { length scripts.now.items < 2 ^ 32 }
        ensures scripts { IfOk result (λ net. scripts_of net.0 ≡ scripts.now.items) }
        ensures own { IfOk result (λ net. IsOf net.0 net.1) }
        ensures all { IfOk result
            (λ net. knowledge_of net.1 ≡ first_knowledge (limits_of scripts.now.items)) }
    {
        let counts = scripts.len() + 1;
        let words = vec![in alloc; 0u64; 2 * counts]?;
        let (table, seat) = Table::of_words(alloc, &words, scripts)?;
        Ok((Net { table, counts }, seat))
    }

    /// Delivers one more step. The seat alone raises the word, which is below its limit.
    pub(crate) fn deliver(&self, seat: &mut NetSeat, word: usize)
        requires own { IsOf self.now seat.old }
        requires inside { word < length (limits_of (scripts_of self.now)) }
        requires alone { IsDeliverer seat.old word }
        requires below { (knowledge_of seat.old).seen < slice_index (limits_of (scripts_of self.now)) word }
        requires small { (knowledge_of seat.old).seen + 1 < 2 ^ 64 }
        ensures own { IsOf self.now seat.new }
        ensures delivered { knowledge_of seat.new
            ≡ record (knowledge_of seat.old) { seen = (knowledge_of seat.old).seen + 1 } }
    {
        self.table.shared.fetch_add::<Deliver>(seat, word, 1);
    }

    /// How many steps were delivered, at one load.
    pub(crate) fn delivered(&self, seat: &mut NetSeat, word: usize) -> u64
        requires own { IsOf self.now seat.old }
        requires inside { word < length (limits_of (scripts_of self.now)) }
        requires reads { IsReader seat.old word }
        ensures own { IsOf self.now seat.new }
        ensures found { knowledge_of seat.new
            ≡ record (knowledge_of seat.old) { seen = result; looks = (knowledge_of seat.old).looks + 1 } }
        ensures later { (knowledge_of seat.old).seen ≤ result }
        ensures most { result ≤ slice_index (limits_of (scripts_of self.now)) word }
    {
        self.table.shared.load::<Receive>(seat, word)
    }

    /// Whether the seat that reads the word has left, at one load of its note.
    pub(crate) fn has_left(&self, seat: &mut NetSeat, word: usize) -> bool
        requires own { IsOf self.now seat.old }
        requires inside { word < length (limits_of (scripts_of self.now)) }
        requires delivers { IsDeliverer seat.old word }
        ensures own { IsOf self.now seat.new }
        ensures found { knowledge_of seat.new ≡ record (knowledge_of seat.old) {
          left = (knowledge_of seat.new).left;
          looks = (knowledge_of seat.old).looks + 1;
        } }
        ensures left { IsTrue result ↔ (0 < (knowledge_of seat.new).left) }
    {
        self.table.shared.load::<Look>(seat, self.counts + word) > 0
    }

    /// Notes that the seat which reads the word leaves.
    pub(crate) fn leave(&self, seat: &mut NetSeat, word: usize)
        requires own { IsOf self.now seat.old }
        requires inside { word < length (limits_of (scripts_of self.now)) }
        requires reads { IsReader seat.old word }
        ensures own { IsOf self.now seat.new }
        ensures gone { knowledge_of seat.new ≡ record (knowledge_of seat.old) { gone = true } }
    {
        self.table
            .shared
            .store::<Leave>(seat, self.counts + word, 1);
    }

    /// A seat that raises the first of the words that the given one raised. That one raises the others.
    pub(crate) fn first(&self, seat: &mut NetSeat) -> NetSeat
        requires own { IsOf self.now seat.old }
        requires some { HasWords (length (limits_of (scripts_of self.now))) (knowledge_of seat.old).role }
        ensures own { IsOf self.now seat.new }
        ensures other { IsOf self.now result }
        ensures others { knowledge_of seat.new
            ≡ record (knowledge_of seat.old) { role = others_of (knowledge_of seat.old).role } }
        ensures first { knowledge_of result
            ≡ record (knowledge_of seat.old) { role = first_of (knowledge_of seat.old).role } }
    {
        self.table.shared.split_seat::<First>(seat)
    }

    /// A seat that reads the first of the words that the given one raises. That one delivers this word from
    /// then on.
    pub(crate) fn reader(&self, seat: &mut NetSeat) -> NetSeat
        requires own { IsOf self.now seat.old }
        requires some { HasWords (length (limits_of (scripts_of self.now))) (knowledge_of seat.old).role }
        ensures own { IsOf self.now seat.new }
        ensures other { IsOf self.now result }
        ensures delivers { knowledge_of seat.new
            ≡ record (knowledge_of seat.old) { role = deliverer_of (knowledge_of seat.old).role } }
        ensures reads { knowledge_of result
            ≡ record (knowledge_of seat.old) { role = reader_of (knowledge_of seat.old).role } }
    {
        self.table.shared.split_seat::<Reading>(seat)
    }
}
