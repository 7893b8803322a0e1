//! A link of a memory net. What it gives and takes is what was delivered of its script.
ghost use Rattle.std.specs.Prelude.{◌≡◌, ◌≤◌, ◌<◌, ◌+◌, ◌-◌, ◌++◌, ◌||◌, ◌↔◌, IsTrue, Some, None, false, true, length, refl, take};
ghost use Rattle.outside.specs.Causes.{bytes_got, bytes_taken, is_end, GivesWithin, TakesWithin, ReadWaits, WriteWaits};
ghost use Rattle.outside.specs.Counts.{nothing_counted};
ghost use Rattle.poller.specs.LaidScripts.{Lays};
ghost use Rattle.poller.specs.Scripts.{allowed_in, pieces_in, steps_at};

use crate::delivery_seat::DeliverySeat;
use crate::laid_script::{LaidScript, Reached};
use crate::link_seat::LinkSeat;
use outside::{Count, Link, ReadOut, Room, WriteOut, copy_from};

/// A link of a memory net. It tells its bytes and its plan, and never fails.
#[derive(Drop)]
pub struct MemLink {
    seat: LinkSeat,
    script: LaidScript,
    given: usize,
    ended: bool,
    room: Room,
    read_waits: Count,
    write_waits: Count,
    ghost links: { 1 ≤ seat.word },
    ghost laid: { Lays (steps_at seat.scripts (seat.word - 1))
        (length (steps_at seat.scripts (seat.word - 1))) script.input.items script.reached.items },
    ghost over: { IsTrue ended → length (pieces_in (steps_at seat.scripts (seat.word - 1))) ≤ given },
}

impl MemLink {
    ghost use Rattle.poller.specs.NetLinks.{IsLinks, IsSameLink, can_take, net_link_of, number_of, script_of, waits_of};

    /// The link of a seat, of which nothing was asked yet.
    pub(crate) fn new(seat: LinkSeat, script: LaidScript, room: Room) -> MemLink
        requires links { IsLinks seat }
        requires laid { Lays (script_of seat)
            (length (script_of seat)) script.input.items script.reached.items }
        ensures seat { result.seat ≡ seat }
        ensures is { net_link_of result ≡ record {
          number = number_of seat;
          steps = script_of seat;
          delivered = seat.delivered;
          looks = seat.looks;
          given = 0;
          ended = false;
          room = room;
          delivery = seat.delivery;
        } }
        ensures waits { waits_of result ≡ nothing_counted }
    {
        MemLink {
            seat,
            script,
            given: 0,
            ended: false,
            room,
            read_waits: Count::new(),
            write_waits: Count::new(),
        }
    }

    /// What was sent.
    pub fn sent(&self) -> &[u8]
        ensures { result.now ≡ (net_link_of self.now).room.stored }
    {
        self.room.stored()
    }

    /// Whether it was added to a poller.
    pub(crate) fn is_added(&self) -> bool
        ensures { IsTrue result ↔ (self.now.seat.delivery ≡ None) }
    {
        self.seat.is_added()
    }

    /// Gives its delivery to a poller, where no poller has it yet.
    pub(crate) fn take_delivery(&mut self) -> Option<DeliverySeat>
        ensures delivery { result ≡ self.old.seat.delivery }
        ensures taken { self.new.seat ≡ record self.old.seat { delivery = None } }
        ensures same { IsSameLink self.old self.new }
    {
        self.seat.take_delivery()
    }

    /// How many steps its script has.
    fn steps(&self) -> usize
        ensures { result ≡ length (script_of self.now.seat) }
    {
        self.script.reached.len() - 1
    }

    /// How many steps were delivered, at one look.
    fn delivered(&mut self) -> usize
        ensures found { result ≡ (net_link_of self.new).delivered }
        ensures later { (net_link_of self.old).delivered ≤ result }
        ensures most { result ≤ length (net_link_of self.new).steps }
        ensures looked { (net_link_of self.new).looks ≡ (net_link_of self.old).looks + 1 }
        ensures same { net_link_of self.old ≡ record (net_link_of self.new) {
          delivered = (net_link_of self.old).delivered;
          looks = (net_link_of self.old).looks;
        } }
        ensures waits { waits_of self.new ≡ waits_of self.old }
    {
        self.seat.delivered() as usize
    }

    /// How far the script goes once this many steps were delivered.
    fn reach(&self, delivered: usize) -> Reached
        requires { delivered ≤ length (script_of self.now.seat) }
        ensures input { result.input ≡ length (pieces_in (take delivered (script_of self.now.seat))) }
        ensures within { result.input ≤ length self.now.script.input.items }
        ensures allowance { result.allowance ≡ allowed_in (take delivered (script_of self.now.seat)) }
    {
        self.script.reached[delivered]
    }

    /// How many bytes it can take once this many steps were delivered.
    fn can_take(&self, delivered: usize) -> usize
        requires found { delivered ≡ (net_link_of self.now).delivered }
        requires most { delivered ≤ length (script_of self.now.seat) }
        ensures count { result ≡ can_take (net_link_of self.now) }
        ensures room { length (net_link_of self.now).room.stored + result ≤ (net_link_of self.now).room.size }
    {
        let free = self.room.free();
        if delivered == self.steps() {
            return free;
        }
        let sent = self.room.stored().len() as u64;
        let allowed = self.reach(delivered).allowance.saturating_sub(sent);
        allowed.min(free as u64) as usize
    }
}

impl Link for MemLink {
    ghost use Rattle.std.proofs.Common.{arith};
    ghost use Rattle.poller.specs.PlanLaws.{follows};
    ghost use Rattle.poller.specs.NetLinks.{ReadsNet, WritesNet, given_of, input_of, net_link_of, told_of, waits_of};

    ghost told = { told_of };

    ghost sure = { true };

    fn read(&mut self, buf: &mut [u8]) -> ReadOut
        requires { 0 < length buf.old }
        ensures within { GivesWithin result buf.new }
        ensures takes { given_of (net_link_of self.new)
            ≡ given_of (net_link_of self.old) ++ bytes_got result buf.new }
        ensures ends { (net_link_of self.new).ended ≡ ((net_link_of self.old).ended || is_end result) }
        ensures plays { ReadsNet (net_link_of self.old) (net_link_of self.new) result buf.new }
        ensures waited { ReadWaits result (waits_of self.old) (waits_of self.new) }
    {
        let delivered = self.delivered();
        let reach = self.reach(delivered).input;
        if self.given < reach {
            let n = copy_from(&self.script.input[..reach], self.given, buf);
            self.given += n;
            return ReadOut::Got(n);
        }
        if delivered == self.steps() {
            self.ended = true;
            return ReadOut::End;
        }
        self.read_waits.rise();
        ReadOut::NotYet
    }

    fn write(&mut self, piece: &[u8]) -> WriteOut
        requires { 0 < length piece.now }
        ensures within { TakesWithin result piece.now }
        ensures sends { (net_link_of self.new).room
            ≡ record (net_link_of self.old).room
            { stored = (net_link_of self.old).room.stored ++ bytes_taken result piece.now } }
        ensures plays { WritesNet (net_link_of self.old) (net_link_of self.new) (length piece.now) result }
        ensures waited { WriteWaits result (waits_of self.old) (waits_of self.new) }
    {
        let delivered = self.delivered();
        let n = piece.len().min(self.can_take(delivered));
        if n == 0 {
            self.write_waits.rise();
            return WriteOut::NotYet;
        }
        self.room.store(&piece[..n]);
        WriteOut::Took(n)
    }

    ghost ended_told = { λ _. refl };

    ghost follows_plan = { λ link. follows (input_of (net_link_of link)) link.given link.ended link.over };

    ghost surely = { λ _ _. refl };

    ghost faults_fit = { λ _. record { reads = Prim.omega arith; writes = Prim.omega arith } };

    ghost waits_fit = { λ link. record { reads = link.read_waits.fits; writes = link.write_waits.fits } };
}
