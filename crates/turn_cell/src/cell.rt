//! The lock, and its calls in the order of use.
ghost use Rattle.std.specs.Prelude.{◌≡◌, ◌≤◌, ◌<◌, ◌^◌, [], IfOk, IfErr, IsOk, Some, length};
ghost use Rattle.turn_cell.specs.Held.{HasApplied};

use crate::part::Part;
use crate::pass::{Pass, Stepped, Tried};
use crate::plays::{Asked, Begin, Both, End, GiveBack, Halve, Look, Said, Take};
use crate::rule::Turns;
use crate::view::View;
use atomic_table::{Seat, Table};
use std::alloc::{AllocError, Global};
use std::hint::spin_loop;
use std::marker::Brand;
use std::sync::Wait;
use std::thread::yield_now;

/// The words of the table, and the one that is the cell's. The others keep anything else that is written out
/// of the lines of the processor's cache that it lies in.
const WORDS: usize = 32;

const WORD: usize = 16;

/// The slots of the table, and the one that the part lies in. The others are empty, and lie between it and
/// other memory.
const SLOTS: usize = 3;

const SLOT: usize = 1;

/// How often a call that waits looks at the word before it yields.
const LOOKS: u32 = 64;

/// The word of a cell with 2^62 entries whose turn nobody holds: twice their number.
const SPENT_WORD: u64 = 1 << 63;

/// A part, and the turn to call it. One thread has the turn at a time.
///
/// A call that nobody is in the way of makes one `fetch_or`, answers where the part lies, and makes one
/// `fetch_add`.
#[derive(Drop)]
pub struct TurnCell<P: Part> {
    table: Table<Option<P>, View<P::Entry>, P, Turns<P>, Global>,
    ghost sized: { (table.shared.table_id.words ≡ 32) × (table.shared.table_id.slots ≡ 3) },
}

impl<P: Part> TurnCell<P> {
    ghost use Rattle.turn_cell.specs.View.{first_view};
    ghost use Rattle.turn_cell.specs.Calls.{IsOf, view_of, IsRefused, CountsAhead, IsSplit, IsJoined, HasClosed, IsStep, HasStepped};
    ghost use Rattle.turn_cell.specs.Held.{IsHeld, IsReady, HasRun, HasEnded};

    /// A cell round a part that stands for no calls, and its first pass, which has all seats and has seen
    /// nothing.
    pub fn new(alloc: Global, part: P) -> Result<(TurnCell<P>, Pass<P, P::Entry>), AllocError>
        requires { P.stands part [] }
        ensures own { IfOk result (λ c. IsOf c.0 c.1) }
        ensures view { IfOk result (λ c. view_of c.1 ≡ first_view (P.name part)) }
    {
        let mut words = [0; WORDS];
        words[WORD] = 1;
        let (table, mut seat) = Table::vacant(alloc, &words, SLOTS, &part)?;
        table.shared.load::<Begin>(&mut seat, WORD);
        let _none = table.shared.exchange(&mut seat, SLOT, Some(part));
        table.shared.fetch_sub::<GiveBack>(&mut seat, WORD, 1);
        Ok((TurnCell { table }, Pass { seat }))
    }

    /// Makes a call, and waits while others have the turn: it tries again, and between the tries it looks
    /// whether the turn is free, and yields where it looked in vain.
    pub fn step<R: Wait>(&self, rt: &R, pass: &mut Pass<P, P::Entry>, call: P::Call) -> Stepped<P>
        requires own { IsOf self.now pass.old }
        requires may { P.may (view_of pass.old).name call }
        ensures own { IsOf self.now pass.new }
        ensures step { HasStepped P.stands P.name P.entry P.answers call (view_of pass.old) result
            (view_of pass.new) }
    {
        let mut call = call;
        for _ in rt.forever() {
            match self.try_step(pass, call) {
                Tried::Done(reply) => return Stepped::Done(reply),
                Tried::Spent(back) => return Stepped::Spent(back),
                Tried::Busy {
                    count: _,
                    call: back,
                } => call = back,
            }
            self.watch();
        }
        unreachable!()
    }

    /// Makes a call where nobody has the turn. It makes one `fetch_or`, and never tries again.
    pub fn try_step(&self, pass: &mut Pass<P, P::Entry>, call: P::Call) -> Tried<P>
        requires own { IsOf self.now pass.old }
        requires may { P.may (view_of pass.old).name call }
        ensures own { IsOf self.now pass.new }
        ensures step { IsStep P.stands P.name P.entry P.answers call (view_of pass.old) result
            (view_of pass.new) }
    {
        let seat = &mut pass.seat;
        let found = self.table.shared.fetch_or::<Take<P>>(seat, WORD, 1);
        if found % 2 == 1 {
            return Tried::Busy {
                count: found / 2,
                call,
            };
        }
        if found == SPENT_WORD {
            self.table.shared.fetch_sub::<GiveBack>(seat, WORD, 1);
            return Tried::Spent(call);
        }
        Tried::Done(self.run::<Brand>(seat, call))
    }

    /// How many entries the history has, at one load. To a pass without all seats it says that a history of
    /// this length may go on from what it has seen, and no more.
    pub fn seen(&self, pass: &mut Pass<P, P::Entry>) -> u64
        requires { IsOf self.now pass.old }
        ensures own { IsOf self.now pass.new }
        ensures same { view_of pass.new ≡ view_of pass.old }
        ensures count { CountsAhead (view_of pass.old) result }
        ensures most { length (view_of pass.old).seen ≤ result }
    {
        self.table.shared.load::<Look>(&mut pass.seat, WORD) / 2
    }

    /// A pass that has seen what this one has, with no calls of its own. It takes half of this one's first
    /// class of seats.
    ///
    /// It takes no memory, and always succeeds.
    pub fn split(&self, pass: &mut Pass<P, P::Entry>) -> Result<Pass<P, P::Entry>, AllocError>
        requires { IsOf self.now pass.old }
        ensures own { IsOf self.now pass.new }
        ensures made { IsOk result }
        ensures other { IfOk result (λ p. IsOf self.now p) }
        ensures split { IfOk result (λ p. IsSplit (view_of pass.old) (view_of pass.new) (view_of p)) }
    {
        self.table.shared.load::<Look>(&mut pass.seat, WORD);
        let seat = self.table.shared.split_seat::<Halve>(&mut pass.seat);
        Ok(Pass { seat })
    }

    /// Takes in another pass of the cell, with all that it has seen and all its seats.
    pub fn join(&self, pass: &mut Pass<P, P::Entry>, other: Pass<P, P::Entry>)
        requires own { IsOf self.now pass.old }
        requires other { IsOf self.now other }
        ensures own { IsOf self.now pass.new }
        ensures joined { IsJoined (view_of pass.old) (view_of other) (view_of pass.new) }
    {
        let Pass { seat } = other;
        self.table.shared.join_seat::<Both>(&mut pass.seat, seat);
        self.table.shared.load::<Look>(&mut pass.seat, WORD);
    }

    /// Ends the cell, and gives back its part. Where the turn is held it gives back cell and pass. It makes
    /// one `fetch_or`, and never tries again.
    ///
    /// No call of another thread can be under way on a cell that is passed by value. That it then gives the
    /// part is not proved.
    pub fn close(self, mut pass: Pass<P, P::Entry>) -> Result<P, (TurnCell<P>, Pass<P, P::Entry>)>
        requires { IsOf self pass }
        ensures part { IfOk result (λ p. HasClosed P.stands P.name (view_of pass) p) }
        ensures cell { IfErr result (λ c. (c.0 ≡ self) × IsOf c.0 c.1) }
        ensures held { IfErr result (λ c. IsRefused (view_of pass) (view_of c.1)) }
    {
        let found = self
            .table
            .shared
            .fetch_or::<Take<P>>(&mut pass.seat, WORD, 1);
        if found % 2 == 1 {
            return Err((self, pass));
        }
        let Pass { mut seat } = pass;
        let Some(part) = self.table.shared.exchange(&mut seat, SLOT, None) else {
            unreachable!()
        };
        let TurnCell { table } = self;
        drop(table);
        Ok(part)
    }

    /// Lets time pass while another has the turn: looks at the word some dozens of times, so that its line
    /// stays with the other thread but for reads, and yields only then. What it sees decides nothing; the
    /// next try does.
    fn watch(&self) {
        for _ in 0..LOOKS {
            if self.table.shared.peek(WORD) % 2 == 0 {
                return;
            }
            spin_loop();
        }
        yield_now();
    }

    /// Applies the call that N names, with the turn held.
    fn run<N: Asked<P::Call>>(
        &self,
        seat: &mut Seat<Option<P>, View<P::Entry>>,
        call: P::Call,
    ) -> P::Reply
        requires said { N.call ≡ Some call }
        requires own { seat.old.table_id ≡ self.now.table.shared.table_id }
        requires may { P.may seat.old.me.0.name call }
        requires held { IsHeld P.stands P.name seat.old.me }
        ensures own { (seat.new.table_id ≡ seat.old.table_id) × (seat.new.id ≡ seat.old.id) }
        ensures done { HasRun P.stands P.name P.entry call result seat.old.me seat.new.me }
        ensures answers { P.answers call result }
    {
        let held = seat.slot_mut(&self.table.shared, SLOT);
        let reply = answer(held, call);
        self.end::<Brand>(seat, &reply);
        reply
    }

    /// Ends the turn, with the entry that W names. The reply is what the caller picks the entry by.
    fn end<W: Said<P::Entry>>(&self, seat: &mut Seat<Option<P>, View<P::Entry>>, reply: &P::Reply)
        requires own { seat.old.table_id ≡ self.now.table.shared.table_id }
        requires ready { IsReady P.stands P.name W.item seat.old.me }
        ensures own { (seat.new.table_id ≡ seat.old.table_id) × (seat.new.id ≡ seat.old.id) }
        ensures done { HasEnded W.item seat.old.me seat.new.me }
    {
        self.table.shared.fetch_add::<End<W>>(seat, WORD, 1);
    }
}

/// Applies a call to the part in a slot, where it lies.
fn answer<P: Part>(slot: &mut Option<P>, call: P::Call) -> P::Reply
    requires { (p : P) × (slot.old ≡ Some p) × P.may (P.name p) call × (h : _) × P.stands p h
        × (length h < 2 ^ 62) }
    ensures part { (p : P) → slot.old ≡ Some p → HasApplied P.stands P.name (P.entry call result) p slot.new }
    ensures answers { P.answers call result }
{
    let Some(part) = slot else { unreachable!() };
    part.apply(call)
}
