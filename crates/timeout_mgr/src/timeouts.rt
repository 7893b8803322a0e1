//! The manager of timeouts, and its calls. What they do at one slot stands in `one_slot`.
ghost use Rattle.std.specs.Prelude.{◌≡◌, ◌<◌, IfOk, IsOk};
ghost use Rattle.timeout_mgr.specs.Rule.{IsAtRest};

use crate::expired::Expired;
use crate::limits::SLOTS;
use crate::plays::{Both, Compare, Cut};
use crate::round::{SPLIT_GAP, slot_of};
use crate::rule::Words;
use crate::view::TimeView;
use crate::watch::{AddWatch, CancelOut, TickleOut, Watch};
use atomic_table::{Seat, Table};
use reg_keys::Opening;
use std::alloc::{AllocError, Global};
use std::marker::Brand;

/// The watches of 4,096 slots, which all threads share: a word and a place for an opening each.
#[derive(Drop)]
pub struct Timeouts {
    pub(crate) table: Table<Option<Opening>, TimeView, (), Words, Global>,
    ghost sized: { (table.shared.table_id.words ≡ 4096) × (table.shared.table_id.slots ≡ 4096) },
}

/// What a thread makes calls with. Its adds go round the table, and each looks on from where the last one
/// stopped.
#[derive(Drop)]
pub struct TimePass {
    pub(crate) seat: Seat<Option<Opening>, TimeView>,
    /// The place of the round at which the next add begins.
    pub(crate) next: usize,
    ghost rests: { IsAtRest seat.me },
    ghost inside: { next < 4096 },
}

impl Timeouts {
    ghost use Rattle.timeout_mgr.specs.Passes.{first_view};
    ghost use Rattle.timeout_mgr.specs.Calls.{IsOf, view_of, HasAdded, HasTickled, HasCancelled, HasSwept, IsJoined, name_of_watch};

    /// A manager with no watch, and its first pass.
    pub fn new(alloc: Global) -> Result<(Timeouts, TimePass), AllocError>
        ensures own { IfOk result (λ t. IsOf t.0 t.1) }
        ensures view { IfOk result (λ t. view_of t.1 ≡ first_view) }
    {
        let words = vec![in alloc; 0u64; SLOTS]?;
        let (table, seat) = Table::vacant(alloc, &words, SLOTS, &())?;
        Ok((Timeouts { table }, TimePass { seat, next: 0 }))
    }

    /// A pass that has seen as much, and has done nothing. It looks on from where the old one stopped, and
    /// the old one from further on, so that the passes of several threads don't come to the same slots.
    pub fn split(&self, pass: &mut TimePass) -> Result<TimePass, AllocError>
        requires { IsOf self.now pass.old }
        ensures own { IsOf self.now pass.new }
        ensures made { IsOk result }
        ensures other { IfOk result (λ p. IsOf self.now p) }
        ensures same { view_of pass.new ≡ view_of pass.old }
        ensures fresh { IfOk result (λ p. view_of p ≡ record first_view { seen = (view_of pass.old).seen }) }
    {
        let seat = self.table.shared.split_seat::<Cut>(&mut pass.seat);
        let next = pass.next;
        pass.next = (next + SPLIT_GAP) % SLOTS;
        Ok(TimePass { seat, next })
    }

    /// Takes in another pass, with all that it has seen and done.
    pub fn join(&self, pass: &mut TimePass, other: TimePass)
        requires own { IsOf self.now pass.old }
        requires other { IsOf self.now other }
        ensures own { IsOf self.now pass.new }
        ensures joined { IsJoined (view_of pass.old) (view_of other) (view_of pass.new) }
    {
        let TimePass { seat, next: _ } = other;
        self.table.shared.join_seat::<Both>(&mut pass.seat, seat);
        self.table.shared.load::<Compare>(&mut pass.seat, 0);
    }

    /// Adds a watch over the opening. It looks on from where the last add of the pass stopped and goes round
    /// the table, to each slot at most once.
    pub fn add(&self, pass: &mut TimePass, o: Opening) -> AddWatch
        requires own { IsOf self.now pass.old }
        ensures own { IsOf self.now pass.new }
        ensures adds { HasAdded o (view_of pass.old) result (view_of pass.new) }
    {
        let first = pass.next;
        for count in 0..SLOTS {
            let place = (first + count) % SLOTS;
            if let Some(watch) = self.add_at(pass, slot_of(place), o) {
                pass.next = (place + 1) % SLOTS;
                return AddWatch::Added(watch);
            }
        }
        self.answer::<Brand, Opening>(pass, &o);
        AddWatch::Full
    }

    /// Says that something happened on the watch's connection. It is one load where no sweep came by since
    /// the last such call, and else a load and an exchange.
    pub fn tickle(&self, pass: &mut TimePass, watch: &Watch) -> TickleOut
        requires own { IsOf self.now pass.old }
        ensures own { IsOf self.now pass.new }
        ensures tickles { HasTickled (name_of_watch watch.now) (view_of pass.old) result (view_of pass.new) }
    {
        self.tickle_as::<Brand>(pass, watch)
    }

    /// Ends the watch. It makes at most three exchanges, and after the third it hands the watch back.
    pub fn cancel(&self, pass: &mut TimePass, watch: Watch) -> CancelOut
        requires own { IsOf self.now pass.old }
        ensures own { IsOf self.now pass.new }
        ensures cancels { HasCancelled watch (view_of pass.old) result (view_of pass.new) }
    {
        self.cancel_as::<Brand>(pass, watch)
    }

    /// Gives the openings of the watches that live and that nothing but a sweep came by since the sweep
    /// before. These watches end. What the list held before is gone.
    pub fn sweep(&self, pass: &mut TimePass, out: &mut Expired)
        requires own { IsOf self.now pass.old }
        ensures own { IsOf self.now pass.new }
        ensures sweeps { HasSwept (view_of pass.old) out.new (view_of pass.new) }
    {
        out.clear();
        for slot in 0..SLOTS {
            if let Some(o) = self.sweep_at::<Brand>(pass, slot, out) {
                out.push(o);
            }
        }
    }
}
