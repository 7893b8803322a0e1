//! The queue, its passes, and its calls in the order of use.
ghost use Rattle.std.specs.Prelude.{◌≡◌, ◌≢◌, ◌<◌, ◌∷◌, [], false, IfOk, IsOk};
ghost use Rattle.crossbeam_queue.specs.Passes.{view, IsPassOf};

use crate::rule::{Begin, Both, Capacity, Halve, Look, Move, Order, Puts, Takes};
use crossbeam_queue::{Pass, RuledArrayQueue};
use reg_keys::Event;
use std::alloc::{AllocError, Global};
use std::marker::Brand;
use std::sync::Wait;
use turn_cell::{View, an_entry_is_the_passes_own, halves_are_a_split, joined_views_are_a_join};

type Ring = RuledArrayQueue<Event, View<Move>, Order, Global>;

/// Events that wait for a dispatcher. Any number of threads put and take at once.
#[derive(Drop)]
pub struct ReadyQueue {
    ring: RuledArrayQueue<Event, View<Move>, Order, Global>,
}

/// What a thread makes calls on a queue with. It has no bytes. It is of one queue, and
/// belongs to whoever holds it:
/// dropping it leaves its seats to nobody.
#[derive(Drop)]
pub struct QPass {
    seat: Pass<Event, View<Move>>,
    ghost rests: { ((view seat).gone ≡ false) × ((view seat).classes ≢ []) },
}

/// How a `put` came out.
#[derive(Drop)]
pub enum PutOut {
    /// The event stands at the back of the queue.
    Put,
    /// The queue held as many events as its capacity, at a step of the call. The event is handed back.
    ///
    /// That it was so is proved of a pass that has all seats. To any other the queue may have
    /// been filled by moves of seats that aren't the pass's, of which its contract knows
    /// nothing: there this is shown by tests.
    Full(Event),
}

/// How a `take` came out.
#[derive(Drop)]
pub enum TakeOut {
    /// The event that stood at the front of the queue.
    Taken(Event),
    /// The queue held no event, at a step of the call. What is proved of this is as at `PutOut::Full`.
    Empty,
}

impl ReadyQueue {
    ghost use Rattle.turn_cell.specs.Calls.{IsSplit, IsJoined};
    ghost use Rattle.turn_cell.specs.View.{first_view};
    ghost use Rattle.ready_queue.specs.Calls.{IsOf, view_of, capacity_of, HasPut, HasTaken};

    /// An empty queue for up to `capacity` events, and its first pass, which has all seats and has seen
    /// nothing. All its memory is taken here.
    pub fn new(alloc: Global, capacity: u32) -> Result<(ReadyQueue, QPass), AllocError>
        requires some { 0 < capacity }
        ensures capacity { IfOk result (λ q. capacity_of q.0 ≡ capacity) }
        ensures own { IfOk result (λ q. IsOf q.0 q.1) }
        ensures view { IfOk result (λ q. view_of q.1 ≡ first_view (capacity ∷ [])) }
    {
        let (ring, mut seat) = Ring::ruled(alloc, capacity as usize)?;
        begin::<Brand>(&ring, &mut seat);
        Ok((ReadyQueue { ring }, QPass { seat }))
    }

    /// Puts an event at the back of the queue.
    ///
    /// It waits for no event to be taken: a full queue hands the event back. It may wait for another thread's
    /// `put` or `take` that has begun.
    pub fn put<R: Wait>(&self, rt: &R, pass: &mut QPass, event: Event) -> PutOut
        requires own { IsOf self.now pass.old }
        ensures own { IsOf self.now pass.new }
        ensures put { HasPut (capacity_of self.now) event (view_of pass.old) result (view_of pass.new) }
    {
        // A law of own entries: it does nothing when run.
        an_entry_is_the_passes_own::<Move>();
        match self.ring.push_as::<Puts, R>(rt, &mut pass.seat, event) {
            Ok(()) => PutOut::Put,
            Err(back) => PutOut::Full(back),
        }
    }

    /// Takes the event at the front of the queue.
    ///
    /// It waits for no event to be put. It may wait for another thread's `put` or `take` that has begun.
    pub fn take<R: Wait>(&self, rt: &R, pass: &mut QPass) -> TakeOut
        requires own { IsOf self.now pass.old }
        ensures own { IsOf self.now pass.new }
        ensures take { HasTaken (capacity_of self.now) (view_of pass.old) result (view_of pass.new) }
    {
        // A law of own entries: it does nothing when run.
        an_entry_is_the_passes_own::<Move>();
        match self.ring.pop_as::<Takes, R>(rt, &mut pass.seat) {
            Some(event) => TakeOut::Taken(event),
            None => TakeOut::Empty,
        }
    }

    /// A pass that has seen what this one has, with no moves of its own. It takes half of this one's first
    /// class of seats. It takes no memory, and always succeeds.
    pub fn split(&self, pass: &mut QPass) -> Result<QPass, AllocError>
        requires { IsOf self.now pass.old }
        ensures own { IsOf self.now pass.new }
        ensures made { IsOk result }
        ensures other { IfOk result (λ p. IsOf self.now p) }
        ensures split { IfOk result (λ p. IsSplit (view_of pass.old) (view_of pass.new) (view_of p)) }
    {
        self.ring.learn_as::<Look>(&mut pass.seat);
        let seat = self.ring.another::<Halve>(&mut pass.seat);
        // A law of splits: it does nothing when run.
        halves_are_a_split::<Move>();
        Ok(QPass { seat })
    }

    /// Takes in another pass of the queue, with all that it has seen and all its seats.
    pub fn join(&self, pass: &mut QPass, other: QPass)
        requires own { IsOf self.now pass.old }
        requires other { IsOf self.now other }
        ensures own { IsOf self.now pass.new }
        ensures joined { IsJoined (view_of pass.old) (view_of other) (view_of pass.new) }
    {
        let QPass { seat } = other;
        self.ring.absorb::<Both>(&mut pass.seat, seat);
        self.ring.learn_as::<Look>(&mut pass.seat);
        // A law of joins: it does nothing when run.
        joined_views_are_a_join::<Move>();
    }
}

ghost use Rattle.std.specs.Prelude.{ℕ, Some};
ghost use Rattle.ready_queue.specs.Rule.{newcomer, made_for};

/// Tells the first pass the capacity that C names.
fn begin<C: Capacity>(ring: &Ring, seat: &mut Pass<Event, View<Move>>)
    requires capacity { (n : ℕ) × (C.capacity ≡ Some n) }
    requires own { IsPassOf ring.now seat.old }
    requires new { view seat.old ≡ newcomer }
    ensures own { (seat.new.table_id ≡ seat.old.table_id) × (seat.new.me.1 ≡ seat.old.me.1) }
    ensures view { view seat.new ≡ made_for C.capacity newcomer }
{
    let _none = ring.another::<Begin<C>>(seat);
}
