//! The events that a dispatcher keeps where the queue is full: a small ring, whose room is taken once.
ghost use Rattle.std.specs.Prelude.{◌≡◌, ◌<◌, ◌≤◌, [], ◌∷◌, ◌++◌, length, IfOk, MatchOption};

use reg_keys::Event;
use std::alloc::{AllocError, Global};
use std::collections::VecDeque;
use std::marker::Model;

/// How many events a hand holds at most.
pub const HAND: usize = 64;

/// The events in a dispatcher's hand, in the order in which they came. There are at most `HAND`.
#[derive(Drop)]
pub struct Hand {
    events: VecDeque<Event>,
}

impl Model for Hand {
    ghost use Rattle.std.specs.Prelude.{List, ◌≤◌, length};
    ghost use Rattle.std.specs.VecDeque.{deque_capacity};
    ghost use Rattle.reg_keys.specs.declared.event.EventName.{EventName};
    ghost use Rattle.dispatcher.specs.declared.hand.TheConstants.{HAND};

    ghost Value = { List EventName };

    ghost view = { λ hand. hand.events.items };

    ghost invariant = { λ hand. HAND ≤ deque_capacity hand.events × length hand.events.items ≤ HAND };
}

impl Hand {
    /// An empty hand, with room for all events that it ever holds.
    pub fn new(alloc: Global) -> Result<Hand, AllocError>
        ensures { IfOk result (λ hand. hand ≡ []) }
    {
        Ok(Hand {
            events: VecDeque::with_capacity(alloc, HAND)?,
        })
    }

    /// How many events there are.
    pub fn len(&self) -> usize
        ensures count { result ≡ length self.now }
        ensures few { length self.now ≤ HAND }
    {
        self.events.len()
    }

    /// Puts an event after the others. There must be room for it.
    pub fn push(&mut self, event: Event)
        requires { length self.old < HAND }
        ensures { self.new ≡ self.old ++ event ∷ [] }
    {
        self.events.push_back_reserved(event);
    }

    /// Takes the first event.
    pub fn pop_first(&mut self) -> Option<Event>
        ensures { MatchOption result ((self.old ≡ []) × (self.new ≡ []))
            (λ event. self.old ≡ event ∷ self.new) }
    {
        self.events.pop_front()
    }
}
