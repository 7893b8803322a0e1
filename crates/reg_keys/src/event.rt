//! An event says that a registration of an opening may run. It is handed from the call that names it
//! to the dispatcher that spends it, so it can't be copied.
ghost use Rattle.std.specs.Prelude.{◌≡◌};

use crate::opening::Opening;
use std::marker::Model;

/// What an event is known by. Number and opening belong together: a forged event may have one of them.
#[derive(Clone, Copy, PartialEq, Eq)]
pub struct EventName {
    pub number: u64,
    pub opening: Opening,
}

/// An event that a call has named. Contracts see its `EventName`.
#[derive(Drop)]
pub struct Event {
    name: EventName,
}

impl Model for Event {
    ghost use Rattle.reg_keys.specs.declared.event.EventName.{EventName};

    ghost Value = { EventName };

    ghost view = { λ e. e.name };
}

impl Event {
    /// Makes an event. Only the table of registrations has cause to.
    pub fn named(opening: Opening, number: u64) -> Event
        ensures { result ≡ record { number = number; opening = opening } }
    {
        Event {
            name: EventName { number, opening },
        }
    }

    /// The opening whose registrations the event may run.
    pub fn opening(&self) -> Opening
        ensures { result ≡ self.now.opening }
    {
        self.name.opening
    }

    /// The number: a registration runs only if its key is smaller.
    pub fn number(&self) -> u64
        ensures { result ≡ self.now.number }
    {
        self.name.number
    }

    /// Ends the event and gives what it was made of.
    pub fn into_parts(self) -> (Opening, u64)
        ensures opening { result.0 ≡ self.opening }
        ensures number { result.1 ≡ self.number }
    {
        (self.name.opening, self.name.number)
    }
}
