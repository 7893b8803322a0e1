//! Events that wait for a dispatcher, first in and first out, in a queue of a fixed capacity that all threads
//! share. It is the ruled queue of `crossbeam_queue` under a rule of this crate: there is one history of what
//! was put and taken, which no memory has, and each pass knows a beginning of it.
//!
//! Its promise: an event that was put is taken at most once, first in and first out, over all threads; to a
//! pass that has all seats, `Full` comes only where the queue was full, and `Empty` only where it was empty.
#![tactic(auto)]

// What is called.
mod queue;

// What holds of every history.
mod laws;

// Why it is so: the rule, and the kinds of step under it.
mod rule;

pub use laws::{
    answers_to_all_seats_are_exact, histories_are_first_in_first_out,
    histories_begin_with_histories, histories_hold_at_most_the_capacity,
};
pub use queue::{PutOut, QPass, ReadyQueue, TakeOut};
pub use rule::{Move, Order};

#[cfg(test)]
mod tests;
