//! A dispatcher takes events from the ready queue, dispatches each and runs what fired, and then polls and
//! reports what the poll gave. Each has passes, a hand and a runner of its own, so any number of them turn at
//! once.
//!
//! The promise: in a turn no event is lost and none is there twice. Each event that was got is put,
//! dispatched or in the hand, and each key that fired was run once, in the order of its stripe, under its own
//! opening and with the marks and the direction that its stripe told.
//!
//! To see it at work read the program `event_example`: a job that registers, runs and registers again.
//! `event_tests` has a runner that keeps an account.
#![tactic(auto)]

// What a dispatcher has: its passes and its hand, and what runs the jobs.
mod hand;
mod pass;
mod plain;
mod runner;

// A turn, and its parts.
mod dispatch;
mod enqueue;
mod laws;
mod outcome;
mod turning;

pub use hand::{HAND, Hand};
pub use laws::calls_of_runs;
pub use outcome::Turned;
pub use pass::DispPass;
pub use plain::{PlainRunner, Run};
pub use runner::{AfterRun, EventPair, Runner};
pub use turning::turn;

#[cfg(test)]
mod tests;
