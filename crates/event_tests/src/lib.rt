//! Tests that cross the crates of events: a manager and its queue, the turns of dispatchers, and a net in memory, put
//! together as a server puts them. The tests of one descriptor and of threads that wait are `wait_tests`, over this.
//!
//! The library is a small server of connections over the memory net, which the tests turn: a runner of lent
//! fields that reads what is there, registers again with the mark that its run was given, and closes at the
//! last. It keeps an account of its registrations: each but a first one, and each connection that is
//! finished, comes of one that ended.
#![tactic(auto)]

// What a connection registers, and what takes it where it is finished.
mod book;
mod job;

// Running it.
mod calls;
mod runner;
mod turns;

pub use book::{Book, Finish};
pub use job::{Job, LAST, drain};
pub use runner::ServerRunner;
pub use turns::{Kit, Row, new_row, serve_on, turn_row};

// What tests are set up with, here and above.
pub mod set_up;
#[cfg(test)]
mod tests;
