//! Tests of one descriptor across the crates of events: what an accepted link of a memory net gives and takes, and how
//! a thread's wait for it ends while others turn and close.
//!
//! It has nothing but tests. What they are set up with, and the server whose rows they turn, is `event_tests`.
#![tactic(auto)]

#[cfg(test)]
mod tests;
