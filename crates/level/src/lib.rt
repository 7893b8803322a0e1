//! Passes of all threads, brought to one history once the threads have ended. A pass may hold
//! passes of several cells, as that of the event manager does. What is said of all threads together
//! is said by sums over the passes' own entries, whatever an entry weighs.
//!
//! Its promise: passes that share all seats, once level, have seen one history of each cell, which
//! one of them had seen before, and each of its entries is one pass's own, as it was before.
#![tactic(auto)]

// What can be told what another has seen.
mod share;

// All of them brought level.
mod level;

// A cell with a pass for each of several threads.
mod make;

// Seats that stay shared.
mod laws;

pub use laws::split_passes_hold_all_seats;
pub use level::bring_level;
pub use make::cell_with_passes;
pub use share::Share;

#[cfg(test)]
mod tests;
