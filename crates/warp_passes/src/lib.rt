//! What all dispatchers of a server share, and the passes that each of them calls it with: the events, the
//! ready queue, the timeouts, the cache of open files and the tally. A dispatcher owns one pass of each.
//!
//! The promise: a call adds its own entries to what its pass did, and nothing else, or nothing where the cell
//! takes no more calls; and passes that were brought level did together exactly what stands in the histories
//! that each of them has seen, whatever an entry weighs.
#![tactic(auto)]

// The calls that a run makes on the tally and on the cache.
mod cache;
mod tally;

// What is shared, and a pass of each thing.
mod queue;
mod shared;

// Passes that are brought level, also where they lie in rows.
mod leveling;
mod rows;

// A pass for each dispatcher.
mod making;

// What level passes say of the histories.
mod laws;

pub use cache::{CachePass, ReapOut, acquire, reap_once, release};
pub use laws::{
    grown_passes_hold_the_seats, level_passes_add_up, levelled_rows_are_level,
    moved_passes_hold_the_seats, new_passes_did_nothing,
};
pub use making::shared_among;
pub use queue::tell_queue;
pub use rows::{ShareRow, bring_rows_level};
pub use shared::{ServePass, Shared};
pub use tally::{TallyOut, TallyPass, accept, finish, look, stop, turn_away};

#[cfg(test)]
mod tests;
