//! The server: dispatchers that share one manager of events, one queue, one set of watches, one cache of open
//! files and one tally, each turned in a thread of its own, until a number of connections were served.
//!
//! Its promise: of each dispatcher a journal explains all that its passes and its book say, and at the end
//! the passes are level, so that what all did together is what stands in the histories. Every event that a
//! call named is accounted for over the whole run.
#![tactic(auto)]

// What is handed back.
mod served;

// A dispatcher, and its passes among those of the others.
mod row;
mod sharing;

// Its beats, and its turns.
mod beat;
mod turns;

// All of them: made, turned until the end, and taken apart.
mod making;
mod serve;
mod settling;

pub use serve::serve_loop;
pub use served::{Counts, ServeEnd, Served};
