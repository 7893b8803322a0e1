//! What crosses the crates.
mod crowded_queue;
mod serving;
