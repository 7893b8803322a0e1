//! A front in memory: what a server begins with is handed to it beforehand.
//!
//! Tests of a whole server stand on it: the listener and the pollers play scripts, and the links,
//! files and clocks are in memory.
//!
//! The promise: a front hands out just what it was made of, once and in order, and fails
//! exactly where it says so.
#![tactic(auto)]

mod mem_front;

pub use mem_front::MemFront;
