//! A listener and a poller that play a script, over links in memory.
//!
//! Tests of a whole server stand on them: which accept gives a link, must wait or fails, and which
//! poll fails, is said beforehand.
//!
//! The promise: an accept answers exactly what the next event says; a poll fails exactly where its number
//! says so, and every other poll reports, in turn, openings that were added.
#![tactic(auto)]

mod limits;
mod piece_listener;
mod piece_poller;

pub use limits::KEPT;
pub use piece_listener::{AcceptEvent, PieceListener};
pub use piece_poller::PiecePoller;

#[cfg(test)]
mod tests;
