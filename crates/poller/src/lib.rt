//! Who tells a dispatcher which connections became ready, and a model of it in memory.
//!
//! `Poller` is a trait: links and a listener are added to a poller under their openings, and a poll gives
//! reports, each an opening with the directions in which it may be ready. `MemNet` makes a net in memory,
//! whose pollers deliver the steps of scripts to its links: this project's own model of edge reports, an edge
//! for each change.
//!
//! The promise: the reports of a poll of the net are exactly the links whose words it raised, and a link
//! answers that its caller must wait only where what one look found delivered is used up. So the net's steps
//! are lawful steps of the device world.
#![tactic(auto)]

// What is polled, and what a poll gives.
mod limits;
mod poller;
mod reports;

// A net in memory: scripts, the listener and its links, and the pollers.
mod mem_link;
mod mem_listener;
mod mem_net;
mod mem_poller;
mod script;

// Beneath it: words that are raised step by step, and the seats that raise and read them.
mod delivery_seat;
mod laid_script;
mod laws;
mod link_seat;
mod net;
mod plays;
mod seat_dealer;
mod seat_knowledge;

pub use laws::{notes_are_of_links_that_left, raises_are_lawful, waits_are_lawful};
pub use limits::{ACCEPTS, REPORTS};
pub use mem_link::MemLink;
pub use mem_listener::MemListener;
pub use mem_net::MemNet;
pub use mem_poller::MemPoller;
pub use poller::{AddOut, PollOut, Poller};
pub use reports::Reports;
pub use script::{Script, ScriptStep};

#[cfg(test)]
mod tests;
