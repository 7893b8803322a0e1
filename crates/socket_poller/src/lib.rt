//! Connections over TCP: a poller, a listener and links over the system's sockets, by the kit's `mio`.
//!
//! Each socket is registered once, for both directions and edge by edge, under the token of its opening.
//! Links are spread over the sets of all pollers of a server, in turn. A link that is let go while its peer
//! may still be sending is closed later, by the poller of its set, so that an answer isn't lost.
//!
//! The promise: an answer that something failed, or that the caller must wait, comes only where a count of
//! that very object rose, and the reports of a poll are exactly what the events say that the system gave.
//! Nothing is claimed of what peers send or of what the system tells.
#![tactic(auto)]

// What can go wrong, and how much of each thing there is.
mod fault;
mod limits;

// What is polled, and what an event says.
mod report;
mod sock_link;
mod sock_listener;
mod sock_poller;
mod trouble;

// What the pollers of one server share, and links that linger.
mod departed;
mod group;
mod home;
mod lingering;
mod peer_ends;
mod retry;

pub use fault::SockFault;
pub use limits::{IDLE_MILLIS, LINGER_BYTES, LINGER_SECONDS, LINGERING, POLLERS};
pub use sock_link::SockLink;
pub use sock_listener::SockListener;
pub use sock_poller::SockPoller;

#[cfg(test)]
mod tests;
