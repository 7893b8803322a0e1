//! The front of a real server: it listens over TCP, and its dispatchers work with sockets,
//! the system's files and its time.
//!
//! The promise: that of every front. An answer that something failed comes only where the front's count of
//! faults rose, and books are handed out empty. Nothing is claimed of what the system does.
#![tactic(auto)]

mod sock_front;

pub use sock_front::SockFront;
