//! The codes with which a dispatcher stops: the exit statuses that these ends have.

/// Memory was wanted, for a connection's place in the tally or for the listener.
pub const NO_MEMORY: u8 = 6;

/// A poller failed, in a poll or in taking the listener.
pub const POLL_FAULT: u8 = 8;

/// 1,000 accepts in a row failed.
pub const ACCEPT_FAULT: u8 = 9;

/// A stripe, a cell or the queue takes no more calls.
pub const SPENT: u8 = 10;
