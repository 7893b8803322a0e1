//! How much there is of each thing, each named once. The sizes are this project's own.

/// How many pollers share the links of one server at most.
pub const POLLERS: usize = 64;

/// How long a poll that may wait waits for the system at most, in milliseconds.
pub const IDLE_MILLIS: u64 = 10;

/// How many links may linger with one poller. One more is closed at once.
pub const LINGERING: usize = 1024;

/// How long a link lingers, in seconds. It is closed within a second more.
pub const LINGER_SECONDS: u64 = 5;

/// How many bytes are taken of a peer while its link lingers.
pub const LINGER_BYTES: usize = 16_777_216;

/// The first token of links that linger. Those of openings are below it.
pub(crate) const LINGER_TOKENS: u64 = 18_446_744_073_709_550_592;

/// How many bytes one read of a lingering link takes at most.
pub(crate) const DRAIN_ROOM: usize = 16_384;

/// How many reads of a lingering link are made for one event.
pub(crate) const DRAINS: u32 = 4;

/// How many links one poll takes in to linger.
pub(crate) const TAKEN_IN: u32 = 256;

/// How many places of lingering links one poll looks at, whether their time is over.
pub(crate) const LOOKED_AT: u32 = 64;

/// How often a link that is let go tries to be handed over. It is closed at once then.
pub(crate) const HAND_OVERS: u32 = 1_000;

/// How many connections in a row that can't be had one accept passes over.
pub(crate) const PASSED_OVER: u32 = 256;
