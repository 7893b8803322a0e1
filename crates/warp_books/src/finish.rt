//! How a connection of a server ended.
use conn_loop::End;

/// Why a connection was turned away, which had an opening and ran as no job.
#[derive(Clone, Copy, Debug, PartialEq, Eq)]
pub enum Turned {
    /// No watch was free for it.
    Watches,
    /// Its registration found no place.
    Crowded,
    /// The poller failed to take it.
    Poller,
    /// Its registration found its opening closed, with no sweep at work.
    Shut,
}

/// How a connection ended. Each end of a connection of its own, and each cause, is a kind.
#[derive(Clone, Copy, Debug, PartialEq, Eq)]
pub enum Finish {
    /// The connection came to its own end.
    Ended(End),
    /// A sweep gave it, since nothing happened on it.
    TimedOut,
    TurnedAway(Turned),
}
