//! The calls on a tally and what they are answered.
use reg_keys::Opening;

/// A call on the tally.
#[derive(Clone, Copy, PartialEq, Eq)]
pub enum TallyCall {
    /// A connection was accepted, under this opening.
    Accept(Opening),
    /// A link was turned away before it had an opening. It counts as accepted too.
    TurnAway,
    /// The connection of this opening is finished.
    Finish(Opening),
    /// A dispatcher stops, with this code.
    Stop(u8),
    /// Nothing happened. The reply shows the counts.
    Look,
}

/// Whether a call counted.
#[derive(Clone, Copy, PartialEq, Eq)]
pub enum Counted {
    Yes,
    No,
    /// An `Accept` wanted memory, and nothing changed.
    NoMemory,
}

/// Whether the call counted, and what holds after it.
#[derive(Clone, Copy, PartialEq, Eq)]
pub struct TallyReply {
    pub counted: Counted,
    /// How many links were accepted, with those that were turned away.
    pub accepted: u64,
    pub turned: u64,
    pub finished: u64,
    /// The code of the first stop.
    pub stop: Option<u8>,
}

/// A call and its reply, as the history of a tally has them.
#[derive(Clone, Copy)]
pub struct TallyEntry {
    pub call: TallyCall,
    pub reply: TallyReply,
}
