//! What a pass knows. It is plain data that exists in contracts alone: no value of it is made, and it has no
//! bytes.
use reg_keys::Opening;
use std::collections::LinkedList;

/// A watch, by its slot and the number of its use there.
pub struct WatchName {
    pub slot: u64,
    pub number: u64,
}

/// What was decided of one watch in one step.
pub enum WatchEntry {
    /// It was added, for an opening.
    Added(WatchName, Opening),
    /// It was tickled: whether it lived.
    Tickled(WatchName, bool),
    /// It was cancelled: whether it lived until then.
    Cancelled(WatchName, bool),
    /// A sweep came by: the opening, where the sweep gave it.
    Swept(WatchName, Option<Opening>),
}

/// What an add answered.
pub enum AddOutcome {
    Added(WatchName),
    Full,
}

/// What a cancel answered.
pub enum CancelOutcome {
    Cancelled,
    Gone,
    Again,
}

/// A call of a pass, with its answer.
pub enum TimeCall {
    Add(Opening, AddOutcome),
    /// Whether the watch lived.
    Tickle(WatchName, bool),
    Cancel(WatchName, CancelOutcome),
    /// The openings that it gave, in the order of their slots.
    Sweep(LinkedList<Opening>),
}

/// What one step of a pass showed.
pub enum Shown {
    /// It decided something.
    Decided(WatchEntry),
    /// A sweep's load found a slot with no watch that lives: the slot and its word.
    Passed(u64, u64),
    /// A sweep's exchange found another word than its load before: the slot, and the two words.
    Missed(u64, u64, u64),
    /// A load or an exchange found this word in the slot.
    Saw(u64, u64),
    /// A cancel's exchange named one word of the slot and found another.
    Tried(u64, u64, u64),
    /// A call ended with an answer that no single step decided.
    Answered(TimeCall),
}

/// The slot that a pass has taken in a call, and the word that it left there. Between calls it has none.
pub enum Holding {
    Idle,
    Holds(u64, u64),
}

/// What a pass knows.
pub struct TimeView {
    /// The history that the pass has seen, the newest first.
    pub seen: LinkedList<WatchEntry>,
    /// What a pass had seen that was joined into this one, until a load compares the two.
    pub told: LinkedList<WatchEntry>,
    /// What the pass's own steps showed, the newest first.
    pub kept: LinkedList<Shown>,
    /// What the pass has in its hand.
    pub hand: Holding,
}
