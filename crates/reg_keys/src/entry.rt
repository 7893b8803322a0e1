//! What a history of a stripe is made of: for each call its plain content and the plain content of its
//! reply. Only contracts speak of entries; no value of these types is made when the program runs.
use crate::event::EventName;
use crate::opening::Opening;
use crate::registration::{Dir, Dirs, Key, Marks};
use std::collections::LinkedList;

/// What a registration brings: a job, known by its tag, or a flag, which is asked for later.
pub enum LoadKind {
    Job(LinkedList<LinkedList<u64>>),
    Flag,
}

/// A registration that a dispatch ran, with the marks of that moment.
pub struct FiredKey {
    pub key: Key,
    pub dir: Dir,
    pub marks: Marks,
    pub kind: LoadKind,
}

/// A registration that was waiting as its opening closed.
pub struct ShutKey {
    pub key: Key,
    pub kind: LoadKind,
}

/// How an open came out.
pub enum OpenOutcome {
    /// This opening has the descriptor.
    Taken(Opening),
    Spent,
    Opened(Opening),
}

/// How a report came out.
pub enum ReportOutcome {
    Stale,
    Spent,
    Noted(Option<EventName>),
}

/// How a registration came out. A refusal hands the load back.
pub enum RegisterOutcome {
    Shut,
    Crowded,
    Spent,
    Waits(Key, Option<EventName>),
}

/// How a withdrawal came out.
pub enum WithdrawOutcome {
    Gone,
    Back(LoadKind),
}

/// What a flag's owner was told.
pub enum AskOutcome {
    Unknown,
    Waiting,
    Ran(Dir, Marks),
    Closed,
}

/// How a dispatch came out. `Ran` has the keys that ran, in order, and the event that was named next.
pub enum DispatchOutcome {
    Stale,
    Spent,
    Ran(LinkedList<FiredKey>, Option<EventName>),
}

/// How a close came out. `Shut` has the keys that were waiting, in order.
pub enum CloseOutcome {
    NotOpen,
    Shut(LinkedList<ShutKey>),
}

/// One call of a stripe with its reply.
pub enum Entry {
    Open(u16, OpenOutcome),
    Report(Opening, Dirs, ReportOutcome),
    /// The opening, the direction, the mark that the caller names, and the load.
    Register(Opening, Dir, Option<u64>, LoadKind, RegisterOutcome),
    Withdraw(Key, WithdrawOutcome),
    Ask(Key, AskOutcome),
    Dispatch(EventName, DispatchOutcome),
    Close(Opening, CloseOutcome),
}
