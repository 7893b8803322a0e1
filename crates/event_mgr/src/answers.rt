//! What the manager's calls answer. A call that the stripe alone answers has the stripe's reply; `Spent`
//! stands there also for a cell that has 2^62 entries.
use reg_keys::{Dir, Event, Key, Marks, Opening};
use stripe_table::{DispatchReply, FiredList, Payload, RegisterReply, ReportReply, ShutList};

/// What `open_fd` answers.
#[derive(Drop)]
pub enum OpenOut {
    Opened(Opening),
    /// All 4,096 descriptors are open.
    Full,
    /// The number that was drawn is that of a descriptor which is open by this opening. It stays out.
    Taken(Opening),
    /// The stripe's numbers are used up, or a cell that was asked has 2^62 entries.
    Spent,
}

/// What `report` answers. `Spent` comes also where the stripe's cell has 2^62 entries.
pub type ReportOut = ReportReply;

/// What `register` answers. `Spent` comes also where the stripe's cell has 2^62 entries.
pub type RegisterOut<T> = RegisterReply<T>;

/// What `dispatch` answers. `Spent` comes also where the stripe's cell has 2^62 entries.
pub type DispatchOut<T> = DispatchReply<T>;

/// What `withdraw` answers.
#[derive(Drop)]
pub enum WithdrawOut<T> {
    /// The job, or nothing for a flag.
    Back(Option<T>),
    /// The key doesn't wait.
    Gone,
    /// The stripe's cell has 2^62 entries.
    Spent,
}

/// What `ask` answers.
#[derive(Drop)]
pub enum AskOut {
    Waiting,
    /// The flag has run, for this direction and with these marks.
    Ran(Dir, Marks),
    /// The opening was closed while the flag waited.
    Closed,
    /// No flag with this key is to be asked for.
    Unknown,
    /// The stripe's cell has 2^62 entries.
    Spent,
}

/// What `close_fd` answers.
#[derive(Drop)]
pub enum CloseOut<T> {
    /// What waited, in the order of the keys.
    Shut(ShutList<T>),
    /// The opening isn't live.
    NotOpen,
    /// The stripe's cell has 2^62 entries.
    Spent,
}

/// The turn that a call found held: which stripe's, and how many entries its history had.
#[derive(Clone, Copy)]
pub struct Held {
    pub stripe: u8,
    pub count: u64,
}

/// What `try_report` answers.
#[derive(Drop)]
pub enum TryReport {
    Noted(Option<Event>),
    Stale,
    Spent,
    /// The stripe's turn was held.
    Busy(Held),
}

/// What `try_register` answers.
#[derive(Drop)]
pub enum TryRegister<T> {
    Waits(Key, Option<Event>),
    Shut(Payload<T>),
    Crowded(Payload<T>),
    Spent(Payload<T>),
    /// The stripe's turn was held, and the load is handed back.
    Busy(Held, Payload<T>),
}

/// What `try_dispatch` answers.
#[derive(Drop)]
pub enum TryDispatch<T> {
    Ran(FiredList<T>, Option<Event>),
    Stale,
    Spent(Event),
    /// The stripe's turn was held, and the event is handed back.
    Busy(Held, Event),
}
