//! The calls of a stripe and their replies, a type of reply for each call.
use crate::four::Four;
use crate::load::Payload;
use reg_keys::{Dir, Dirs, Event, Key, Marks, Opening};

/// A registration that has run: its job, or nothing for a flag.
#[derive(Drop)]
pub struct Fired<T> {
    pub key: Key,
    pub dir: Dir,
    pub marks: Marks,
    pub job: Option<T>,
}

/// What one event ran, at most four, in the order of the keys.
pub type FiredList<T> = Four<Fired<T>>;

/// What waited at a close, at most four, in the order of the keys. A flag has no job.
pub type ShutList<T> = Four<(Key, Option<T>)>;

/// A call on one stripe.
#[derive(Drop)]
pub enum StripeCall<T> {
    /// Opens a descriptor.
    Open(u16),
    /// Says that an opening was reported ready.
    Report(Opening, Dirs),
    /// Registers a load for one direction. A mark tells which report the caller has used up.
    Register(Opening, Dir, Option<u64>, Payload<T>),
    /// Takes a registration back.
    Withdraw(Key),
    /// Asks for the outcome of a flag.
    Ask(Key),
    /// Takes the registrations that an event fires.
    Dispatch(Event),
    /// Closes an opening.
    Close(Opening),
}

/// The reply to a call.
#[derive(Drop)]
pub enum Reply<T> {
    Open(OpenReply),
    Report(ReportReply),
    Register(RegisterReply<T>),
    Withdraw(WithdrawReply<T>),
    Ask(AskReply),
    Dispatch(DispatchReply<T>),
    Close(CloseReply<T>),
}

#[derive(Drop)]
pub enum OpenReply {
    /// The descriptor is open, by this opening.
    Taken(Opening),
    /// The stripe's numbers are used up.
    Spent,
    Opened(Opening),
}

#[derive(Drop)]
pub enum ReportReply {
    /// The opening isn't live.
    Stale,
    Spent,
    /// With the event that is to be dispatched now, where one is named.
    Noted(Option<Event>),
}

#[derive(Drop)]
pub enum RegisterReply<T> {
    /// The opening isn't live.
    Shut(Payload<T>),
    /// The opening's four places are taken, or 512 flags of the stripe haven't been asked for.
    Crowded(Payload<T>),
    Spent(Payload<T>),
    /// With the event that is to be dispatched now, where one is named.
    Waits(Key, Option<Event>),
}

#[derive(Drop)]
pub enum WithdrawReply<T> {
    /// The key doesn't wait.
    Gone,
    /// The job, or nothing for a flag.
    Back(Option<T>),
}

#[derive(Drop)]
pub enum AskReply {
    /// No flag with this key is to be asked for.
    Unknown,
    Waiting,
    /// The flag has run, for this direction and with these marks.
    Ran(Dir, Marks),
    /// The opening was closed while the flag waited.
    Closed,
}

#[derive(Drop)]
pub enum DispatchReply<T> {
    /// The event's opening isn't live.
    Stale,
    Spent(Event),
    /// What ran, and the event that is to be dispatched next, where one is named.
    Ran(FiredList<T>, Option<Event>),
}

#[derive(Drop)]
pub enum CloseReply<T> {
    /// The opening isn't live.
    NotOpen,
    Shut(ShutList<T>),
}
