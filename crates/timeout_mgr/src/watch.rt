//! A watch as its owner holds it, and what the calls on it answer.
ghost use Rattle.std.specs.Prelude.{◌<◌, ◌^◌};

/// The watch over one connection. It has one owner: it isn't `Clone`, `tickle` takes it by reference, and
/// `cancel` takes it away.
#[derive(Drop)]
pub struct Watch {
    pub(crate) slot: usize,
    pub(crate) number: u64,
    ghost inside: { (slot < 4096) × (number < 2 ^ 40) },
}

/// What an add answers.
#[derive(Drop)]
pub enum AddWatch {
    Added(Watch),
    /// At a moment of the call each slot was in use, or had been used 2^40 times.
    Full,
}

/// What a tickle answers.
#[derive(Drop)]
pub enum TickleOut {
    /// The watch lives, and no sweep was the last that came by.
    Alive,
    /// The watch doesn't live: a sweep gave its opening.
    Gone,
}

/// What a cancel answers.
#[derive(Drop)]
pub enum CancelOut {
    Cancelled,
    /// The watch didn't live: a sweep gave its opening.
    Gone,
    /// Others were in the way of three exchanges, and the watch lives on. It is handed back.
    Again(Watch),
}
