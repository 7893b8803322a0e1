//! How a turn comes out, and how its parts do.
ghost use Rattle.std.specs.Prelude.{◌≡◌};
ghost use Rattle.dispatcher.specs.Turns.{turned_of};

/// What a turn answers.
#[derive(Clone, Copy, Debug, PartialEq, Eq)]
pub enum Turned {
    /// The turn is done. It made this many reports, and ran this many keys.
    Done { reports: u64, ran: u64 },
    /// The poll failed.
    PollFault,
    /// The runner stopped with this code.
    Stop(u8),
    /// A stripe's numbers are used up, or a cell that was asked has 2^62 entries.
    Spent,
}

/// Why a part of a turn ended the turn.
#[derive(Clone, Copy)]
pub(crate) enum Halt {
    Stop(u8),
    Spent,
}

impl Halt {
    /// What the turn answers.
    pub(crate) fn turned(self) -> Turned
        ensures { result ≡ turned_of self }
    {
        match self {
            Halt::Stop(code) => Turned::Stop(code),
            Halt::Spent => Turned::Spent,
        }
    }
}

/// How the report of one pair came out.
#[derive(Clone, Copy)]
pub(crate) enum ReportOut {
    /// Its stripe took it, or it was stale.
    Made,
    /// It was refused, since its stripe's numbers are used up or the stripe's cell has 2^62 entries.
    Spent,
}

/// How much a part of a turn did: events that it took or pairs that it reported, and keys that it ran.
#[derive(Clone, Copy)]
pub(crate) struct TurnTally {
    pub(crate) handled: u64,
    pub(crate) ran: u64,
}
