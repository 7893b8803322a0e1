//! What new connections come from. Contracts know it by three counts and by how many answers in a row failed,
//! and where it tells its plans, each link that it gives is known before it comes.
ghost use Rattle.std.specs.Prelude.{◌≤◌, IfSome};
ghost use Rattle.outside.specs.Counts.{full};
ghost use Rattle.outside.specs.ListenCauses.{HasAccepted, HaveNumbersApart, IfAccepted, IsPlannedAt, IsUntouched, ListenerTold};

use crate::link::Link;

/// What an accept answers.
#[derive(Drop)]
pub enum AcceptOut<L> {
    /// A new connection. The caller owns it.
    Accepted(L),
    /// No connection is there now. The listener's count of waits rose.
    NotYet,
    /// The listener's count of faults rose.
    Failed,
    /// Memory was short, and no connection was given.
    NoMemory,
}

/// A source of new connections.
pub trait Listener {
    /// A connection.
    type Link: Link + Drop;

    // Its counts, and the plans of its links where they are told.
    ghost told: { Self → ListenerTold };

    /// Gives the next connection, of which nothing was asked yet.
    fn accept(&mut self) -> AcceptOut<Self::Link>
        ensures untouched { IfAccepted result (λ link. IsUntouched (Self.Link.told link)) }
        ensures planned { IfAccepted result
            (λ link. IsPlannedAt (told self.old).plans (told self.old).accepted (Self.Link.told link).plan) }
        ensures accepted { HasAccepted result (told self.old) (told self.new) };

    ghost plans_apart: { (listener : Self) → IfSome (told listener).plans HaveNumbersApart };

    ghost row_fits: { (listener : Self) → (told listener).failed_row ≤ (told listener).faults };

    ghost accepted_fits: { (listener : Self) → (told listener).accepted ≤ full };

    ghost waits_fit: { (listener : Self) → (told listener).waits ≤ full };

    ghost faults_fit: { (listener : Self) → (told listener).faults ≤ full };
}
