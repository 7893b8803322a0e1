//! The listener that connections come from.
ghost use Rattle.std.specs.Prelude.{◌≡◌, ◌↔◌, IsTrue};
ghost use Rattle.outside.specs.ListenCauses.{IfAccepted, IsPlannedAt, IsUntouched};
ghost use Rattle.warp_jobs.specs.Listeners.{HasListened, HoldsListener, IsBroken};

use outside::{AcceptOut, Listener};
use reg_keys::Opening;
use std::marker::Model;

/// After this many accepts in a row that failed, a server stops.
pub const FAILED_ROW: u64 = 1_000;

/// The listener that connections come from, its opening, and how many links it gave.
#[derive(Drop)]
pub struct Listening<I: Listener> {
    opening: Opening,
    listener: I,
    accepted: u64,
    failed: u64,
}

impl<I: Listener> Model for Listening<I> {
    ghost use Rattle.std.specs.Prelude.{◌≡◌};
    ghost use Rattle.warp_jobs.specs.HeldListener.{HeldListener};

    ghost Value = { HeldListener };

    ghost view = { λ l. record {
      opening = l.opening;
      listener = I.told l.listener;
      accepted = l.accepted;
    } };

    ghost invariant = { λ l. l.failed ≡ (I.told l.listener).failed_row };
}

impl<I: Listener> Listening<I> {
    /// A listener that has an opening, and no failed accept behind it.
    pub fn new(opening: Opening, listener: I) -> Listening<I>
        requires { (I.told listener).failed_row ≡ 0 }
        ensures { HoldsListener opening (I.told listener) result }
    {
        Listening {
            opening,
            listener,
            accepted: 0,
            failed: 0,
        }
    }

    /// The opening under which it is reported.
    pub fn opening(&self) -> Opening
        ensures { result ≡ self.now.opening }
    {
        self.opening
    }

    /// How many links it gave.
    pub fn accepted(&self) -> u64
        ensures { result ≡ self.now.accepted }
    {
        self.accepted
    }

    /// Whether 1,000 accepts in a row failed.
    pub fn is_broken(&self) -> bool
        ensures { IsTrue result ↔ IsBroken self.now }
    {
        self.failed >= FAILED_ROW
    }

    /// Gives the next link, if one is there.
    pub fn accept(&mut self) -> AcceptOut<I::Link>
        ensures untouched { IfAccepted result (λ link. IsUntouched (I.Link.told link)) }
        ensures planned { IfAccepted result
            (λ link. IsPlannedAt self.old.listener.plans self.old.listener.accepted (I.Link.told link).plan) }
        ensures listened { HasListened result self.old self.new }
    {
        let result = self.listener.accept();
        match &result {
            AcceptOut::Accepted(_) => {
                self.accepted = self.accepted.saturating_add(1);
                self.failed = 0;
            }
            AcceptOut::Failed => self.failed = self.failed.saturating_add(1),
            AcceptOut::NotYet | AcceptOut::NoMemory => self.failed = 0,
        }
        result
    }

    /// The listener itself.
    pub fn into_listener(self) -> I
        ensures { I.told result ≡ self.listener }
    {
        let Listening {
            opening: _,
            listener,
            accepted: _,
            failed: _,
        } = self;
        listener
    }
}
