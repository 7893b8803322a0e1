//! A listener that plays a script. It tells no plans.
ghost use Rattle.std.specs.Prelude.{◌≡◌, ◌≤◌, All, length};
ghost use Rattle.std.proofs.Props.{props};
ghost use Rattle.outside.specs.ListenCauses.{HasAccepted, IfAccepted, IsPlannedAt, IsUntouched};
ghost use Rattle.outside.specs.PieceLink.{told_of as link_told};
ghost use Rattle.piece_net.specs.AcceptEvents.{GivesUntouched, PlaysAccept};

use outside::{AcceptOut, Count, Listener, PieceLink};
use std::alloc::Global;
use std::collections::VecDeque;

/// What one accept meets.
#[derive(Drop)]
pub enum AcceptEvent {
    /// It gives this link, of which nothing was asked yet.
    Give(PieceLink),
    /// No connection is there now.
    NotYet,
    /// It fails.
    Fail,
}

/// A listener that plays events in order. After the last one no connection is there, for ever.
#[derive(Drop)]
pub struct PieceListener {
    events: VecDeque<AcceptEvent>,
    accepted: Count,
    waits: Count,
    faults: Count,
    failed_row: Count,
    ghost untouched: { All GivesUntouched events.items } by { Prim.hlevel props },
    ghost row_fits: { failed_row.n ≤ faults.n },
}

impl PieceListener {
    ghost use Rattle.piece_net.specs.PieceListeners.{events_of, told_of, untouched_listener};

    /// A listener that plays these events. The caller owes that nothing was asked of their links.
    pub fn new(events: Vec<AcceptEvent>) -> PieceListener
        requires { All GivesUntouched events.items }
        ensures events { events_of result ≡ events.items }
        ensures told { told_of result ≡ untouched_listener }
    {
        PieceListener {
            events: VecDeque::from_vec(events),
            accepted: Count::new(),
            waits: Count::new(),
            faults: Count::new(),
            failed_row: Count::new(),
        }
    }

    /// How many events weren't met yet.
    pub fn left(&self) -> usize
        ensures { result ≡ length (events_of self.now) }
    {
        self.events.len()
    }
}

impl Listener for PieceListener {
    ghost use Rattle.piece_net.specs.PieceListeners.{events_of, told_of};

    type Link = PieceLink;

    ghost told = { told_of };

    #[tactic(auto, using(crate::proofs::EventLemmas::first_given))]
    fn accept(&mut self) -> AcceptOut<PieceLink>
        ensures untouched { IfAccepted result (λ link. IsUntouched (link_told link)) }
        ensures planned { IfAccepted result
            (λ link. IsPlannedAt (told_of self.old).plans (told_of self.old).accepted (link_told link).plan) }
        ensures accepted { HasAccepted result (told_of self.old) (told_of self.new) }
        ensures plays { PlaysAccept (events_of self.old) (events_of self.new) result }
    {
        match self.events.pop_front() {
            Some(AcceptEvent::Give(link)) => {
                self.accepted.rise();
                self.failed_row = Count::new();
                AcceptOut::Accepted(link)
            }
            Some(AcceptEvent::Fail) => {
                self.faults.rise();
                self.failed_row.rise();
                AcceptOut::Failed
            }
            Some(AcceptEvent::NotYet) | None => {
                self.waits.rise();
                self.failed_row = Count::new();
                AcceptOut::NotYet
            }
        }
    }

    ghost plans_apart = { λ _. tt };

    ghost row_fits = { λ listener. listener.row_fits };

    ghost accepted_fits = { λ listener. listener.accepted.fits };

    ghost waits_fit = { λ listener. listener.waits.fits };

    ghost faults_fit = { λ listener. listener.faults.fits };
}
