//! What each dispatcher polls. What contracts know of a poller is one record, `meaning`: its faults, the
//! reports that it tells, and the relation `polls`, which nothing but a poll can bring about.
ghost use Rattle.std.specs.Prelude.{◌≡◌, ℕ, [], List};
ghost use Rattle.poller.specs.declared.poller.PollOut.TheVariants.{Failed};
ghost use Rattle.poller.specs.Faults.{AddFaults, ListenFaults, PollFaults};
ghost use Rattle.poller.specs.Meanings.{PollerMeaning, PollsAlone};
ghost use Rattle.poller.specs.Polls.{HasToken, polled_after};

use crate::reports::Reports;
use outside::{Link, Listener};
use reg_keys::Opening;
use std::sync::Wait;

/// What adding a link or a listener answers.
#[derive(Clone, Copy, Debug, PartialEq, Eq)]
pub enum AddOut {
    /// It is reported under its opening from now on.
    Added,
    /// The poller's count of faults of such calls rose.
    Failed,
    /// Memory was short.
    NoMemory,
}

/// What a poll answers.
#[derive(Clone, Copy, Debug, PartialEq, Eq)]
pub enum PollOut {
    /// The reports are there, none or more.
    Polled,
    /// The poller's count of faults of polls rose, and there are no reports.
    Failed,
}

/// A source of reports. Each dispatcher has one of its own.
///
/// A link or a listener that is dropped is to be reported no more. No contract says so, since a drop has
/// none: where an opening that was closed is reported all the same, its stripe answers that the report is
/// stale.
pub trait Poller {
    /// What is added.
    type Link: Link + Drop;

    /// What links come from, and is added too.
    type Listener: Listener<Link = Self::Link> + Drop;

    // What these contracts speak of.
    ghost meaning: { PollerMeaning Self };

    /// Adds a link, so that polls report it under its opening.
    fn add(&mut self, opening: Opening, link: &mut Self::Link) -> AddOut
        requires { HasToken opening }
        ensures link { Self.Link.told link.new ≡ Self.Link.told link.old }
        ensures faulted { AddFaults result (meaning.faults self.old) (meaning.faults self.new) }
        ensures polled { meaning.polled self.new ≡ meaning.polled self.old };

    /// Adds a listener, so that polls report it under its opening.
    fn add_listener(&mut self, opening: Opening, listener: &mut Self::Listener) -> AddOut
        requires { HasToken opening }
        ensures listener { Self.Listener.told listener.new ≡ Self.Listener.told listener.old }
        ensures faulted { ListenFaults result (meaning.faults self.old) (meaning.faults self.new) }
        ensures polled { meaning.polled self.new ≡ meaning.polled self.old };

    /// Puts what may be ready into `out`, which is empty, at most `REPORTS` pairs. Where `idle` is false it
    /// doesn't wait for readiness.
    fn poll<R: Wait>(&mut self, rt: &R, idle: bool, out: &mut Reports) -> PollOut
        requires { out.old ≡ [] }
        ensures alone { meaning.polls self.old idle result out.new self.new }
        ensures none { result ≡ Failed → out.new ≡ [] }
        ensures faulted { PollFaults result (meaning.faults self.old) (meaning.faults self.new) }
        ensures polled { meaning.polled self.new ≡ polled_after result (meaning.polled self.old) out.new };

    // A poll leaves the faults of adding links, and those of polls never fall.
    ghost polls_alone: { PollsAlone meaning };
}
