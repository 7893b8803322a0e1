//! What goes between a connection and the one who keeps files.
ghost use Rattle.std.specs.Prelude.{◌≡◌, ◌⊎◌, ◌<◌, ◌≤◌, ℕ, List, Some, None, length, option_map};
ghost use Rattle.outside.specs.Causes.{LinkTold};
ghost use Rattle.fd_cache.specs.Calls.{entry_held, entry_of};
ghost use Rattle.app_trait.specs.Moves.{EndsWithTwo, Moves};
ghost use Rattle.conn_loop.specs.ConnState.{Represents, HoldsNothing, IsAsking, path_asked};
ghost use Rattle.conn_loop.specs.Stages.{needs_file};
ghost use Rattle.conn_loop.specs.Phases.{stage_in};
ghost use Rattle.conn_loop.specs.Moves.{FailsTo, SeesNext};
ghost use Rattle.conn_loop.specs.Supplies.{Supplies, Holds, GivesLease};
ghost use Rattle.conn_loop.specs.Steps.{to_go};

use super::Conn;
use crate::phase::Phase;
use crate::step::End;
use crate::supply::{Closing, Supply};
use app_trait::Seen;
use fd_cache::Lease;
use outside::Files;

impl<F: Files> Conn<F> {
    /// The path that is looked for. The caller owes that the last answer was `WantFile` and
    /// that nothing was supplied since.
    pub fn wanted(&self) -> &str
        requires { IsAsking self.now }
        ensures { result.now ≡ path_asked self.now }
    {
        self.path.text()
    }

    /// Takes what was found at the path that is looked for. The caller owes that a file is wanted and that
    /// the lease that was spent, if there was one, was taken back; and where the folder is told, that the
    /// file of a lease has the wanted path, and that an absent file is absent there.
    #[inline(always)]
    pub fn supply(&mut self, got: Supply<Lease<F>>)
        requires asking { IsAsking self.old }
        requires none_spent { self.old.lease ≡ None }
        requires there { Supplies F.folder (λ lease. F.file_path lease.file) (path_asked self.old) got }
        ensures represents { (moves : Moves) (link : LinkTold) → EndsWithTwo moves
            → Represents moves F.folder self.old link → Represents moves F.folder self.new link }
        ensures same { self.new
            ≡ record self.old { stage = self.new.stage; lease = self.new.lease; entry = self.new.entry } }
        ensures holds { Holds (λ lease. F.file_path lease.file) (λ lease. entry_of lease) got self.new
            × ¬ IsAsking self.new }
        ensures nearer { to_go self.new < to_go self.old }
    {
        match got {
            Supply::Leased(lease) => self.found(lease),
            Supply::Absent => self.missed(),
            Supply::Failed => self.fail(End::FileFault),
            Supply::NoMemory => self.fail(End::NoMemory),
        }
    }

    /// The look that was asked for found a file.
    fn found(&mut self, lease: Lease<F>)
        requires asking { IsAsking self.old }
        requires none_spent { self.old.lease ≡ None }
        ensures { SeesNext (Some (lease.size, lease.mtime)) (Some (F.file_path lease.file))
            (entry_of lease) self.old self.new }
    {
        let Phase::Wanting { head, behind, seen } = self.phase else {
            unreachable!()
        };
        let seen_now = seen.found(lease.size, lease.mtime);
        self.lease = Some(lease);
        self.phase = Phase::Ready {
            head,
            behind,
            seen: seen_now,
        };
    }

    /// The look that was asked for found nothing.
    fn missed(&mut self)
        requires asking { IsAsking self.old }
        requires none_spent { self.old.lease ≡ None }
        ensures { SeesNext None None None self.old self.new }
    {
        let Phase::Wanting { head, behind, seen } = self.phase else {
            unreachable!()
        };
        let seen_now = seen.absent();
        self.phase = Phase::Ready {
            head,
            behind,
            seen: seen_now,
        };
    }

    /// The look that was asked for couldn't be made: the connection is to end so.
    fn fail(&mut self, end: End)
        requires asking { IsAsking self.old }
        requires none_spent { self.old.lease ≡ None }
        requires fault { (end ≡ End.FileFault) ⊎ (end ≡ End.NoMemory) }
        ensures fails { FailsTo end self.old self.new }
        ensures nothing { HoldsNothing self.new }
    {
        let Phase::Wanting { .. } = self.phase else {
            unreachable!()
        };
        self.phase = Phase::Unmade(end);
    }

    /// Gives a lease that isn't needed any more. The caller asks after each `advance`.
    pub fn spent_lease(&mut self) -> Option<Lease<F>>
        ensures represents { (moves : Moves) (link : LinkTold) → Represents moves F.folder self.old link
            → Represents moves F.folder self.new link }
        ensures same { self.new ≡ record self.old { lease = self.new.lease; entry = self.new.entry } }
        ensures given { GivesLease (option_map (λ lease. F.file_path lease.file) result)
            (entry_held result) self.old self.new }
    {
        if needs_lease(&self.phase) {
            None
        } else {
            self.lease.take()
        }
    }

    /// Ends the connection, at any time, and gives what is left of it.
    pub fn finish(self) -> Closing<F>
        ensures lease { option_map (λ lease. F.file_path lease.file) result.lease ≡ self.lease }
        ensures entry { entry_held result.lease ≡ self.entry }
        ensures moments { (result.moments.items ≡ self.moments) × (length self.moments ≤ 1000) }
        ensures counts { (result.bytes ≡ self.bytes) × (result.waits ≡ self.waits) }
    {
        Closing {
            lease: self.lease,
            moments: self.moments,
            bytes: self.bytes,
            waits: self.waits,
        }
    }
}

/// Whether a connection that stands there needs the file that is lent to it.
fn needs_lease(phase: &Phase) -> bool
    ensures { (input path : List ℕ) → result ≡ needs_file (stage_in input path phase.now) }
{
    match phase {
        Phase::Ready { seen, .. } => match seen {
            Seen::FirstFound { .. } | Seen::SecondFound { .. } => true,
            Seen::Nothing | Seen::FirstAbsent | Seen::SecondAbsent => false,
        },
        Phase::Sending { .. } | Phase::Broken(_) => true,
        _ => false,
    }
}
