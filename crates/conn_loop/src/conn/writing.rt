//! How a connection writes what was made, and ends.
ghost use Rattle.std.specs.Prelude.{◌≡◌, ◌≤◌, ◌<◌, [], Option, Some, None, IfNone, length};
ghost use Rattle.conn_loop.specs.Moves.{Sends, waits_after};
ghost use Rattle.conn_loop.specs.Replying.{Serving};
ghost use Rattle.conn_loop.specs.Stages.{IsReadyStage};
ghost use Rattle.conn_loop.specs.ConnState.{IsAsking};
ghost use Rattle.conn_loop.specs.Steps.{ComesFor, Goes, HasTarget, HasWay, MayEnd, EndsWith};

use super::Conn;
use crate::limits::{HEAD_ROOM, PIECE, ROOM};
use crate::phase::Phase;
use crate::step::{End, Step};
use crate::writing::{WriteEnd, write_out};
use outside::{Files, Link};

impl<F: Files> Conn<F> {
    /// Writes what was made, and then ends the connection. The caller owes that this is how it ends.
    pub(super) fn end<L: Link>(&mut self, link: &mut L, end: End) -> Step
        requires may { MayEnd end self.old }
        requires quiet { ¬ IsAsking self.old }
        ensures stands { (serving : Option Serving) → ComesFor None serving self.old (L.told link.old)
            → ComesFor (Some result) serving self.new (L.told link.new) }
        ensures same { self.new
            ≡ record self.old { pending = self.new.pending; bytes = self.new.bytes; waits = self.new.waits } }
        ensures goes { EndsWith end result self.old self.new (L.told link.old) (L.told link.new) }
    {
        match self.write_due(link) {
            None => Step::Done(end),
            Some(step) => step,
        }
    }

    /// Writes what was made, where it must leave before another answer is begun. `None` comes where one may.
    pub(super) fn make_room<L: Link>(&mut self, link: &mut L) -> Option<Step>
        ensures stands { (serving : Option Serving) → ComesFor None serving self.old (L.told link.old)
            → ComesFor result serving self.new (L.told link.new) }
        ensures room { IfNone result (length self.new.pending < 16384) }
        ensures same { self.new
            ≡ record self.old { pending = self.new.pending; bytes = self.new.bytes; waits = self.new.waits } }
        ensures goes { Goes result self.old self.new (L.told link.old) (L.told link.new) }
    {
        if self.output.bytes().len() < PIECE {
            None
        } else {
            self.write_due(link)
        }
    }

    /// Writes what was made, where the head of the answer to the request that is whole might not fit after
    /// it: a head with a Location repeats at most two spans of the target.
    pub(super) fn make_way<L: Link>(&mut self, link: &mut L) -> Option<Step>
        requires ready { IsReadyStage self.old.stage }
        ensures stands { (serving : Option Serving) → ComesFor None serving self.old (L.told link.old)
            → ComesFor result serving self.new (L.told link.new) }
        ensures room { IfNone result (HasWay self.new) }
        ensures same { self.new
            ≡ record self.old { pending = self.new.pending; bytes = self.new.bytes; waits = self.new.waits } }
        ensures goes { Goes result self.old self.new (L.told link.old) (L.told link.new) }
    {
        if self.output.bytes().len() + HEAD_ROOM + 2 * self.target_len() <= ROOM {
            None
        } else {
            self.write_due(link)
        }
    }

    /// The length of the target of the request that is whole.
    fn target_len(&self) -> usize
        requires ready { IsReadyStage self.now.stage }
        ensures is { HasTarget result self.now.stage }
        ensures short { result ≤ 8192 }
    {
        let Phase::Ready { head, .. } = self.phase else {
            unreachable!()
        };
        head.target.of(self.input.bytes()).len()
    }

    /// Writes what was made. `None` comes where all of it is written.
    pub(super) fn write_due<L: Link>(&mut self, link: &mut L) -> Option<Step>
        ensures stands { (serving : Option Serving) → ComesFor None serving self.old (L.told link.old)
            → ComesFor result serving self.new (L.told link.new) }
        ensures done { IfNone result (self.new.pending ≡ []) }
        ensures same { self.new
            ≡ record self.old { pending = self.new.pending; bytes = self.new.bytes; waits = self.new.waits } }
        ensures goes { Goes result self.old self.new (L.told link.old) (L.told link.new) }
    {
        match self.flush(link) {
            WriteEnd::All => None,
            WriteEnd::Waits => Some(Step::WantWrite),
            WriteEnd::Fails => Some(Step::Done(End::WriteFault)),
        }
    }

    /// Writes what was made, and counts what was written and whether the link must be waited for.
    fn flush<L: Link>(&mut self, link: &mut L) -> WriteEnd
        ensures { Sends result self.old self.new (L.told link.old) (L.told link.new) }
    {
        let (n, end) = write_out(link, self.output.bytes());
        self.output.skip(n);
        self.bytes = self.bytes.saturating_add(n as u64);
        self.waits = waits_behind(end, self.waits);
        end
    }
}

/// The count of waits after a run of writes.
fn waits_behind(end: WriteEnd, waits: u64) -> u64
    ensures { result ≡ waits_after end waits }
{
    match end {
        WriteEnd::Waits => waits.saturating_add(1),
        WriteEnd::All | WriteEnd::Fails => waits,
    }
}
