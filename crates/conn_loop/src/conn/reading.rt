//! What is ahead of a connection: its input is read and judged, and bodies are read on.
ghost use Rattle.std.specs.Prelude.{◌≡◌, ◌≤◌, ◌<◌, ◌++◌, ◌↔◌, IsTrue, ℕ, List, [], Option, None, IfNone, length};
ghost use Rattle.outside.specs.Causes.{LinkTold};
ghost use Rattle.warp_request.specs.Lines.{skip_empty};
ghost use Rattle.warp_request.specs.Next.{next_of};
ghost use Rattle.warp_request.specs.Verdict.{asked};
ghost use Rattle.conn_loop.specs.Heads.{asked_in};
ghost use Rattle.conn_loop.specs.Moves.{Takes, waits_read};
ghost use Rattle.conn_loop.specs.Phases.{AheadOf, HasHead};
ghost use Rattle.conn_loop.specs.Replying.{Serving};
ghost use Rattle.conn_loop.specs.Stages.{unread, IsBetween, IsReadUp, IsWanting};
ghost use Rattle.app_trait.specs.Moves.{Moves};
ghost use Rattle.conn_loop.specs.ConnState.{AsksFor};
ghost use Rattle.conn_loop.specs.Steps.{ComesFor, Goes, IsPlain, stage_after, to_go};

use super::Conn;
use crate::bodies::{most_bytes, read_on};
use crate::phase::{Ahead, Phase};
use crate::scratch::Scratch;
use crate::step::{End, Step};
use outside::{Files, Link, ReadOut};
use std::mem;
use warp_request::{BodyReader, HeadInfo, Next, is_blank, next};
use warp_response::interim;

impl<F: Files> Conn<F> {
    /// What is ahead. A body is read on where it was left.
    #[inline(always)]
    pub(super) fn look(&mut self) -> Ahead
        requires plain { IsPlain self.old.stage }
        ensures stands { (serving : Option Serving) (link : LinkTold) → ComesFor None serving self.old link
            → ComesFor None serving self.new link }
        ensures is { AheadOf result self.new.stage self.new.input }
        ensures asks { (moves : Moves) → AsksFor moves self.old.stage → AsksFor moves self.new.stage }
        ensures nearer { to_go self.new ≤ to_go self.old }
        ensures same { self.new ≡ record self.old { input = self.new.input; stage = self.new.stage } }
    {
        self.read_body();
        self.ahead()
    }

    /// Reads on in the body that is read, if one is.
    #[inline(always)]
    fn read_body(&mut self)
        requires plain { IsPlain self.old.stage }
        ensures stands { (serving : Option Serving) (link : LinkTold) → ComesFor None serving self.old link
            → ComesFor None serving self.new link }
        ensures read { IsReadUp self.new.stage self.new.input }
        ensures plain { IsPlain self.new.stage }
        ensures asks { (moves : Moves) → AsksFor moves self.old.stage → AsksFor moves self.new.stage }
        ensures nearer { to_go self.new ≤ to_go self.old }
        ensures same { self.new ≡ record self.old { input = self.new.input; stage = self.new.stage } }
    {
        // Most requests have no body, and then the phase isn't moved.
        let Phase::Reading { .. } = self.phase else {
            return;
        };
        let Phase::Reading { head, reader, room } = mem::replace(&mut self.phase, Phase::Fresh)
        else {
            unreachable!()
        };
        self.phase = read_on(&mut self.input, head, reader, room);
    }

    /// What is ahead where all of a body that came was read.
    #[inline(always)]
    fn ahead(&self) -> Ahead
        requires plain { IsPlain self.now.stage }
        requires read { IsReadUp self.now.stage self.now.input }
        ensures { AheadOf result self.now.stage self.now.input }
    {
        match self.phase {
            Phase::Fresh => Ahead::Unread,
            Phase::Waits => Ahead::Unfinished,
            Phase::Reading { .. } => Ahead::Unfinished,
            Phase::Refused(code) => Ahead::Refused(code),
            Phase::Ready { .. } => Ahead::Whole,
            _ => unreachable!(),
        }
    }

    /// Judges what the input begins with.
    #[inline(always)]
    pub(super) fn judge(&mut self, scratch: &mut Scratch)
        requires room { length self.old.pending < 16384 }
        requires some { 0 < self.old.left }
        requires unread { self.old.stage ≡ unread }
        ensures stands { (serving : Option Serving) (link : LinkTold) → ComesFor None serving self.old link
            → ComesFor None serving self.new link }
        ensures plain { IsPlain self.new.stage × ((moves : Moves) → AsksFor moves self.new.stage) }
        ensures nearer { to_go self.new < to_go self.old }
        ensures same { self.new
            ≡ record self.old { input = self.new.input; stage = self.new.stage; pending = self.new.pending } }
    {
        match next(self.input.bytes(), &mut scratch.fields) {
            Next::More => self.phase = Phase::Waits,
            Next::Refuse(code) => self.phase = Phase::Refused(code),
            Next::Head(head) => self.begin(head),
        }
    }

    /// A head is whole: its client gets the interim answer that it waits for, and its body is read.
    #[inline(always)]
    fn begin(&mut self, head: HeadInfo)
        requires room { length self.old.pending < 16384 }
        requires some { 0 < self.old.left }
        requires unread { self.old.stage ≡ unread }
        requires inside { HasHead self.old.input head }
        requires asks { (t : List ℕ) → next_of (self.old.input ++ t) ≡ asked (asked_in self.old.input head) }
        ensures stands { (serving : Option Serving) (link : LinkTold) → ComesFor None serving self.old link
            → ComesFor None serving self.new link }
        ensures plain { IsPlain self.new.stage × ((moves : Moves) → AsksFor moves self.new.stage) }
        ensures nearer { to_go self.new < to_go self.old }
        ensures same { self.new
            ≡ record self.old { input = self.new.input; stage = self.new.stage; pending = self.new.pending } }
    {
        if head.interim {
            self.output.add(interim());
        }
        let reader = BodyReader::new(head.framing);
        self.phase = read_on(&mut self.input, head, reader, most_bytes(head.framing));
    }

    /// Writes what was made, and reads more bytes. `None` comes where some came.
    #[inline(always)]
    pub(super) fn read_more<L: Link>(&mut self, link: &mut L) -> Option<Step>
        requires some { 0 < self.old.left }
        requires wanting { IsWanting self.old.stage self.old.input }
        ensures stands { (serving : Option Serving) → ComesFor None serving self.old (L.told link.old)
            → ComesFor result serving self.new (L.told link.new) }
        ensures plain { IsPlain self.new.stage × ((moves : Moves) → AsksFor moves self.new.stage) }
        ensures nearer { (to_go self.new ≤ to_go self.old) × IfNone result (to_go self.new < to_go self.old) }
        ensures same { self.new ≡ record self.old {
          input = self.new.input;
          stage = self.new.stage;
          pending = self.new.pending;
          bytes = self.new.bytes;
          waits = self.new.waits;
        } }
        ensures goes { Goes result self.old self.new (L.told link.old) (L.told link.new) }
    {
        if let Some(step) = self.write_due(link) {
            return Some(step);
        }
        match self.fill(link) {
            ReadOut::Got(_) => None,
            ReadOut::End if self.is_between() => Some(Step::Done(End::Clean)),
            ReadOut::End => Some(Step::Done(End::Cut)),
            ReadOut::NotYet => Some(Step::WantRead),
            ReadOut::Failed => Some(Step::Done(End::ReadFault)),
        }
    }

    /// Reads bytes after the input. Nothing is asked for before all that was made is
    /// written: a client may wait for it.
    #[inline(always)]
    fn fill<L: Link>(&mut self, link: &mut L) -> ReadOut
        requires written { self.old.pending ≡ [] }
        requires wanting { IsWanting self.old.stage self.old.input }
        ensures takes { Takes result self.old.input self.new.input (L.told link.old) (L.told link.new) }
        ensures same { self.new ≡ record self.old {
          input = self.new.input;
          stage = stage_after result self.old.stage;
          waits = waits_read result self.old.waits;
        } }
    {
        let out = self.input.fill(link);
        self.phase.read(out);
        self.waits = waits_behind(out, self.waits);
        out
    }

    /// Whether the input ends between requests: no body is read, and it is empty lines only.
    fn is_between(&self) -> bool
        requires plain { IsPlain self.now.stage }
        ensures { IsTrue result ↔ (IsBetween self.now.stage × (skip_empty self.now.input ≡ [])) }
    {
        match self.phase {
            Phase::Fresh | Phase::Waits => is_blank(self.input.bytes()),
            _ => false,
        }
    }
}

/// The count of waits after a read.
fn waits_behind(out: ReadOut, waits: u64) -> u64
    ensures { result ≡ waits_read out waits }
{
    match out {
        ReadOut::NotYet => waits.saturating_add(1),
        ReadOut::Got(_) | ReadOut::End | ReadOut::Failed => waits,
    }
}
