//! What a connection answers: the application is consulted, and heads and refusals are made.
ghost use Rattle.std.specs.Prelude.{◌≡◌, ◌≤◌, ◌<◌, ◌+◌, ◌^◌, ◌∷◌, ℕ, [], None, IfNone, length};
ghost use Rattle.outside.specs.Moments.{Gives};
ghost use Rattle.app_trait.specs.Moves.{PathKept, text_of};
ghost use Rattle.app_trait.specs.Shown.{FitsMove, move_shown};
ghost use Rattle.conn_loop.specs.Causes.{Clocked};
ghost use Rattle.conn_loop.specs.Moves.{Consults, Refuses, Responds, MakesHead, SizeFits};
ghost use Rattle.conn_loop.specs.Phases.{IsRefusal};
ghost use Rattle.conn_loop.specs.Replying.{serving_over};
ghost use Rattle.conn_loop.specs.Stages.{refusing, IsReadyStage};
ghost use Rattle.conn_loop.specs.ConnState.{AsksFor};
ghost use Rattle.conn_loop.specs.Steps.{ComesFor, Goes, HasWay, Proceeds, CanSend, SendableMove, to_go};

use super::Conn;
use crate::closing::{last_word, left_after, note};
use crate::phase::Phase;
use crate::scratch::Scratch;
use crate::step::Step;
use app_trait::{App, Move, Request, Seen};
use outside::{Clock, Files, Link};
use path_rules::PathBuf8;
use warp_response::{Content, LastWord, Response, head_bytes, refusal};

impl<F: Files> Conn<F> {
    /// Answers a whole request, but for the content of its file, or asks for the look that its answer needs.
    #[inline(always)]
    pub(super) fn respond<L: Link, A: App, C: Clock>(
        &mut self,
        link: &mut L,
        app: &A,
        clock: &mut C,
        scratch: &mut Scratch,
    ) -> Option<Step>
        requires some { 0 < self.old.left }
        requires ready { IsReadyStage self.old.stage }
        requires asks { AsksFor (A.moves app.now) self.old.stage }
        ensures stands { ComesFor None (serving_over (A.moves app.now) F.folder) self.old (L.told link.old)
            → ComesFor result (serving_over (A.moves app.now) F.folder) self.new (L.told link.new) }
        ensures proceeds { Proceeds (A.moves app.now) result self.old self.new }
        ensures nearer { (to_go self.new ≤ to_go self.old) × IfNone result (to_go self.new < to_go self.old) }
        ensures clocked { Clocked self.old self.new (C.told clock.old) (C.told clock.new) }
        ensures goes { Goes result self.old self.new (L.told link.old) (L.told link.new) }
    {
        if let Some(step) = self.make_way(link) {
            return Some(step);
        }
        match self.consult(app) {
            Move::Look => Some(Step::WantFile),
            Move::Answer(response) => {
                self.answer(clock, scratch, &response);
                None
            }
        }
    }

    /// What the application does with the request that is whole.
    #[inline(always)]
    fn consult<A: App>(&mut self, app: &A) -> Move
        requires some { 0 < self.old.left }
        requires ready { IsReadyStage self.old.stage }
        requires asks { AsksFor (A.moves app.now) self.old.stage }
        ensures { Consults (A.moves app.now) result self.old self.new }
    {
        let Phase::Ready { head, behind, seen } = self.phase else {
            unreachable!()
        };
        let bytes = self.input.bytes();
        let request = Request {
            method: head.method.of(bytes),
            target: head.target.of(bytes),
            minor: head.minor,
        };
        let next = next_move(app, &request, seen, &mut self.path);
        if let Move::Look = next {
            self.phase = Phase::Wanting { head, behind, seen };
        }
        next
    }

    /// Makes the head of the answer to the request that is whole, at the moment that the clock gives.
    /// The content follows part by part.
    #[inline(always)]
    fn answer<C: Clock>(&mut self, clock: &mut C, scratch: &mut Scratch, response: &Response)
        requires room { HasWay self.old }
        requires some { 0 < self.old.left }
        requires sendable { CanSend response.now self.old.stage }
        ensures { (moment : ℕ) × Responds response.now moment self.old self.new
            × Gives (moment ∷ []) (C.told clock.old) (C.told clock.new) }
    {
        let Phase::Ready { head, behind, seen } = self.phase else {
            unreachable!()
        };
        // What was seen is named for the proof alone.
        let _found = seen;
        let moment = clock.now();
        let left = self.left - 1;
        let target = head.target.of(self.input.bytes());
        head_bytes(
            response,
            moment,
            last_word(&head, left),
            target,
            &mut scratch.head,
        );
        self.output.add(scratch.head.bytes());
        note(&mut self.moments, moment);
        self.input.skip(head.head_len + behind);
        self.left = left_after(&head, left);
        self.phase = phase_behind(response.content);
    }

    /// Refuses what is in the input, after which nothing follows.
    pub(super) fn refuse<C: Clock>(&mut self, clock: &mut C, scratch: &mut Scratch, code: u16)
        requires room { length self.old.pending < 16384 }
        requires some { 0 < self.old.left }
        requires phrase { IsRefusal code }
        requires refusing { self.old.stage ≡ refusing code }
        ensures { (moment : ℕ) × Refuses code moment self.old self.new
            × Gives (moment ∷ []) (C.told clock.old) (C.told clock.new) }
    {
        let moment = clock.now();
        let response = refusal(code);
        head_bytes(&response, moment, LastWord::Close, &[], &mut scratch.head);
        self.output.add(scratch.head.bytes());
        note(&mut self.moments, moment);
        self.left = 0;
    }
}

/// Where a connection stands once the head with this content was made.
fn phase_behind(content: Content) -> Phase
    ensures makes { MakesHead content result }
    ensures sized { SizeFits content }
{
    match content {
        Content::File { size, send } => sending_of(size, send),
        Content::None | Content::Empty => Phase::Fresh,
    }
}

/// Where a connection stands once the head of a file of this size was made, whose content is sent or isn't.
fn sending_of(size: u64, send: bool) -> Phase
    ensures makes { MakesHead (Content.File size send) result }
    ensures sized { size < 2 ^ 64 }
{
    if send && size > 0 {
        Phase::Sending { at: 0, size }
    } else {
        Phase::Fresh
    }
}

/// What the application does with a request once this was seen.
#[inline(always)]
fn next_move<A: App>(app: &A, request: &Request<'_>, seen: Seen, path: &mut PathBuf8) -> Move
    requires short { length request.now.target.now ≤ 8192 }
    requires kept { PathKept (A.moves app.now (text_of request.now)) seen path.old }
    ensures is { move_shown request.now.target.now result path.new
        ≡ A.moves app.now (text_of request.now) seen }
    ensures fits { FitsMove request.now.target.now seen result }
    ensures sendable { SendableMove request.now.target.now result }
{
    app.reply(request, seen, path)
}
