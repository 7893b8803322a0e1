//! One connection, brought as far as the link and the files let it go.
ghost use Rattle.std.specs.Prelude.{◌≡◌, ◌≤◌, ◌<◌, ◌+◌, ◌↔◌, ℕ, IsTrue, [], Option, Some, None, IfOk, IfSome, IfNone, length};
ghost use Rattle.outside.specs.Causes.{IsFresh, LinkTold};
ghost use Rattle.app_trait.specs.Moves.{Moves};
ghost use Rattle.conn_loop.specs.Causes.{IsCaused, CountsWaits, Clocked, Keeps, end_of};
ghost use Rattle.conn_loop.specs.Replying.{serving_over};
ghost use Rattle.conn_loop.specs.ConnState.{Represents, StepImpliesFor, AsksFor, Counted, IsAsking, at_first};
ghost use Rattle.conn_loop.specs.Steps.{ComesFor, DutyOf, Goes, GoesOver, IsPlain, Proceeds, stage_kept, to_go};

mod answering;
mod lending;
mod reading;
mod sending;
mod writing;

use crate::buffer::Buffer;
use crate::limits::ANSWER_LIMIT;
use crate::phase::{Ahead, Duty, Phase};
use crate::scratch::Scratch;
use crate::step::{End, Step};
use app_trait::App;
use fd_cache::Lease;
use outside::{Clock, Files, Link};
use path_rules::PathBuf8;
use std::alloc::{AllocError, Global};
use std::marker::Model;

/// One connection: its buffers, the file that is lent to it, and how far it has come.
#[derive(Drop)]
pub struct Conn<F: Files> {
    input: Buffer,
    output: Buffer,
    path: PathBuf8,
    lease: Option<Lease<F>>,
    moments: Vec<u64>,
    left: u32,
    phase: Phase,
    bytes: u64,
    waits: u64,
}

impl<F: Files> Model for Conn<F> {
    ghost use Rattle.std.specs.Prelude.{◌≡◌, ◌≤◌, ◌+◌, vec_len, vec_capacity, option_map};
    ghost use Rattle.fd_cache.specs.Calls.{entry_held};
    ghost use Rattle.conn_loop.specs.ConnState.{ConnState};

    ghost Value = { ConnState };

    ghost use Rattle.conn_loop.specs.Phases.{over_in, stage_in, IsKept, HasLease};

    ghost view = { λ a. record {
      input = a.input;
      stage = stage_in a.input a.path a.phase;
      pending = a.output;
      lease = option_map (λ lease. F.file_path lease.file) a.lease;
      entry = entry_held a.lease;
      moments = a.moments.items;
      left = a.left;
      over = over_in a.phase;
      bytes = a.bytes;
      waits = a.waits;
    } };

    ghost invariant = { λ a. (vec_len a.moments + a.left ≤ 1000) × (1000 ≤ vec_capacity a.moments)
        × IsKept a.input a.left a.phase × HasLease a.phase (option_map (λ lease. lease.size) a.lease) };
}

impl<F: Files> Conn<F> {
    /// A connection that has read nothing and written nothing. All its memory is taken
    /// here; an error is want of memory.
    pub fn new(alloc: Global) -> Result<Conn<F>, AllocError>
        ensures is { IfOk result (λ conn. conn ≡ at_first) }
        ensures represents { IfOk result
            (λ conn. (moves : Moves) (link : LinkTold) → IsFresh link → Represents moves F.folder conn link) }
    {
        let input = Buffer::new(alloc)?;
        let output = Buffer::new(alloc)?;
        let path = PathBuf8::new(alloc)?;
        let moments = Vec::with_capacity(alloc, ANSWER_LIMIT as usize)?;
        Ok(Conn {
            input,
            output,
            path,
            lease: None,
            moments,
            left: ANSWER_LIMIT,
            phase: Phase::Fresh,
            bytes: 0,
            waits: 0,
        })
    }

    /// The moments at which the final answers so far were made, in order. There are at most 1,000.
    pub fn moments(&self) -> &[u64]
        ensures are { result.now ≡ self.now.moments }
        ensures few { length self.now.moments + self.now.left ≤ 1000 }
    {
        &self.moments
    }

    /// Brings the connection as far as it goes: reads, answers and writes until the link must be waited for,
    /// a file is wanted or the connection is over. It takes no memory. The caller owes the link, the files
    /// and the application of the calls before, and a link that hasn't ended unless the connection is over.
    /// After `Done` every later call answers the same and touches nothing.
    pub fn advance<L: Link, A: App, C: Clock>(
        &mut self,
        link: &mut L,
        files: &mut F,
        app: &A,
        clock: &mut C,
        scratch: &mut Scratch,
    ) -> Step
        requires { Represents (A.moves app.now) F.folder self.old (L.told link.old) }
        // The connection stands for what the link has taken and sent, so that what was
        // sent is a prefix of the answers.
        ensures represents { Represents (A.moves app.now) F.folder self.new (L.told link.new) }
        // What each step says of the bytes. A clean end and a cut come exactly where this holds.
        ensures implies { StepImpliesFor result (serving_over (A.moves app.now) F.folder) self.new
            (L.told link.new) }
        // The moments are those that the clock gave, whose stillness stays.
        ensures clocked { Clocked self.old self.new (C.told clock.old) (C.told clock.new) }
        // A fault comes only where the count of its own object and direction rose, want of
        // memory only where it was supplied.
        ensures caused { IfNone self.old.over
            (IsCaused result self.old self.new (L.told link.old) (L.told link.new)
            (F.told files.old) (F.told files.new)) }
        // A wait is answered exactly where the link told one of that direction, and there is at most one. The
        // counts of bytes and waits go on being the link's.
        ensures counted { CountsWaits result (L.told link.old) (L.told link.new)
            × (Counted self.old (L.told link.old) → Counted self.new (L.told link.new)) }
        // What ended stays so, and touches nothing; a file is wanted exactly where one is asked for.
        ensures over { (self.new.over ≡ end_of result) × ((result ≡ Step.WantFile) ↔ IsAsking self.new)
            × IfSome self.old.over (λ end.
            (result ≡ Step.Done end) × (self.new ≡ self.old) × (link.new ≡ link.old)
            × (files.new ≡ files.old) × (clock.new ≡ clock.old)) }
        // The lease that is held stays, and its entry.
        ensures lends { (self.new.lease ≡ self.old.lease) × (self.new.entry ≡ self.old.entry) }
        // What the link plans and all that files tell but faults stay, no count of faults falls,
        // and the steps left don't grow.
        ensures keeps { Keeps (L.told link.old) (L.told link.new) (F.told files.old) (F.told files.new)
            × (to_go self.new ≤ to_go self.old) }
    {
        if let Some(end) = self.over() {
            return Step::Done(end);
        }
        let step = self.go_on(link, files, app, clock, scratch);
        self.keep(step);
        step
    }

    /// How the connection ended, once it has.
    fn over(&self) -> Option<End>
        ensures is { result ≡ self.now.over }
        ensures quiet { IfSome result (λ end. ¬ IsAsking self.now) }
    {
        match self.phase {
            Phase::Over(end) => Some(end),
            _ => None,
        }
    }

    /// Keeps how the connection ended, once it has.
    fn keep(&mut self, step: Step)
        requires { self.old.over ≡ None }
        ensures { self.new ≡ record self.old { over = end_of step; stage = stage_kept step self.old.stage } }
    {
        if let Step::Done(end) = step {
            self.phase = Phase::Over(end);
        }
    }

    /// Reads, answers and writes, request after request.
    fn go_on<L: Link, A: App, C: Clock>(
        &mut self,
        link: &mut L,
        files: &mut F,
        app: &A,
        clock: &mut C,
        scratch: &mut Scratch,
    ) -> Step
        requires running { self.old.over ≡ None }
        requires stands { ComesFor None (serving_over (A.moves app.now) F.folder) self.old (L.told link.old) }
        requires asks { AsksFor (A.moves app.now) self.old.stage }
        ensures stands { ComesFor (Some result) (serving_over (A.moves app.now) F.folder) self.new
            (L.told link.new) }
        ensures proceeds { Proceeds (A.moves app.now) (Some result) self.old self.new }
        ensures nearer { to_go self.new ≤ to_go self.old }
        ensures clocked { Clocked self.old self.new (C.told clock.old) (C.told clock.new) }
        ensures goes { GoesOver (Some result) self.old self.new (L.told link.old) (L.told link.new)
            (F.told files.old) (F.told files.new) }
    {
        'requests: loop {
            if let Some(step) = self.step(link, files, app, clock, scratch) {
                return step;
            }
        }
    }

    /// One step towards the next answer. `None` comes where the connection goes on.
    #[inline(always)]
    fn step<L: Link, A: App, C: Clock>(
        &mut self,
        link: &mut L,
        files: &mut F,
        app: &A,
        clock: &mut C,
        scratch: &mut Scratch,
    ) -> Option<Step>
        requires running { self.old.over ≡ None }
        requires asks { AsksFor (A.moves app.now) self.old.stage }
        ensures stands { ComesFor None (serving_over (A.moves app.now) F.folder) self.old (L.told link.old)
            → ComesFor result (serving_over (A.moves app.now) F.folder) self.new (L.told link.new) }
        ensures proceeds { Proceeds (A.moves app.now) result self.old self.new }
        ensures nearer { (to_go self.new ≤ to_go self.old) × IfNone result (to_go self.new < to_go self.old) }
        ensures clocked { Clocked self.old self.new (C.told clock.old) (C.told clock.new) }
        ensures goes { GoesOver result self.old self.new (L.told link.old) (L.told link.new)
            (F.told files.old) (F.told files.new) }
    {
        match self.duty() {
            Duty::Answer => self.answer_next(link, app, clock, scratch),
            Duty::Wait => Some(Step::WantFile),
            Duty::Send => self.send_part(link, files),
            Duty::End(end) => Some(self.end(link, end)),
        }
    }

    /// What is to be done next.
    fn duty(&self) -> Duty
        requires running { self.now.over ≡ None }
        ensures { DutyOf result self.now }
    {
        match self.phase {
            Phase::Wanting { .. } => Duty::Wait,
            Phase::Sending { .. } => Duty::Send,
            Phase::Unmade(end) => Duty::End(end),
            Phase::Broken(_) => Duty::End(End::FileFault),
            Phase::Over(_) => unreachable!(),
            _ if self.left == 0 => Duty::End(End::Clean),
            _ => Duty::Answer,
        }
    }

    /// One step towards the answer to what is ahead.
    #[inline(always)]
    fn answer_next<L: Link, A: App, C: Clock>(
        &mut self,
        link: &mut L,
        app: &A,
        clock: &mut C,
        scratch: &mut Scratch,
    ) -> Option<Step>
        requires some { 0 < self.old.left }
        requires plain { IsPlain self.old.stage }
        requires asks { AsksFor (A.moves app.now) self.old.stage }
        ensures stands { ComesFor None (serving_over (A.moves app.now) F.folder) self.old (L.told link.old)
            → ComesFor result (serving_over (A.moves app.now) F.folder) self.new (L.told link.new) }
        ensures proceeds { Proceeds (A.moves app.now) result self.old self.new }
        ensures nearer { (to_go self.new ≤ to_go self.old) × IfNone result (to_go self.new < to_go self.old) }
        ensures clocked { Clocked self.old self.new (C.told clock.old) (C.told clock.new) }
        ensures goes { Goes result self.old self.new (L.told link.old) (L.told link.new) }
    {
        if let Some(step) = self.make_room(link) {
            return Some(step);
        }
        match self.look() {
            Ahead::Unread => {
                self.judge(scratch);
                None
            }
            Ahead::Unfinished => self.read_more(link),
            Ahead::Refused(code) => {
                self.refuse(clock, scratch, code);
                None
            }
            Ahead::Whole => self.respond(link, app, clock, scratch),
        }
    }
}
