//! What runs the jobs that fired.
ghost use Rattle.std.specs.Prelude.{◌≡◌, [], ◌∷◌, ◌++◌, None, IfNone};
ghost use Rattle.std.specs.Borrow.{sem, Lends};
ghost use Rattle.reg_keys.specs.declared.opening.Opening.{Opening};
ghost use Rattle.reg_keys.specs.declared.registration.Dir.{Dir};
ghost use Rattle.reg_keys.specs.declared.registration.Marks.{Marks};
ghost use Rattle.event_mgr.specs.Manager.{MgrView, IsOfMgr, mgr_view};
ghost use Rattle.dispatcher.specs.Told.{Gains};
ghost use Rattle.dispatcher.specs.Firings.{Jobs, job_in, job_at};
ghost use Rattle.dispatcher.specs.Meanings.{RunnerMeaning, RunnerLaws};
ghost use Rattle.dispatcher.specs.Runs.{RunMade, GivesNoEvents, code_of, LeavesPolls};

use event_mgr::{EventManager, MgrPass};
use poller::Poller;
use reg_keys::{Event, Key};
use std::sync::Wait;
use stripe_table::{Fired, Load};

/// The events that one run's calls named, at most two.
#[derive(Drop)]
pub struct EventPair {
    pub first: Option<Event>,
    pub second: Option<Event>,
}

/// How a run came out.
#[derive(Drop)]
pub enum AfterRun {
    /// The dispatcher goes on.
    Events(EventPair),
    /// The dispatcher ends its turn with this code.
    Stop(u8, EventPair),
}

/// What runs the jobs that fired, and has the poller of its dispatcher.
pub trait Runner<T: Load> {
    type Poller: Poller;

    // What these contracts speak of.
    ghost meaning: { RunnerMeaning Self Self.Poller };

    /// Runs a registration that fired: its job, with the direction and the marks with which it fired. To wait
    /// for the next report, a run registers again with the mark of that direction. A flag has no job, and is
    /// told by the manager to whoever asks for it: nothing is to be done for it.
    ///
    /// It may make any calls on the manager but reports and dispatches, and gives the events that they named
    /// (`calls_of_runs`). It takes the job out of what fired: the toolchain proves no impl of a method that
    /// takes by value what is made of `T`, beside a manager for `T`.
    fn run<R: Wait>(
        &mut self,
        rt: &R,
        mgr: &EventManager<T>,
        pass: &mut MgrPass<T>,
        fired: &mut Fired<T>,
    ) -> AfterRun
        requires own { IsOfMgr mgr.now pass.old }
        requires stop { meaning.stop self.old ≡ None }
        requires fits { (o : Opening) × (rest : Jobs)
            × meaning.fits self.old (mgr_view pass.old) (job_in T.tag o fired.old ++ rest) }
        ensures own { IsOfMgr mgr.now pass.new }
        ensures fits { (o : Opening) (rest : Jobs)
            → meaning.fits self.old (mgr_view pass.old) (job_in T.tag o fired.old ++ rest)
            → meaning.fits self.new (mgr_view pass.new) rest }
        ensures made { RunMade (mgr_view pass.old) result (mgr_view pass.new) }
        ensures flag { IfNone fired.old.job (GivesNoEvents result) }
        ensures stop { meaning.stop self.new ≡ code_of result }
        ensures runs { Gains (meaning.runs self.old) (meaning.runs self.new) (fired.old.key ∷ []) }
        ensures shuts { meaning.shuts self.new ≡ meaning.shuts self.old }
        ensures keeps { meaning.keeps self.old self.new }
        ensures poller { LeavesPolls Self.Poller.meaning (meaning.poller_of self.old)
            (meaning.poller_of self.new) };

    /// Takes a job that fired and isn't run, since the turn ends.
    fn shut(&mut self, key: Key, job: T)
        requires fits { (v : MgrView) × (rest : Jobs) × (o : Opening) × (d : Dir) × (m : Marks)
            × meaning.fits self.old v (job_at o key d m (T.tag job) ∷ rest) }
        ensures fits { (v : MgrView) (rest : Jobs) (o : Opening) (d : Dir) (m : Marks)
            → meaning.fits self.old v (job_at o key d m (T.tag job) ∷ rest) → meaning.fits self.new v rest }
        ensures stop { meaning.stop self.new ≡ meaning.stop self.old }
        ensures runs { meaning.runs self.new ≡ meaning.runs self.old }
        ensures shuts { Gains (meaning.shuts self.old) (meaning.shuts self.new) (key ∷ []) }
        ensures keeps { meaning.keeps self.old self.new }
        ensures poller { LeavesPolls Self.Poller.meaning (meaning.poller_of self.old)
            (meaning.poller_of self.new) };

    /// Lends the poller.
    fn poller(&mut self) -> &mut Self::Poller
        ensures* writes_back { sem 𝓛
            (Lends Self.row Self.Poller.row self.entry result (meaning.with_poller self.old)) }
        ensures value { result.now ≡ meaning.poller_of self.old };

    // What a runner owes beside its calls.
    ghost laws: { RunnerLaws T.tag Self.Poller.meaning meaning };
}
