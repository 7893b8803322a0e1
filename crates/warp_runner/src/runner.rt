//! What runs the jobs of one dispatcher.

ghost use Rattle.std.specs.Prelude.{◌≡◌, [], ◌∷◌, ◌++◌, None, IfNone, refl};

use conn_loop::Scratch;
use dispatcher::{AfterRun, EventPair, Runner, calls_of_runs};
use event_mgr::{EventManager, MgrPass};
use fd_cache::{Cache, CacheDeed, Lease};
use outside::{Clock, Files};
use poller::Poller;
use reg_keys::Key;
use std::alloc::Global;
use std::sync::{Arc, Wait};
use stripe_table::Fired;
use timeout_mgr::TimePass;
use turn_cell::Pass;
use warp_books::{Book, Finished};
use warp_jobs::{Gate, Job};
use warp_passes::Shared;
use warp_tally::{Tally, TallyEntry};

/// The runner of one dispatcher: its kit, and its passes of what it shares with the others.
#[derive(Drop)]
pub struct ServerRunner<P: Poller, F: Files, C, B, G> {
    /// What all dispatchers share.
    pub shared: Arc<Shared<Job<P, F>, F>>,
    pub timed: TimePass,
    pub cached: Pass<Cache<F>, CacheDeed<Lease<F>>>,
    pub tallied: Pass<Tally, TallyEntry>,
    pub poller: P,
    pub files: F,
    pub clock: C,
    pub book: B,
    pub gate: G,
    pub scratch: Scratch,
    /// The listener, where this dispatcher ran it last.
    pub back: Option<P::Listener>,
    /// After this many links the listener is closed.
    pub limit: u64,
    /// The code with which the last run stopped.
    pub stop: Option<u8>,
    pub alloc: Global,
}

impl<P: Poller, F: Files, C: Clock, B: Book<Finished<P::Link, F>>, G: Gate> Runner<Job<P, F>>
    for ServerRunner<P, F, C, B, G> {
    type Poller = P;

    ghost use Rattle.std.specs.Prelude.{List};
    ghost use Rattle.std.specs.Arc.{arc_value};
    ghost use Rattle.reg_keys.specs.declared.opening.Opening.{Opening};
    ghost use Rattle.reg_keys.specs.declared.registration.Dir.{Dir};
    ghost use Rattle.reg_keys.specs.declared.registration.Marks.{Marks};
    ghost use Rattle.event_mgr.specs.Manager.{MgrView, IsOfMgr, mgr_view};
    ghost use Rattle.dispatcher.specs.Told.{Gains, untold};
    ghost use Rattle.dispatcher.specs.Firings.{Jobs, job_in, job_at};
    ghost use Rattle.dispatcher.specs.Runs.{LeavesPolls, RunMade, GivesNoEvents, code_of};
    ghost use Rattle.turn_cell.specs.Calls.{view_of};
    ghost use Rattle.timeout_mgr.specs.Calls.{view_of as seen_of};
    ghost use Rattle.warp_jobs.specs.Tags.{tag_of};
    ghost use Rattle.warp_runner.specs.Acts.{AreOfCells, HaveGrown, told_of};
    ghost use Rattle.timeout_mgr.specs.Passes.{calls_of};
    ghost use Rattle.warp_runner.specs.Asking.{HasAsked, HasNotSwept, asked_none, asked_then};
    ghost use Rattle.warp_runner.specs.Journal.{FitsUntil};
    ghost use Rattle.warp_runner.specs.JournalLaws.{fits_report, fits_dispatch, grown_none, grown_then, same_trans};

    ghost meaning = { record {
      poller_of = λ r. r.poller;
      with_poller = λ r p. record r { poller = p };
      fits = λ r v jobs.
          (AreOfCells (arc_value r.shared).times r.timed (arc_value r.shared).cache r.cached
          (arc_value r.shared).tally r.tallied)
          × FitsUntil r.limit r.stop (told_of v (view_of r.tallied) (seen_of r.timed) (B.told r.book)) jobs;
      keeps = λ r s. (s.shared ≡ r.shared) × (s.limit ≡ r.limit)
          × HaveGrown (view_of r.cached) (view_of s.cached) (view_of r.tallied) (view_of s.tallied)
          × HasAsked (C.told r.clock) (C.told s.clock)
          × HasNotSwept (calls_of (seen_of r.timed)) (calls_of (seen_of s.timed));
      stop = λ r. r.stop;
      runs = λ r. untold;
      shuts = λ r. untold;
    } };

    fn run<R: Wait>(
        &mut self,
        rt: &R,
        mgr: &EventManager<Job<P, F>>,
        pass: &mut MgrPass<Job<P, F>>,
        fired: &mut Fired<Job<P, F>>,
    ) -> AfterRun {
        // A law of the calls, for the proof: it does nothing when run.
        calls_of_runs::<Job<P, F>>();
        let Some(job) = fired.job.take() else {
            return AfterRun::Events(EventPair {
                first: None,
                second: None,
            });
        };
        let ran = self.run_job(rt, mgr, pass, job, fired.marks);
        self.stop = ran.stopped;
        ran.outcome()
    }

    fn shut(&mut self, _key: Key, _job: Job<P, F>) {
        // A law of the calls, for the proof: it does nothing when run.
        calls_of_runs::<Job<P, F>>();
    }

    fn poller(&mut self) -> &mut P {
        &mut self.poller
    }

    ghost laws = { record {
      lent = λ r p. refl;
      lent_stop = λ r p. refl;
      lent_runs = λ r p. refl;
      lent_shuts = λ r p. refl;
      keeps_same = λ r. (refl, refl, grown_none _ _, asked_none _, refl);
      keeps_on = λ r s t a b. (
        same_trans _ _ _ a.0 b.0,
        same_trans _ _ _ a.1 b.1,
        grown_then _ _ _ _ _ _ a.2 b.2,
        asked_then _ _ _ a.3 b.3,
        same_trans _ _ _ a.4 b.4,
      );
      keeps_polled = λ r idle result out p h. (refl, refl, grown_none _ _, asked_none _, refl);
      fits_polled = λ r idle result out p v jobs h f. f;
      fits_reported = λ r o ds v reply w jobs lv lw h f. (
        f.0,
        fits_report r.limit r.stop (view_of r.tallied) (seen_of r.timed)
            (B.told r.book) o ds v reply w jobs h f.1,
      );
      fits_dispatched = λ r e v reply w jobs lv lw h f. (
        f.0,
        fits_dispatch (λ job. tag_of job) r.limit r.stop (view_of r.tallied) (seen_of r.timed)
            (B.told r.book) e v reply w jobs h f.1,
      );
    } };
}
