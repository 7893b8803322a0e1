//! A runner for whoever needs no more than the body of a run: it keeps nothing, never stops, and tells no
//! lists.
ghost use Rattle.std.specs.Prelude.{◌≡◌, ◌++◌, [], ◌∷◌, None, IfNone, refl};
ghost use Rattle.reg_keys.specs.declared.opening.Opening.{Opening};
ghost use Rattle.event_mgr.specs.Manager.{IsOfMgr, mgr_view};
ghost use Rattle.dispatcher.specs.Runs.{RunMade, HasMadeCalls, GivesNoEvents, code_of, events_of};

use crate::runner::{AfterRun, EventPair, Runner};
use event_mgr::{EventManager, MgrPass};
use poller::Poller;
use reg_keys::Key;
use std::sync::Wait;
use stripe_table::{Fired, Load};

/// The body of a run.
pub trait Run<T: Load> {
    /// Runs a registration that fired, and gives the events that its calls named.
    fn run<R: Wait>(
        &mut self,
        rt: &R,
        mgr: &EventManager<T>,
        pass: &mut MgrPass<T>,
        fired: &mut Fired<T>,
    ) -> EventPair
        requires own { IsOfMgr mgr.now pass.old }
        ensures own { IsOfMgr mgr.now pass.new }
        ensures made { HasMadeCalls (mgr_view pass.old) (events_of result) (mgr_view pass.new) }
        ensures flag { IfNone fired.old.job (events_of result ≡ []) };
}

/// A runner that has a poller and the body of a run, and keeps nothing.
#[derive(Drop)]
pub struct PlainRunner<P, F> {
    pub poller: P,
    pub body: F,
}

impl<T: Load, P: Poller, F: Run<T>> Runner<T> for PlainRunner<P, F> {
    type Poller = P;

    ghost use Rattle.std.specs.Prelude.{List};
    ghost use Rattle.event_mgr.specs.Manager.{MgrView};
    ghost use Rattle.reg_keys.specs.declared.registration.Dir.{Dir};
    ghost use Rattle.reg_keys.specs.declared.registration.Marks.{Marks};
    ghost use Rattle.dispatcher.specs.Told.{Gains, never, untold};
    ghost use Rattle.dispatcher.specs.Firings.{Jobs, job_in, job_at};
    ghost use Rattle.dispatcher.specs.Runs.{LeavesPolls};

    ghost meaning = { record {
      poller_of = λ r. r.poller;
      with_poller = λ r p. record r { poller = p };
      fits = λ r v jobs. Unit {0};
      keeps = λ r s. Unit {0};
      stop = λ r. never;
      runs = λ r. untold;
      shuts = λ r. untold;
    } };

    fn run<R: Wait>(
        &mut self,
        rt: &R,
        mgr: &EventManager<T>,
        pass: &mut MgrPass<T>,
        fired: &mut Fired<T>,
    ) -> AfterRun
        requires own { IsOfMgr mgr.now pass.old }
        ensures own { IsOfMgr mgr.now pass.new }
        ensures fits { (o : Opening) (rest : Jobs) → Unit {0} → Unit {0} }
        ensures made { RunMade (mgr_view pass.old) result (mgr_view pass.new) }
        ensures flag { IfNone fired.old.job (GivesNoEvents result) }
        ensures stop { never ≡ code_of result }
        ensures runs { Gains untold untold (fired.old.key ∷ []) }
        ensures shuts { untold ≡ untold }
        ensures keeps { Unit {0} }
        ensures poller { LeavesPolls P.meaning self.old.poller self.new.poller }
    {
        AfterRun::Events(self.body.run(rt, mgr, pass, fired))
    }

    fn shut(&mut self, _key: Key, _job: T)
        ensures fits { (v : MgrView) (rest : Jobs) (o : Opening) (d : Dir) (m : Marks) → Unit {0} → Unit {0} }
        ensures stop { never ≡ never }
        ensures runs { untold ≡ untold }
        ensures shuts { Gains untold untold (_key ∷ []) }
        ensures keeps { Unit {0} }
        ensures poller { LeavesPolls P.meaning self.old.poller self.new.poller }
    {}

    fn poller(&mut self) -> &mut P {
        &mut self.poller
    }

    ghost laws = { record {
      lent = λ r p. refl;
      lent_stop = λ r p. refl;
      lent_runs = λ r p. refl;
      lent_shuts = λ r p. refl;
      keeps_same = λ r. tt;
      keeps_on = λ r s t a b. tt;
      keeps_polled = λ r idle result out p h. tt;
      fits_polled = λ r idle result out p v jobs h f. tt;
      fits_reported = λ r o ds v reply w jobs a b h f. tt;
      fits_dispatched = λ r e v reply w jobs a b h f. tt;
    } };
}
