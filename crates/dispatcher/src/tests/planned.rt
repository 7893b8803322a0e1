//! What the tests turn with: a poller that gives what was planned, and a runner that keeps the keys that it
//! was given.
ghost use Rattle.std.specs.Prelude.{◌≡◌, ◌≤◌, [], ◌∷◌, None, Some, Option, option_map, refl};
ghost use Rattle.reg_keys.specs.declared.registration.Key.{Key};
ghost use Rattle.event_mgr.specs.Manager.{IsOfMgr, mgr_view};
ghost use Rattle.dispatcher.specs.Told.{Gains};
ghost use Rattle.dispatcher.specs.Runs.{RunMade, GivesNoEvents, code_of};

use crate::runner::{AfterRun, EventPair, Runner};
use event_mgr::{EventManager, MgrPass};
use outside::Count;
use poller::{AddOut, MemLink, MemListener, PollOut, Poller, Reports};
use reg_keys::{Dirs, Key, Opening};
use std::sync::Wait;
use stripe_table::{Fired, Load};

/// A job, which nothing is known of.
#[derive(Drop)]
pub(crate) struct Job;

impl Load for Job {
    ghost tag = { λ _. [] };
}

/// A poller that gives at its next poll the pairs that are planned, the last one first, and keeps what it was
/// asked. It tells no list.
#[derive(Drop)]
pub(crate) struct Planned {
    pub(crate) plan: Vec<(Opening, Dirs)>,
    pub(crate) fails: bool,
    pub(crate) idle: Option<bool>,
    pub(crate) faults: Count,
}

impl Poller for Planned {
    type Link = MemLink;

    type Listener = MemListener;

    ghost meaning = { record {
      faults = λ p. record { links = 0; polls = p.faults.n };
      polled = λ _. None;
      polls = λ old idle result out new. old.faults.n ≤ new.faults.n;
    } };

    fn add(&mut self, _opening: Opening, _link: &mut MemLink) -> AddOut {
        AddOut::Added
    }

    fn add_listener(&mut self, _opening: Opening, _listener: &mut MemListener) -> AddOut {
        AddOut::Added
    }

    fn poll<R: Wait>(&mut self, _rt: &R, idle: bool, out: &mut Reports) -> PollOut {
        self.idle = Some(idle);
        if self.fails {
            self.faults.rise();
            return PollOut::Failed;
        }
        while let Some((opening, dirs)) = self.plan.pop() {
            out.push(opening, dirs);
        }
        PollOut::Polled
    }

    ghost polls_alone = { λ old idle result out new h. record { links = refl; later = h } };
}

/// One key more in a list that is told, as long as there is room for it.
fn kept(keys: Option<Vec<Key>>, key: Key) -> Option<Vec<Key>>
    ensures { Gains (option_map (λ v. v.items) keys) (option_map (λ v. v.items) result) (key ∷ []) }
{
    let mut keys = keys?;
    if keys.len() < keys.capacity() {
        keys.push_reserved(key);
        Some(keys)
    } else {
        None
    }
}

/// A runner that keeps the keys that it was given to run and to shut, and stops at each run with the code 7
/// where it is to.
#[derive(Drop)]
pub(crate) struct Keeper {
    pub(crate) poller: Planned,
    pub(crate) runs: Option<Vec<Key>>,
    pub(crate) shuts: Option<Vec<Key>>,
    pub(crate) stops: bool,
    pub(crate) stopped: Option<u8>,
}

impl<T: Load> Runner<T> for Keeper {
    type Poller = Planned;

    ghost meaning = { record {
      poller_of = λ k. k.poller;
      with_poller = λ k p. record k { poller = p };
      fits = λ k v jobs. Unit {0};
      keeps = λ k l. Unit {0};
      stop = λ k. k.stopped;
      runs = λ k. option_map (λ v. v.items) k.runs;
      shuts = λ k. option_map (λ v. v.items) k.shuts;
    } };

    fn run<R: Wait>(
        &mut self,
        _rt: &R,
        _mgr: &EventManager<T>,
        _pass: &mut MgrPass<T>,
        fired: &mut Fired<T>,
    ) -> AfterRun
        requires own { IsOfMgr _mgr.now _pass.old }
        requires stop { self.old.stopped ≡ None }
        ensures own { IsOfMgr _mgr.now _pass.new }
        ensures made { RunMade (mgr_view _pass.old) result (mgr_view _pass.new) }
        ensures flag { GivesNoEvents result }
        ensures stop { self.new.stopped ≡ code_of result }
        ensures runs { Gains (option_map (λ v. v.items) self.old.runs)
            (option_map (λ v. v.items) self.new.runs) (fired.old.key ∷ []) }
        ensures shuts { self.new.shuts ≡ self.old.shuts }
        ensures poller { self.new.poller ≡ self.old.poller }
    {
        self.runs = kept(self.runs.take(), fired.key);
        let pair = EventPair {
            first: None,
            second: None,
        };
        if !self.stops {
            return AfterRun::Events(pair);
        }
        self.stopped = Some(7);
        AfterRun::Stop(7, pair)
    }

    fn shut(&mut self, key: Key, _job: T) {
        self.shuts = kept(self.shuts.take(), key);
    }

    fn poller(&mut self) -> &mut Planned {
        &mut self.poller
    }

    ghost laws = { record {
      lent = λ k p. refl;
      lent_stop = λ k p. refl;
      lent_runs = λ k p. refl;
      lent_shuts = λ k p. refl;
      keeps_same = λ k. tt;
      keeps_on = λ k l m a b. tt;
      keeps_polled = λ k idle result out p a. tt;
      fits_polled = λ k idle result out p v jobs a f. tt;
      fits_reported = λ k o ds v reply w jobs a b h f. tt;
      fits_dispatched = λ k e v reply w jobs a b h f. tt;
    } };
}
