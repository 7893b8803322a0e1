//! The runner of the small server. Its poller and its book are lent.
ghost use Rattle.std.specs.Prelude.{◌≡◌, ◌≤◌, ◌<◌, ◌+◌, [], ◌∷◌, ◌++◌, None, IfNone, false, refl};
ghost use Rattle.reg_keys.specs.declared.opening.Opening.{Opening};
ghost use Rattle.event_mgr.specs.Manager.{IsOfMgr, mgr_view};
ghost use Rattle.dispatcher.specs.declared.runner.AfterRun.TheVariants.{Events};
ghost use Rattle.dispatcher.specs.Runs.{RunMade, GivesNoEvents, code_of};

use crate::book::Book;
use crate::calls::{Again, finish, register_again};
use crate::job::{Job, drain};
use dispatcher::{AfterRun, EventPair, Runner, calls_of_runs};
use event_mgr::{EventManager, MgrPass};
use poller::{MemPoller, Poller};
use reg_keys::{Dir, Event, Key};
use std::sync::Wait;
use stripe_table::Fired;

/// The runner of a dispatcher, over a poller and a book that it is lent.
#[derive(Drop)]
pub struct ServerRunner<'a> {
    pub poller: &'a mut MemPoller,
    pub book: &'a mut Book,
}

/// No event, or one.
fn events(event: Option<Event>) -> AfterRun
    ensures { result ≡ Events (record { first = event; second = None }) }
{
    AfterRun::Events(EventPair {
        first: event,
        second: None,
    })
}

impl<'a> Runner<Job> for ServerRunner<'a> {
    type Poller = MemPoller;

    ghost use Rattle.std.specs.Prelude.{List};
    ghost use Rattle.event_mgr.specs.Manager.{MgrView};
    ghost use Rattle.reg_keys.specs.declared.registration.Dir.{Dir};
    ghost use Rattle.reg_keys.specs.declared.registration.Marks.{Marks};
    ghost use Rattle.dispatcher.specs.Told.{Gains, never, untold};
    ghost use Rattle.dispatcher.specs.Firings.{Jobs, job_in, job_at};
    ghost use Rattle.dispatcher.specs.Runs.{LeavesPolls};
    ghost use Rattle.event_tests.specs.Accounting.{Accounts, finishes_in, tag_of};
    ghost use Rattle.event_tests.specs.Laws.{reported, dispatched, trans};

    ghost meaning = { record {
      poller_of = λ r. r.poller.now;
      with_poller = λ r p. record r { poller = record r.poller { now = p } };
      fits = λ r v jobs. Accounts (finishes_in r.book.now.finished.items) v jobs;
      keeps = λ r s. (s.poller.ghost_name ≡ r.poller.ghost_name) × (s.book.ghost_name ≡ r.book.ghost_name);
      stop = λ r. never;
      runs = λ r. untold;
      shuts = λ r. untold;
    } };

    fn run<R: Wait>(
        &mut self,
        rt: &R,
        mgr: &EventManager<Job>,
        pass: &mut MgrPass<Job>,
        fired: &mut Fired<Job>,
    ) -> AfterRun
        requires own { IsOfMgr mgr.now pass.old }
        requires stop { never ≡ None }
        requires fits { (o : Opening) × (rest : Jobs)
            × Accounts (finishes_in self.old.book.now.finished.items) (mgr_view pass.old)
            (job_in (λ job. tag_of job.opening job.number) o fired.old ++ rest) }
        ensures own { IsOfMgr mgr.now pass.new }
        ensures fits { (o : Opening) (rest : Jobs)
            → Accounts (finishes_in self.old.book.now.finished.items) (mgr_view pass.old)
            (job_in (λ job. tag_of job.opening job.number) o fired.old ++ rest)
            → Accounts (finishes_in self.new.book.now.finished.items) (mgr_view pass.new) rest }
        ensures made { RunMade (mgr_view pass.old) result (mgr_view pass.new) }
        ensures flag { IfNone fired.old.job (GivesNoEvents result) }
        ensures stop { never ≡ code_of result }
        ensures runs { Gains untold untold (fired.old.key ∷ []) }
        ensures shuts { untold ≡ untold }
        ensures keeps { (self.new.poller.ghost_name ≡ self.old.poller.ghost_name)
            × (self.new.book.ghost_name ≡ self.old.book.ghost_name) }
        ensures poller { LeavesPolls ⟦<MemPoller as Poller>⟧.meaning self.old.poller.now self.new.poller.now }
    {
        calls_of_runs::<Job>();
        let Some(job) = fired.job.take() else {
            return events(None);
        };
        let mark = match fired.dir {
            Dir::Read => fired.marks.read,
            Dir::Write => fired.marks.write,
        };
        let Job {
            opening,
            number,
            mark: before,
            link,
            mut read,
        } = job;
        self.book.note(fired.key.number, before < mark);
        let Some(link) = drain(link, number, &mut read) else {
            finish(rt, mgr, pass, self.book, opening, number, read);
            return events(None);
        };
        let next = Job {
            opening,
            number: number + 1,
            mark,
            link: Some(link),
            read,
        };
        match register_again(rt, mgr, pass, opening, number, fired.dir, mark, next) {
            Again::Waits(event) => events(event),
            Again::Refused => {
                finish(rt, mgr, pass, self.book, opening, number, read);
                events(None)
            }
        }
    }

    fn shut(&mut self, _key: Key, job: Job)
        requires fits { (v : MgrView) × (rest : Jobs) × (o : Opening) × (d : Dir) × (m : Marks)
            × Accounts (finishes_in self.old.book.now.finished.items) v
            (job_at o _key d m (tag_of job.opening job.number) ∷ rest) }
        ensures fits { (v : MgrView) (rest : Jobs) (o : Opening) (d : Dir) (m : Marks)
            → Accounts (finishes_in self.old.book.now.finished.items) v
            (job_at o _key d m (tag_of job.opening job.number) ∷ rest)
            → Accounts (finishes_in self.new.book.now.finished.items) v rest }
        ensures stop { never ≡ never }
        ensures runs { untold ≡ untold }
        ensures shuts { Gains untold untold (_key ∷ []) }
        ensures keeps { (self.new.poller.ghost_name ≡ self.old.poller.ghost_name)
            × (self.new.book.ghost_name ≡ self.old.book.ghost_name) }
        ensures poller { LeavesPolls ⟦<MemPoller as Poller>⟧.meaning self.old.poller.now self.new.poller.now }
    {
        self.book.finish(job.opening, job.number, job.read);
    }

    fn poller(&mut self) -> &mut MemPoller {
        self.poller
    }

    ghost laws = { record {
      lent = λ r p. refl;
      lent_stop = λ r p. refl;
      lent_runs = λ r p. refl;
      lent_shuts = λ r p. refl;
      keeps_same = λ r. (refl, refl);
      keeps_on = λ r s t a b. (trans _ _ _ a.0 b.0, trans _ _ _ a.1 b.1);
      keeps_polled = λ r idle result out p h. (refl, refl);
      fits_polled = λ r idle result out p v jobs h f. f;
      fits_reported = λ r o ds v reply w jobs lv lw h f.
          reported (finishes_in r.book.now.finished.items) o ds v reply w jobs h f;
      fits_dispatched = λ r e v reply w jobs lv lw h f.
          dispatched (λ job. tag_of job.opening job.number)
          (finishes_in r.book.now.finished.items) e v reply w jobs h f;
    } };
}
