//! What reads the connection: its job, and what a run does with it.
ghost use Rattle.std.specs.Prelude.{◌≡◌, [], IfNone};
ghost use Rattle.event_mgr.specs.Manager.{IsOfMgr, mgr_view};
ghost use Rattle.dispatcher.specs.Runs.{HasMadeCalls, events_of, named_by_register};

use dispatcher::{EventPair, Run, calls_of_runs};
use event_mgr::{EventManager, MgrPass};
use outside::{Link, ReadOut};
use poller::MemLink;
use reg_keys::{Dir, Opening};
use std::sync::Wait;
use stripe_table::{Fired, Load, Payload, RegisterReply};

/// The job of a connection. Its link goes with it: into the manager while it waits, and into the run.
#[derive(Drop)]
pub(crate) struct Job {
    pub opening: Opening,
    /// Behind a box, since the manager moves jobs.
    pub link: Box<MemLink>,
}

impl Load for Job {
    ghost tag = { λ _. [] };
}

/// What a run came to.
#[derive(Clone, Copy)]
pub(crate) enum Went {
    /// This many bytes were read until `NotYet`, and the job waits with this mark.
    On { read: usize, mark: u64 },
    /// This many bytes were read to the end, and the opening is closed.
    ToTheEnd { read: usize },
}

/// The body of each run, and what the last one came to.
#[derive(Drop)]
pub(crate) struct Reader {
    pub went: Option<Went>,
}

impl Run<Job> for Reader {
    /// Reads until `NotYet`, and registers again with the mark of the report that made it run.
    fn run<R: Wait>(
        &mut self,
        rt: &R,
        mgr: &EventManager<Job>,
        pass: &mut MgrPass<Job>,
        fired: &mut Fired<Job>,
    ) -> EventPair
        requires own { IsOfMgr mgr.now pass.old }
        ensures own { IsOfMgr mgr.now pass.new }
        ensures made { HasMadeCalls (mgr_view pass.old) (events_of result) (mgr_view pass.new) }
        ensures flag { IfNone fired.old.job (events_of result ≡ []) }
    {
        // A law of the calls that a run may make, for the proof: it does nothing when run.
        calls_of_runs::<Job>();
        let Some(mut job) = fired.job.take() else {
            return no_events();
        };
        match drain(&mut job.link) {
            Drained::NotYet(read) => self.wait_again(rt, mgr, pass, job, read, fired.marks.read),
            Drained::Over(read) => {
                self.went = Some(Went::ToTheEnd { read });
                let _closed = mgr.close_fd(rt, pass, job.opening);
                no_events()
            }
        }
    }
}

impl Reader {
    /// Registers the job again. A job that is refused comes back in the reply, and is dropped with its link.
    fn wait_again<R: Wait>(
        &mut self,
        rt: &R,
        mgr: &EventManager<Job>,
        pass: &mut MgrPass<Job>,
        job: Job,
        read: usize,
        mark: u64,
    ) -> EventPair
        requires own { IsOfMgr mgr.now pass.old }
        ensures own { IsOfMgr mgr.now pass.new }
        ensures made { HasMadeCalls (mgr_view pass.old) (events_of result) (mgr_view pass.new) }
    {
        // A law of the calls that a run may make, for the proof: it does nothing when run.
        calls_of_runs::<Job>();
        let opening = job.opening;
        let reply = mgr.register(rt, pass, opening, Dir::Read, Some(mark), Payload::Job(job));
        if matches!(reply, RegisterReply::Waits(_, _)) {
            self.went = Some(Went::On { read, mark });
        }
        events_of_reply(reply)
    }
}

/// What a run gives that names no event.
fn no_events() -> EventPair
    ensures { events_of result ≡ [] }
{
    EventPair {
        first: None,
        second: None,
    }
}

/// The event that a registration named, if any. The dispatcher queues what a run gives.
fn events_of_reply(reply: RegisterReply<Job>) -> EventPair
    ensures { events_of result ≡ named_by_register reply }
{
    match reply {
        RegisterReply::Waits(_, event) => EventPair {
            first: event,
            second: None,
        },
        RegisterReply::Shut(_back) | RegisterReply::Crowded(_back) | RegisterReply::Spent(_back) =>
            { no_events() }
    }
}

/// How far reading came, with the bytes that were read.
enum Drained {
    /// No byte is there yet.
    NotYet(usize),
    /// There will be no more.
    Over(usize),
}

/// Reads all that is there.
fn drain(link: &mut MemLink) -> Drained {
    let mut room = [0u8; 4];
    let mut read = 0usize;
    for _ in 0..u64::MAX {
        match link.read(&mut room) {
            ReadOut::Got(count) => read = read.saturating_add(count),
            ReadOut::NotYet => return Drained::NotYet(read),
            ReadOut::End | ReadOut::Failed => return Drained::Over(read),
        }
    }
    Drained::Over(read)
}
