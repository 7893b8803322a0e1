//! The manager, the queue, the net and the dispatcher, with one connection whose job waits.
ghost use Rattle.std.specs.Prelude.{◌≡◌, IfOk};
ghost use Rattle.dispatcher.specs.Turns.{AreOf};
ghost use Rattle.poller.specs.Scripts.{AreScripts};

use crate::reader::{Job, Reader};
use anyhow::{Result, bail};
use dispatcher::{DispPass, PlainRunner, Turned, turn};
use event_mgr::{EventManager, OpenOut};
use outside::{AcceptOut, Listener};
use poller::{AddOut, MemLink, MemNet, MemPoller, Poller, Reports, Script, ScriptStep};
use ready_queue::ReadyQueue;
use reg_keys::{Dir, Opening};
use std::alloc::{AllocError, Global};
use std::sync::Wait;
use stripe_table::{Payload, RegisterReply};

/// How many events the queue holds.
const QUEUE: u32 = 8;

/// How many events a turn takes at most.
const EVENTS: u32 = 4;

/// What all threads of a server share, and what one dispatcher has of its own.
#[derive(Drop)]
pub(crate) struct Example {
    mgr: EventManager<Job>,
    queue: ReadyQueue,
    passes: DispPass<Job>,
    pub runner: PlainRunner<MemPoller, Reader>,
    reports: Reports,
    pub opening: Opening,
}

impl Example {
    /// A connection under an opening of a manager. Its job waits for the first report.
    pub(crate) fn new<R: Wait>(rt: &R, alloc: Global) -> Result<Example>
        ensures { IfOk result (λ example. AreOf example.mgr example.queue example.passes) }
    {
        let (mgr, mut pass) = EventManager::new(alloc)?;
        let (queue, place) = ReadyQueue::new(alloc, QUEUE)?;
        let (mut link, mut poller) = connection(alloc)?;
        let OpenOut::Opened(opening) = mgr.open_fd(rt, &mut pass) else {
            bail!("no descriptor was opened");
        };
        if poller.add(opening, &mut link) != AddOut::Added {
            bail!("the link wasn't added");
        }
        let job = Payload::Job(Job {
            opening,
            link: Box::new(alloc, link)?,
        });
        let mark = Some(opening.number);
        let RegisterReply::Waits(_, None) = mgr.register(
            rt,
            &mut pass,
            opening,
            Dir::Read,
            mark,
            job,
        ) else {
            bail!("the job doesn't wait");
        };
        let passes = DispPass::new(alloc, pass, place)?;
        let reports = Reports::new(alloc)?;
        let body = Reader { went: None };
        Ok(Example {
            mgr,
            queue,
            passes,
            runner: PlainRunner { poller, body },
            reports,
            opening,
        })
    }

    /// One turn of the dispatcher.
    pub(crate) fn take_turn<R: Wait>(&mut self, rt: &R) -> Turned
        requires { AreOf self.old.mgr self.old.queue self.old.passes }
        ensures { AreOf self.new.mgr self.new.queue self.new.passes }
    {
        self.reports.clear();
        turn(
            rt,
            &self.mgr,
            &self.queue,
            &mut self.passes,
            &mut self.runner,
            &mut self.reports,
            EVENTS,
        )
    }
}

/// A step of a script that brings these bytes.
fn step(alloc: Global, piece: &[u8]) -> Result<ScriptStep, AllocError> {
    Ok(ScriptStep {
        piece: Vec::from_slice(alloc, piece)?,
        allowance: 0,
    })
}

/// A script of two steps. Each report of its link delivers one.
fn scripts(alloc: Global) -> Result<Vec<Script>, AllocError>
    ensures { IfOk result (λ scripts. AreScripts scripts.items) }
{
    let steps = vec![in alloc; step(alloc, b"hello, ")?, step(alloc, b"world")?]?;
    Ok(vec![in alloc; Script { steps, room: 1 }]?)
}

/// A net with one poller and one link, which was accepted.
fn connection(alloc: Global) -> Result<(MemLink, MemPoller)> {
    let (mut listener, mut pollers) = MemNet::new(alloc, scripts(alloc)?, 1)?;
    let Some(poller) = pollers.pop() else {
        bail!("no poller");
    };
    let AcceptOut::Accepted(link) = listener.accept() else {
        bail!("no link");
    };
    Ok((link, poller))
}
