//! What the tests are set up with: scripts of a memory net, openings, and links that were accepted.
ghost use Rattle.std.specs.Prelude.{◌≡◌, ◌<◌, [], IfOk};
ghost use Rattle.event_mgr.specs.Manager.{IsOfMgr};
ghost use Rattle.ready_queue.specs.Calls.{IsOf};
ghost use Rattle.dispatcher.specs.Turns.{AreOf};
ghost use Rattle.poller.specs.Polls.{HasToken};
ghost use Rattle.poller.specs.Scripts.{AreScripts};
ghost use Rattle.event_tests.specs.Rows.{ServesRow};

use crate::{Book, Job, Row, new_row};
use dispatcher::DispPass;
use event_mgr::{EventManager, MgrPass, OpenOut};
use outside::{AcceptOut, Listener};
use poller::{
    MemLink, MemListener, MemNet, MemPoller, PollOut, Poller, Reports, Script, ScriptStep,
};
use ready_queue::{QPass, ReadyQueue};
use reg_keys::Opening;
use std::alloc::{AllocError, Global};
use std::sync::Wait;
use std::test::Fail;

/// A step that brings these bytes, and allows this many to be written.
pub fn step(alloc: Global, piece: &[u8], allowance: u32) -> Result<ScriptStep, AllocError> {
    Ok(ScriptStep {
        piece: Vec::from_slice(alloc, piece)?,
        allowance,
    })
}

/// The script of the worked link alone: `ab` and two bytes that may be written, then `c` and nine more. The
/// link has room for 100.
pub fn worked_script(alloc: Global) -> Result<Vec<Script>, AllocError>
    ensures { IfOk result (λ v. AreScripts v.items) }
{
    let steps = vec![in alloc; step(alloc, b"ab", 2)?, step(alloc, b"c", 9)?]?;
    Ok(vec![in alloc; Script { steps, room: 100 }]?)
}

/// Opens the lowest free descriptor.
pub fn open<R: Wait>(
    rt: &R,
    mgr: &EventManager<Job>,
    pass: &mut MgrPass<Job>,
) -> Result<Opening, Fail>
    requires { IsOfMgr mgr.now pass.old }
    ensures own { IsOfMgr mgr.now pass.new }
    ensures token { IfOk result (λ o. HasToken o) }
{
    match mgr.open_fd(rt, pass) {
        OpenOut::Opened(o) => Ok(o),
        _ => Err(Fail::from("no descriptor was opened")),
    }
}

/// Accepts the next link. Where the listener wants to be waited for, its poller is polled once.
pub fn accept<R: Wait>(
    rt: &R,
    listener: &mut MemListener,
    poller: &mut MemPoller,
    reports: &mut Reports,
) -> Result<MemLink, Fail> {
    for _ in 0..2 {
        match listener.accept() {
            AcceptOut::Accepted(link) => return Ok(link),
            AcceptOut::NotYet => {}
            _ => return Err(Fail::from("the listener failed")),
        }
        reports.clear();
        if poller.poll(rt, false, reports) != PollOut::Polled {
            return Err(Fail::from("the poll failed"));
        }
    }
    Err(Fail::from("no link came"))
}

/// A manager and a queue, with the passes that others are split off.
#[derive(Drop)]
pub struct Shop {
    pub mgr: EventManager<Job>,
    pub queue: ReadyQueue,
    pub pass: MgrPass<Job>,
    pub place: QPass,
}

/// A shop with a queue of this capacity.
pub fn shop_of(alloc: Global, capacity: u32) -> Result<Shop, Fail>
    requires { 0 < capacity }
    ensures pass { IfOk result (λ s. IsOfMgr s.mgr s.pass) }
    ensures place { IfOk result (λ s. IsOf s.queue s.place) }
{
    let (mgr, pass) = EventManager::<Job>::new(alloc)?;
    let (queue, place) = ReadyQueue::new(alloc, capacity)?;
    Ok(Shop {
        mgr,
        queue,
        pass,
        place,
    })
}

impl Shop {
    /// The passes of one more thread.
    pub fn further(&mut self, alloc: Global) -> Result<DispPass<Job>, Fail>
        requires pass { IsOfMgr self.old.mgr self.old.pass }
        requires place { IsOf self.old.queue self.old.place }
        ensures shop { (self.new.mgr ≡ self.old.mgr) × (self.new.queue ≡ self.old.queue) }
        ensures pass { IsOfMgr self.new.mgr self.new.pass }
        ensures place { IsOf self.new.queue self.new.place }
        ensures further { IfOk result (λ p. AreOf self.new.mgr self.new.queue p) }
    {
        let own = self.mgr.split(alloc, &mut self.pass)?;
        let place = self.queue.split(&mut self.place)?;
        Ok(DispPass::new(alloc, own, place)?)
    }

    /// A row with this poller and this book, which is empty.
    pub fn row(&mut self, alloc: Global, poller: MemPoller, book: Book) -> Result<Row, Fail>
        requires pass { IsOfMgr self.old.mgr self.old.pass }
        requires place { IsOf self.old.queue self.old.place }
        requires book { book.finished.items ≡ [] }
        ensures shop { (self.new.mgr ≡ self.old.mgr) × (self.new.queue ≡ self.old.queue) }
        ensures pass { IsOfMgr self.new.mgr self.new.pass }
        ensures place { IsOf self.new.queue self.new.place }
        ensures row { IfOk result (λ r. ServesRow self.new.mgr self.new.queue r.pass r.kit.book) }
    {
        let place = self.queue.split(&mut self.place)?;
        Ok(new_row(
            alloc,
            &self.mgr,
            &self.queue,
            &mut self.pass,
            place,
            poller,
            book,
        )?)
    }
}

/// The only poller of a net.
pub fn only(pollers: &mut Vec<MemPoller>) -> Result<MemPoller, Fail> {
    let Some(poller) = pollers.pop() else {
        return Err(Fail::from("no poller"));
    };
    Ok(poller)
}

/// A listener, a poller, and room for reports.
#[derive(Drop)]
pub struct Net {
    pub listener: MemListener,
    pub poller: MemPoller,
    pub reports: Reports,
}

/// A net of these scripts, with one poller.
pub fn net_of(alloc: Global, scripts: Vec<Script>) -> Result<Net, Fail>
    requires { AreScripts scripts.items }
{
    let (listener, mut pollers) = MemNet::new(alloc, scripts, 1)?;
    let poller = only(&mut pollers)?;
    let reports = Reports::new(alloc)?;
    Ok(Net {
        listener,
        poller,
        reports,
    })
}

impl Net {
    /// Accepts the next link.
    pub fn accepts<R: Wait>(&mut self, rt: &R) -> Result<MemLink, Fail> {
        accept(rt, &mut self.listener, &mut self.poller, &mut self.reports)
    }
}
