//! Rows of kits and passes. Each is turned by itself, in a thread of its own.
ghost use Rattle.std.specs.Prelude.{◌≡◌, [], All, IfOk, IfErr};
ghost use Rattle.ready_queue.specs.Calls.{IsOf};
ghost use Rattle.event_mgr.specs.Manager.{IsOfMgr};
ghost use Rattle.event_tests.specs.Rows.{ServesRow};

use crate::book::Book;
use crate::job::Job;
use crate::runner::ServerRunner;
use dispatcher::{DispPass, Turned, turn};
use event_mgr::{EventManager, MgrPass};
use poller::{MemPoller, Reports};
use ready_queue::{QPass, ReadyQueue};
use std::alloc::{AllocError, Global};
use std::sync::Wait;
use std::thread::{Threads, for_each_mut};

/// How many events a turn takes at most.
const MAX: u32 = 4;

/// How many rows are turned side by side at most.
const THREADS: usize = 64;

/// What a dispatcher owns: its poller, its book, and what its polls are reported in.
#[derive(Drop)]
pub struct Kit {
    pub poller: MemPoller,
    pub book: Book,
    pub reports: Reports,
}

/// A kit, and the passes that it is turned with.
#[derive(Drop)]
pub struct Row {
    pub kit: Kit,
    pub pass: DispPass<Job>,
}

/// A row whose pass has made no call: it is split off another one, which stays with the caller.
pub fn new_row(
    alloc: Global,
    mgr: &EventManager<Job>,
    queue: &ReadyQueue,
    pass: &mut MgrPass<Job>,
    place: QPass,
    poller: MemPoller,
    book: Book,
) -> Result<Row, AllocError>
    requires own { IsOfMgr mgr.now pass.old }
    requires place { IsOf queue.now place }
    requires book { book.finished.items ≡ [] }
    ensures own { IsOfMgr mgr.now pass.new }
    ensures serves { IfOk result (λ row. ServesRow mgr.now queue.now row.pass row.kit.book) }
{
    // Lets the contract speak of the queue.
    let _queue = queue;
    let own = mgr.split(alloc, pass)?;
    Ok(Row {
        kit: Kit {
            poller,
            book,
            reports: Reports::new(alloc)?,
        },
        pass: DispPass::new(alloc, own, place)?,
    })
}

/// One turn. It is false where the turn wasn't done.
fn turn_kit<R: Wait>(
    rt: &R,
    mgr: &EventManager<Job>,
    queue: &ReadyQueue,
    pass: &mut DispPass<Job>,
    kit: &mut Kit,
) -> bool
    requires { ServesRow mgr.now queue.now pass.old kit.old.book }
    ensures { ServesRow mgr.now queue.now pass.new kit.new.book }
{
    kit.reports.clear();
    let mut runner = ServerRunner {
        poller: &mut kit.poller,
        book: &mut kit.book,
    };
    let turned = turn::<Job, ServerRunner, R>(
        rt,
        mgr,
        queue,
        pass,
        &mut runner,
        &mut kit.reports,
        MAX,
    );
    matches!(turned, Turned::Done { reports: _, ran: _ })
}

/// One turn of a row. It is false where the turn wasn't done.
pub fn turn_row<R: Wait>(rt: &R, mgr: &EventManager<Job>, queue: &ReadyQueue, row: &mut Row) -> bool
    requires { ServesRow mgr.now queue.now row.old.pass row.old.kit.book }
    ensures { ServesRow mgr.now queue.now row.new.pass row.new.kit.book }
{
    turn_kit(rt, mgr, queue, &mut row.pass, &mut row.kit)
}

/// Turns a row so often, or until a turn isn't done.
fn serve_row<R: Wait>(
    rt: &R,
    mgr: &EventManager<Job>,
    queue: &ReadyQueue,
    row: &mut Row,
    turns: u64,
)
    requires { ServesRow mgr.now queue.now row.old.pass row.old.kit.book }
    ensures { ServesRow mgr.now queue.now row.new.pass row.new.kit.book }
{
    for _ in 0..turns {
        if !turn_row(rt, mgr, queue, row) {
            return;
        }
    }
}

/// Turns each row so often, each in a thread of its own.
pub fn serve_on<R: Threads + Wait + Sync>(
    rt: &R,
    mgr: &EventManager<Job>,
    queue: &ReadyQueue,
    rows: &mut Vec<Row>,
    turns: u64,
)
    requires { All (λ row. ServesRow mgr.now queue.now row.pass row.kit.book) rows.old.items }
    ensures { All (λ row. ServesRow mgr.now queue.now row.pass row.kit.book) rows.new.items }
{
    for_each_mut(
        rt,
        rows.as_mut_slice(),
        THREADS,
        &|_i: usize, row: &mut Row| -> ()
            requires { ServesRow mgr.now queue.now row.old.pass row.old.kit.book }
            ensures { ServesRow mgr.entry.now queue.entry.now row.new.pass row.new.kit.book }
        { serve_row(rt, mgr, queue, row, turns) },
    );
}
