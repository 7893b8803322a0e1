//! The threads, each with a pass of one manager and an opening on a stripe of its own.
ghost use Rattle.std.specs.Prelude.{IfOk, All};
ghost use Rattle.event_mgr.specs.Manager.{IsOfMgr};

use crate::job::Job;
use crate::order::Order;
use crate::rounds::{Row, make_rounds};
use event_mgr::{EventManager, MgrPass, OpenOut};
use std::alloc::{AllocError, Global};
use std::sync::Wait;
use std::thread::{Threads, for_each_mut};

/// Why no rounds were made.
#[derive(Drop)]
pub(crate) enum Fault {
    NoMemory,
    /// A new manager opened no descriptor.
    NotOpened,
}

impl From<AllocError> for Fault {
    fn from(_: AllocError) -> Fault {
        Fault::NoMemory
    }
}

/// Makes all rounds, and counts those that came out as they should.
pub(crate) fn run<T: Job + Send, R: Threads + Wait + Sync>(
    rt: &R,
    alloc: Global,
    order: &Order,
) -> Result<u64, Fault> {
    let (mgr, mut rows) = set_up::<T, R>(rt, alloc, order.threads)?;
    bench_all(rt, &mgr, &mut rows, order);
    let mut done: u64 = 0;
    for row in &rows {
        done = done.saturating_add(row.done);
    }
    Ok(done)
}

/// A manager with a row for each thread. The openings are on the descriptors 0, 1, 2 and so on, so each is
/// on a stripe of its own.
fn set_up<T: Job, R: Wait>(
    rt: &R,
    alloc: Global,
    threads: usize,
) -> Result<(EventManager<T>, Vec<Row<T>>), Fault>
    ensures { IfOk result (λ r. All (λ row. IsOfMgr r.0 row.pass) r.1.items) }
{
    let (mgr, mut first) = EventManager::new(alloc)?;
    let mut rows = Vec::with_capacity(alloc, threads)?;
    for _ in 0..threads {
        let row = new_row(rt, alloc, &mgr, &mut first)?;
        rows.push_reserved(row);
    }
    Ok((mgr, rows))
}

/// A pass that is split off the first, with an opening that it makes.
fn new_row<T: Job, R: Wait>(
    rt: &R,
    alloc: Global,
    mgr: &EventManager<T>,
    first: &mut MgrPass<T>,
) -> Result<Row<T>, Fault>
    requires { IsOfMgr mgr.now first.old }
    ensures first { IsOfMgr mgr.now first.new }
    ensures row { IfOk result (λ row. IsOfMgr mgr.now row.pass) }
{
    let mut pass = mgr.split(alloc, first)?;
    let OpenOut::Opened(opening) = mgr.open_fd(rt, &mut pass) else {
        return Err(Fault::NotOpened);
    };
    Ok(Row {
        pass,
        opening,
        mark: opening.number,
        done: 0,
    })
}

/// Makes the rounds of each row in a thread of its own.
fn bench_all<T: Job + Send, R: Threads + Wait + Sync>(
    rt: &R,
    mgr: &EventManager<T>,
    rows: &mut Vec<Row<T>>,
    order: &Order,
)
    requires { All (λ row. IsOfMgr mgr.now row.pass) rows.old.items }
{
    for_each_mut(
        rt,
        rows.as_mut_slice(),
        order.threads,
        &|_i: usize, row: &mut Row<T>| -> ()
            requires { IsOfMgr mgr.now row.old.pass }
            ensures { IsOfMgr mgr.entry.now row.new.pass }
        { make_rounds(rt, mgr, row, order) },
    );
}
