//! Two dispatchers in threads over one manager and one queue, each with a poller of its own, serve
//! connections to their end: each reads its whole input, run by run, and is finished once.
ghost use Rattle.std.specs.Prelude.{◌≡◌, ◌<◌, ◌^◌, [], IfOk, All, length};
ghost use Rattle.ready_queue.specs.Calls.{IsOf};
ghost use Rattle.event_mgr.specs.Manager.{IsOfMgr};
ghost use Rattle.poller.specs.Scripts.{AreScripts};
ghost use Rattle.event_tests.specs.Rows.{ServesRow};

use crate::set_up::{Net, Shop, only, open, shop_of, step};
use crate::{Book, Finish, Job, LAST, Row, serve_on};
use event_mgr::{EventManager, MgrPass};
use poller::{AddOut, MemLink, MemNet, MemPoller, Poller, Reports, Script};
use ready_queue::{PutOut, QPass, ReadyQueue};
use reg_keys::{Dir, Event, Opening};
use std::alloc::{AllocError, Global};
use std::sync::Wait;
use std::test::Fail;
use std::thread::Threads;
use stripe_table::{Payload, RegisterReply};

/// How many connections there are, and how many bytes each brings, one in each step.
const LINKS: usize = 6;

const STEPS: usize = 16;

/// How often the rows are turned, and how many turns that is each time.
const ROUNDS: u64 = 10_000;

const TURNS: u64 = 4;

/// A script whose steps bring a byte each.
fn script(alloc: Global) -> Result<Script, AllocError>
    ensures { IfOk result (λ script. length script.steps.items < 2 ^ 32) }
{
    let mut steps = Vec::with_capacity(alloc, STEPS)?;
    for _made in 0..STEPS {
        steps.push(step(alloc, b"a", 1)?)?;
    }
    Ok(Script { steps, room: 1 })
}

/// A script for each connection.
fn scripts(alloc: Global) -> Result<Vec<Script>, AllocError>
    ensures { IfOk result (λ v. AreScripts v.items) }
{
    let mut scripts = Vec::with_capacity(alloc, LINKS)?;
    for _made in 0..LINKS {
        scripts.push(script(alloc)?)?;
    }
    Ok(scripts)
}

/// A job that was never run.
fn first_job(opening: Opening, link: MemLink) -> Job {
    Job {
        opening,
        number: 0,
        mark: 0,
        link: Some(link),
        read: 0,
    }
}

/// Puts an event into the queue.
fn put<R: Wait>(rt: &R, queue: &ReadyQueue, place: &mut QPass, event: Event) -> Result<(), Fail>
    requires { IsOf queue.now place.old }
    ensures { IsOf queue.now place.new }
{
    match queue.put(rt, place, event) {
        PutOut::Put => Ok(()),
        PutOut::Full(_) => Err(Fail::from("the queue is full")),
    }
}

/// Registers a job without a mark, so that an event is named at once. It answers the event.
fn register<R: Wait>(
    rt: &R,
    mgr: &EventManager<Job>,
    pass: &mut MgrPass<Job>,
    job: Job,
) -> Result<Event, Fail>
    requires { IsOfMgr mgr.now pass.old }
    ensures { IsOfMgr mgr.now pass.new }
{
    let opening = job.opening;
    let RegisterReply::Waits(_, Some(event)) = mgr.register(
        rt,
        pass,
        opening,
        Dir::Read,
        None,
        Payload::Job(job),
    ) else {
        return Err(Fail::from("no event was named"));
    };
    Ok(event)
}

/// Adds a link to a poller under a new opening, and registers its first job. The event is put into the queue.
fn begin<R: Wait>(
    rt: &R,
    shop: &mut Shop,
    link: MemLink,
    poller: &mut MemPoller,
) -> Result<(), Fail>
    requires pass { IsOfMgr shop.old.mgr shop.old.pass }
    requires place { IsOf shop.old.queue shop.old.place }
    ensures pass { IsOfMgr shop.new.mgr shop.new.pass }
    ensures place { IsOf shop.new.queue shop.new.place }
{
    let mut link = link;
    let opening = open(rt, &shop.mgr, &mut shop.pass)?;
    if poller.add(opening, &mut link) != AddOut::Added {
        return Err(Fail::from("the link wasn't added"));
    }
    let job = first_job(opening, link);
    let event = register(rt, &shop.mgr, &mut shop.pass, job)?;
    put(rt, &shop.queue, &mut shop.place, event)
}

/// All connections that were finished.
fn finished(alloc: Global, rows: &[Row]) -> Result<Vec<Finish>, AllocError> {
    let mut all = Vec::new(alloc);
    for row in rows {
        for finish in &row.kit.book.finished {
            all.push(*finish)?;
        }
    }
    Ok(all)
}

/// Turns the rows until all connections are finished. It answers whether they were.
fn serve_all<R: Threads + Wait + Sync>(
    rt: &R,
    alloc: Global,
    mgr: &EventManager<Job>,
    queue: &ReadyQueue,
    rows: &mut Vec<Row>,
) -> Result<bool, Fail>
    requires { All (λ row. ServesRow mgr.now queue.now row.pass row.kit.book) rows.old.items }
    ensures { All (λ row. ServesRow mgr.now queue.now row.pass row.kit.book) rows.new.items }
{
    for _ in 0..ROUNDS {
        serve_on(rt, mgr, queue, rows, TURNS);
        if finished(alloc, rows)?.len() >= LINKS {
            return Ok(true);
        }
    }
    Ok(false)
}

/// How many of the connections that were finished had an opening.
fn times(finishes: &[Finish], opening: Opening) -> u64 {
    let mut count = 0u64;
    for finish in finishes {
        if finish.opening == opening {
            count = count.saturating_add(1);
        }
    }
    count
}

/// Begins the connections, half of them with this poller beside the net's own.
fn begin_all<R: Wait>(
    rt: &R,
    shop: &mut Shop,
    net: &mut Net,
    second: &mut MemPoller,
) -> Result<(), Fail>
    requires pass { IsOfMgr shop.old.mgr shop.old.pass }
    requires place { IsOf shop.old.queue shop.old.place }
    ensures pass { IsOfMgr shop.new.mgr shop.new.pass }
    ensures place { IsOf shop.new.queue shop.new.place }
{
    for _ in 0..LINKS / 2 {
        let link = net.accepts(rt)?;
        begin(rt, shop, link, &mut net.poller)?;
        let link = net.accepts(rt)?;
        begin(rt, shop, link, second)?;
    }
    Ok(())
}

/// A net of the connections' scripts, and a second poller.
fn net_of_two(alloc: Global) -> Result<(Net, MemPoller), Fail> {
    let (listener, mut pollers) = MemNet::new(alloc, scripts(alloc)?, 2)?;
    let second = only(&mut pollers)?;
    let poller = only(&mut pollers)?;
    let reports = Reports::new(alloc)?;
    Ok((
        Net {
            listener,
            poller,
            reports,
        },
        second,
    ))
}

/// A book with room for one connection more than there are, and for all their runs.
fn book(alloc: Global) -> Result<Book, AllocError>
    ensures { IfOk result (λ book. book.finished.items ≡ []) }
{
    Book::new(alloc, LINKS + 1, 1024)
}

/// Puts a row after the others.
fn push_row(
    mgr: &EventManager<Job>,
    queue: &ReadyQueue,
    rows: &mut Vec<Row>,
    row: Row,
) -> Result<(), AllocError>
    requires rows { All (λ row. ServesRow mgr.now queue.now row.pass row.kit.book) rows.old.items }
    requires row { ServesRow mgr.now queue.now row.pass row.kit.book }
    ensures { IfOk result
        (λ _. All (λ row. ServesRow mgr.now queue.now row.pass row.kit.book) rows.new.items) }
{
    // Lets the contract speak of the two.
    let _mgr = mgr;
    let _queue = queue;
    rows.push(row)?;
    Ok(())
}

/// Two rows, one with each poller.
fn rows_of(
    alloc: Global,
    shop: &mut Shop,
    first: MemPoller,
    second: MemPoller,
) -> Result<Vec<Row>, Fail>
    requires pass { IsOfMgr shop.old.mgr shop.old.pass }
    requires place { IsOf shop.old.queue shop.old.place }
    ensures rows { IfOk result
        (λ rows. All (λ row. ServesRow shop.new.mgr shop.new.queue row.pass row.kit.book) rows.items) }
{
    let one = shop.row(alloc, first, book(alloc)?)?;
    let two = shop.row(alloc, second, book(alloc)?)?;
    let mut rows = Vec::with_capacity(alloc, 2)?;
    push_row(&shop.mgr, &shop.queue, &mut rows, one)?;
    push_row(&shop.mgr, &shop.queue, &mut rows, two)?;
    Ok(rows)
}

/// Whether no run was given an old mark.
fn none_is_stale(rows: &[Row]) -> bool {
    rows.iter().all(|row| row.kit.book.stale == 0)
}

/// Whether each of these read its whole input, ran not too often, and is there once.
fn are_whole(finishes: &[Finish]) -> bool {
    for finish in finishes {
        if finish.read != STEPS as u64 || finish.number >= LAST {
            return false;
        }
        if times(finishes, finish.opening) != 1 {
            return false;
        }
    }
    true
}

/// The connections that two dispatchers finish.
fn served<R: Threads + Wait + Sync>(rt: &R, alloc: Global) -> Result<Vec<Row>, Fail> {
    let mut shop = shop_of(alloc, 8)?;
    let (mut net, mut second) = net_of_two(alloc)?;
    begin_all(rt, &mut shop, &mut net, &mut second)?;
    let mut rows = rows_of(alloc, &mut shop, net.poller, second)?;
    if serve_all(rt, alloc, &shop.mgr, &shop.queue, &mut rows)? {
        Ok(rows)
    } else {
        Err(Fail::from("not all connections were finished"))
    }
}

#[test]
fn two_dispatchers_finish_each_connection_once(rt: HostRuntime) -> Result<(), Fail> {
    let rows = served(&rt, rt.alloc())?;
    assert!(rt; none_is_stale(&rows));
    let finishes = finished(rt.alloc(), &rows)?;
    assert_eq!(rt; finishes.len(), LINKS);
    assert!(rt; are_whole(&finishes));
    Ok(())
}
