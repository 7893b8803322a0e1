//! Turns over a queue that holds one event, while many descriptors are ready: no event is lost, and none runs
//! twice.
ghost use Rattle.std.specs.Prelude.{◌≡◌, ◌<◌, ◌^◌, [], IfOk, All, length, vec_len};
ghost use Rattle.ready_queue.specs.Calls.{IsOf};
ghost use Rattle.event_mgr.specs.Manager.{IsOfMgr};
ghost use Rattle.poller.specs.Scripts.{AreScripts};
ghost use Rattle.event_tests.specs.Rows.{ServesRow};

use crate::set_up::{Net, Shop, net_of, open, shop_of, step};
use crate::{Book, Job, Row, turn_row};
use event_mgr::{EventManager, MgrPass};
use poller::{AddOut, MemLink, MemPoller, Poller, Script};
use ready_queue::ReadyQueue;
use reg_keys::Dir;
use std::alloc::{AllocError, Global};
use std::sync::Wait;
use std::test::Fail;
use stripe_table::{Payload, RegisterReply};

/// How many descriptors are ready at a time.
const READY: usize = 40;

/// How many turns are made. Each takes at most four events.
const TURNS: u64 = 100;

/// Scripts of one empty step each, one for each descriptor.
fn empty_scripts(alloc: Global) -> Result<Vec<Script>, AllocError>
    ensures { IfOk result (λ v. AreScripts v.items) }
{
    let mut scripts = Vec::with_capacity(alloc, READY)?;
    for _made in 0..READY {
        let steps = vec![in alloc; step(alloc, b"", 0)?]?;
        scripts.push(Script { steps, room: 1 })?;
    }
    Ok(scripts)
}

/// Registers a job for reading, which waits for the first report of its opening. It answers the number of its
/// key. The job has no link, so its first run is its last.
fn register<R: Wait>(
    rt: &R,
    mgr: &EventManager<Job>,
    pass: &mut MgrPass<Job>,
    poller: &mut MemPoller,
    link: &mut MemLink,
) -> Result<u64, Fail>
    requires { IsOfMgr mgr.now pass.old }
    ensures { IsOfMgr mgr.now pass.new }
{
    let opening = open(rt, mgr, pass)?;
    if poller.add(opening, link) != AddOut::Added {
        return Err(Fail::from("the link wasn't added"));
    }
    let mark = opening.number;
    let job = Job {
        opening,
        number: 0,
        mark,
        link: None,
        read: 0,
    };
    match mgr.register(rt, pass, opening, Dir::Read, Some(mark), Payload::Job(job)) {
        RegisterReply::Waits(key, None) => Ok(key.number),
        _ => Err(Fail::from("the job doesn't wait for a report")),
    }
}

/// Accepts this many links.
fn accept_all<R: Wait>(rt: &R, alloc: Global, net: &mut Net) -> Result<Vec<MemLink>, Fail> {
    let mut links = Vec::with_capacity(alloc, READY)?;
    for _ in 0..READY {
        links.push(net.accepts(rt)?)?;
    }
    Ok(links)
}

/// Registers a job for each link. It answers the numbers of the keys.
fn register_all<R: Wait>(
    rt: &R,
    alloc: Global,
    mgr: &EventManager<Job>,
    pass: &mut MgrPass<Job>,
    poller: &mut MemPoller,
    links: &mut Vec<MemLink>,
) -> Result<Vec<u64>, Fail>
    requires { IsOfMgr mgr.now pass.old }
    ensures { IsOfMgr mgr.now pass.new }
{
    let mut keys = Vec::with_capacity(alloc, READY)?;
    for link in links.iter_mut() {
        keys.push(register(rt, mgr, pass, poller, link)?)?;
    }
    Ok(keys)
}

/// A net of as many links as become ready, whose poller has the listener.
fn net_of_many<R: Wait>(rt: &R, alloc: Global, shop: &mut Shop) -> Result<Net, Fail>
    requires pass { IsOfMgr shop.old.mgr shop.old.pass }
    requires place { IsOf shop.old.queue shop.old.place }
    ensures pass { IsOfMgr shop.new.mgr shop.new.pass }
    ensures place { IsOf shop.new.queue shop.new.place }
{
    let mut net = net_of(alloc, empty_scripts(alloc)?)?;
    let opening = open(rt, &shop.mgr, &mut shop.pass)?;
    if net.poller.add_listener(opening, &mut net.listener) == AddOut::Added {
        Ok(net)
    } else {
        Err(Fail::from("the listener wasn't added"))
    }
}

/// Makes the turns, and fails where one isn't done.
fn make_turns<R: Wait>(
    rt: &R,
    mgr: &EventManager<Job>,
    queue: &ReadyQueue,
    row: &mut Row,
) -> Result<(), Fail>
    requires { ServesRow mgr.now queue.now row.old.pass row.old.kit.book }
    ensures { ServesRow mgr.now queue.now row.new.pass row.new.kit.book }
{
    for _ in 0..TURNS {
        if !turn_row(rt, mgr, queue, row) {
            return Err(Fail::from("a turn that isn't done"));
        }
    }
    Ok(())
}

/// How often a number is among others.
fn times(numbers: &[u64], number: u64) -> usize {
    let mut count = 0usize;
    for n in numbers {
        if *n == number {
            count += 1;
        }
    }
    count
}

/// What ran, and for which keys jobs had been registered. The links leave their poller where they are dropped.
#[derive(Drop)]
struct Turned {
    book: Book,
    keys: Vec<u64>,
}

/// Registers a job for each of many links, and turns until all must have run.
fn turn_all<R: Wait>(rt: &R, alloc: Global, shop: &mut Shop) -> Result<Turned, Fail>
    requires pass { IsOfMgr shop.old.mgr shop.old.pass }
    requires place { IsOf shop.old.queue shop.old.place }
{
    let mut net = net_of_many(rt, alloc, shop)?;
    let mut links = accept_all(rt, alloc, &mut net)?;
    let keys = register_all(
        rt,
        alloc,
        &shop.mgr,
        &mut shop.pass,
        &mut net.poller,
        &mut links,
    )?;
    let book = Book::new(alloc, READY, READY + 1)?;
    let mut row = shop.row(alloc, net.poller, book)?;
    make_turns(rt, &shop.mgr, &shop.queue, &mut row)?;
    Ok(Turned {
        book: row.kit.book,
        keys,
    })
}

#[test]
fn each_of_many_keys_runs_once_where_the_queue_holds_one_event(
    rt: HostRuntime,
) -> Result<(), Fail> {
    let mut shop = shop_of(rt.alloc(), 1)?;
    let turned = turn_all(&rt, rt.alloc(), &mut shop)?;
    assert_eq!(rt; turned.book.ran.len(), READY);
    assert_eq!(rt; turned.book.finished.len(), READY);
    for key in turned.keys.as_slice() {
        assert_eq!(rt; times(turned.book.ran.as_slice(), *key), 1);
    }
    Ok(())
}
