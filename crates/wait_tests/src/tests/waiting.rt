//! Threads that wait for a descriptor while others turn and close.
ghost use Rattle.std.specs.Prelude.{IfOk};
ghost use Rattle.ready_queue.specs.Calls.{IsOf};
ghost use Rattle.event_mgr.specs.Manager.{IsOfMgr};
ghost use Rattle.dispatcher.specs.Turns.{AreOf};
ghost use Rattle.poller.specs.Polls.{HasToken};
ghost use Rattle.event_tests.specs.Rows.{ServesRow};

use dispatcher::DispPass;
use event_mgr::{CloseOut, EventManager, MgrPass};
use event_tests::set_up::{Shop, net_of, open, shop_of, worked_script};
use event_tests::{Book, Job, Row, turn_row};
use fd_wait::{WaitOut, wait};
use outside::{Link, ReadOut};
use poller::{AddOut, MemLink, MemPoller, Poller};
use ready_queue::ReadyQueue;
use reg_keys::{Dir, Opening};
use std::alloc::Global;
use std::sync::Wait;
use std::sync::atomic::{AtomicBool, Ordering};
use std::test::Fail;
use std::thread::{Threads, join, yield_now};

/// How many turns a thread makes at most before it closes what is waited for and the test fails.
const LIMIT: u64 = 1_000_000;

/// How a wait came out, as the tests compare it.
#[derive(Clone, Copy, Debug, PartialEq, Eq)]
enum Came {
    /// Ready, with this mark for reading.
    Ready(u64),
    Closed,
    Shut,
    Crowded,
    Spent,
}

/// Waits for reading, with the opening's number as the mark.
fn wait_to_read<R: Wait>(
    rt: &R,
    mgr: &EventManager<Job>,
    queue: &ReadyQueue,
    passes: &mut DispPass<Job>,
    opening: Opening,
) -> Came
    requires { AreOf mgr.now queue.now passes.old }
    ensures { AreOf mgr.now queue.now passes.new }
{
    match wait(
        rt,
        mgr,
        queue,
        passes,
        opening,
        Dir::Read,
        Some(opening.number),
    ) {
        WaitOut::Ready(marks) => Came::Ready(marks.read),
        WaitOut::Closed => Came::Closed,
        WaitOut::Shut => Came::Shut,
        WaitOut::Crowded => Came::Crowded,
        WaitOut::Spent => Came::Spent,
    }
}

/// Waits in a thread of its own, and says so when it comes back.
fn wait_and_say<R: Wait>(
    rt: &R,
    mgr: &EventManager<Job>,
    queue: &ReadyQueue,
    passes: DispPass<Job>,
    opening: Opening,
    over: &AtomicBool,
) -> Came
    requires { AreOf mgr.now queue.now passes }
{
    let mut passes = passes;
    let came = wait_to_read(rt, mgr, queue, &mut passes, opening);
    over.store(true, Ordering::SeqCst);
    came
}

/// Makes turns until the wait is over. At the limit it closes the opening, so that the wait ends and the test
/// fails.
fn turn_until<R: Wait>(
    rt: &R,
    mgr: &EventManager<Job>,
    queue: &ReadyQueue,
    row: Row,
    opening: Opening,
    over: &AtomicBool,
) -> bool
    requires { ServesRow mgr.now queue.now row.pass row.kit.book }
{
    let mut row = row;
    for _ in 0..LIMIT {
        if over.load(Ordering::SeqCst) {
            return true;
        }
        if !turn_row(rt, mgr, queue, &mut row) {
            break;
        }
        yield_now();
    }
    let _ = mgr.close_fd(rt, &mut row.pass.mgr, opening);
    false
}

/// Closes an opening. It answers whether it was open.
fn close<R: Wait>(rt: &R, mgr: &EventManager<Job>, pass: MgrPass<Job>, opening: Opening) -> bool
    requires { IsOfMgr mgr.now pass }
{
    let mut pass = pass;
    matches!(mgr.close_fd(rt, &mut pass, opening), CloseOut::Shut(_))
}

/// One thread waits, and another turns until the wait is over. It answers how the wait came out, and whether
/// no limit was reached.
fn wait_while_turning<R: Threads + Wait + Sync>(
    rt: &R,
    mgr: &EventManager<Job>,
    queue: &ReadyQueue,
    waiter: DispPass<Job>,
    row: Row,
    opening: Opening,
    over: &AtomicBool,
) -> (Came, bool)
    requires waiter { AreOf mgr.now queue.now waiter }
    requires row { ServesRow mgr.now queue.now row.pass row.kit.book }
{
    join(
        rt,
        || -> Came
            requires { AreOf mgr.now queue.now waiter }
        { wait_and_say(rt, mgr, queue, waiter, opening, over) },
        || -> bool
            requires { ServesRow mgr.now queue.now row.pass row.kit.book }
        { turn_until(rt, mgr, queue, row, opening, over) },
    )
}

/// One thread waits, one turns until the wait is over, and one closes the opening.
fn wait_while_turning_and_closing<R: Threads + Wait + Sync>(
    rt: &R,
    mgr: &EventManager<Job>,
    queue: &ReadyQueue,
    waiter: DispPass<Job>,
    row: Row,
    closer: MgrPass<Job>,
    opening: Opening,
    over: &AtomicBool,
) -> ((Came, bool), bool)
    requires waiter { AreOf mgr.now queue.now waiter }
    requires row { ServesRow mgr.now queue.now row.pass row.kit.book }
    requires closer { IsOfMgr mgr.now closer }
{
    join(
        rt,
        || -> (Came, bool)
            requires waiter { AreOf mgr.now queue.now waiter }
            requires row { ServesRow mgr.now queue.now row.pass row.kit.book }
        { wait_while_turning(rt, mgr, queue, waiter, row, opening, over) },
        || -> bool
            requires { IsOfMgr mgr.now closer }
        { close(rt, mgr, closer, opening) },
    )
}

/// The link of the worked script, accepted and added under the opening to a poller. A first read of it
/// answered `NotYet`.
fn worked_link<R: Wait>(
    rt: &R,
    alloc: Global,
    opening: Opening,
) -> Result<(MemLink, MemPoller), Fail>
    requires { HasToken opening }
{
    let mut net = net_of(alloc, worked_script(alloc)?)?;
    let mut link = net.accepts(rt)?;
    if net.poller.add(opening, &mut link) != AddOut::Added {
        return Err(Fail::from("the link wasn't added"));
    }
    if link.read(&mut [0u8; 4]) != ReadOut::NotYet {
        return Err(Fail::from("a read before any report"));
    }
    Ok((link, net.poller))
}

/// An opening that is waited for: the thread that waits, the row that is turned, and the link, which leaves its
/// poller where it is dropped.
#[derive(Drop)]
struct Scene {
    opening: Opening,
    link: MemLink,
    waiter: DispPass<Job>,
    row: Row,
}

/// The scene of a shop.
fn scene_of<R: Wait>(rt: &R, alloc: Global, shop: &mut Shop) -> Result<Scene, Fail>
    requires pass { IsOfMgr shop.old.mgr shop.old.pass }
    requires place { IsOf shop.old.queue shop.old.place }
    ensures pass { IsOfMgr shop.new.mgr shop.new.pass }
    ensures waiter { IfOk result (λ s. AreOf shop.new.mgr shop.new.queue s.waiter) }
    ensures row { IfOk result (λ s. ServesRow shop.new.mgr shop.new.queue s.row.pass s.row.kit.book) }
{
    let opening = open(rt, &shop.mgr, &mut shop.pass)?;
    let (link, poller) = worked_link(rt, alloc, opening)?;
    let waiter = shop.further(alloc)?;
    let row = shop.row(alloc, poller, Book::new(alloc, 1, 1)?)?;
    Ok(Scene {
        opening,
        link,
        waiter,
        row,
    })
}

/// How the wait of a scene comes out, and whether no limit was reached.
fn play<R: Threads + Wait + Sync>(rt: &R, shop: &Shop, scene: Scene) -> (Came, bool)
    requires waiter { AreOf shop.now.mgr shop.now.queue scene.waiter }
    requires row { ServesRow shop.now.mgr shop.now.queue scene.row.pass scene.row.kit.book }
{
    let Scene {
        opening,
        link: _link,
        waiter,
        row,
    } = scene;
    let over = AtomicBool::new(false);
    wait_while_turning(rt, &shop.mgr, &shop.queue, waiter, row, opening, &over)
}

#[test]
fn a_wait_is_ready_after_a_report(rt: HostRuntime) -> Result<(), Fail> {
    let mut shop = shop_of(rt.alloc(), 4)?;
    let scene = scene_of(&rt, rt.alloc(), &mut shop)?;
    let number = scene.opening.number;
    let (came, within) = play(&rt, &shop, scene);
    assert!(rt; within);
    let Came::Ready(mark) = came else {
        return Err(Fail::from("the wait wasn't ready"));
    };
    assert!(rt; mark > number);
    Ok(())
}

/// Whether a wait may come out so where its opening is reported and closed: ready with a mark of a report,
/// closed, or shut.
fn is_one_end(came: Came, opening: Opening) -> bool {
    match came {
        Came::Ready(mark) => mark > opening.number,
        Came::Closed | Came::Shut => true,
        Came::Crowded | Came::Spent => false,
    }
}

/// The same with one more thread, which closes the opening. It answers whether it was open, too.
fn play_and_close<R: Threads + Wait + Sync>(
    rt: &R,
    shop: Shop,
    scene: Scene,
) -> ((Came, bool), bool)
    requires pass { IsOfMgr shop.mgr shop.pass }
    requires waiter { AreOf shop.mgr shop.queue scene.waiter }
    requires row { ServesRow shop.mgr shop.queue scene.row.pass scene.row.kit.book }
{
    let Shop {
        mgr,
        queue,
        pass,
        place: _place,
    } = shop;
    let Scene {
        opening,
        link: _link,
        waiter,
        row,
    } = scene;
    let over = AtomicBool::new(false);
    wait_while_turning_and_closing(rt, &mgr, &queue, waiter, row, pass, opening, &over)
}

#[test]
fn a_wait_ends_while_others_turn_and_close(rt: HostRuntime) -> Result<(), Fail> {
    let mut shop = shop_of(rt.alloc(), 1)?;
    let scene = scene_of(&rt, rt.alloc(), &mut shop)?;
    let opening = scene.opening;
    let ((came, within), closed) = play_and_close(&rt, shop, scene);
    assert!(rt; within);
    assert!(rt; closed);
    assert!(rt; is_one_end(came, opening));
    Ok(())
}
