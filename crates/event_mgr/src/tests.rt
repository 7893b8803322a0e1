//! Rows of cells on two threads, and the manager's calls on one.
ghost use Rattle.std.specs.Prelude.{◌<◌, ◌∷◌, [], IfOk, All, length};
ghost use Rattle.event_mgr.specs.Rows.{AreOf, AreNewParts};
ghost use Rattle.event_mgr.specs.Manager.{IsOfMgr, IsFirst, mgr_view};
ghost use Rattle.event_mgr.specs.Level.{mgr_meaning};
ghost use Rattle.level.specs.Meanings.{HoldAllSeats};

mod numbers;
mod plain_numbers;

use crate::{
    AskOut, Cells, CellsPass, CloseOut, DispatchOut, EventManager, MgrPass, OpenOut, TryDispatch,
    TryRegister, TryReport, WithdrawOut, manager_passes_are_split_cell_by_cell,
};
use level::{bring_level, split_passes_hold_all_seats};
use reg_keys::{Dir, Dirs, Opening, STRIPES};
use std::alloc::{AllocError, Global};
use std::sync::atomic::{AtomicBool, Ordering};
use std::sync::{Arc, Wait};
use std::test::Fail;
use std::thread::{Threads, join, yield_now};
use stripe_table::{DispatchReply, Load, Payload, RegisterReply, ReportReply};
use turn_cell::{Part, Stepped, Tried};

/// How often a thread looks for another before the test fails.
const LOOKS: u64 = 1_000_000;

/// Where a call says that it has begun, and waits until it is let go.
#[derive(Drop)]
struct Door {
    begun: Arc<AtomicBool, Global>,
    open: Arc<AtomicBool, Global>,
}

/// A part whose calls go through a door, if it has one.
#[derive(Drop)]
struct Room {
    stripe: u8,
    door: Option<Door>,
}

impl Part for Room {
    type Call = ();

    type Reply = bool;

    type Entry = bool;

    ghost stands = { λ r h. Unit {0} };

    ghost name = { λ r. r.stripe ∷ 1 ∷ [] };

    ghost may = { λ n call. Unit {0} };

    ghost entry = { λ call reply. reply };

    ghost answers = { λ call reply. Unit {0} };

    fn apply(&mut self, _call: ()) -> bool {
        match &self.door {
            Some(door) => {
                door.begun.store(true, Ordering::SeqCst);
                comes(&door.open)
            }
            None => true,
        }
    }
}

/// Whether a flag is raised within the looks.
fn comes(flag: &AtomicBool) -> bool {
    for _ in 0..LOOKS {
        if flag.load(Ordering::SeqCst) {
            return true;
        }
        yield_now();
    }
    false
}

/// A row of rooms, of which the first has a door.
fn rooms(alloc: Global, door: Door) -> Result<Vec<Room>, AllocError>
    ensures { IfOk result (λ v. AreNewParts ⟦<Room as Part>⟧.stands ⟦<Room as Part>⟧.name v.items) }
{
    let mut rooms = Vec::with_capacity(alloc, STRIPES as usize)?;
    let mut door = Some(door);
    for stripe in 0..STRIPES as u8 {
        let door = door.take();
        rooms.push_reserved(Room { stripe, door });
    }
    Ok(rooms)
}

/// Makes the call that goes through the door.
fn hold<R: Wait>(rt: &R, cells: &Cells<Room>, pass: CellsPass<Room, bool>) -> bool
    requires { AreOf cells.now pass }
{
    let mut pass = pass;
    matches!(cells.call(rt, &mut pass, 0, ()), Stepped::Done(true))
}

/// While the door's stripe is held, tries it and the one beside it, and lets the holder go.
fn disturb(
    cells: &Cells<Room>,
    pass: CellsPass<Room, bool>,
    begun: &AtomicBool,
    open: &AtomicBool,
) -> (bool, bool, bool)
    requires { AreOf cells.now pass }
{
    let mut pass = pass;
    let came = comes(begun);
    let held = matches!(
        cells.try_call(&mut pass, 0, ()),
        Tried::Busy { count: 0, call: () }
    );
    let free = matches!(cells.try_call(&mut pass, 1, ()), Tried::Done(true));
    open.store(true, Ordering::SeqCst);
    (came, held, free)
}

/// One thread holds the turn of stripe 0 while another tries.
fn hold_and_disturb<R: Threads + Wait + Sync>(
    rt: &R,
    cells: &Cells<Room>,
    pass: CellsPass<Room, bool>,
    other: CellsPass<Room, bool>,
    begun: &AtomicBool,
    open: &AtomicBool,
) -> (bool, (bool, bool, bool))
    requires own { AreOf cells.now pass }
    requires other { AreOf cells.now other }
{
    join(
        rt,
        || -> bool
            requires { AreOf cells.now pass }
        { hold(rt, cells, pass) },
        || -> (bool, bool, bool)
            requires { AreOf cells.now other }
        { disturb(cells, other, begun, open) },
    )
}

#[test]
fn a_held_stripe_is_busy_and_the_one_beside_it_is_not(rt: HostRuntime) -> Result<(), Fail> {
    let begun = Arc::new(rt.alloc(), AtomicBool::new(false))?;
    let open = Arc::new(rt.alloc(), AtomicBool::new(false))?;
    let door = Door {
        begun: Arc::try_clone(&begun)?,
        open: Arc::try_clone(&open)?,
    };
    let (cells, mut pass) = Cells::new(rt.alloc(), rooms(rt.alloc(), door)?)?;
    let other = cells.split(rt.alloc(), &mut pass)?;
    let (held, (came, busy, free)) = hold_and_disturb(&rt, &cells, pass, other, &begun, &open);
    assert_eq!(rt; (held, came, busy, free), (true, true, true, true));
    Ok(())
}

/// A job that is known by a letter.
#[derive(Drop)]
struct Job {
    letter: char,
}

impl Load for Job {
    ghost tag = { λ _. [] };
}

/// A manager of such jobs, with its first pass.
fn manager(alloc: Global) -> Result<(EventManager<Job>, MgrPass<Job>), AllocError>
    ensures { IfOk result (λ m. IsOfMgr m.0 m.1) }
{
    EventManager::new(alloc)
}

/// What an `open_fd` gives, as an opening or a word.
fn opening(out: OpenOut) -> Result<Opening, Fail> {
    match out {
        OpenOut::Opened(o) => Ok(o),
        OpenOut::Full => Err(Fail::from("full")),
        OpenOut::Taken(_) => Err(Fail::from("taken")),
        OpenOut::Spent => Err(Fail::from("spent")),
    }
}

#[test]
fn a_descriptor_is_opened_again_with_a_greater_number(rt: HostRuntime) -> Result<(), Fail> {
    let (mgr, mut pass) = manager(rt.alloc())?;
    let first = opening(mgr.open_fd(&rt, &mut pass))?;
    assert_eq!(rt; (first.fd, first.number), (0, 32));
    let CloseOut::Shut(list) = mgr.close_fd(&rt, &mut pass, first) else {
        return Err(Fail::from("not shut"));
    };
    assert_eq!(rt; list.len(), 0);
    let CloseOut::NotOpen = mgr.close_fd(&rt, &mut pass, first) else {
        return Err(Fail::from("open still"));
    };
    let second = opening(mgr.open_fd(&rt, &mut pass))?;
    assert_eq!(rt; (second.fd, second.number), (0, 64));
    Ok(())
}

/// Opens every descriptor, and says whether they came in order.
fn opens_in_order<R: Wait>(rt: &R, mgr: &EventManager<Job>, pass: &mut MgrPass<Job>) -> bool
    requires { IsOfMgr mgr.now pass.old }
    ensures { IsOfMgr mgr.now pass.new }
{
    for fd in 0..4096u16 {
        let OpenOut::Opened(o) = mgr.open_fd(rt, pass) else {
            return false;
        };
        if o.fd != fd {
            return false;
        }
    }
    true
}

#[test]
fn descriptors_come_least_first_until_all_are_open(rt: HostRuntime) -> Result<(), Fail> {
    let (mgr, mut pass) = manager(rt.alloc())?;
    assert_eq!(rt; opens_in_order(&rt, &mgr, &mut pass), true);
    let OpenOut::Full = mgr.open_fd(&rt, &mut pass) else {
        return Err(Fail::from("one too many"));
    };
    let seventh = Opening { number: 39, fd: 7 };
    let CloseOut::Shut(_) = mgr.close_fd(&rt, &mut pass, seventh) else {
        return Err(Fail::from("7 is not open"));
    };
    let again = opening(mgr.open_fd(&rt, &mut pass))?;
    assert_eq!(rt; again.fd, 7);
    Ok(())
}

/// The letter of the job that a dispatch ran first.
fn letter_run(out: DispatchOut<Job>) -> Option<char> {
    let DispatchReply::Ran(mut list, _) = out else {
        return None;
    };
    match list.pop_first()?.job {
        Some(Job { letter }) => Some(letter),
        None => None,
    }
}

#[test]
fn a_job_runs_at_the_event_that_its_registration_named(rt: HostRuntime) -> Result<(), Fail> {
    let (mgr, mut pass) = manager(rt.alloc())?;
    let o = opening(mgr.open_fd(&rt, &mut pass))?;
    let job = Payload::Job(Job { letter: 'a' });
    let RegisterReply::Waits(key, Some(event)) = mgr.register(
        &rt,
        &mut pass,
        o,
        Dir::Read,
        None,
        job,
    ) else {
        return Err(Fail::from("no event"));
    };
    assert_eq!(rt; (key.number, event.number()), (64, 96));
    assert_eq!(rt; letter_run(mgr.dispatch(&rt, &mut pass, event)), Some('a'));
    let WithdrawOut::Gone = mgr.withdraw(&rt, &mut pass, key) else {
        return Err(Fail::from("there still"));
    };
    Ok(())
}

#[test]
fn a_flag_waits_and_is_told_by_tries(rt: HostRuntime) -> Result<(), Fail> {
    let (mgr, mut pass) = manager(rt.alloc())?;
    let o = opening(mgr.open_fd(&rt, &mut pass))?;
    let TryRegister::Waits(key, None) = mgr.try_register(
        &mut pass,
        o,
        Dir::Read,
        Some(o.number),
        Payload::Flag,
    ) else {
        return Err(Fail::from("not registered"));
    };
    let AskOut::Waiting = mgr.ask(&rt, &mut pass, key) else {
        return Err(Fail::from("not waiting"));
    };
    let TryReport::Noted(Some(event)) = mgr.try_report(&mut pass, o, Dirs::Both) else {
        return Err(Fail::from("no event"));
    };
    let TryDispatch::Ran(list, None) = mgr.try_dispatch(&mut pass, event) else {
        return Err(Fail::from("not run"));
    };
    assert_eq!(rt; list.len(), 1);
    let AskOut::Ran(_, marks) = mgr.ask(&rt, &mut pass, key) else {
        return Err(Fail::from("not told"));
    };
    assert_eq!(rt; (marks.read, marks.write), (96, 96));
    let AskOut::Unknown = mgr.ask(&rt, &mut pass, key) else {
        return Err(Fail::from("told twice"));
    };
    Ok(())
}

#[test]
fn a_split_pass_makes_calls_and_is_joined(rt: HostRuntime) -> Result<(), Fail> {
    let (mgr, mut pass) = manager(rt.alloc())?;
    let mut other = mgr.split(rt.alloc(), &mut pass)?;
    let o = opening(mgr.open_fd(&rt, &mut pass))?;
    let p = opening(mgr.open_fd(&rt, &mut other))?;
    mgr.join(&mut pass, other);
    assert_eq!(rt; (o.fd, p.fd), (0, 1));
    let ReportReply::Noted(None) = mgr.report(&rt, &mut pass, p, Dirs::Read) else {
        return Err(Fail::from("not noted"));
    };
    let CloseOut::Shut(_) = mgr.close_fd(&rt, &mut pass, p) else {
        return Err(Fail::from("not shut"));
    };
    let ReportReply::Stale = mgr.report(&rt, &mut pass, p, Dirs::Read) else {
        return Err(Fail::from("live still"));
    };
    Ok(())
}

/// How many descriptors each of two threads opens.
const EACH: u16 = 100;

/// Opens this many descriptors.
fn open_many<R: Wait>(rt: &R, mgr: &EventManager<Job>, pass: MgrPass<Job>) -> bool
    requires { IsOfMgr mgr.now pass }
{
    let mut pass = pass;
    for _ in 0..EACH {
        let OpenOut::Opened(_) = mgr.open_fd(rt, &mut pass) else {
            return false;
        };
    }
    true
}

/// Two threads open descriptors at a time.
fn open_in_two<R: Threads + Wait + Sync>(
    rt: &R,
    mgr: &EventManager<Job>,
    pass: MgrPass<Job>,
    other: MgrPass<Job>,
) -> (bool, bool)
    requires own { IsOfMgr mgr.now pass }
    requires other { IsOfMgr mgr.now other }
{
    join(
        rt,
        || -> bool
            requires { IsOfMgr mgr.now pass }
        { open_many(rt, mgr, pass) },
        || -> bool
            requires { IsOfMgr mgr.now other }
        { open_many(rt, mgr, other) },
    )
}

#[test]
fn two_threads_open_no_descriptor_twice(rt: HostRuntime) -> Result<(), Fail> {
    let (mgr, mut pass) = manager(rt.alloc())?;
    let one = mgr.split(rt.alloc(), &mut pass)?;
    let other = mgr.split(rt.alloc(), &mut pass)?;
    assert_eq!(rt; open_in_two(&rt, &mgr, one, other), (true, true));
    let next = opening(mgr.open_fd(&rt, &mut pass))?;
    assert_eq!(rt; next.fd, 2 * EACH);
    Ok(())
}

/// The first pass and two that are split off it.
fn three_passes(
    alloc: Global,
    mgr: &EventManager<Job>,
    first: MgrPass<Job>,
) -> Result<Vec<MgrPass<Job>>, AllocError>
    requires own { IsOfMgr mgr.now first }
    requires first { IsFirst (mgr_view first) }
    ensures own { IfOk result (λ v. All (λ p. IsOfMgr mgr.now p) v.items) }
    ensures seats { IfOk result (λ v. HoldAllSeats mgr_meaning v.items) }
{
    split_passes_hold_all_seats::<MgrPass<Job>>();
    manager_passes_are_split_cell_by_cell();
    let mut passes = Vec::with_capacity(alloc, 3)?;
    passes.push_reserved(first);
    for _ in 1..3usize {
        let first = &mut passes[0];
        let other = mgr.split(alloc, first)?;
        passes.push_reserved(other);
    }
    Ok(passes)
}

/// Opens a descriptor with the first of the passes.
fn open_with_first<R: Wait>(
    rt: &R,
    mgr: &EventManager<Job>,
    passes: &mut Vec<MgrPass<Job>>,
) -> OpenOut
    requires some { 0 < length passes.old.items }
    requires own { All (λ p. IsOfMgr mgr.now p) passes.old.items }
{
    let first = &mut passes[0];
    mgr.open_fd(rt, first)
}

#[test]
fn passes_that_were_brought_level_go_on(rt: HostRuntime) -> Result<(), Fail> {
    let (mgr, first) = EventManager::<Job>::new(rt.alloc())?;
    let mut passes = three_passes(rt.alloc(), &mgr, first)?;
    bring_level(&mgr, passes.as_mut_slice());
    assert_eq!(rt; passes.len(), 3);
    let o = opening(open_with_first(&rt, &mgr, &mut passes))?;
    assert_eq!(rt; o.fd, 0);
    Ok(())
}
