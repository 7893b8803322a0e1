//! Passes of one `Shared`: calls on the tally and on the cache, and levelling in between.
ghost use Rattle.std.specs.Prelude.{◌≡◌, ℕ, [], All, IfOk, map};
ghost use Rattle.level.specs.Meanings.{HoldAllSeats};
ghost use Rattle.outside.specs.MemFolder.{folder_in};
ghost use Rattle.warp_passes.specs.CacheCalls.{IsCacheOf};
ghost use Rattle.warp_passes.specs.Passes.{AreOf, PassRest, pass_view, rest_of};
ghost use Rattle.warp_passes.specs.Cells.{meaning_by, serve_meaning};
ghost use Rattle.warp_passes.specs.Levels.{HasPassGrown};

use crate::{
    CachePass, ReapOut, ServePass, ShareRow, Shared, TallyOut, accept, acquire, bring_rows_level,
    finish, grown_passes_hold_the_seats, look, moved_passes_hold_the_seats, reap_once, release,
    shared_among, stop, turn_away,
};
use fd_cache::{Acquired, Basket, Lease, ReleaseOut};
use outside::{Files, MemFile, MemFiles, Place};
use reg_keys::Opening;
use std::alloc::{AllocError, Global};
use std::marker::Brand;
use std::process::Abort;
use std::sync::Wait;
use std::test::Fail;
use stripe_table::Load;
use warp_tally::{Counted, TallyCall};

/// A job that is never registered here.
#[derive(Drop)]
struct Job {}

impl Load for Job {
    ghost tag = { λ _. [] };
}

/// Makes a call on the tally with a pass.
fn call_with<R: Wait, F: Files>(
    rt: &R,
    shared: &Shared<Job, F>,
    pass: &mut ServePass<Job, F>,
    call: TallyCall,
) -> TallyOut
    requires { AreOf shared.now pass.old }
    ensures own { AreOf shared.now pass.new }
    ensures grown { HasPassGrown (pass_view pass.old) (pass_view pass.new) }
{
    match call {
        TallyCall::Accept(o) => accept(rt, &shared.tally, &mut pass.tally, o),
        TallyCall::TurnAway => turn_away(rt, &shared.tally, &mut pass.tally),
        TallyCall::Finish(o) => finish(rt, &shared.tally, &mut pass.tally, o),
        TallyCall::Stop(code) => stop(rt, &shared.tally, &mut pass.tally, code),
        TallyCall::Look => look(rt, &shared.tally, &mut pass.tally),
    }
}

/// One call on the tally: whose pass makes it, and whether it counts, what is then accepted and finished, and
/// the first stop.
#[derive(Clone, Copy)]
struct Step {
    place: usize,
    call: TallyCall,
    shown: (Counted, u64, u64, Option<u8>),
}

/// Whether a call is answered as the step has it.
fn shows(out: TallyOut, step: Step) -> bool {
    match out {
        TallyOut::Done(reply) => {
            (reply.counted, reply.accepted, reply.finished, reply.stop) == step.shown
        }
        TallyOut::Spent => false,
    }
}

/// Makes a call with the pass at its place, and says whether it is answered as the step has it.
fn is_answered<R: Wait, F: Files>(
    rt: &R,
    shared: &Shared<Job, F>,
    passes: &mut Vec<ServePass<Job, F>>,
    step: Step,
) -> bool
    requires own { All (λ p. AreOf shared.now p) passes.old.items }
    requires seats { HoldAllSeats serve_meaning passes.old.items }
    ensures own { All (λ p. AreOf shared.now p) passes.new.items }
    ensures seats { HoldAllSeats serve_meaning passes.new.items }
{
    // A law of seats, for the proof: it does nothing when run.
    grown_passes_hold_the_seats::<ServePass<Job, F>, Lease<F>>();
    if step.place >= passes.len() {
        return false;
    }
    let pass = &mut passes[step.place];
    let out = call_with(rt, shared, pass, step.call);
    shows(out, step)
}

/// Makes the calls in their order, and then brings the passes level.
fn play<R: Wait + Abort, F: Files>(
    rt: &R,
    shared: &Shared<Job, F>,
    passes: &mut Vec<ServePass<Job, F>>,
    steps: &[Step],
)
    requires own { All (λ p. AreOf shared.now p) passes.old.items }
    requires seats { HoldAllSeats serve_meaning passes.old.items }
    ensures own { All (λ p. AreOf shared.now p) passes.new.items }
    ensures seats { HoldAllSeats serve_meaning passes.new.items }
{
    for step in steps {
        assert!(rt; is_answered(rt, shared, passes, *step));
    }
    bring_rows_level(shared, passes.as_mut_slice());
}

/// Two dispatchers count on one tally. Their passes are brought level, and go on.
fn counts_on_one_tally<R: Wait + Abort, K: Place>(rt: &R, alloc: Global) -> Result<(), AllocError> {
    let (shared, mut passes) = shared_among::<Job, MemFiles<K>>(alloc, 2)?;
    let one = Opening { number: 32, fd: 0 };
    let other = Opening { number: 33, fd: 1 };
    let step = |place: usize, call: TallyCall, shown: (Counted, u64, u64, Option<u8>)| -> Step {
        Step { place, call, shown }
    };
    let before = [
        step(0, TallyCall::Accept(one), (Counted::Yes, 1, 0, None)),
        step(1, TallyCall::Accept(other), (Counted::Yes, 2, 0, None)),
        step(0, TallyCall::Finish(other), (Counted::Yes, 2, 1, None)),
        step(1, TallyCall::Finish(other), (Counted::No, 2, 1, None)),
    ];
    play(rt, &shared, &mut passes, &before);
    let behind = [
        step(1, TallyCall::Finish(one), (Counted::Yes, 2, 2, None)),
        step(0, TallyCall::TurnAway, (Counted::Yes, 3, 2, None)),
        step(1, TallyCall::Stop(13), (Counted::Yes, 3, 2, Some(13))),
        step(0, TallyCall::Stop(14), (Counted::No, 3, 2, Some(13))),
        step(0, TallyCall::Look, (Counted::No, 3, 2, Some(13))),
    ];
    play(rt, &shared, &mut passes, &behind);
    assert_eq!(rt; passes.len(), 2);
    Ok(())
}

/// A lease of the file that is there.
fn leased<R: Wait + Abort, F: Files>(
    rt: &R,
    alloc: Global,
    shared: &Shared<Job, F>,
    pass: &mut CachePass<F>,
    files: &mut F,
) -> Lease<F>
    requires { IsCacheOf shared.now.cache pass.old }
    ensures { IsCacheOf shared.now.cache pass.new }
{
    match acquire(alloc, rt, &shared.cache, pass, "a.txt", files) {
        Acquired::Leased(lease) => lease,
        _ => panic!(rt; "the file is there"),
    }
}

/// Gives a lease back.
fn give_back<R: Wait + Abort, F: Files>(
    rt: &R,
    shared: &Shared<Job, F>,
    pass: &mut CachePass<F>,
    lease: Lease<F>,
)
    requires { IsCacheOf shared.now.cache pass.old }
    ensures { IsCacheOf shared.now.cache pass.new }
{
    let out = release(rt, &shared.cache, pass, lease);
    assert_eq!(rt; out, ReleaseOut::Released);
}

/// One dispatcher leases a file, and another reaps it once it is back.
fn reaps_what_came_back<R: Wait + Abort, K: Place>(
    rt: &R,
    alloc: Global,
    contents: Vec<MemFile>,
) -> Result<(), AllocError>
    requires { folder_in contents.items ≡ K.folder }
{
    let mut files = MemFiles::<K>::new(alloc, contents, true, Vec::new(alloc));
    let (shared, mut pass) = Shared::<Job, MemFiles<K>>::new(alloc)?;
    let mut other = shared.split(alloc, &mut pass)?;
    let basket = Basket::new(alloc)?;

    let lease = leased(rt, alloc, &shared, &mut pass.cache, &mut files);
    assert_eq!(rt; lease.size, 5);
    let (out, basket) = reap_once(rt, &shared.cache, &mut other.cache, basket);
    assert_eq!(rt; out, ReapOut::Reaped);
    give_back(rt, &shared, &mut pass.cache, lease);

    // It is kept, so that nothing is looked for.
    let lease = leased(rt, alloc, &shared, &mut other.cache, &mut files);
    assert_eq!(rt; files.finds(), 1);
    give_back(rt, &shared, &mut other.cache, lease);

    // Two reaps back to back close it.
    let (_, basket) = reap_once(rt, &shared.cache, &mut pass.cache, basket);
    let (out, basket) = reap_once(rt, &shared.cache, &mut pass.cache, basket);
    assert_eq!(rt; out, ReapOut::Reaped);
    assert_eq!(rt; basket.len(), 0);
    let _lease = leased(rt, alloc, &shared, &mut pass.cache, &mut files);
    assert_eq!(rt; files.finds(), 2);
    Ok(())
}

/// A row of a pass and of something else, which levelling leaves alone.
#[derive(Drop)]
struct Row<F: Files> {
    pass: ServePass<Job, F>,
    beside: u64,
}

impl<F: Files> ShareRow for Row<F> {
    type Of = Shared<Job, F>;

    ghost meaning = { record {
      passes = meaning_by (λ row. pass_view row.pass) (λ shared row. AreOf shared row.pass);
      beside = ℕ × PassRest;
      rest = λ row. (row.beside, rest_of (pass_view row.pass));
    } };

    fn share_row(of: &Shared<Job, F>, from: &mut Row<F>, to: &mut Row<F>) {
        ShareRow::share_row(of, &mut from.pass, &mut to.pass);
    }
}

/// Rows with these passes, in their order.
fn rows_of<F: Files>(
    alloc: Global,
    passes: Vec<ServePass<Job, F>>,
) -> Result<Vec<Row<F>>, AllocError>
    ensures { IfOk result (λ rows. map (λ row. row.pass) rows.items ≡ passes.items) }
{
    let mut rows = Vec::with_capacity(alloc, passes.len())?;
    for pass in passes {
        rows.push_reserved(Row { pass, beside: 7 });
    }
    Ok(rows)
}

/// Rows of three passes are brought level where they lie.
fn levels_rows<R: Abort, K: Place>(rt: &R, alloc: Global) -> Result<(), AllocError> {
    // A law of seats, for the proof: it does nothing when run.
    moved_passes_hold_the_seats::<
        ServePass<Job, MemFiles<K>>,
        Row<MemFiles<K>>,
        Lease<MemFiles<K>>,
    >();
    let (shared, passes) = shared_among::<Job, MemFiles<K>>(alloc, 3)?;
    let mut rows = rows_of(alloc, passes)?;
    bring_rows_level(&shared, rows.as_mut_slice());
    assert_eq!(rt; rows.len(), 3);
    assert!(rt; rows.iter().all(|row| row.beside == 7));
    Ok(())
}

#[test]
fn rows_are_brought_level_where_they_lie(rt: HostRuntime) -> Result<(), Fail> {
    levels_rows::<HostRuntime, Brand>(&rt, rt.alloc())?;
    Ok(())
}

#[test]
fn dispatchers_count_on_one_tally(rt: HostRuntime) -> Result<(), Fail> {
    counts_on_one_tally::<HostRuntime, Brand>(&rt, rt.alloc())?;
    Ok(())
}

#[test]
fn two_reaps_close_a_file_that_came_back(rt: HostRuntime) -> Result<(), Fail> {
    let alloc = rt.alloc();
    let file = MemFile {
        path: String::from_str(alloc, "a.txt")?,
        bytes: b"hello".to_vec(alloc)?,
        mtime: 7,
    };
    reaps_what_came_back::<HostRuntime, Brand>(&rt, alloc, vec![in alloc; file]?)?;
    Ok(())
}
