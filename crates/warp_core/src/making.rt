//! Dispatchers are made of passes and kits, and taken apart into them at the end.
ghost use Rattle.std.specs.Prelude.{◌≡◌, ◌≤◌, [], All, IfOk, None, length, map, vec_capacity};
ghost use Rattle.std.specs.Arc.{arc_value};
ghost use Rattle.poller.specs.Faults.{PollerFaults};
ghost use Rattle.warp_books.specs.Books.{IsBookOf};
ghost use Rattle.warp_passes.specs.Levels.{AreNewPasses};
ghost use Rattle.warp_core.specs.Making.{IsPlain, HasParts, KeepsWhere};
ghost use Rattle.warp_core.specs.Rows.{Serves, beat_of, last_of, passes_of, seconds_of};
ghost use Rattle.warp_core.specs.SweepTimes.{FirstKeeps};

use crate::beat::Beats;
use crate::row::Row;
use conn_loop::Scratch;
use fd_cache::Lease;
use outside::{Clock, Files};
use poller::{Poller, Reports};
use std::alloc::{AllocError, Global};
use std::sync::Arc;
use warp_books::{Book, Finished};
use warp_jobs::{Gate, Job, Kit};
use warp_passes::{ServePass, Shared, new_passes_did_nothing};
use warp_runner::ServerRunner;

/// Dispatchers that made no turn, with these passes and kits, in their order. The first one keeps the beats.
pub(crate) fn rows_of<
    P: Poller + Drop,
    F: Files + Drop,
    C: Clock + Drop,
    B: Book<Finished<P::Link, F>>,
    G: Gate + Drop,
>(
    alloc: Global,
    shared: &Arc<Shared<Job<P, F>, F>>,
    passes: Vec<ServePass<Job<P, F>, F>>,
    kits: Vec<Kit<P, F, C, B, G>>,
    limit: u64,
    seconds: u64,
) -> Result<Vec<Row<P, F, C, B, G>>, AllocError>
    requires count { length passes.items ≡ length kits.items }
    requires new { AreNewPasses (arc_value shared.now) passes.items }
    requires books { All (λ kit. IsBookOf [] (B.told kit.book)) kits.items }
    ensures serve { IfOk result
        (λ rows. All (λ row. Serves B.told P.meaning.faults (arc_value shared.now) row) rows.items) }
    ensures limit { IfOk result (λ rows. All (λ row. row.runner.limit ≡ limit) rows.items) }
    ensures passes { IfOk result (λ rows. map passes_of rows.items ≡ passes.items) }
    ensures beats { IfOk result (λ rows. FirstKeeps seconds (map (beat_of C.told) rows.items)) }
{
    // A law of new passes, for the proof: it does nothing when run.
    new_passes_did_nothing::<Lease<F>>();
    let mut rows = Vec::with_capacity(alloc, passes.len())?;
    let mut own = passes.into_iter();
    for kit in kits {
        let Some(pass) = own.next() else {
            unreachable!()
        };
        let beats = beats_of(alloc, seconds, rows.is_empty())?;
        rows.push_reserved(row_of(alloc, shared.clone()?, pass, kit, limit, beats)?);
    }
    Ok(rows)
}

/// What the first dispatcher needs to keep the beats, and no other.
fn beats_of<F: Files>(
    alloc: Global,
    seconds: u64,
    is_first: bool,
) -> Result<Option<Beats<F>>, AllocError>
    ensures alone { IfOk result (λ beats. KeepsWhere is_first seconds (seconds_of beats)) }
    ensures last { IfOk result (λ beats. last_of beats ≡ None) }
{
    if is_first {
        return Ok(Some(Beats::new(alloc, seconds)?));
    }
    Ok(None)
}

/// A dispatcher that made no turn.
fn row_of<P: Poller + Drop, F: Files + Drop, C: Drop, B: Drop, G: Drop>(
    alloc: Global,
    shared: Arc<Shared<Job<P, F>, F>>,
    pass: ServePass<Job<P, F>, F>,
    kit: Kit<P, F, C, B, G>,
    limit: u64,
    beats: Option<Beats<F>>,
) -> Result<Row<P, F, C, B, G>, AllocError>
    ensures pass { IfOk result (λ row. passes_of row ≡ pass) }
    ensures book { IfOk result (λ row. row.runner.book ≡ kit.book) }
    ensures beats { IfOk result (λ row. row.beats ≡ beats) }
    ensures plain { IfOk result (λ row. IsPlain (arc_value shared) limit row) }
{
    let ServePass {
        disp,
        times,
        cache,
        tally,
    } = pass;
    let Kit {
        poller,
        files,
        clock,
        book,
        gate,
    } = kit;
    let scratch = Scratch::new(alloc)?;
    let reports = Reports::new(alloc)?;
    Ok(Row {
        disp,
        runner: ServerRunner {
            shared,
            timed: times,
            cached: cache,
            tallied: tally,
            poller,
            files,
            clock,
            book,
            gate,
            scratch,
            back: None,
            limit,
            stop: None,
            alloc,
        },
        reports,
        beats,
        halted: None,
    })
}

/// What dispatchers are taken apart into: their passes and their kits, each at the dispatcher's place, and
/// the listener, where one of them gave it back.
#[derive(Drop)]
pub(crate) struct Parts<P: Poller, F: Files, C, B, G> {
    pub(crate) passes: Vec<ServePass<Job<P, F>, F>>,
    pub(crate) kits: Vec<Kit<P, F, C, B, G>>,
    pub(crate) listener: Option<P::Listener>,
}

impl<P: Poller + Drop, F: Files + Drop, C: Drop, B: Drop, G: Drop> Parts<P, F, C, B, G> {
    /// Nothing yet, with room for this many dispatchers.
    pub(crate) fn with_capacity(
        alloc: Global,
        count: usize,
    ) -> Result<Parts<P, F, C, B, G>, AllocError>
        ensures empty { IfOk result (λ parts. (parts.passes.items ≡ []) × (parts.kits.items ≡ [])) }
        ensures room { IfOk result
            (λ parts. (count ≤ vec_capacity parts.passes) × (count ≤ vec_capacity parts.kits)) }
    {
        Ok(Parts {
            passes: Vec::with_capacity(alloc, count)?,
            kits: Vec::with_capacity(alloc, count)?,
            listener: None,
        })
    }

    /// Takes dispatchers apart.
    pub(crate) fn fill(self, rows: Vec<Row<P, F, C, B, G>>) -> Parts<P, F, C, B, G>
        requires empty { (self.passes.items ≡ []) × (self.kits.items ≡ []) }
        requires room { (length rows.items ≤ vec_capacity self.passes)
            × (length rows.items ≤ vec_capacity self.kits) }
        ensures { HasParts rows.items result.passes.items result.kits.items }
    {
        let Parts {
            mut passes,
            mut kits,
            mut listener,
        } = self;
        for row in rows {
            let Row { disp, runner, .. } = row;
            let ServerRunner {
                timed,
                cached,
                tallied,
                poller,
                files,
                clock,
                book,
                gate,
                back,
                ..
            } = runner;
            passes.push_reserved(ServePass {
                disp,
                times: timed,
                cache: cached,
                tally: tallied,
            });
            kits.push_reserved(Kit {
                poller,
                files,
                clock,
                book,
                gate,
            });
            listener = back.or(listener);
        }
        Parts {
            passes,
            kits,
            listener,
        }
    }
}
