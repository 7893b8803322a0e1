//! A load, served in memory: the net of its links, and the kit of each dispatcher.
ghost use Rattle.std.specs.Prelude.{◌≡◌, ◌≤◌, [], All, IfOk, IsTrue, Some, length, map, vec_len};
ghost use Rattle.outside.specs.MemClock.{told_of};
ghost use Rattle.warp_books.specs.Books.{IsBookOf};
ghost use Rattle.warp_books.specs.EndCounts.{book_told};
ghost use Rattle.warp_load.specs.LoadScripts.{load_plans};
ghost use Rattle.warp_commands.specs.Driven.{WasDriven};

use crate::laws::level_passes_keep_callbacks;
use fd_cache::Lease;
use outside::{Files, Listener, MemClock, MemFiles};
use poller::{MemListener, MemNet, MemPoller};
use std::alloc::{AllocError, Global};
use std::sync::Wait;
use std::thread::Threads;
use warp_books::SumBook;
use warp_core::{Served, serve_loop};
use warp_jobs::{FreeGate, Job, Kit};
use warp_load::{LOAD_MOMENT, Load, LoadPlace, a_load_has_its_ranges, load_files, load_scripts};
use warp_passes::ServePass;
use whole_runs::served_runs_add_up;

/// What serving a load leaves.
pub type Driven = Served<MemPoller, MemFiles<LoadPlace>, MemClock, SumBook, FreeGate>;

/// What a dispatcher serves a load with.
type LoadKit = Kit<MemPoller, MemFiles<LoadPlace>, MemClock, SumBook, FreeGate>;

/// A pass of what the dispatchers of a load share.
type LoadPass = ServePass<Job<MemPoller, MemFiles<LoadPlace>>, MemFiles<LoadPlace>>;

/// A lease of a file of a load.
type LoadLease = Lease<MemFiles<LoadPlace>>;

/// A connection on which nothing happened for this many seconds is ended. The clocks stand, so that none is.
const SECONDS: u64 = 30;

/// Serves a load, with this many dispatchers. An error is want of memory.
pub(crate) fn served_load<R: Threads + Wait + Sync>(
    rt: &R,
    alloc: Global,
    load: Load,
    dispatchers: u32,
) -> Result<Driven, AllocError>
    requires { (1 ≤ dispatchers) × (dispatchers ≤ 64) }
    ensures { IfOk result (λ served. WasDriven load.connections dispatchers served) }
{
    // Laws of loads and of passes, for the proof: they do nothing when run.
    a_load_has_its_ranges();
    level_passes_keep_callbacks::<LoadPass, LoadLease>();
    let (listener, pollers) = net_of(alloc, load, dispatchers)?;
    let kits = kits_of(alloc, pollers)?;
    let served = serve_loop(rt, alloc, listener, kits, load.connections, SECONDS)?;
    // A law of what servers leave, for the proof: it does nothing when run.
    served_runs_add_up(&served, load.connections);
    Ok(served)
}

/// The listener that gives the load's links, and a poller for each dispatcher.
fn net_of(
    alloc: Global,
    load: Load,
    dispatchers: u32,
) -> Result<(MemListener, Vec<MemPoller>), AllocError>
    requires { (1 ≤ dispatchers) × (dispatchers ≤ 64) }
    ensures plans { IfOk result (λ net. (⟦<MemListener as Listener>⟧.told net.0).plans
        ≡ Some (load_plans load.seed load.connections load.requests)) }
    ensures count { IfOk result (λ net. vec_len net.1 ≡ dispatchers) }
{
    MemNet::new(alloc, load_scripts(alloc, load)?, dispatchers)
}

/// A kit for each poller.
fn kits_of(alloc: Global, pollers: Vec<MemPoller>) -> Result<Vec<LoadKit>, AllocError>
    ensures count { IfOk result (λ kits. length kits.items ≡ vec_len pollers) }
    ensures books { IfOk result (λ kits. All (λ kit. IsBookOf [] (book_told kit.book)) kits.items) }
{
    let mut kits = Vec::with_capacity(alloc, pollers.len())?;
    for poller in pollers {
        kits.push(kit_of(alloc, poller)?)?;
    }
    Ok(kits)
}

/// A kit with the files of the load, of which no call fails, and a clock that stands.
fn kit_of(alloc: Global, poller: MemPoller) -> Result<LoadKit, AllocError>
    ensures book { IfOk result (λ kit. IsBookOf [] (book_told kit.book)) }
    ensures still { IfOk result (λ kit. (told_of kit.clock).still ≡ Some 784111777) }
    ensures firm { IfOk result (λ kit. IsTrue (⟦<MemFiles<LoadPlace> as Files>⟧.told kit.files).firm) }
{
    Ok(Kit {
        poller,
        files: MemFiles::new(alloc, load_files(alloc)?, true, Vec::new(alloc)),
        clock: MemClock::new(vec![in alloc; LOAD_MOMENT]?),
        book: SumBook::new(),
        gate: FreeGate,
    })
}
