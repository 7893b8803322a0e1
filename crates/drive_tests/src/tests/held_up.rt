//! A connection's run that is held up holds up no other's: a gate lets the first run through once as many other runs
//! have passed as there are other connections.
ghost use Rattle.std.specs.Prelude.{◌≡◌, ◌≤◌, [], All, IfOk, length, vec_len};
ghost use Rattle.warp_books.specs.Books.{IsBookOf};
ghost use Rattle.warp_books.specs.EndCounts.{book_told};

use super::{LoadKit, LoadServed, SECONDS, is_whole, kit_of, net_of};
use poller::MemPoller;
use reg_keys::Opening;
use std::alloc::{AllocError, Global};
use std::sync::atomic::{AtomicBool, AtomicU64, Ordering};
use std::sync::{Arc, Wait};
use std::test::Fail;
use std::thread::{Threads, yield_now};
use warp_core::serve_loop;
use warp_jobs::Gate;
use warp_load::{Load, a_load_has_its_ranges};

/// How many links the load has. The listener gives them all before its first report.
const LINKS: u64 = 4;

/// How many other runs have to pass the one that is held up.
const OTHERS: u64 = LINKS - 1;

/// How often the run that is held up looks for them before it gives up.
const LOOKS: u64 = 10_000_000;

/// What the gates of all dispatchers share.
#[derive(Drop)]
struct Passage {
    /// A run came first, and was held up.
    begun: AtomicBool,
    /// How many others have passed.
    passed: AtomicU64,
    /// Too few did within the looks.
    given_up: AtomicBool,
}

impl Passage {
    /// A passage through which nothing came.
    fn new() -> Passage {
        Passage {
            begun: AtomicBool::new(false),
            passed: AtomicU64::new(0),
            given_up: AtomicBool::new(false),
        }
    }

    /// Waits until the others have passed, or gives up.
    fn hold(&self) {
        for _ in 0..LOOKS {
            if self.passed.load(Ordering::SeqCst) >= OTHERS {
                return;
            }
            yield_now();
        }
        self.given_up.store(true, Ordering::SeqCst);
    }

    /// Whether a run was held up, and the others passed it.
    fn was_passed(&self) -> bool {
        self.begun.load(Ordering::SeqCst) && !self.given_up.load(Ordering::SeqCst)
    }
}

/// A gate that holds the first run up until others have passed.
#[derive(Drop)]
struct HoldingGate {
    passage: Arc<Passage, Global>,
}

impl Gate for HoldingGate {
    fn pass(&self, _opening: Opening) {
        if self.passage.begun.swap(true, Ordering::SeqCst) {
            let _before = self.passage.passed.fetch_add(1, Ordering::SeqCst);
        } else {
            self.passage.hold();
        }
    }
}

/// A kit for each poller. The gates are of one passage.
fn kits_of(
    alloc: Global,
    pollers: Vec<MemPoller>,
    passage: &Arc<Passage, Global>,
) -> Result<Vec<LoadKit<HoldingGate>>, AllocError>
    ensures count { IfOk result (λ kits. length kits.items ≡ vec_len pollers) }
    ensures books { IfOk result (λ kits. All (λ kit. IsBookOf [] (book_told kit.book)) kits.items) }
{
    let mut kits = Vec::with_capacity(alloc, pollers.len())?;
    for poller in pollers {
        let passage = Arc::try_clone(passage)?;
        kits.push(kit_of(alloc, poller, HoldingGate { passage })?)?;
    }
    Ok(kits)
}

/// Serves a load with two dispatchers, through the gates of a passage.
fn serve<R: Threads + Wait + Sync>(
    rt: &R,
    alloc: Global,
    load: Load,
    passage: &Arc<Passage, Global>,
) -> Result<LoadServed<HoldingGate>, AllocError> {
    // A law of loads, for the proof: it does nothing when run.
    a_load_has_its_ranges();
    let (listener, pollers) = net_of(alloc, load, 2)?;
    let kits = kits_of(alloc, pollers, passage)?;
    serve_loop(rt, alloc, listener, kits, load.connections, SECONDS)
}

/// Whether two dispatchers serve a load to its end, through the gates of a passage.
fn is_served_through<R: Threads + Wait + Sync>(
    rt: &R,
    alloc: Global,
    passage: &Arc<Passage, Global>,
) -> Result<bool, Fail> {
    let load = Load::new(7, LINKS, 3).ok_or("a load")?;
    let served = serve(rt, alloc, load, passage)?;
    Ok(is_whole(&served, load))
}

#[test]
fn a_run_that_is_held_up_holds_up_no_other(rt: HostRuntime) -> Result<(), Fail> {
    let passage = Arc::new(rt.alloc(), Passage::new())?;
    assert!(rt; is_served_through(&rt, rt.alloc(), &passage)?);
    assert!(rt; passage.was_passed());
    Ok(())
}
