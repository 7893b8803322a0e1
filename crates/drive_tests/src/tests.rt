//! What loads are served with here: the net of a load's links, a kit for a dispatcher, and what its books say.
ghost use Rattle.std.specs.Prelude.{◌≡◌, ◌≤◌, [], IfOk, vec_len};
ghost use Rattle.warp_books.specs.Books.{IsBookOf};
ghost use Rattle.warp_books.specs.EndCounts.{book_told};

mod commands;
mod held_up;
mod loads;

use conn_loop::End;
use outside::{MemClock, MemFiles};
use poller::{MemListener, MemNet, MemPoller};
use std::alloc::{AllocError, Global};
use warp_books::{Finish, SumBook};
use warp_core::{Counts, ServeEnd, Served};
use warp_jobs::{Gate, Kit};
use warp_load::{LOAD_MOMENT, Load, LoadPlace, Sums, expected, load_files, load_scripts};

/// What a dispatcher serves a load with, through a gate.
pub(crate) type LoadKit<G> = Kit<MemPoller, MemFiles<LoadPlace>, MemClock, SumBook, G>;

/// What a server of a load left.
pub(crate) type LoadServed<G> = Served<MemPoller, MemFiles<LoadPlace>, MemClock, SumBook, G>;

/// A connection on which nothing happened for this many seconds is ended. The clocks stand, so that none is.
pub(crate) const SECONDS: u64 = 30;

/// The listener that gives the load's links, and a poller for each dispatcher.
pub(crate) fn net_of(
    alloc: Global,
    load: Load,
    dispatchers: u32,
) -> Result<(MemListener, Vec<MemPoller>), AllocError>
    requires { (1 ≤ dispatchers) × (dispatchers ≤ 64) }
    ensures { IfOk result (λ net. vec_len net.1 ≡ dispatchers) }
{
    MemNet::new(alloc, load_scripts(alloc, load)?, dispatchers)
}

/// A kit with the files of the loads, a clock that stands, an empty book, and this gate.
pub(crate) fn kit_of<G: Gate + Drop>(
    alloc: Global,
    poller: MemPoller,
    gate: G,
) -> Result<LoadKit<G>, AllocError>
    ensures { IfOk result (λ kit. IsBookOf [] (book_told kit.book)) }
{
    Ok(Kit {
        poller,
        files: MemFiles::new(alloc, load_files(alloc)?, true, Vec::new(alloc)),
        clock: MemClock::new(vec![in alloc; LOAD_MOMENT]?),
        book: SumBook::new(),
        gate,
    })
}

/// Whether a server served the whole load: it ended since each link was accepted and is finished, each connection
/// ended cleanly, and the books add up to what the load comes to.
pub(crate) fn is_whole<G>(served: &LoadServed<G>, load: Load) -> bool {
    let links = load.connections;
    let over = ServeEnd::Over(Counts {
        accepted: links,
        turned: 0,
    });
    served.end == over
        && served.listener.is_some()
        && clean_in(&served.kits) == links
        && sums_in(&served.kits) == expected(load)
}

/// How many connections ended cleanly, by all books.
fn clean_in<G>(kits: &[LoadKit<G>]) -> u64 {
    let mut clean: u64 = 0;
    for kit in kits {
        clean = clean.saturating_add(kit.book.ends(Finish::Ended(End::Clean)));
    }
    clean
}

/// How many final answers and bytes there were, by all books.
fn sums_in<G>(kits: &[LoadKit<G>]) -> Sums {
    let mut sums = Sums {
        requests: 0,
        bytes: 0,
    };
    for kit in kits {
        sums.requests = sums.requests.saturating_add(kit.book.moments());
        sums.bytes = sums.bytes.saturating_add(kit.book.bytes());
    }
    sums
}
