//! The server: the call that the program is, over sockets, the system's files and its time, with lines that
//! go to memory.
ghost use Rattle.std.specs.Prelude.{◌≡◌, IfOk, None};
ghost use Rattle.outside.specs.Causes.{IsFresh};
ghost use Rattle.outside.specs.PieceLink.{told_of};

use conn_loop::End;
use outside::{MemSink, OsClock, OsFiles, PieceLink};
use sock_front::SockFront;
use std::alloc::{AllocError, Global};
use std::sync::{Arc, Wait};
use std::thread::Threads;
use warp_books::{Finish, SumBook};
use warp_commands::{Host, run};
use warp_front::Front;
use warp_jobs::Kit;

/// What the program is run with here. No connection comes over its link.
type SockHost = Host<
    PieceLink,
    OsFiles<HostRuntime>,
    OsClock<HostRuntime>,
    MemSink,
    MemSink,
    SockFront<HostRuntime>,
>;

/// What a run leaves: its status, its lines, and what the books of its server count, if there was one.
#[derive(Drop)]
pub(super) struct Left {
    pub(super) status: u8,
    pub(super) out: Vec<u8>,
    pub(super) errors: Vec<u8>,
    pub(super) was_served: bool,
    pub(super) ended_cleanly: u64,
    pub(super) timed_out: u64,
}

/// What the program is run with, of which nothing was used yet.
fn host(held: &Arc<HostRuntime, Global>) -> Result<SockHost, AllocError>
    ensures fresh { IfOk result (λ host. IsFresh (told_of host.link)) }
    ensures unserved { IfOk result (λ host. (host.served ≡ None) × (host.driven ≡ None)) }
{
    let alloc = held.alloc();
    Ok(Host {
        link: PieceLink::new(alloc, Vec::new(alloc), Vec::new(alloc), 0)?,
        files: OsFiles::new(alloc, Arc::try_clone(held)?),
        clock: OsClock::new(Arc::try_clone(held)?),
        out: MemSink::new(alloc, 100)?,
        errors: MemSink::new(alloc, 300)?,
        front: SockFront::new(Arc::try_clone(held)?, alloc),
        served: None,
        driven: None,
    })
}

/// How many connections ended in this way, by all books.
fn ended<P, F, C, G>(kits: &[Kit<P, F, C, SumBook, G>], kind: Finish) -> u64 {
    let mut count = 0u64;
    for kit in kits {
        count = count.saturating_add(kit.book.ends(kind));
    }
    count
}

/// What a run left in the host that ended with this status.
fn left_in<L, F, C, N: Front>(
    alloc: Global,
    status: u8,
    host: &Host<L, F, C, MemSink, MemSink, N>,
) -> Result<Left, AllocError> {
    let (was_served, ended_cleanly, timed_out) = match &host.served {
        Some(served) => (
            true,
            ended(&served.kits, Finish::Ended(End::Clean)),
            ended(&served.kits, Finish::TimedOut),
        ),
        None => (false, 0, 0),
    };
    Ok(Left {
        status,
        out: host.out.bytes().to_vec(alloc)?,
        errors: host.errors.bytes().to_vec(alloc)?,
        was_served,
        ended_cleanly,
        timed_out,
    })
}

/// Runs the program to its end, as these words say. Nothing is left where no memory was.
pub(super) fn serve<R: Threads + Wait + Sync>(
    rt: &R,
    held: &Arc<HostRuntime, Global>,
    words: &[String],
) -> Option<Left> {
    let mut host = host(held).ok()?;
    let status = run(rt, held.alloc(), words, &mut host);
    left_in(held.alloc(), status, &host).ok()
}
