//! A server over a front: whoever connects is served from a folder.
ghost use Rattle.std.specs.Prelude.{◌≡◌, ◌≤◌, [], All, IfErr, IfOk, None, codes, length};
ghost use Rattle.outside.specs.declared.files.RootOut.TheVariants as Roots;
ghost use Rattle.outside.specs.FileCauses.{AskedRoot};
ghost use Rattle.outside.specs.SinkCauses.{SinkTold};
ghost use Rattle.poller.specs.Faults.{PollerFaults};
ghost use Rattle.warp_books.specs.Books.{IsBookOf};
ghost use Rattle.warp_books.specs.EndCounts.{book_told};
ghost use Rattle.warp_commands.specs.Driven.{Prints, accepted_in, number_line};
ghost use Rattle.warp_commands.specs.ServiceWords.{IsService, service_shown};
ghost use Rattle.warp_commands.specs.Serving.{EndsServing, HasListened, RefusesToServe, ServesFolder, ServingTold};

use crate::laws::level_passes_keep_callbacks;
use crate::printing::print_line;
use crate::service::Service;
use crate::status::Status;
use fd_cache::Lease;
use outside::{Files, RootOut, Sink, SinkOut};
use poller::Poller;
use std::alloc::Global;
use std::sync::Wait;
use std::thread::Threads;
use warp_books::SumBook;
use warp_core::{ServeEnd, Served, serve_loop};
use warp_front::{Front, KitsOut, ListenOut};
use warp_jobs::{Job, Kit};
use warp_passes::ServePass;
use whole_runs::served_runs_add_up;

/// The line that says that a server listens.
const LISTENING: &[u8] = b"listening\n";

/// What a server over a front leaves.
pub type ServedBy<N> = Served<
    <N as Front>::Poller,
    <N as Front>::Files,
    <N as Front>::Clock,
    SumBook,
    <N as Front>::Gate,
>;

/// A pass of what the dispatchers of a server over a front share.
type PassBy<N> = ServePass<Job<<N as Front>::Poller, <N as Front>::Files>, <N as Front>::Files>;

/// What a server begins with: its listener, and the kit of each dispatcher.
type Begun<N> = (
    <<N as Front>::Poller as Poller>::Listener,
    Vec<
        Kit<
            <N as Front>::Poller,
            <N as Front>::Files,
            <N as Front>::Clock,
            SumBook,
            <N as Front>::Gate,
        >,
    >,
);

/// Serves a folder to whoever connects, and leaves what its server left. A line says that it listens, and at
/// its own end another one how many links it accepted.
pub(crate) fn serve<F: Files, O: Sink, N: Front, R: Threads + Wait + Sync>(
    rt: &R,
    alloc: Global,
    root: &str,
    service: Service,
    files: &mut F,
    out: &mut O,
    front: &mut N,
    served: &mut Option<ServedBy<N>>,
) -> Status
where
    <N::Poller as Poller>::Link: Send,
    <N::Poller as Poller>::Listener: Send,
    <N::Files as Files>::File: Send,
    requires service { IsService service }
    requires unserved { served.old ≡ None }
    ensures { ServesFolder book_told N.Poller.meaning.faults N.Clock.told result root.now (service_shown service)
        (record { files = F.told files.old; out = O.told out.old; front = N.told front.old })
        (record { files = F.told files.new; out = O.told out.new; front = N.told front.new })
        served.new }
{
    // A law of passes, for the proof: it does nothing when run.
    level_passes_keep_callbacks::<PassBy<N>, Lease<<N as Front>::Files>>();
    let (listener, kits) = match begin(root, service, files, front) {
        Ok(begun) => begun,
        Err(status) => return status,
    };
    if let SinkOut::Failed = out.put(LISTENING) {
        return Status::OutFault;
    }
    let Ok(left) = serve_loop(
        rt,
        alloc,
        listener,
        kits,
        service.connections,
        service.seconds,
    ) else {
        return Status::NoMemory;
    };
    // A law of what servers leave, for the proof: it does nothing when run.
    served_runs_add_up(&left, service.connections);
    let status = told(left.end, out);
    *served = Some(left);
    status
}

/// Asks for the root, listens, and makes the kits.
fn begin<F: Files, N: Front>(
    root: &str,
    service: Service,
    files: &mut F,
    front: &mut N,
) -> Result<Begun<N>, Status>
    requires service { IsService service }
    ensures count { IfOk result (λ begun. length begun.1.items ≡ service.dispatchers) }
    ensures books { IfOk result (λ begun. All (λ kit. IsBookOf [] (book_told kit.book)) begun.1.items) }
    ensures listener { IfOk result (λ begun. (N.Poller.Listener.told begun.0).failed_row ≡ 0) }
    ensures rooted { IfOk result
        (λ begun. AskedRoot Roots.Present root.now (F.told files.old) (F.told files.new)) }
    ensures listened { IfOk result
        (λ begun. HasListened root.now (service_shown service) (N.told front.old) (N.told front.new)) }
    ensures refused { IfErr result
        (λ status. (printed : SinkTold) → RefusesToServe status root.now (service_shown service)
        (record { files = F.told files.old; out = printed; front = N.told front.old })
        (record { files = F.told files.new; out = printed; front = N.told front.new })) }
{
    match files.root(root) {
        RootOut::Present => {}
        RootOut::Absent => return Err(Status::NoSuchFolder),
        RootOut::Failed => return Err(Status::FileFault),
        RootOut::NoMemory => return Err(Status::NoMemory),
    }
    let listener = match front.listen(service.address, service.port) {
        ListenOut::Listening(listener) => listener,
        ListenOut::Failed => return Err(Status::CannotListen),
        ListenOut::NoMemory => return Err(Status::NoMemory),
    };
    match front.kits(root, service.dispatchers as usize) {
        KitsOut::Made(kits) => Ok((listener, kits)),
        KitsOut::Failed => Err(Status::CannotListen),
        KitsOut::NoMemory => Err(Status::NoMemory),
    }
}

/// The status of a server that was begun. At its own end it says how many links it accepted.
fn told<O: Sink>(end: ServeEnd, out: &mut O) -> Status
    ensures status { EndsServing result end }
    ensures prints { Prints result (number_line (codes "connections ") (accepted_in end))
        (O.told out.old) (O.told out.new) }
{
    match end {
        ServeEnd::Over(counts) => {
            match print_line(out, "connections ", counts.accepted as u128) {
                SinkOut::Stored => Status::Clean,
                SinkOut::Failed => Status::OutFault,
            }
        }
        ServeEnd::PollFault => Status::PollFault,
        ServeEnd::AcceptFault => Status::AcceptFault,
        ServeEnd::Spent => Status::Spent,
        ServeEnd::NoMemory => Status::NoMemory,
    }
}
