// Servers over a scripted listener and scripted pollers, by the call that the program is.
ghost use Rattle.std.specs.Prelude.{◌≡◌, ◌≤◌, [], All, IfOk, None, length};
ghost use Rattle.std.proofs.Props.{props};
ghost use Rattle.outside.specs.Causes.{IsFresh};
ghost use Rattle.outside.specs.ListenCauses.{IsUntouched};
ghost use Rattle.outside.specs.PieceLink.{told_of as link_told};
ghost use Rattle.piece_net.specs.AcceptEvents.{GivesUntouched};
ghost use Rattle.warp_books.specs.Books.{IsBookOf};
ghost use Rattle.warp_books.specs.EndCounts.{book_told};

mod causes;

use conn_loop::End;
use outside::{MemClock, MemFiles, MemSink, PieceLink, ReadEvent};
use piece_net::{AcceptEvent, PieceListener, PiecePoller};
use std::alloc::{AllocError, Global};
use std::sync::Wait;
use std::thread::Threads;
use warp_books::{Finish, SumBook};
use warp_commands::{Host, run};
use warp_front_mem::MemFront;
use warp_jobs::{FreeGate, Kit};
use warp_load::{LOAD_MOMENT, LoadPlace, load_files};

/// A request for the page of the folder.
const ASKED: &[u8] = b"GET / HTTP/1.1\r\nHost: a\r\n\r\n";

/// Room for what one link is sent.
const ROOM: usize = 300;

type Files = MemFiles<LoadPlace>;

type MemKit = Kit<PiecePoller, Files, MemClock, SumBook, FreeGate>;

type Front = MemFront<Files, MemClock, FreeGate>;

type MemHost = Host<PieceLink, Files, MemClock, MemSink, MemSink, Front>;

/// What a server meets.
#[derive(Drop)]
struct Scene {
    /// What its accepts meet.
    events: Vec<AcceptEvent>,
    /// The polls of each dispatcher that fail, by their numbers.
    failing_polls: Vec<u64>,
    /// How many kits there are.
    kits: usize,
    /// Whether no one can listen.
    cannot_listen: bool,
    /// Whether the root is there.
    present: bool,
    /// The calls of the program's own files that fail, by their numbers.
    failing_files: Vec<u64>,
    /// How many bytes the output takes.
    room: usize,
    ghost untouched: { All GivesUntouched events.items } by { Prim.hlevel props },
}

impl Scene {
    /// So many links, each of which asks for the page and then ends, after so many accepts that fail. Nothing else fails.
    fn fair(alloc: Global, fails: usize, links: usize) -> Result<Scene, AllocError> {
        Ok(Scene {
            events: events(alloc, fails, links)?,
            failing_polls: Vec::new(alloc),
            kits: 2,
            cannot_listen: false,
            present: true,
            failing_files: Vec::new(alloc),
            room: 100,
        })
    }
}

/// So many accepts that fail, and then so many that give a link which asks for the page.
fn events(alloc: Global, fails: usize, links: usize) -> Result<Vec<AcceptEvent>, AllocError>
    ensures { IfOk result (λ events. All GivesUntouched events.items) }
{
    let mut events = Vec::new(alloc);
    push_fails(&mut events, fails)?;
    push_links(alloc, &mut events, links)?;
    Ok(events)
}

/// So many accepts more that fail.
fn push_fails(events: &mut Vec<AcceptEvent>, count: usize) -> Result<(), AllocError>
    requires { All GivesUntouched events.old.items }
    ensures { IfOk result (λ _. All GivesUntouched events.new.items) }
{
    for _failed in 0..count {
        events.push(AcceptEvent::Fail)?;
    }
    Ok(())
}

/// So many accepts more that give a link which asks for the page.
fn push_links(alloc: Global, events: &mut Vec<AcceptEvent>, count: usize) -> Result<(), AllocError>
    requires { All GivesUntouched events.old.items }
    ensures { IfOk result (λ _. All GivesUntouched events.new.items) }
{
    for _given in 0..count {
        let link = asking(alloc)?;
        events.push(AcceptEvent::Give(link))?;
    }
    Ok(())
}

/// A link that asks for the page and then ends.
fn asking(alloc: Global) -> Result<PieceLink, AllocError>
    ensures { IfOk result (λ link. IsUntouched (link_told link)) }
{
    let reads = vec![in alloc; ReadEvent::Piece(ASKED.to_vec(alloc)?)]?;
    PieceLink::new(alloc, reads, Vec::new(alloc), ROOM)
}

/// What a server leaves: the status, the two streams, how many connections ended cleanly, and how many bytes were sent.
#[derive(Drop)]
struct Outcome {
    status: u8,
    out: Vec<u8>,
    errors: Vec<u8>,
    clean: u64,
    bytes: u64,
}

/// Serves with so many dispatchers until so many connections are over.
fn served<R: Threads + Wait + Sync>(
    rt: &R,
    alloc: Global,
    dispatchers: &str,
    connections: &str,
    scene: Scene,
) -> Result<Outcome, AllocError> {
    let words = words_of(alloc, dispatchers, connections)?;
    let mut host = host_of(alloc, scene)?;
    let status = run(rt, alloc, &words, &mut host);
    let (clean, bytes) = booked(&host);
    Ok(Outcome {
        status,
        out: host.out.bytes().to_vec(alloc)?,
        errors: host.errors.bytes().to_vec(alloc)?,
        clean,
        bytes,
    })
}

/// The words of a server with so many dispatchers that serves so many connections.
fn words_of(
    alloc: Global,
    dispatchers: &str,
    connections: &str,
) -> Result<Vec<String>, AllocError> {
    let mut words = Vec::new(alloc);
    for word in [
        "serve",
        "site",
        "127.0.0.1",
        "8080",
        dispatchers,
        connections,
        "30",
    ] {
        words.push(String::from_str(alloc, word)?)?;
    }
    Ok(words)
}

/// What the program is run with in a scene.
fn host_of(alloc: Global, scene: Scene) -> Result<MemHost, AllocError>
    ensures fresh { IfOk result (λ host. IsFresh (link_told host.link)) }
    ensures unserved { IfOk result (λ host. (host.served ≡ None) × (host.driven ≡ None)) }
{
    let kits = kits_of(alloc, scene.kits, &scene.failing_polls)?;
    let listener = PieceListener::new(scene.events);
    Ok(Host {
        link: PieceLink::new(alloc, Vec::new(alloc), Vec::new(alloc), 0)?,
        files: MemFiles::new(
            alloc,
            load_files(alloc)?,
            scene.present,
            scene.failing_files,
        ),
        clock: clock(alloc)?,
        out: MemSink::new(alloc, scene.room)?,
        errors: MemSink::new(alloc, 300)?,
        front: MemFront::new(alloc, listener, kits, scene.cannot_listen),
        served: None,
        driven: None,
    })
}

/// A clock that stands.
fn clock(alloc: Global) -> Result<MemClock, AllocError> {
    Ok(MemClock::new(vec![in alloc; LOAD_MOMENT]?))
}

/// So many kits, of whose polls the same ones fail.
fn kits_of(alloc: Global, count: usize, failing: &[u64]) -> Result<Vec<MemKit>, AllocError>
    ensures books { IfOk result (λ kits. All (λ kit. IsBookOf [] (book_told kit.book)) kits.items) }
{
    let mut kits = Vec::new(alloc);
    for _made in 0..count {
        let kit = kit_of(alloc, failing)?;
        kits.push(kit)?;
    }
    Ok(kits)
}

/// A kit with the files of a load, of which no call fails, and a clock that stands. Polls with these numbers
/// fail.
fn kit_of(alloc: Global, failing: &[u64]) -> Result<MemKit, AllocError>
    ensures book { IfOk result (λ kit. IsBookOf [] (book_told kit.book)) }
{
    Ok(Kit {
        poller: PiecePoller::new(alloc, failing.to_vec(alloc)?),
        files: MemFiles::new(alloc, load_files(alloc)?, true, Vec::new(alloc)),
        clock: clock(alloc)?,
        book: SumBook::new(),
        gate: FreeGate,
    })
}

/// What the books of a server add up to: how many connections ended cleanly, and how many bytes were sent.
fn booked(host: &MemHost) -> (u64, u64) {
    let mut clean = 0u64;
    let mut bytes = 0u64;
    if let Some(served) = &host.served {
        for kit in &served.kits {
            clean = clean.saturating_add(kit.book.ends(Finish::Ended(End::Clean)));
            bytes = bytes.saturating_add(kit.book.bytes());
        }
    }
    (clean, bytes)
}
