//! What a program is run with, and the call that runs it.
ghost use Rattle.std.specs.Prelude.{◌≡◌, ◌≤◌, None, IfSome, MatchOption, map, string_bytes};
ghost use Rattle.outside.specs.Causes.{IsFresh, LinkTold};
ghost use Rattle.warp_books.specs.EndCounts.{book_told};
ghost use Rattle.warp_commands.specs.declared.status.Status.TheVariants as Exit;
ghost use Rattle.warp_commands.specs.Driven.{DrivesTo, WasDriven};
ghost use Rattle.warp_commands.specs.Runs.{HostTold, Runs};
ghost use Rattle.warp_commands.specs.Statuses.{IsStatus, TellsLine, line_of};
ghost use Rattle.warp_commands.specs.Words.{words_read};

use crate::command::{Command, Usage, command_of};
use crate::connection::serve_one;
use crate::load_run::{Driven, served_load};
use crate::printing::print_lines;
use crate::serving::{ServedBy, serve};
use crate::status::{Status, tell};
use crate::summary::{bytes_of, requests_of, status_of};
use outside::{Clock, Files, Link, Sink, SinkOut};
use poller::Poller;
use std::alloc::Global;
use std::sync::Wait;
use std::thread::Threads;
use warp_core::ServeEnd;
use warp_front::Front;
use warp_load::Load;

/// What a command works on: the one link, with files and a clock, that `connection` serves; where lines and
/// errors go; what `serve` begins with and leaves; and what `drive` leaves of the load that it served.
#[derive(Drop)]
pub struct Host<L, F, C, O, E, N: Front> {
    pub link: L,
    pub files: F,
    pub clock: C,
    pub out: O,
    pub errors: E,
    pub front: N,
    pub served: Option<ServedBy<N>>,
    pub driven: Option<Driven>,
}

/// Carries out the command that the words name, and gives the exit status.
///
/// The words are those of the command line without the program's name. The link is handed in
/// unused, and nothing was served.
/// The status's line goes to the stream for errors, whose faults change no status.
pub fn run<L: Link, F: Files, C: Clock, O: Sink, E: Sink, N: Front, R: Threads + Wait + Sync>(
    rt: &R,
    alloc: Global,
    words: &[String],
    host: &mut Host<L, F, C, O, E, N>,
) -> u8
where
    <N::Poller as Poller>::Link: Send,
    <N::Poller as Poller>::Listener: Send,
    <N::Files as Files>::File: Send,
    requires fresh { IsFresh (L.told host.old.link) }
    requires unserved { (host.old.served ≡ None) × (host.old.driven ≡ None) }

    // What was done is what the words ask for, and the status has its cause there.
    ensures runs { IsStatus result (λ status.
        Runs book_told N.Poller.meaning.faults N.Clock.told F.folder (words_read (map string_bytes words.now)) status
        (record {
          link = L.told host.old.link;
          files = F.told host.old.files;
          clock = C.told host.old.clock;
          out = O.told host.old.out;
          front = N.told host.old.front;
        })
        (record {
          link = L.told host.new.link;
          files = F.told host.new.files;
          clock = C.told host.new.clock;
          out = O.told host.new.out;
          front = N.told host.new.front;
        })
        host.new.served host.new.driven) }

    // The stream for errors got the status's line and nothing else.
    ensures told { IsStatus result
        (λ status. TellsLine (line_of status) (E.told host.old.errors) (E.told host.new.errors)) }
{
    let status = carry_out(rt, alloc, words, host);
    tell(&mut host.errors, status);
    status.code()
}

/// Carries out the command that the words name.
fn carry_out<L: Link, F: Files, C: Clock, O: Sink, E, N: Front, R: Threads + Wait + Sync>(
    rt: &R,
    alloc: Global,
    words: &[String],
    host: &mut Host<L, F, C, O, E, N>,
) -> Status
where
    <N::Poller as Poller>::Link: Send,
    <N::Poller as Poller>::Listener: Send,
    <N::Files as Files>::File: Send,
    requires fresh { IsFresh (L.told host.old.link) }
    requires unserved { (host.old.served ≡ None) × (host.old.driven ≡ None) }
    ensures runs { Runs book_told N.Poller.meaning.faults N.Clock.told F.folder
        (words_read (map string_bytes words.now)) result
        (record {
          link = L.told host.old.link;
          files = F.told host.old.files;
          clock = C.told host.old.clock;
          out = O.told host.old.out;
          front = N.told host.old.front;
        })
        (record {
          link = L.told host.new.link;
          files = F.told host.new.files;
          clock = C.told host.new.clock;
          out = O.told host.new.out;
          front = N.told host.new.front;
        })
        host.new.served host.new.driven }
    ensures errors { host.new.errors ≡ host.old.errors }
{
    match command_of(words) {
        Err(Usage) => Status::Usage,
        Ok(Command::Connection { root }) => serve_one(
            alloc,
            root,
            &mut host.link,
            &mut host.files,
            &mut host.clock,
        ),
        Ok(Command::Serve { root, service }) => serve(
            rt,
            alloc,
            root,
            service,
            &mut host.files,
            &mut host.out,
            &mut host.front,
            &mut host.served,
        ),
        Ok(Command::Drive { load, dispatchers }) => drive(
            rt,
            alloc,
            load,
            dispatchers,
            &mut host.out,
            &mut host.driven,
        ),
    }
}

/// Serves a load, and leaves what its server left. Where all went well, it prints what the books add up to.
fn drive<O: Sink, R: Threads + Wait + Sync>(
    rt: &R,
    alloc: Global,
    load: Load,
    dispatchers: u32,
    out: &mut O,
    driven: &mut Option<Driven>,
) -> Status
    requires dispatchers { (1 ≤ dispatchers) × (dispatchers ≤ 64) }
    requires undriven { driven.old ≡ None }
    ensures served { IfSome driven.new (λ served. WasDriven load.connections dispatchers served) }
    ensures drives { MatchOption driven.new ((result ≡ Exit.NoMemory) × (O.told out.new ≡ O.told out.old))
        (λ served. DrivesTo result (O.told out.old) (O.told out.new) served) }
{
    let Ok(served) = served_load(rt, alloc, load, dispatchers) else {
        return Status::NoMemory;
    };
    let status = printed(&served, out);
    *driven = Some(served);
    status
}

/// How a load ended that was served. Where all went well, it prints what the books add up to.
fn printed<O: Sink>(served: &Driven, out: &mut O) -> Status
    ensures { DrivesTo result (O.told out.old) (O.told out.new) served.now }
{
    let status = status_of(served.end, &served.kits);
    match (status, served.end) {
        (Status::Clean, ServeEnd::Over(counts)) => {
            let requests = requests_of(&served.kits);
            let bytes = bytes_of(&served.kits);
            match print_lines(out, counts.accepted, requests, bytes) {
                SinkOut::Stored => Status::Clean,
                SinkOut::Failed => Status::OutFault,
            }
        }
        (status, _) => status,
    }
}
