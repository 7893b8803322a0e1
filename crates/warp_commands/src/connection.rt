//! One connection, from the words of its command to its status: the call that carries
//! what is promised of the bytes.
ghost use Rattle.std.specs.Prelude.{◌≡◌, ◌≢◌, ◌<◌, None, map, string_bytes};
ghost use Rattle.outside.specs.Causes.{IsFresh, LinkTold};
ghost use Rattle.app_trait.specs.FolderMoves.{folder_move};
ghost use Rattle.app_trait.specs.Moves.{Moves};
ghost use Rattle.conn_loop.specs.Causes.{Clocked};
ghost use Rattle.conn_loop.specs.Replying.{serving_over};
ghost use Rattle.conn_loop.specs.Stages.{failing};
ghost use Rattle.conn_loop.specs.ConnState.{AsksFor, IsAsking, Represents, SendsPrefixFor, StepImpliesFor};
ghost use Rattle.conn_loop.specs.Steps.{to_go};
ghost use Rattle.conn_loop.specs.Supplies.{Supplies};
ghost use Rattle.warp_commands.specs.Words.{connection, words_read};
ghost use Rattle.warp_commands.specs.Statuses.{IsStatus, line_of, TellsLine};
ghost use Rattle.warp_commands.specs.Causes.{HasCause, IsServeCause, Leaves, Stays};
ghost use Rattle.warp_commands.specs.Steps.{Brings, FailsSince, FilesKept, MayLook, fails_by, status_after};
ghost use Rattle.warp_commands.specs.Served.{IsAnsweredFor};

use crate::command::{Command, Usage, command_of};
use crate::status::{Status, tell};
use app_trait::FolderApp;
use conn_loop::{Closing, Conn, End, Scratch, Step, Supply, nothing_is_open, sent_is_a_prefix};
use fd_cache::{Acquired, Cache, Lease, acquire_own, release_own};
use outside::{Clock, Files, Link, RootOut, Sink};
use std::alloc::Global;

/// Serves the one connection that the link is, with the files of the command's ROOT, and
/// gives the exit status.
///
/// The words are those of the command line without the program's name. The link is handed in unused. The
/// status's line goes to `errors`, whose faults change no status. Where the link would have to be waited for,
/// the connection ends as not ready.
pub fn run_connection<L: Link, F: Files, C: Clock, S: Sink>(
    alloc: Global,
    words: &[String],
    link: &mut L,
    files: &mut F,
    clock: &mut C,
    errors: &mut S,
) -> u8
    requires { IsFresh (L.told link.old) }

    // The bytes sent are a prefix of the answers to the bytes taken, in order, and whole
    // at a clean end and at a cut.
    ensures answered { IsStatus result (λ status. IsAnsweredFor status F.folder (L.told link.old)
        (L.told link.new) (C.told clock.old) (C.told clock.new)) }

    // Each status has its cause in the words, the root and the counts.
    ensures caused { IsStatus result (λ status. HasCause status (words_read (map string_bytes words.now))
        (L.told link.old) (L.told link.new) (F.told files.old) (F.told files.new)) }

    // The error stream got the status's line and nothing else.
    ensures told { IsStatus result
        (λ status. TellsLine (line_of status) (S.told errors.old) (S.told errors.new)) }

    // What the link plans, the firmness of the files and the stillness of the clock stay, no count of faults
    // falls, and no path that is looked for leads out of the folder. Without a command or a folder nothing
    // is touched but the error stream.
    ensures leaves { IsStatus result (λ status. Leaves status (L.told link.old) (L.told link.new)
        (F.told files.old) (F.told files.new) (C.told clock.old) (C.told clock.new)) }
{
    let status = carry_out(alloc, words, link, files, clock);
    tell(errors, status);
    status.code()
}

/// Reads the words, asks for the root, and serves.
fn carry_out<L: Link, F: Files, C: Clock>(
    alloc: Global,
    words: &[String],
    link: &mut L,
    files: &mut F,
    clock: &mut C,
) -> Status
    requires { IsFresh (L.told link.old) }
    ensures answered { IsAnsweredFor result F.folder (L.told link.old) (L.told link.new)
        (C.told clock.old) (C.told clock.new) }
    ensures caused { HasCause result (words_read (map string_bytes words.now))
        (L.told link.old) (L.told link.new) (F.told files.old) (F.told files.new) }
    ensures leaves { Leaves result (L.told link.old) (L.told link.new) (F.told files.old)
        (F.told files.new) (C.told clock.old) (C.told clock.new) }
{
    // The law that no bytes close nothing.
    nothing_is_open();
    match command_of(words) {
        Ok(Command::Connection { root }) => serve_one(alloc, root, link, files, clock),
        Ok(Command::Serve { .. } | Command::Drive { .. }) | Err(Usage) => Status::Usage,
    }
}

/// Serves the one connection that the link is, with the files below a root, for which it asks first.
pub(crate) fn serve_one<L: Link, F: Files, C: Clock>(
    alloc: Global,
    root: &str,
    link: &mut L,
    files: &mut F,
    clock: &mut C,
) -> Status
    requires { IsFresh (L.told link.old) }
    ensures answered { IsAnsweredFor result F.folder (L.told link.old) (L.told link.new)
        (C.told clock.old) (C.told clock.new) }
    ensures caused { HasCause result (connection root.now) (L.told link.old) (L.told link.new)
        (F.told files.old) (F.told files.new) }
    ensures leaves { Leaves result (L.told link.old) (L.told link.new) (F.told files.old)
        (F.told files.new) (C.told clock.old) (C.told clock.new) }
{
    // The law that no bytes close nothing.
    nothing_is_open();
    match files.root(root) {
        RootOut::Present => serve_link(alloc, link, files, clock),
        RootOut::Absent => Status::NoSuchFolder,
        RootOut::Failed => Status::FileFault,
        RootOut::NoMemory => Status::NoMemory,
    }
}

/// Serves the link with the files below the root that was asked for, which stay open in
/// a cache between requests.
fn serve_link<L: Link, F: Files, C: Clock>(
    alloc: Global,
    link: &mut L,
    files: &mut F,
    clock: &mut C,
) -> Status
    requires { IsFresh (L.told link.old) }
    ensures answered { IsAnsweredFor result F.folder (L.told link.old) (L.told link.new)
        (C.told clock.old) (C.told clock.new) }
    ensures caused { IsServeCause result (L.told link.old) (L.told link.new) (F.told files.old)
        (F.told files.new) }
    ensures rooted { (F.told files.new).rooted ≡ (F.told files.old).rooted }
    ensures stays { Stays (L.told link.old) (L.told link.new) (F.told files.old) (F.told files.new)
        (C.told clock.old) (C.told clock.new) }
{
    // The laws that no bytes close nothing, and that look by look the application comes to
    // the reply of the folder's table.
    nothing_is_open();
    FolderApp.serves();
    let Ok(mut conn) = Conn::<F>::new(alloc) else {
        return Status::NoMemory;
    };
    let Ok(mut scratch) = Scratch::new(alloc) else {
        return Status::NoMemory;
    };
    let Ok(mut cache) = Cache::<F>::new(alloc) else {
        return Status::NoMemory;
    };
    let step = brought_on(
        alloc,
        &mut conn,
        link,
        files,
        clock,
        &mut scratch,
        &mut cache,
    );
    let Closing { lease, .. } = conn.finish();
    give_back(&mut cache, lease);
    status_of(step)
}

/// Brings a connection on until the link must be waited for or the connection is over. Each
/// file that it wants is supplied:
/// the one whose lease was spent just now, where that is the one.
fn brought_on<L: Link, F: Files, C: Clock>(
    alloc: Global,
    conn: &mut Conn<F>,
    link: &mut L,
    files: &mut F,
    clock: &mut C,
    scratch: &mut Scratch,
    cache: &mut Cache<F>,
) -> Step
    requires stands { Represents folder_move F.folder conn.old (L.told link.old) }
    requires running { conn.old.over ≡ None }
    requires sound { failing conn.old.stage ≡ None }
    ensures prefix { SendsPrefixFor (serving_over folder_move F.folder) conn.new (L.told link.new) }
    ensures implies { StepImpliesFor result (serving_over folder_move F.folder) conn.new (L.told link.new) }
    ensures stops { result ≢ Step.WantFile }
    ensures clocked { Clocked conn.old conn.new (C.told clock.old) (C.told clock.new) }
    ensures brings { Brings result (L.told link.old) (L.told link.new) (F.told files.old) (F.told files.new) }
{
    'files: loop {
        let step = conn.advance(link, files, &FolderApp, clock, scratch);
        let spent = conn.spent_lease();
        match step {
            Step::WantFile => supply_wanted(alloc, conn, files, cache, spent),
            step => {
                give_back(cache, spent);
                sent_is_a_prefix();
                return step;
            }
        }
    }
}

/// Gives a lease back, where there is one.
fn give_back<F: Files>(cache: &mut Cache<F>, spent: Option<Lease<F>>) {
    if let Some(lease) = spent {
        release_own(cache, lease);
    }
}

/// Supplies the file that the connection wants. The lease that it spent before is
/// supplied again or given back.
fn supply_wanted<F: Files>(
    alloc: Global,
    conn: &mut Conn<F>,
    files: &mut F,
    cache: &mut Cache<F>,
    spent: Option<Lease<F>>,
)
    requires asking { IsAsking conn.old }
    requires none_spent { conn.old.lease ≡ None }
    requires asks { AsksFor folder_move conn.old.stage }
    ensures represents { (link : LinkTold) → Represents folder_move F.folder conn.old link
        → Represents folder_move F.folder conn.new link }
    ensures same { conn.new
        ≡ record conn.old { stage = conn.new.stage; lease = conn.new.lease; entry = conn.new.entry } }
    ensures looked { FilesKept (F.told files.old) (F.told files.new)
        × FailsSince (failing conn.new.stage) (F.told files.old).faults (F.told files.new).faults }
    ensures nearer { to_go conn.new < to_go conn.old }
{
    // The law that what the folder's application looks for lies below the folder.
    FolderApp.serves();
    let got = found_at(alloc, conn.wanted(), files, cache, spent);
    conn.supply(got);
}

/// What is at a path: the file of the lease that was spent, one that stays open, or what a look finds. A
/// lease of another path is given back.
fn found_at<F: Files>(
    alloc: Global,
    path: &str,
    files: &mut F,
    cache: &mut Cache<F>,
    spent: Option<Lease<F>>,
) -> Supply<Lease<F>>
    ensures there { Supplies F.folder (λ lease. F.file_path lease.file) path.now result }
    ensures looked { MayLook path.now (fails_by result) (F.told files.old) (F.told files.new) }
{
    if let Some(lease) = spent {
        if F::is_at(&lease.file, path) {
            return Supply::Leased(lease);
        }
        release_own(cache, lease);
    }
    match acquire_own(alloc, cache, path, files) {
        Acquired::Leased(lease) => Supply::Leased(lease),
        Acquired::Absent => Supply::Absent,
        Acquired::Failed => Supply::Failed,
        Acquired::NoMemory => Supply::NoMemory,
        Acquired::Spent => unreachable!(),
    }
}

/// How a command ends whose connection went so far. A file that is wanted is supplied, so
/// that no connection ends there.
fn status_of(step: Step) -> Status
    requires { step ≢ Step.WantFile }
    ensures { result ≡ status_after step }
{
    match step {
        Step::WantRead | Step::WantWrite => Status::NotReady,
        Step::WantFile => unreachable!(),
        Step::Done(end) => match end {
            End::Clean => Status::Clean,
            End::Cut => Status::Cut,
            End::ReadFault => Status::ReadFault,
            End::WriteFault => Status::WriteFault,
            End::FileFault => Status::FileFault,
            End::NoMemory => Status::NoMemory,
        },
    }
}
