//! What a connection writes over a link, files and a clock in memory, and in how many writes.
ghost use Rattle.std.specs.Prelude.{◌≡◌, Some};
ghost use Rattle.outside.specs.MemFolder.{folder_in};
ghost use Rattle.outside.specs.PieceLink.{fresh_told, told_of};
ghost use Rattle.outside.specs.ReadScript.{EachFilled};
ghost use Rattle.app_trait.specs.FolderMoves.{folder_move};
ghost use Rattle.conn_loop.specs.ConnState.{Represents};

use crate::{Closing, Conn, End, Scratch, Step, Supply};
use app_trait::{App, FolderApp};
use fd_cache::{Acquired, Cache, acquire_own, release_own};
use outside::{
    Clock, Files, Link, MemClock, MemFile, MemFiles, PieceLink, Place, ReadEvent, WriteEvent,
};
use std::alloc::{AllocError, Global};
use std::marker::Brand;
use std::test::Fail;

const REQUEST: &[u8] = b"GET / HTTP/1.1\r\nHost: a\r\n\r\n";

const ANSWER: &[u8] =
    b"HTTP/1.1 200 OK\r\nDate: Sun, 06 Nov 1994 08:49:37 GMT\r\nServer: warp-profile\r\nContent-Type: text/html; charset=utf-8\r\nContent-Length: 3\r\n\r\nhi\n";

const LAST_REQUEST: &[u8] = b"GET / HTTP/1.1\r\nHost: a\r\nConnection: close\r\n\r\n";

const LAST_ANSWER: &[u8] =
    b"HTTP/1.1 200 OK\r\nDate: Sun, 06 Nov 1994 08:49:37 GMT\r\nServer: warp-profile\r\nContent-Type: text/html; charset=utf-8\r\nContent-Length: 3\r\nConnection: close\r\n\r\nhi\n";

/// 1994-11-06 08:49:37 UTC, the example of RFC 9110, section 5.6.7.
const MOMENT: u64 = 784_111_777;

/// What a connection answers, call after call, and what it leaves.
#[derive(Drop)]
struct Outcome {
    first: Step,
    second: Step,
    sent: Vec<u8>,
    moments: Vec<u64>,
    bytes: u64,
    waits: u64,
}

/// Brings a connection on until it wants something of its link or is over. Each file
/// that it wants is supplied.
fn brought_on<L: Link, F: Files, C: Clock>(
    alloc: Global,
    conn: &mut Conn<F>,
    link: &mut L,
    files: &mut F,
    clock: &mut C,
    scratch: &mut Scratch,
    cache: &mut Cache<F>,
) -> Step
    requires { Represents folder_move F.folder conn.old (L.told link.old) }
    ensures { Represents folder_move F.folder conn.new (L.told link.new) }
{
    'files: loop {
        let step = conn.advance(link, files, &FolderApp, clock, scratch);
        if let Some(lease) = conn.spent_lease() {
            release_own(cache, lease);
        }
        match step {
            Step::WantFile => {}
            step => return step,
        }
        FolderApp.serves();
        let got = match acquire_own(alloc, cache, conn.wanted(), files) {
            Acquired::Leased(lease) => Supply::Leased(lease),
            Acquired::Absent => Supply::Absent,
            Acquired::Failed => Supply::Failed,
            Acquired::NoMemory | Acquired::Spent => Supply::NoMemory,
        };
        conn.supply(got);
    }
}

/// What two runs of a connection answer over these files, and what they leave.
fn two_runs<K: Place>(
    alloc: Global,
    contents: Vec<MemFile>,
    failing: Vec<u64>,
    mut link: PieceLink,
) -> Result<Outcome, AllocError>
    requires folder { folder_in contents.items ≡ K.folder }
    requires fresh { told_of link ≡ fresh_told }
{
    let mut files = MemFiles::<K>::new(alloc, contents, true, failing);
    let mut clock = MemClock::new(vec![in alloc; MOMENT]?);
    let mut scratch = Scratch::new(alloc)?;
    let mut cache = Cache::new(alloc)?;
    let mut conn = Conn::new(alloc)?;
    let first = brought_on(
        alloc,
        &mut conn,
        &mut link,
        &mut files,
        &mut clock,
        &mut scratch,
        &mut cache,
    );
    let second = brought_on(
        alloc,
        &mut conn,
        &mut link,
        &mut files,
        &mut clock,
        &mut scratch,
        &mut cache,
    );
    let Closing {
        lease,
        moments,
        bytes,
        waits,
    } = conn.finish();
    if let Some(lease) = lease {
        release_own(&mut cache, lease);
    }
    Ok(Outcome {
        first,
        second,
        sent: link.sent().to_vec(alloc)?,
        moments,
        bytes,
        waits,
    })
}

/// This many letters, which repeat after a prime number of them.
fn letters(alloc: Global, count: u32) -> Result<Vec<u8>, AllocError> {
    let mut all = Vec::new(alloc);
    for k in 0..count {
        all.push(b'0' + (k % 61) as u8)?;
    }
    Ok(all)
}

/// The same over a page and a text of 40,000 letters.
fn two_runs_over_files(
    alloc: Global,
    failing: Vec<u64>,
    reads: Vec<ReadEvent>,
    writes: Vec<WriteEvent>,
) -> Result<Outcome, AllocError>
    requires { EachFilled reads.items }
{
    let page = MemFile {
        path: String::from_str(alloc, "index.html")?,
        bytes: b"hi\n".to_vec(alloc)?,
        mtime: MOMENT,
    };
    let long = MemFile {
        path: String::from_str(alloc, "long.txt")?,
        bytes: letters(alloc, 40_000)?,
        mtime: MOMENT,
    };
    let link = PieceLink::new(alloc, reads, writes, 100_000)?;
    two_runs::<Brand>(alloc, vec![in alloc; page, long]?, failing, link)
}

/// The pieces, one after the other.
fn joined(alloc: Global, pieces: &[&[u8]]) -> Result<Vec<u8>, AllocError> {
    let mut all = Vec::new(alloc);
    for piece in pieces {
        all.extend_from_slice(piece)?;
    }
    Ok(all)
}

#[test]
fn three_pipelined_requests_are_answered_by_one_write(rt: HostRuntime) -> Result<(), Fail> {
    let alloc = rt.alloc();
    let requests = joined(alloc, &[REQUEST, REQUEST, REQUEST])?;
    assert!(rt; !requests.is_empty());
    let reads = vec![in alloc; ReadEvent::Piece(requests)]?;
    let writes = vec![in alloc; WriteEvent::Take(4_096), WriteEvent::Fail]?;
    let out = two_runs_over_files(alloc, Vec::new(alloc), reads, writes)?;
    assert_eq!(rt; out.first, Step::Done(End::Clean));
    assert_eq!(rt; out.second, Step::Done(End::Clean));
    assert!(rt; out.sent == joined(alloc, &[ANSWER, ANSWER, ANSWER])?);
    assert!(rt; out.moments.as_slice() == [MOMENT, MOMENT, MOMENT].as_slice());
    assert_eq!(rt; out.bytes, 420);
    assert_eq!(rt; out.waits, 0);
    Ok(())
}

#[test]
fn requests_that_come_in_pieces_are_answered_up_to_the_one_that_closes(
    rt: HostRuntime,
) -> Result<(), Fail> {
    let alloc = rt.alloc();
    let reads = vec![in alloc;
        ReadEvent::Piece(b"\r\nGET / HT".to_vec(alloc)?),
        ReadEvent::Piece(b"TP/1.1\r\nHost: a\r\n\r\nGET / HTTP/1.1\r".to_vec(alloc)?),
        ReadEvent::NotYet,
        ReadEvent::Piece(
            b"\nHost: a\r\nConnection: close\r\n\r\nGET / HTTP/1.1\r\n\r\n".to_vec(alloc)?
        ),
    ]?;
    let out = two_runs_over_files(alloc, Vec::new(alloc), reads, Vec::new(alloc))?;
    assert_eq!(rt; out.first, Step::WantRead);
    assert_eq!(rt; out.second, Step::Done(End::Clean));
    assert!(rt; out.sent == joined(alloc, &[ANSWER, LAST_ANSWER])?);
    assert_eq!(rt; out.waits, 1);
    Ok(())
}

#[test]
fn a_reader_that_waits_gets_the_rest(rt: HostRuntime) -> Result<(), Fail> {
    let alloc = rt.alloc();
    let reads = vec![in alloc; ReadEvent::Piece(LAST_REQUEST.to_vec(alloc)?)]?;
    let writes = vec![in alloc; WriteEvent::Take(100), WriteEvent::NotYet]?;
    let out = two_runs_over_files(alloc, Vec::new(alloc), reads, writes)?;
    assert_eq!(rt; out.first, Step::WantWrite);
    assert_eq!(rt; out.second, Step::Done(End::Clean));
    assert!(rt; out.sent.as_slice() == LAST_ANSWER);
    assert_eq!(rt; out.bytes, 159);
    assert_eq!(rt; out.waits, 1);
    Ok(())
}

const LONG_REQUEST: &[u8] = b"GET /long.txt HTTP/1.1\r\nHost: a\r\n\r\n";

const LONG_HEAD: &[u8] =
    b"HTTP/1.1 200 OK\r\nDate: Sun, 06 Nov 1994 08:49:37 GMT\r\nServer: warp-profile\r\nContent-Type: text/plain; charset=utf-8\r\nContent-Length: 40000\r\n\r\n";

#[test]
fn a_long_file_leaves_in_three_writes_of_which_the_first_has_its_head(
    rt: HostRuntime,
) -> Result<(), Fail> {
    let alloc = rt.alloc();
    let reads = vec![in alloc; ReadEvent::Piece(LONG_REQUEST.to_vec(alloc)?)]?;
    let writes = vec![in alloc;
        WriteEvent::Take(16_896),
        WriteEvent::Take(16_896),
        WriteEvent::Take(16_896),
        WriteEvent::Fail,
    ]?;
    let out = two_runs_over_files(alloc, Vec::new(alloc), reads, writes)?;
    assert_eq!(rt; out.first, Step::Done(End::Clean));
    let content = letters(alloc, 40_000)?;
    assert!(rt; out.sent == joined(alloc, &[LONG_HEAD, content.as_slice()])?);
    Ok(())
}

#[test]
fn what_was_due_before_a_fault_of_the_files_is_sent(rt: HostRuntime) -> Result<(), Fail> {
    let alloc = rt.alloc();
    let content = letters(alloc, 40_000)?;
    let whole = joined(alloc, &[ANSWER, LONG_HEAD, content.as_slice()])?;
    let first = ANSWER.len();
    let head = first + LONG_HEAD.len();
    // Each answer's calls are a look and the parts of its content.
    for (call, sent) in [
        (1, 0),
        (2, first - 3),
        (3, first),
        (4, head),
        (5, head + 16_384),
        (6, head + 32_768),
    ] {
        let requests = joined(alloc, &[REQUEST, LONG_REQUEST])?;
        assert!(rt; !requests.is_empty());
        let reads = vec![in alloc; ReadEvent::Piece(requests)]?;
        let failing = vec![in alloc; call]?;
        let out = two_runs_over_files(alloc, failing, reads, Vec::new(alloc))?;
        assert_eq!(rt; out.first, Step::Done(End::FileFault));
        assert_eq!(rt; out.second, Step::Done(End::FileFault));
        assert!(rt; whole.starts_with(&out.sent));
        assert_eq!(rt; out.sent.len(), sent);
    }
    Ok(())
}
