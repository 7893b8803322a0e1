//! Worked exchanges over memory: what comes in, what goes out, and the status. Each comes
//! in one piece and byte by byte.
ghost use Rattle.std.specs.Prelude.{◌≡◌, ◌≤◌, ◌<◌, IfOk};
ghost use Rattle.outside.specs.MemFolder.{folder_in};
ghost use Rattle.outside.specs.ReadScript.{EachFilled};

mod bodies;
mod cuts;
mod drives;
mod files;

use crate::run_connection;
use outside::{MemClock, MemFile, MemFiles, MemSink, PieceLink, Place, ReadEvent, WriteEvent};
use std::alloc::{AllocError, Global};
use std::marker::Brand;
use std::process::Abort;
use std::test::Fail;

/// 1994-11-06 08:49:37 UTC, the example of RFC 9110, section 5.6.7.
const MOMENT: u64 = 784_111_777;

/// The first moment that no Date can show: the year 10000 begins.
const NO_DATE: u64 = 253_402_300_800;

/// Room for the longest run of answers here.
const ROOM: usize = 150_000;

/// What a connection meets besides its input.
#[derive(Drop)]
struct Scene {
    writes: Vec<WriteEvent>,
    moment: u64,
    present: bool,
    failing: Vec<u64>,
}

impl Scene {
    /// Nothing fails.
    fn fair(alloc: Global) -> Scene {
        Scene {
            writes: Vec::new(alloc),
            moment: MOMENT,
            present: true,
            failing: Vec::new(alloc),
        }
    }
}

/// What a connection leaves.
#[derive(Drop)]
struct Outcome {
    status: u8,
    sent: Vec<u8>,
    told: Vec<u8>,
    finds: u64,
}

/// Carries out a command over these files and this input.
fn carry_out<K: Place>(
    alloc: Global,
    words: &[String],
    contents: Vec<MemFile>,
    reads: Vec<ReadEvent>,
    scene: Scene,
) -> Result<Outcome, AllocError>
    requires folder { folder_in contents.items ≡ K.folder }
    requires filled { EachFilled reads.items }
{
    let Scene {
        writes,
        moment,
        present,
        failing,
    } = scene;
    let mut link = PieceLink::new(alloc, reads, writes, ROOM)?;
    let mut files = MemFiles::<K>::new(alloc, contents, present, failing);
    let mut clock = MemClock::new(vec![in alloc; moment]?);
    let mut errors = MemSink::new(alloc, 300)?;
    let status = run_connection(alloc, words, &mut link, &mut files, &mut clock, &mut errors);
    Ok(Outcome {
        status,
        sent: link.sent().to_vec(alloc)?,
        told: errors.bytes().to_vec(alloc)?,
        finds: files.finds(),
    })
}

fn file(alloc: Global, path: &str, bytes: Vec<u8>) -> Result<MemFile, AllocError> {
    Ok(MemFile {
        path: String::from_str(alloc, path)?,
        bytes,
        mtime: MOMENT,
    })
}

/// Bytes that repeat after so many, from the first one on.
fn repeated(alloc: Global, count: u32, first: u8, after: u32) -> Result<Vec<u8>, AllocError>
    requires first { first ≤ 97 }
    requires after { (0 < after) × (after ≤ 158) }
{
    let mut all = Vec::new(alloc);
    for k in 0..count {
        all.push(first + (k % after) as u8)?;
    }
    Ok(all)
}

/// A page, a text of 1,000 letters, 40,000 bytes, and the page of a folder.
fn site(alloc: Global) -> Result<Vec<MemFile>, AllocError> {
    Ok(vec![in alloc;
        file(alloc, "index.html", b"hi\n".to_vec(alloc)?)?,
        file(alloc, "a.txt", repeated(alloc, 1_000, b'a', 26)?)?,
        file(alloc, "big.bin", repeated(alloc, 40_000, 0, 151)?)?,
        file(alloc, "sub/index.html", b"sub\n".to_vec(alloc)?)?,
    ]?)
}

/// Carries out these words over the site.
fn over_the_site(
    alloc: Global,
    words: &[&str],
    reads: Vec<ReadEvent>,
    scene: Scene,
) -> Result<Outcome, AllocError>
    requires { EachFilled reads.items }
{
    let mut owned = Vec::new(alloc);
    for word in words {
        owned.push(String::from_str(alloc, word)?)?;
    }
    carry_out::<Brand>(alloc, &owned, site(alloc)?, reads, scene)
}

/// The input in one piece.
fn whole(alloc: Global, input: &[u8]) -> Result<Vec<ReadEvent>, AllocError>
    ensures { IfOk result (λ reads. EachFilled reads.items) }
{
    if input.is_empty() {
        Ok(Vec::new(alloc))
    } else {
        Ok(vec![in alloc; ReadEvent::Piece(input.to_vec(alloc)?)]?)
    }
}

/// The input in pieces of one byte.
fn byte_by_byte(alloc: Global, input: &[u8]) -> Result<Vec<ReadEvent>, AllocError>
    ensures { IfOk result (λ reads. EachFilled reads.items) }
{
    let mut reads = Vec::new(alloc);
    for byte in input {
        reads.push(ReadEvent::Piece(vec![in alloc; *byte]?))?;
    }
    Ok(reads)
}

/// The input in one piece, or in pieces of one byte.
fn cut(alloc: Global, input: &[u8], in_bytes: bool) -> Result<Vec<ReadEvent>, AllocError>
    ensures { IfOk result (λ reads. EachFilled reads.items) }
{
    if in_bytes {
        byte_by_byte(alloc, input)
    } else {
        whole(alloc, input)
    }
}

/// Asserts the status, the number of bytes sent, how they begin and what was told, for
/// either cutting of the input.
fn exchanged<R: Abort>(
    rt: &R,
    alloc: Global,
    what: &str,
    input: &[u8],
    status: u8,
    length: usize,
    front: &str,
) -> Result<(), AllocError> {
    let words = ["connection", "site"];
    let one = over_the_site(alloc, &words, whole(alloc, input)?, Scene::fair(alloc))?;
    let many = over_the_site(
        alloc,
        &words,
        byte_by_byte(alloc, input)?,
        Scene::fair(alloc),
    )?;
    assert_eq!(rt; one.status, status, "{what}");
    assert_eq!(rt; one.sent.len(), length, "{what}");
    assert!(rt; one.sent.starts_with(front.as_bytes()), "{what}");
    assert_eq!(rt; many.status, status, "{what}, byte by byte");
    assert!(rt;
        many.sent.as_slice() == one.sent.as_slice(),
        "{what}, byte by byte"
    );
    let line: &[u8] = if status == 1 {
        b"input cut short\n"
    } else {
        b""
    };
    assert!(rt; one.told.as_slice() == line, "{what}");
    Ok(())
}

const REFUSED: &str =
    "HTTP/1.1 400 Bad Request\r\nDate: Sun, 06 Nov 1994 08:49:37 GMT\r\nServer: warp-profile\r\nContent-Length: 0\r\nConnection: close\r\n\r\n";

const PAGE: &str =
    "HTTP/1.1 200 OK\r\nDate: Sun, 06 Nov 1994 08:49:37 GMT\r\nServer: warp-profile\r\nContent-Type: text/html; charset=utf-8\r\nContent-Length: 3\r\nConnection: close\r\n\r\nhi\n";

const PAGE_HEAD: &str =
    "HTTP/1.1 200 OK\r\nDate: Sun, 06 Nov 1994 08:49:37 GMT\r\nServer: warp-profile\r\nContent-Type: text/html; charset=utf-8\r\nContent-Length: 3\r\nConnection: close\r\n\r\n";

#[test]
fn heads_are_answered_in_order(rt: HostRuntime) -> Result<(), Fail> {
    for (what, input, status, length, front) in [
        (
            "a page and a close",
            "GET / HTTP/1.1\r\nHost: a\r\nConnection: close\r\n\r\n",
            0,
            159,
            PAGE,
        ),
        ("nothing", "", 0, 0, ""),
        ("a head cut short", "GET /a HT", 1, 0, ""),
        ("empty lines", "\r\n\r\n", 0, 0, ""),
        ("an empty line and half of one", "\r\n\r", 1, 0, ""),
        (
            "three requests",
            "GET / HTTP/1.1\r\nHost: a\r\n\r\nGET /a.txt HTTP/1.1\r\nHost: a\r\n\r\nHEAD /a.txt HTTP/1.1\r\nHost: a\r\n\r\n",
            0,
            140 + 1_141 + 141,
            "HTTP/1.1 200 OK\r\n",
        ),
        (
            "1.0 that is kept",
            "GET / HTTP/1.0\r\nConnection: keep-alive\r\n\r\nGET / HTTP/1.0\r\nConnection: keep-alive\r\n\r\n",
            0,
            164 + 164,
            "HTTP/1.1 200 OK\r\n",
        ),
        (
            "1.0 that isn't",
            "GET / HTTP/1.0\r\n\r\nGET / HTTP/1.0\r\n\r\n",
            0,
            159,
            PAGE,
        ),
    ] {
        exchanged(
            &rt,
            rt.alloc(),
            what,
            input.as_bytes(),
            status,
            length,
            front,
        )?;
    }
    Ok(())
}

#[test]
fn heads_that_break_a_rule_are_refused_and_close(rt: HostRuntime) -> Result<(), Fail> {
    for (what, input) in [
        (
            "no Host",
            "GET / HTTP/1.1\r\n\r\nGET / HTTP/1.1\r\nHost: a\r\n\r\n",
        ),
        (
            "two Host lines",
            "GET / HTTP/1.1\r\nHost: a\r\nHost: a\r\n\r\n",
        ),
        ("a Host with a space", "GET / HTTP/1.1\r\nHost: a b\r\n\r\n"),
        (
            "a space before the colon",
            "GET / HTTP/1.1\r\nHost : a\r\n\r\n",
        ),
        (
            "a line that begins with a space",
            "GET / HTTP/1.1\r\n Host: a\r\n\r\n",
        ),
        ("another version", "GET / HTTP/2.0\r\nHost: a\r\n\r\n"),
        ("a target of no form", "GET * HTTP/1.1\r\nHost: a\r\n\r\n"),
    ] {
        exchanged(&rt, rt.alloc(), what, input.as_bytes(), 0, 125, REFUSED)?;
    }
    Ok(())
}

#[test]
fn targets_and_methods_are_answered_by_the_folder(rt: HostRuntime) -> Result<(), Fail> {
    for (request, length, front) in [
        ("GET /%2e%2e/x", 104, "HTTP/1.1 404 Not Found\r\n"),
        ("GET /a%2Fb", 104, "HTTP/1.1 404 Not Found\r\n"),
        ("GET //sub", 104, "HTTP/1.1 404 Not Found\r\n"),
        ("GET /.x", 104, "HTTP/1.1 404 Not Found\r\n"),
        ("GET /nope", 104, "HTTP/1.1 404 Not Found\r\n"),
        ("GET /%61.txt", 1_141, "HTTP/1.1 200 OK\r\n"),
        ("GET http://a/a.txt", 1_141, "HTTP/1.1 200 OK\r\n"),
        ("GET /sub?q=1", 133, "HTTP/1.1 301 Moved Permanently\r\n"),
        ("GET /sub/", 141, "HTTP/1.1 200 OK\r\n"),
        ("POST /x", 140, "HTTP/1.1 405 Method Not Allowed\r\n"),
        ("OPTIONS *", 124, "HTTP/1.1 200 OK\r\n"),
        ("BREW /", 110, "HTTP/1.1 501 Not Implemented\r\n"),
    ] {
        let input = format!(in rt.alloc(); "{request} HTTP/1.1\r\nHost: a\r\n\r\n")?;
        exchanged(
            &rt,
            rt.alloc(),
            request,
            input.as_str().as_bytes(),
            0,
            length,
            front,
        )?;
    }
    Ok(())
}

const BROWSER: &str =
    "GET /sub/ HTTP/1.1\r\nHost: localhost:8080\r\nUser-Agent: Mozilla/5.0 (X11; Linux x86_64; rv:128.0) Gecko/20100101 Firefox/128.0\r\nAccept: text/html,application/xhtml+xml,application/xml;q=0.9,image/avif,image/webp,*/*;q=0.8\r\nAccept-Language: en-US,en;q=0.5\r\nAccept-Encoding: gzip, deflate, br, zstd\r\nReferer: http://localhost:8080/\r\nConnection: keep-alive\r\nCookie: theme=dark; lang=en\r\nUpgrade-Insecure-Requests: 1\r\nSec-Fetch-Dest: document\r\nSec-Fetch-Mode: navigate\r\nSec-Fetch-Site: same-origin\r\nSec-Fetch-User: ?1\r\nPriority: u=0, i\r\n\r\n";

#[test]
fn a_browser_is_answered_and_kept(rt: HostRuntime) -> Result<(), Fail> {
    exchanged(
        &rt,
        rt.alloc(),
        "a browser",
        BROWSER.as_bytes(),
        0,
        141,
        "HTTP/1.1 200 OK\r\n",
    )?;
    Ok(())
}

/// A text, then this many letters, then another text.
fn with_letters(
    alloc: Global,
    front: &str,
    count: usize,
    back: &str,
) -> Result<Vec<u8>, AllocError> {
    let mut all = front.as_bytes().to_vec(alloc)?;
    for _ in 0..count {
        all.push(b'a')?;
    }
    all.extend_from_slice(back.as_bytes())?;
    Ok(all)
}

#[test]
fn heads_are_as_long_as_8_192_bytes(rt: HostRuntime) -> Result<(), Fail> {
    for (what, front, count, back, status, length, answer) in [
        (
            "a head of 8,192 bytes",
            "GET / HTTP/1.1\r\nHost: a\r\nX: ",
            8_160,
            "\r\n\r\n",
            0,
            140,
            "HTTP/1.1 200 OK\r\n",
        ),
        (
            "one byte more",
            "GET / HTTP/1.1\r\nHost: a\r\nX: ",
            8_161,
            "\r\n\r\n",
            0,
            145,
            "HTTP/1.1 431 Request Header Fields Too Large\r\n",
        ),
        (
            "a line of 8,192 bytes",
            "GET /",
            8_187,
            "",
            0,
            126,
            "HTTP/1.1 414 URI Too Long\r\n",
        ),
        ("one byte fewer, and the end", "GET /", 8_186, "", 1, 0, ""),
    ] {
        let input = with_letters(rt.alloc(), front, count, back)?;
        exchanged(&rt, rt.alloc(), what, &input, status, length, answer)?;
    }
    Ok(())
}

#[test]
fn the_thousandth_answer_closes(rt: HostRuntime) -> Result<(), Fail> {
    let mut input = Vec::new(rt.alloc());
    for _ in 0..1_001 {
        input.extend_from_slice(b"GET / HTTP/1.1\r\nHost: a\r\n\r\n")?;
    }
    exchanged(
        &rt,
        rt.alloc(),
        "1,001 requests",
        &input,
        0,
        999 * 140 + 159,
        "HTTP/1.1 200 OK\r\n",
    )?;
    Ok(())
}

/// Three requests, of 27, 32 and 33 bytes.
const THREE: &[u8] =
    b"GET / HTTP/1.1\r\nHost: a\r\n\r\nGET /a.txt HTTP/1.1\r\nHost: a\r\n\r\nHEAD /a.txt HTTP/1.1\r\nHost: a\r\n\r\n";

const ASKED: &[u8] = b"GET / HTTP/1.1\r\nHost: a\r\nConnection: close\r\n\r\n";

/// Asserts the status, the bytes sent and the line told for one request that closes.
fn ends<R: Abort>(rt: &R, what: &str, outcome: &Outcome, status: u8, sent: &[u8], told: &str) {
    assert_eq!(rt; outcome.status, status, "{what}");
    assert!(rt; outcome.sent.as_slice() == sent, "{what}");
    assert!(rt; outcome.told.as_slice() == told.as_bytes(), "{what}");
}

#[test]
fn faults_of_the_link_have_their_statuses(rt: HostRuntime) -> Result<(), Fail> {
    let alloc = rt.alloc();
    let words = ["connection", "site"];
    let failing = vec![in alloc; ReadEvent::Fail]?;
    let outcome = over_the_site(alloc, &words, failing, Scene::fair(alloc))?;
    ends(&rt, "a read that fails", &outcome, 3, b"", "read fault\n");
    let late = vec![in alloc; ReadEvent::NotYet]?;
    let outcome = over_the_site(alloc, &words, late, Scene::fair(alloc))?;
    ends(
        &rt,
        "a read that isn't ready",
        &outcome,
        13,
        b"",
        "not ready\n",
    );
    for (what, event, status, told) in [
        ("a write that fails", WriteEvent::Fail, 4, "write fault\n"),
        (
            "a write that takes nothing",
            WriteEvent::Take(0),
            4,
            "write fault\n",
        ),
        (
            "a write that isn't ready",
            WriteEvent::NotYet,
            13,
            "not ready\n",
        ),
    ] {
        let scene = Scene {
            writes: vec![in alloc; event]?,
            ..Scene::fair(alloc)
        };
        let outcome = over_the_site(alloc, &words, whole(alloc, ASKED)?, scene)?;
        ends(&rt, what, &outcome, status, b"", told);
    }
    Ok(())
}

#[test]
fn a_write_that_stops_leaves_a_prefix(rt: HostRuntime) -> Result<(), Fail> {
    let alloc = rt.alloc();
    for in_bytes in [false, true] {
        let writes = vec![in alloc; WriteEvent::Take(100), WriteEvent::NotYet]?;
        let scene = Scene {
            writes,
            ..Scene::fair(alloc)
        };
        let reads = cut(alloc, ASKED, in_bytes)?;
        let outcome = over_the_site(alloc, &["connection", "site"], reads, scene)?;
        ends(
            &rt,
            "a write that stops",
            &outcome,
            13,
            &PAGE.as_bytes()[..100],
            "not ready\n",
        );
    }
    Ok(())
}

#[test]
fn answers_that_are_ready_together_leave_in_one_write(rt: HostRuntime) -> Result<(), Fail> {
    let alloc = rt.alloc();
    let writes = vec![in alloc; WriteEvent::Take(4_096), WriteEvent::Fail]?;
    let scene = Scene {
        writes,
        ..Scene::fair(alloc)
    };
    let reads = whole(alloc, THREE)?;
    let outcome = over_the_site(alloc, &["connection", "site"], reads, scene)?;
    assert_eq!(rt; outcome.status, 0);
    assert_eq!(rt; outcome.sent.len(), 140 + 1_141 + 141);
    Ok(())
}

#[test]
fn faults_of_the_files_have_their_statuses(rt: HostRuntime) -> Result<(), Fail> {
    let alloc = rt.alloc();
    for (what, call, in_bytes, sent) in [
        ("a root that fails", 1, false, ""),
        ("a look that fails", 2, false, ""),
        ("a look that fails, byte by byte", 2, true, ""),
        ("a part that fails", 3, false, PAGE_HEAD),
        ("a part that fails, byte by byte", 3, true, PAGE_HEAD),
    ] {
        let scene = Scene {
            failing: vec![in alloc; call]?,
            ..Scene::fair(alloc)
        };
        let reads = cut(alloc, ASKED, in_bytes)?;
        let outcome = over_the_site(alloc, &["connection", "site"], reads, scene)?;
        ends(&rt, what, &outcome, 5, sent.as_bytes(), "file fault\n");
    }
    Ok(())
}

#[test]
fn a_root_that_is_not_there_and_a_moment_without_a_date(rt: HostRuntime) -> Result<(), Fail> {
    let alloc = rt.alloc();
    for in_bytes in [false, true] {
        let absent = Scene {
            present: false,
            ..Scene::fair(alloc)
        };
        let reads = cut(alloc, ASKED, in_bytes)?;
        let outcome = over_the_site(alloc, &["connection", "site"], reads, absent)?;
        ends(&rt, "no root", &outcome, 7, b"", "no such folder\n");
        let late = Scene {
            moment: NO_DATE,
            ..Scene::fair(alloc)
        };
        let reads = cut(alloc, ASKED, in_bytes)?;
        let outcome = over_the_site(alloc, &["connection", "site"], reads, late)?;
        assert_eq!(rt; outcome.status, 0, "no Date");
        assert_eq!(rt; outcome.sent.len(), 122, "no Date");
    }
    Ok(())
}

const USAGE: &str =
    "usage: warp_serve connection ROOT | serve ROOT ADDR PORT DISPATCHERS CONNECTIONS SECONDS | drive SEED CONNECTIONS REQUESTS DISPATCHERS\n";

#[test]
fn words_that_are_no_command_get_the_usage(rt: HostRuntime) -> Result<(), Fail> {
    let alloc = rt.alloc();
    let wrong: [&[&str]; 6] = [
        &[],
        &["drive", "7", "200", "20", "4"],
        &["connection"],
        &["connection", ""],
        &["connection", "a", "b"],
        &["conection", "a"],
    ];
    for words in wrong {
        let outcome = over_the_site(alloc, words, whole(alloc, ASKED)?, Scene::fair(alloc))?;
        ends(&rt, "no command", &outcome, 2, b"", USAGE);
    }
    Ok(())
}
