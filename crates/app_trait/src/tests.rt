//! A small folder, asked by each method and by each kind of target.
ghost use Rattle.std.specs.Prelude.{◌≡◌, option_map};
ghost use Rattle.app_trait.specs.FolderMoves.{folder_move};
ghost use Rattle.app_trait.specs.Moves.{PathKept, text_of};
ghost use Rattle.app_trait.specs.Seen.{next_seen};

use crate::{App, FolderApp, Move, Request, Seen};
use path_rules::PathBuf8;
use std::test::Fail;
use warp_response::{Content, Kind, Place, Response, status};

/// The files of the folder: their paths and sizes.
const FILES: [(&str, u64); 4] = [
    ("index.html", 3),
    ("a.txt", 1000),
    ("big.bin", 40000),
    ("sub/index.html", 4),
];

/// The time of each file.
const MTIME: u64 = 784_111_777;

/// The size of the file at a path, where there is one.
fn size_of(path: &str) -> Option<u64> {
    for (at, size) in FILES {
        if at == path {
            return Some(size);
        }
    }
    None
}

/// What is seen once a look has found this.
fn seen_after(seen: Seen, size: Option<u64>) -> Seen
    ensures { result ≡ next_seen seen (option_map (λ s. (s, MTIME)) size) }
{
    match size {
        Some(size) => seen.found(size, MTIME),
        None => seen.absent(),
    }
}

/// What the application answers, and after how many looks.
#[tactic(auto, using(crate::proofs::KeptLemmas::kept_next))]
fn ask(method: &str, target: &str, path: &mut PathBuf8) -> Option<(u8, Response)> {
    let request = Request {
        method: method.as_bytes(),
        target: target.as_bytes(),
        minor: 1,
    };
    match FolderApp.reply(&request, Seen::Nothing, path) {
        Move::Answer(response) => Some((0, response)),
        Move::Look => ask_again(
            &request,
            seen_after(Seen::Nothing, size_of(path.text())),
            path,
        ),
    }
}

/// What it answers after one look or two.
#[tactic(auto, using(crate::proofs::KeptLemmas::kept_next))]
fn ask_again(request: &Request<'_>, seen: Seen, path: &mut PathBuf8) -> Option<(u8, Response)>
    requires { PathKept (folder_move (text_of request.now)) seen path.old }
{
    match FolderApp.reply(request, seen, path) {
        Move::Answer(response) => Some((1, response)),
        Move::Look => ask_last(request, seen_after(seen, size_of(path.text())), path),
    }
}

/// What it answers after two looks.
fn ask_last(request: &Request<'_>, seen: Seen, path: &mut PathBuf8) -> Option<(u8, Response)>
    requires { PathKept (folder_move (text_of request.now)) seen path.old }
{
    match FolderApp.reply(request, seen, path) {
        Move::Answer(response) => Some((2, response)),
        Move::Look => None,
    }
}

fn empty(status: u16, allow: bool) -> Response {
    Response {
        status,
        content: Content::Empty,
        kind: None,
        place: None,
        allow,
    }
}

fn file(size: u64, send: bool, kind: Kind) -> Response {
    Response {
        status: status::OK,
        content: Content::File { size, send },
        kind: Some(kind),
        place: None,
        allow: false,
    }
}

fn moved(raw: (usize, usize), query: Option<(usize, usize)>) -> Response {
    Response {
        status: status::MOVED_PERMANENTLY,
        content: Content::Empty,
        kind: None,
        place: Some(Place { raw, query }),
        allow: false,
    }
}

#[test]
fn get_and_head_go_by_the_path(rt: HostRuntime) -> Result<(), Fail> {
    let mut path = PathBuf8::new(rt.alloc())?;
    let rows = [
        ("GET", "/", 1, file(3, true, Kind::Html)),
        ("GET", "/%61.txt", 1, file(1000, true, Kind::Plain)),
        ("GET", "http://a/a.txt", 1, file(1000, true, Kind::Plain)),
        ("GET", "http://a", 1, file(3, true, Kind::Html)),
        ("GET", "/big.bin", 1, file(40000, true, Kind::OctetStream)),
        ("GET", "/sub/", 1, file(4, true, Kind::Html)),
        ("HEAD", "/a.txt", 1, file(1000, false, Kind::Plain)),
        ("GET", "/sub", 2, moved((0, 4), None)),
        ("GET", "/sub?q=1", 2, moved((0, 4), Some((5, 8)))),
        ("GET", "/sub?", 2, moved((0, 4), Some((5, 5)))),
        ("HEAD", "http://a/sub?q", 2, moved((8, 12), Some((13, 14)))),
        ("GET", "/nope", 2, empty(status::NOT_FOUND, false)),
        ("GET", "/nope/", 1, empty(status::NOT_FOUND, false)),
        ("GET", "/%2e%2e/x", 0, empty(status::NOT_FOUND, false)),
        ("GET", "/a%2Fb", 0, empty(status::NOT_FOUND, false)),
        ("GET", "//sub", 0, empty(status::NOT_FOUND, false)),
        ("GET", "/.x", 0, empty(status::NOT_FOUND, false)),
        ("GET", "*", 0, empty(status::NOT_FOUND, false)),
    ];
    for (method, target, looks, response) in rows {
        assert_eq!(rt;
            ask(method, target, &mut path),
            Some((looks, response)),
            "{method} {target}"
        );
    }
    Ok(())
}

#[test]
fn other_methods_look_for_nothing(rt: HostRuntime) -> Result<(), Fail> {
    let mut path = PathBuf8::new(rt.alloc())?;
    let rows = [
        ("OPTIONS", "*", empty(status::OK, true)),
        ("OPTIONS", "/a.txt", empty(status::OK, true)),
        ("POST", "/a.txt", empty(status::METHOD_NOT_ALLOWED, true)),
        ("PUT", "/", empty(status::METHOD_NOT_ALLOWED, true)),
        ("DELETE", "/", empty(status::METHOD_NOT_ALLOWED, true)),
        ("PATCH", "/", empty(status::METHOD_NOT_ALLOWED, true)),
        ("TRACE", "/", empty(status::METHOD_NOT_ALLOWED, true)),
        ("CONNECT", "a:80", empty(status::METHOD_NOT_ALLOWED, true)),
        ("BREW", "/", empty(status::NOT_IMPLEMENTED, false)),
        ("get", "/", empty(status::NOT_IMPLEMENTED, false)),
    ];
    for (method, target, response) in rows {
        assert_eq!(rt;
            ask(method, target, &mut path),
            Some((0, response)),
            "{method} {target}"
        );
    }
    Ok(())
}
