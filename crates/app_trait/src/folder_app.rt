//! The application that serves the files of a folder: it goes by the method, then by what the target stands
//! for, then by what its looks have found. It keeps nothing between calls: the path of a look that was made
//! is still there, and the target is routed again only where a first look found no file.
ghost use Rattle.std.specs.Prelude.{◌≡◌, ℕ, List, []};
ghost use Rattle.path_rules.specs.Route.{route_of};
ghost use Rattle.app_trait.specs.declared.request.Seen.{Seen as Sight};
ghost use Rattle.app_trait.specs.Shown.{outline_of, move_shown, Fits, FitsMove};
ghost use Rattle.app_trait.specs.FolderMoves.{plain, found_at, moved_from, move_by_route};
ghost use Rattle.app_trait.specs.Moves.{PathKept};

use crate::app::{App, Move};
use crate::method::{Method, method_of};
use crate::request::{Request, Seen};
use path_rules::{PathBuf8, Route, content_type, query, raw_path, route};
use warp_response::{Content, Place, Response, status};

/// What is after the path of a folder at the path of its index.
const INDEX: &str = "/index.html";

/// The application that serves the files of a folder.
#[derive(Clone, Copy, Debug, PartialEq, Eq)]
pub struct FolderApp;

impl App for FolderApp {
    ghost use Rattle.app_trait.specs.FolderMoves.{folder_move};
    ghost use Rattle.app_trait.specs.FolderLaws.{folder_ends, folder_proper};

    ghost moves = { λ _ request seen. folder_move request seen };

    fn reply(&self, request: &Request<'_>, seen: Seen, path: &mut PathBuf8) -> Move {
        match method_of(request.method) {
            Method::Get => file_move(request.target, true, seen, path),
            Method::Head => file_move(request.target, false, seen, path),
            Method::Options => Move::Answer(plain(status::OK, true)),
            Method::Refused => Move::Answer(plain(status::METHOD_NOT_ALLOWED, true)),
            Method::Unknown => Move::Answer(plain(status::NOT_IMPLEMENTED, false)),
        }
    }

    ghost ends = { λ _. folder_ends };

    ghost proper = { λ _ request seen. folder_proper request seen };
}

impl FolderApp {
    ghost use Rattle.outside.specs.Folder.{Folder};
    ghost use Rattle.warp_response.specs.Reply.{head_of, sent_bytes};
    ghost use Rattle.app_trait.specs.Moves.{RequestText};
    ghost use Rattle.app_trait.specs.ReplyTo.{reply_to};
    ghost use Rattle.app_trait.specs.Below.{StaysBelow};
    ghost use Rattle.app_trait.specs.FolderReply.{folder_reply, AsksHead};

    /// A law, and no work: whatever a folder has, the looks and the answer of its application come to the
    /// reply of its table; HEAD gets the head that GET gets, with no bytes after it (RFC 9110, section
    /// 9.3.2); and whatever a request says, what is looked for lies below the folder.
    pub fn serves(&self)
        ensures table { (folder : Folder) (request : RequestText)
            → reply_to (⟦<FolderApp as App>⟧.moves self.now) folder request ≡ folder_reply folder request }
        ensures head { (folder : Folder) (get head : RequestText) → AsksHead get head
            → head_of (folder_reply folder head) ≡ head_of (folder_reply folder get) }
        ensures bytes { (folder : Folder) (get head : RequestText) → AsksHead get head
            → sent_bytes (folder_reply folder head).content ≡ [] }
        ensures below { (request : RequestText) (seen : Sight)
            → StaysBelow (⟦<FolderApp as App>⟧.moves self.now request seen) }
    {}
}

/// The answer to GET and HEAD, or the look that it needs.
fn file_move(target: &[u8], send: bool, seen: Seen, path: &mut PathBuf8) -> Move
    requires kept { PathKept (move_by_route (route_of target.now) target.now send) seen path.old }
    ensures is { move_shown target.now result path.new
        ≡ move_by_route (route_of target.now) target.now send seen }
    ensures fits { FitsMove target.now seen result }
{
    match seen {
        Seen::Nothing => first_look(target, send, path),
        Seen::FirstFound { size, .. } => Move::Answer(found(size, send, path)),
        Seen::FirstAbsent => second_look(target, send, path),
        Seen::SecondFound { .. } => Move::Answer(moved(target)),
        Seen::SecondAbsent => Move::Answer(plain(status::NOT_FOUND, false)),
    }
}

/// The first look is for the path, where the target has one.
fn first_look(target: &[u8], send: bool, path: &mut PathBuf8) -> Move
    ensures is { move_shown target.now result path.new
        ≡ move_by_route (route_of target.now) target.now send Sight.Nothing }
    ensures fits { FitsMove target.now Sight.Nothing result }
{
    match route(target, path) {
        Route::NotFound => Move::Answer(plain(status::NOT_FOUND, false)),
        Route::Index | Route::Path => Move::Look,
    }
}

/// Where there is no file at a path, a second look is for the index below it. At an index one look decides.
fn second_look(target: &[u8], send: bool, path: &mut PathBuf8) -> Move
    ensures is { move_shown target.now result path.new
        ≡ move_by_route (route_of target.now) target.now send Sight.FirstAbsent }
    ensures fits { FitsMove target.now Sight.FirstAbsent result }
{
    match route(target, path) {
        Route::Path => {
            let _fits = path.add(INDEX);
            Move::Look
        }
        Route::Index => Move::Answer(plain(status::NOT_FOUND, false)),
        Route::NotFound => Move::Answer(plain(status::NOT_FOUND, false)),
    }
}

/// An answer without file and place.
fn plain(status: u16, allow: bool) -> Response
    ensures is { (target : List ℕ) → outline_of target result ≡ plain status allow }
    ensures fits { (target : List ℕ) (seen : Sight) → Fits target seen result }
{
    Response {
        status,
        content: Content::Empty,
        kind: None,
        place: None,
        allow,
    }
}

/// 200 with the file that was found at a path.
fn found(size: u64, send: bool, path: &PathBuf8) -> Response
    ensures is { (target : List ℕ) → outline_of target result ≡ found_at path.now send }
    ensures fits { (target : List ℕ) (mtime : ℕ) → Fits target (Seen.FirstFound size mtime) result }
{
    Response {
        status: status::OK,
        content: Content::File { size, send },
        kind: Some(content_type(path.text())),
        place: None,
        allow: false,
    }
}

/// 301 to the place of the folder.
fn moved(target: &[u8]) -> Response
    ensures is { outline_of target.now result ≡ moved_from target.now }
    ensures fits { (seen : Sight) → Fits target.now seen result }
{
    Response {
        status: status::MOVED_PERMANENTLY,
        content: Content::Empty,
        kind: None,
        place: Some(Place {
            raw: raw_path(target),
            query: query(target),
        }),
        allow: false,
    }
}
