//! Reading a head: the parser decides, and then the checks. Where no head is whole, the
//! request line has to be there first.
ghost use Rattle.std.specs.Prelude.{◌≡◌, ◌≤◌, ◌<◌, length};
ghost use Rattle.warp_request.specs.Laws.{TellsOf, StaysSettled};
ghost use Rattle.warp_request.specs.Next.{next_of, window_of, waits};
ghost use Rattle.warp_request.specs.Parsed.{ParserAnswered};
ghost use Rattle.warp_request.specs.Shown.{shown, LiesIn};

use crate::checks::check_head;
use crate::limits::{FIELD_ROOM, HEAD_LIMIT};
use crate::lines::has_line;
use crate::scratch::Scratch;
use crate::verdict::Next;
use httparse::Status;
use httparse::spans::{HeaderSpan, parse_request};
use warp_response::status::{BAD_REQUEST, HEADER_FIELDS_TOO_LARGE, URI_TOO_LONG};

/// What the parser says of a window.
#[derive(Clone, Copy)]
pub(crate) enum Parsed {
    /// A head is at its front, and this is the verdict on it.
    Whole(Next),
    /// It may become a head.
    Cut,
    /// It never becomes one.
    Wrong,
}

/// What the bytes after the last whole request begin with (RFC 9112, sections 2 to 5). It reads
/// no byte after the first `HEAD_LIMIT`; the spans of a head are places in `bytes`.
#[tactic(auto, using(crate::specs::NextLaws::next_tells, crate::specs::GrowthLaws::next_stays))]
pub fn next(bytes: &[u8], scratch: &mut Scratch) -> Next
    ensures is { shown bytes.now result ≡ next_of bytes.now }
    ensures within { LiesIn bytes.now result }
    // Below `HEAD_LIMIT` alone more is waited for; a head is in the bytes, and its parts are right.
    ensures tells { TellsOf bytes.now (next_of bytes.now) }
    // A head or a refusal stays, whatever bytes follow.
    ensures stays { StaysSettled bytes.now }
{
    // After the last answer there is mostly nothing.
    if bytes.is_empty() {
        return Next::More;
    }
    let window = window(bytes);
    match read_head(window, &mut scratch.fields) {
        Parsed::Whole(verdict) => verdict,
        _ if !has_line(window) => more_or(URI_TOO_LONG, bytes),
        Parsed::Cut => more_or(HEADER_FIELDS_TOO_LARGE, bytes),
        Parsed::Wrong => Next::Refuse(BAD_REQUEST),
    }
}

/// The bytes in which a head has to end.
fn window(bytes: &[u8]) -> &[u8]
    ensures is { result.now ≡ window_of bytes.now }
    ensures fits { length result.now ≤ HEAD_LIMIT }
{
    if bytes.len() > HEAD_LIMIT {
        &bytes[..HEAD_LIMIT]
    } else {
        bytes
    }
}

/// More bytes are waited for as long as there is room for them.
#[tactic(auto, unfolding(crate::specs::Next::waits))]
fn more_or(code: u16, bytes: &[u8]) -> Next
    ensures is { shown bytes.now result ≡ waits code bytes.now }
    ensures within { LiesIn bytes.now result }
{
    if bytes.len() < HEAD_LIMIT {
        Next::More
    } else {
        Next::Refuse(code)
    }
}

fn read_head(window: &[u8], fields: &mut [HeaderSpan]) -> Parsed
    requires room { length fields.old ≡ FIELD_ROOM }
    requires fits { length window.now ≤ HEAD_LIMIT }
    ensures { ParserAnswered window.now result }
{
    match parse_request(window, fields) {
        Ok(Status::Complete(head)) => Parsed::Whole(check_head(window, fields, head)),
        Ok(Status::Partial) => Parsed::Cut,
        Err(_) => Parsed::Wrong,
    }
}
