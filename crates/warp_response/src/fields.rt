//! The fields of a head, in the order in which they are written, each with a bound on its length. A line that
//! never changes stands here in one piece.
ghost use Rattle.std.specs.Prelude.{◌≡◌, ◌≤◌, ◌<◌, ◌+◌, ◌++◌, Some, length, decimal};
ghost use Rattle.warp_response.specs.Head.{kind_line, length_line, allow_line, last_line, server_line};

use crate::head_buf::{HEAD_BYTES, HeadBuf};
use crate::response::{Kind, LastWord};
use itoa::Buffer;

/// How this server calls itself (RFC 9110, section 10.2.4).
const SERVER: &[u8] = b"Server: warp-profile\r\n";

const CONTENT_LENGTH: &[u8] = b"Content-Length: ";

/// The methods that are served (RFC 9110, section 10.2.1).
const ALLOW: &[u8] = b"Allow: GET, HEAD, OPTIONS\r\n";

const CLOSE: &[u8] = b"Connection: close\r\n";

const KEEP_ALIVE: &[u8] = b"Connection: keep-alive\r\n";

/// The end of each line of a head, and the empty line at its end.
pub(crate) const LINE_END: &[u8] = b"\r\n";

/// Writes Server.
pub(crate) fn add_server(out: &mut HeadBuf)
    requires { length out.old + 22 ≤ HEAD_BYTES }
    ensures is { out.new ≡ out.old ++ server_line }
    ensures long { length out.new ≤ length out.old + 22 }
{
    out.add(SERVER);
}

/// Content-Type of a kind of file (RFC 9110, section 8.3).
#[tactic(auto, unfolding(crate::specs::Head::kind_line))]
fn content_type(kind: Kind) -> &'static [u8]
    ensures is { result.now ≡ kind_line (Some kind) }
    ensures short { length result.now ≤ 46 }
{
    match kind {
        Kind::Html => b"Content-Type: text/html; charset=utf-8\r\n",
        Kind::Plain => b"Content-Type: text/plain; charset=utf-8\r\n",
        Kind::Css => b"Content-Type: text/css; charset=utf-8\r\n",
        Kind::JavaScript => b"Content-Type: text/javascript; charset=utf-8\r\n",
        Kind::Json => b"Content-Type: application/json\r\n",
        Kind::Xml => b"Content-Type: application/xml\r\n",
        Kind::Svg => b"Content-Type: image/svg+xml\r\n",
        Kind::Png => b"Content-Type: image/png\r\n",
        Kind::Jpeg => b"Content-Type: image/jpeg\r\n",
        Kind::Gif => b"Content-Type: image/gif\r\n",
        Kind::OctetStream => b"Content-Type: application/octet-stream\r\n",
    }
}

/// Writes Content-Type, where a file is shown.
#[tactic(auto, unfolding(crate::specs::Head::kind_line))]
pub(crate) fn add_kind(kind: Option<Kind>, out: &mut HeadBuf)
    requires { length out.old + 46 ≤ HEAD_BYTES }
    ensures is { out.new ≡ out.old ++ kind_line kind }
    ensures long { length out.new ≤ length out.old + 46 }
{
    if let Some(kind) = kind {
        out.add(content_type(kind));
    }
}

/// Writes Content-Length (RFC 9110, section 8.6).
#[tactic(auto, unfolding(crate::specs::Head::length_line))]
pub(crate) fn add_length(size: u64, out: &mut HeadBuf)
    requires { length out.old + 38 ≤ HEAD_BYTES }
    ensures is { out.new ≡ out.old ++ length_line size }
    ensures long { length out.new ≤ length out.old + 38 }
{
    let mut digits = Buffer::new();
    out.add(CONTENT_LENGTH);
    out.add(digits.format(size).as_bytes());
    out.add(LINE_END);
}

/// Writes Allow, where the methods that are served are listed.
#[tactic(auto, unfolding(crate::specs::Head::allow_line))]
pub(crate) fn add_allow(allow: bool, out: &mut HeadBuf)
    requires { length out.old + 27 ≤ HEAD_BYTES }
    ensures is { out.new ≡ out.old ++ allow_line allow }
    ensures long { length out.new ≤ length out.old + 27 }
{
    if allow {
        out.add(ALLOW);
    }
}

/// Writes Connection, where anything is to be said of it (RFC 9112, section 9.3).
#[tactic(auto, unfolding(crate::specs::Head::last_line))]
pub(crate) fn add_last_word(last: LastWord, out: &mut HeadBuf)
    requires { length out.old + 24 ≤ HEAD_BYTES }
    ensures is { out.new ≡ out.old ++ last_line last }
    ensures long { length out.new ≤ length out.old + 24 }
{
    match last {
        LastWord::Nothing => {}
        LastWord::Close => out.add(CLOSE),
        LastWord::KeepAlive => out.add(KEEP_ALIVE),
    }
}
