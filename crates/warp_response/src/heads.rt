//! The heads of answers.
ghost use Rattle.std.specs.Prelude.{◌≡◌, ◌≤◌, ◌<◌, ◌+◌, ◌*◌, ◌++◌, ℕ, None, length};
ghost use Rattle.warp_response.specs.Head.{status_line, head_text, longest_head, longest_head_without_place};
ghost use Rattle.warp_response.specs.Reply.{Reply, IsSendable, IsResponseFor, content_length, head_shown, head_of};
ghost use Rattle.warp_response.specs.Statuses.{HasPhrase};

use crate::fields::{LINE_END, add_allow, add_kind, add_last_word, add_length, add_server};
use crate::head_buf::{HEAD_BYTES, HeadBuf};
use crate::location::add_place;
use crate::response::{Content, LastWord, Response};

/// The status line of an answer that is sent (RFC 9112, section 4).
#[tactic(auto, unfolding(crate::specs::Head::status_line, crate::specs::Statuses::HasPhrase))]
fn status_text(status: u16) -> &'static [u8]
    requires { HasPhrase status }
    ensures is { result.now ≡ status_line status }
    ensures short { length result.now ≤ 63 }
{
    match status {
        200 => b"HTTP/1.1 200 OK\r\n",
        301 => b"HTTP/1.1 301 Moved Permanently\r\n",
        400 => b"HTTP/1.1 400 Bad Request\r\n",
        404 => b"HTTP/1.1 404 Not Found\r\n",
        405 => b"HTTP/1.1 405 Method Not Allowed\r\n",
        413 => b"HTTP/1.1 413 Content Too Large\r\n",
        414 => b"HTTP/1.1 414 URI Too Long\r\n",
        417 => b"HTTP/1.1 417 Expectation Failed\r\n",
        431 => b"HTTP/1.1 431 Request Header Fields Too Large\r\n",
        501 => b"HTTP/1.1 501 Not Implemented\r\n",
        _ => unreachable!(),
    }
}

/// Bytes that Content-Length tells.
fn told_length(content: Content) -> u64
    ensures { result ≡ content_length content }
{
    match content {
        Content::None | Content::Empty => 0,
        Content::File { size, .. } => size,
    }
}

/// Writes the head of an answer into `out`, in place of what was there. `moment` is in seconds since
/// 1970, and `target` is the target of the request, in which the spans of a place lie. The caller owes
/// that the response can be sent.
#[tactic(auto, unfolding(crate::specs::Head::head_text))]
pub fn head_bytes(
    response: &Response,
    moment: u64,
    last: LastWord,
    target: &[u8],
    out: &mut HeadBuf,
)
    requires { IsSendable target.now response.now }
    ensures head { out.new ≡ head_text (head_shown target.now response.now) moment last }
    ensures long { length out.new ≤ longest_head }
    ensures within { length out.new ≤ 512 + 2 * length target.now }
    ensures short { response.now.place ≡ None → length out.new ≤ longest_head_without_place }
    ensures reply { (reply : Reply) → IsResponseFor target.now response.now reply
        → out.new ≡ head_text (head_of reply) moment last }
{
    out.clear();
    out.add(status_text(response.status));
    out.add_date(moment);
    add_server(out);
    add_kind(response.kind, out);
    add_length(told_length(response.content), out);
    add_place(target, response.place, out);
    add_allow(response.allow, out);
    add_last_word(last, out);
    out.add(LINE_END);
}
