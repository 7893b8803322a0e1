//! The answers that no application makes: refusals and the interim answer.
ghost use Rattle.std.specs.Prelude.{◌≡◌, ◌≤◌, ℕ, List, length, None, Some, true, false};
ghost use Rattle.warp_response.specs.Reply.{Reply, refusal_reply, IsResponseFor, IsSendable};
ghost use Rattle.warp_response.specs.Statuses.{HasPhrase};
ghost use Rattle.warp_response.specs.Text.{interim_text};

use crate::response::{Content, Response};

/// The interim answer (RFC 9110, section 15.2.1), which has no fields.
const INTERIM: &[u8] = b"HTTP/1.1 100 Continue\r\n\r\n";

/// The bytes of the interim answer.
pub fn interim() -> &'static [u8]
    ensures { result.now ≡ interim_text }
{
    INTERIM
}

/// The response that refuses a request with this status. Its answer closes the connection.
pub fn refusal(status: u16) -> Response
    ensures is { result
        ≡ record { status = status; content = Content.Empty; kind = None; place = None; allow = false } }
    ensures reply { (target : List ℕ) → IsResponseFor target result (refusal_reply status) }
    ensures sendable { (target : List ℕ) → HasPhrase status → 400 ≤ status → length target ≤ 8192
        → IsSendable target result }
{
    Response {
        status,
        content: Content::Empty,
        kind: None,
        place: None,
        allow: false,
    }
}
