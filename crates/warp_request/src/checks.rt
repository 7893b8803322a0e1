//! The checks that a head has to pass. The first that fails gives the status of the refusal.
ghost use Rattle.std.specs.Prelude.{◌≡◌, map};
ghost use Rattle.httparse.specs.Spans.{IsRequestWithin, header_bytes};
ghost use Rattle.warp_request.specs.Checks.{checked as checked_parts, first_fault, field_checks};
ghost use Rattle.warp_request.specs.Shown.{shown, parts_shown, LiesIn};

use crate::fields::NamedLines;
use crate::limits::FIELD_LIMIT;
use crate::target::{is_target_form, is_visible};
use crate::verdict::{HeadInfo, Next};
use httparse::spans::{HeaderSpan, RequestSpans};
use warp_response::status::{BAD_REQUEST, HEADER_FIELDS_TOO_LARGE};

/// The verdict on a head whose fields are the first `head.headers` of `spans`.
pub(crate) fn check_head(bytes: &[u8], spans: &[HeaderSpan], head: RequestSpans) -> Next
    requires { IsRequestWithin bytes.now spans.now head }
    ensures is { shown bytes.now result ≡ checked_parts (parts_shown bytes.now spans.now head) }
    ensures within { LiesIn bytes.now result }
{
    if head.headers > FIELD_LIMIT {
        return Next::Refuse(HEADER_FIELDS_TOO_LARGE);
    }
    let target = head.path.of(bytes);
    if !is_visible(target) {
        return Next::Refuse(BAD_REQUEST);
    }
    if !is_target_form(head.method.of(bytes), target) {
        return Next::Refuse(BAD_REQUEST);
    }
    let lines = NamedLines::read(bytes, &spans[..head.headers]);
    match lines.framing(head.version) {
        Err(code) => Next::Refuse(code),
        Ok(framing) => Next::Head(HeadInfo {
            method: head.method,
            target: head.path,
            minor: head.version,
            head_len: head.len,
            framing,
            keeps: lines.connection.stays_open(head.version),
            interim: lines.expect.waits(head.version, framing),
        }),
    }
}
