//! How the content of a request is delimited: by its Transfer-Encoding or its Content-Length lines, never
//! by both (RFC 9112, section 6).
ghost use Rattle.std.specs.Prelude.{◌≡◌};
ghost use Rattle.warp_request.specs.NamedLines.{framing_by_codings, framing_by_length, framing_said, is_absent, lengths_shown};

use crate::coding::CodingLines;
use crate::length::{LengthLines, number_of};
use crate::limits::BODY_LIMIT;
use crate::verdict::Framing;
use warp_response::status::{BAD_REQUEST, CONTENT_TOO_LARGE, NOT_IMPLEMENTED};

/// The framing in a head of this minor version, or the status of the first fault in the lines that say it.
pub(crate) fn framing(minor: u8, codings: CodingLines, lengths: LengthLines) -> Result<Framing, u16>
    ensures { result ≡ framing_said minor codings (lengths_shown lengths.entry) }
{
    if matches!(codings, CodingLines::Absent) {
        return by_length(lengths);
    }
    // HTTP/1.0 has no transfer codings, and a length beside a coding is how requests are smuggled.
    if minor == 0 || !is_without(lengths) {
        return Err(BAD_REQUEST);
    }
    by_codings(codings)
}

/// The framing where no Transfer-Encoding line is there.
fn by_length(lengths: LengthLines) -> Result<Framing, u16>
    ensures { result ≡ framing_by_length (lengths_shown lengths.entry) }
{
    match lengths {
        LengthLines::Absent => Ok(Framing::None),
        LengthLines::Wrong => Err(BAD_REQUEST),
        LengthLines::Number(digits) => {
            let length = number_of(digits);
            if length > BODY_LIMIT {
                return Err(CONTENT_TOO_LARGE);
            }
            Ok(Framing::Length(length))
        }
    }
}

/// Whether no Content-Length line is there.
fn is_without(lengths: LengthLines) -> bool
    ensures { result ≡ is_absent (lengths_shown lengths.entry) }
{
    matches!(lengths, LengthLines::Absent)
}

/// The framing where Transfer-Encoding lines alone are there.
fn by_codings(codings: CodingLines) -> Result<Framing, u16>
    ensures { result ≡ framing_by_codings codings }
{
    match codings {
        CodingLines::Chunked => Ok(Framing::Chunked),
        CodingLines::OthersChunked => Err(NOT_IMPLEMENTED),
        _ => Err(BAD_REQUEST),
    }
}
