//! Location, which is made from spans of the target (RFC 9110, section 10.2.2).
ghost use Rattle.std.specs.Prelude.{◌≡◌, ◌≤◌, ◌+◌, ◌++◌, None, length, slice_range, option_map};
ghost use Rattle.std.specs.Option.{ForSome};
ghost use Rattle.warp_response.specs.Head.{place_line};
ghost use Rattle.warp_response.specs.Reply.{IsSpanOf, IsPlaceOf, query_part, location};

use crate::fields::LINE_END;
use crate::head_buf::{HEAD_BYTES, HeadBuf};
use crate::response::Place;

const LOCATION: &[u8] = b"Location: ";

/// Writes the bytes of the target in a span.
fn add_span(target: &[u8], span: (usize, usize), out: &mut HeadBuf)
    requires within { IsSpanOf target.now span }
    requires room { length out.old + length target.now ≤ HEAD_BYTES }
    ensures is { out.new ≡ out.old ++ slice_range target.now span.0 span.1 }
    ensures long { length out.new ≤ length out.old + length target.now }
{
    out.add(&target[span.0..span.1]);
}

/// Writes the query with its `?`, where there is one.
fn add_query(target: &[u8], query: Option<(usize, usize)>, out: &mut HeadBuf)
    requires within { ForSome query (λ span. IsSpanOf target.now span) }
    requires room { length out.old + length target.now + 1 ≤ HEAD_BYTES }
    ensures is { out.new ≡ out.old ++ query_part target.now query }
    ensures long { length out.new ≤ length out.old + length target.now + 1 }
{
    if let Some(span) = query {
        out.add(b"?");
        add_span(target, span, out);
    }
}

/// Writes Location, where the answer sends the client to another place.
#[tactic(auto, unfolding(crate::specs::Head::place_line))]
pub(crate) fn add_place(target: &[u8], place: Option<Place>, out: &mut HeadBuf)
    requires within { ForSome place (λ p. IsPlaceOf target.now p) }
    requires room { length out.old + length target.now + length target.now + 14 ≤ HEAD_BYTES }
    ensures is { out.new ≡ out.old ++ place_line (option_map (location target.now) place) }
    ensures long { length out.new ≤ length out.old + length target.now + length target.now + 14 }
    ensures none { place ≡ None → length out.new ≡ length out.old }
{
    if let Some(place) = place {
        out.add(LOCATION);
        add_span(target, place.raw, out);
        out.add(b"/");
        add_query(target, place.query, out);
        out.add(LINE_END);
    }
}
