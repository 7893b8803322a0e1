//! Worked heads and answers, each with its text and the number of its bytes.
ghost use Rattle.std.specs.Prelude.{◌≡◌, ◌≤◌, IsTrue, length};
ghost use Rattle.std.specs.Option.{ForSome};
ghost use Rattle.warp_response.specs.Reply.{IsSpanOf, IsPlaceOf, IsSendable, is_file};
ghost use Rattle.warp_response.specs.Statuses.{HasPhrase};

use crate::response::{Content, Kind, LastWord, Place, Response};
use crate::{HeadBuf, head_bytes, interim, refusal, status};
use std::alloc::{AllocError, Global};
use std::process::Abort;
use std::test::Fail;

/// Sun, 06 Nov 1994 08:49:37 GMT, the example of RFC 9110, section 5.6.7.
const MOMENT: u64 = 784_111_777;

/// The first moment of the year 10000.
const BEYOND: u64 = 253_402_300_800;

/// Date and Server at that moment.
const DATE_AND_SERVER: &[u8] = b"Date: Sun, 06 Nov 1994 08:49:37 GMT\r\nServer: warp-profile\r\n";

/// Whether a status has a phrase.
#[tactic(auto, unfolding(crate::specs::Statuses::HasPhrase))]
fn has_phrase(code: u16) -> bool
    ensures { IsTrue result → HasPhrase code }
{
    code == status::OK
        || code == status::MOVED_PERMANENTLY
        || code == status::BAD_REQUEST
        || code == status::NOT_FOUND
        || code == status::METHOD_NOT_ALLOWED
        || code == status::CONTENT_TOO_LARGE
        || code == status::URI_TOO_LONG
        || code == status::EXPECTATION_FAILED
        || code == status::HEADER_FIELDS_TOO_LARGE
        || code == status::NOT_IMPLEMENTED
}

/// Whether a span lies in the target.
fn is_span_of(target: &[u8], span: (usize, usize)) -> bool
    ensures { IsTrue result → IsSpanOf target.now span }
{
    span.0 <= span.1 && span.1 <= target.len()
}

/// Whether the spans of a place, where there is one, lie in the target.
fn is_place_of(target: &[u8], place: Option<Place>) -> bool
    ensures { IsTrue result → ForSome place (λ p. IsPlaceOf target.now p) }
{
    match place {
        None => true,
        Some(place) => match place.query {
            None => is_span_of(target, place.raw),
            Some(query) => is_span_of(target, place.raw) && is_span_of(target, query),
        },
    }
}

/// Whether the content is a file.
fn is_file(content: Content) -> bool
    ensures { result ≡ is_file content }
{
    matches!(content, Content::File { .. })
}

/// Whether a response has a head.
fn can_be_sent(response: &Response, target: &[u8]) -> bool
    ensures { IsTrue result → IsSendable target.now response.now }
{
    has_phrase(response.status)
        && response.kind.is_some() == is_file(response.content)
        && response.place.is_some() == (response.status == status::MOVED_PERMANENTLY)
        && is_place_of(target, response.place)
        && target.len() <= 8_192
}

/// The head of a response to a target.
fn head_of<'a>(
    rt: &impl Abort,
    response: Response,
    moment: u64,
    last: LastWord,
    target: &[u8],
    out: &'a mut HeadBuf,
) -> &'a [u8] {
    assert!(rt; can_be_sent(&response, target), "{response:?}");
    head_bytes(&response, moment, last, target, out);
    out.bytes()
}

/// The pieces, one after the other.
fn joined(alloc: Global, pieces: &[&[u8]]) -> Result<Vec<u8>, AllocError> {
    let mut text = Vec::new(alloc);
    for piece in pieces {
        text.extend_from_slice(piece)?;
    }
    Ok(text)
}

/// A response that shows a file.
const fn shown(size: u64, send: bool, kind: Kind) -> Response {
    Response {
        status: status::OK,
        content: Content::File { size, send },
        kind: Some(kind),
        place: None,
        allow: false,
    }
}

/// A response without content.
const fn empty(code: u16, allow: bool) -> Response {
    Response {
        status: code,
        content: Content::Empty,
        kind: None,
        place: None,
        allow,
    }
}

/// A response that sends the client to a folder.
const fn moved(raw: (usize, usize), query: Option<(usize, usize)>) -> Response {
    Response {
        status: status::MOVED_PERMANENTLY,
        content: Content::Empty,
        kind: None,
        place: Some(Place { raw, query }),
        allow: false,
    }
}

#[test]
fn a_head_has_its_fields_in_order(rt: HostRuntime) -> Result<(), Fail> {
    let mut out = HeadBuf::new(rt.alloc())?;
    let response = shown(3, true, Kind::Html);
    let head = head_of(&rt, response, MOMENT, LastWord::Close, b"/", &mut out);
    let expected = b"HTTP/1.1 200 OK\r\n\
        Date: Sun, 06 Nov 1994 08:49:37 GMT\r\n\
        Server: warp-profile\r\n\
        Content-Type: text/html; charset=utf-8\r\n\
        Content-Length: 3\r\n\
        Connection: close\r\n\r\n";
    assert_eq!(rt; head, expected.as_slice());
    assert_eq!(rt; head.len() + 3, 159, "with the content");
    Ok(())
}

#[test]
fn a_file_is_shown_with_its_size(rt: HostRuntime) -> Result<(), Fail> {
    let plain = b"Content-Type: text/plain; charset=utf-8\r\nContent-Length: 1000\r\n\r\n";
    let big = b"Content-Type: application/octet-stream\r\nContent-Length: 40000\r\n\r\n";
    let kept =
        b"Content-Type: text/html; charset=utf-8\r\nContent-Length: 3\r\nConnection: keep-alive\r\n\r\n";
    let rows = [
        (
            shown(1_000, true, Kind::Plain),
            LastWord::Nothing,
            plain.as_slice(),
            141,
        ),
        (
            shown(1_000, false, Kind::Plain),
            LastWord::Nothing,
            plain,
            141,
        ),
        (
            shown(40_000, true, Kind::OctetStream),
            LastWord::Nothing,
            big,
            141,
        ),
        (shown(3, true, Kind::Html), LastWord::KeepAlive, kept, 161),
    ];
    let mut out = HeadBuf::new(rt.alloc())?;
    for (response, last, fields, bytes) in rows {
        let head = head_of(&rt, response, MOMENT, last, b"/", &mut out);
        let expected = joined(
            rt.alloc(),
            &[b"HTTP/1.1 200 OK\r\n", DATE_AND_SERVER, fields],
        )?;
        assert_eq!(rt; head, expected.as_slice());
        assert_eq!(rt; head.len(), bytes);
    }
    Ok(())
}

#[test]
fn each_kind_has_its_media_type(rt: HostRuntime) -> Result<(), Fail> {
    let rows = [
        (Kind::Html, b"text/html; charset=utf-8".as_slice()),
        (Kind::Plain, b"text/plain; charset=utf-8"),
        (Kind::Css, b"text/css; charset=utf-8"),
        (Kind::JavaScript, b"text/javascript; charset=utf-8"),
        (Kind::Json, b"application/json"),
        (Kind::Xml, b"application/xml"),
        (Kind::Svg, b"image/svg+xml"),
        (Kind::Png, b"image/png"),
        (Kind::Jpeg, b"image/jpeg"),
        (Kind::Gif, b"image/gif"),
        (Kind::OctetStream, b"application/octet-stream"),
    ];
    let mut out = HeadBuf::new(rt.alloc())?;
    for (kind, media_type) in rows {
        let response = shown(0, true, kind);
        let head = head_of(&rt, response, MOMENT, LastWord::Nothing, b"/", &mut out);
        let front = [
            b"HTTP/1.1 200 OK\r\n",
            DATE_AND_SERVER,
            b"Content-Type: ",
            media_type,
        ];
        let mut expected = joined(rt.alloc(), &front)?;
        expected.extend_from_slice(b"\r\nContent-Length: 0\r\n\r\n")?;
        assert_eq!(rt; head, expected.as_slice());
    }
    Ok(())
}

#[test]
fn a_date_is_told_up_to_the_end_of_the_year_9999(rt: HostRuntime) -> Result<(), Fail> {
    let rows = [
        (
            0,
            b"Date: Thu, 01 Jan 1970 00:00:00 GMT\r\n".as_slice(),
            156,
        ),
        (951_868_799, b"Date: Tue, 29 Feb 2000 23:59:59 GMT\r\n", 156),
        (951_868_800, b"Date: Wed, 01 Mar 2000 00:00:00 GMT\r\n", 156),
        (
            4_107_542_399,
            b"Date: Sun, 28 Feb 2100 23:59:59 GMT\r\n",
            156,
        ),
        (
            4_107_542_400,
            b"Date: Mon, 01 Mar 2100 00:00:00 GMT\r\n",
            156,
        ),
        (BEYOND - 1, b"Date: Fri, 31 Dec 9999 23:59:59 GMT\r\n", 156),
        (BEYOND, b"", 122 - 3),
        (u64::MAX, b"", 122 - 3),
    ];
    let behind =
        b"Server: warp-profile\r\nContent-Type: text/html; charset=utf-8\r\nContent-Length: 3\r\nConnection: close\r\n\r\n";
    let mut out = HeadBuf::new(rt.alloc())?;
    for (moment, date, bytes) in rows {
        let response = shown(3, true, Kind::Html);
        let head = head_of(&rt, response, moment, LastWord::Close, b"/", &mut out);
        let expected = joined(rt.alloc(), &[b"HTTP/1.1 200 OK\r\n", date, behind])?;
        assert_eq!(rt; head, expected.as_slice(), "at {moment}");
        assert_eq!(rt; head.len(), bytes, "at {moment}");
    }
    Ok(())
}

#[test]
fn an_answer_without_content_says_so(rt: HostRuntime) -> Result<(), Fail> {
    let allow = b"Content-Length: 0\r\nAllow: GET, HEAD, OPTIONS\r\n\r\n";
    let rows = [
        (
            empty(404, false),
            b"404 Not Found\r\n".as_slice(),
            b"Content-Length: 0\r\n\r\n".as_slice(),
            104,
        ),
        (empty(405, true), b"405 Method Not Allowed\r\n", allow, 140),
        (empty(200, true), b"200 OK\r\n", allow, 124),
        (
            empty(501, false),
            b"501 Not Implemented\r\n",
            b"Content-Length: 0\r\n\r\n",
            110,
        ),
    ];
    let mut out = HeadBuf::new(rt.alloc())?;
    for (response, line, fields, bytes) in rows {
        let head = head_of(&rt, response, MOMENT, LastWord::Nothing, b"/x", &mut out);
        let expected = joined(rt.alloc(), &[b"HTTP/1.1 ", line, DATE_AND_SERVER, fields])?;
        assert_eq!(rt; head, expected.as_slice());
        assert_eq!(rt; head.len(), bytes);
    }
    Ok(())
}

#[test]
fn a_folder_is_found_behind_a_slash(rt: HostRuntime) -> Result<(), Fail> {
    let rows = [
        (
            b"/sub?q=1".as_slice(),
            moved((0, 4), Some((5, 8))),
            b"/sub/?q=1".as_slice(),
            133,
        ),
        (b"/sub", moved((0, 4), None), b"/sub/", 129),
        (b"/sub?", moved((0, 4), Some((5, 5))), b"/sub/?", 130),
        (b"http://a/s%75b", moved((8, 14), None), b"/s%75b/", 131),
    ];
    let mut out = HeadBuf::new(rt.alloc())?;
    for (target, response, location, bytes) in rows {
        let head = head_of(&rt, response, MOMENT, LastWord::Nothing, target, &mut out);
        let mut expected = joined(
            rt.alloc(),
            &[b"HTTP/1.1 301 Moved Permanently\r\n", DATE_AND_SERVER],
        )?;
        expected.extend_from_slice(b"Content-Length: 0\r\nLocation: ")?;
        expected.extend_from_slice(location)?;
        expected.extend_from_slice(b"\r\n\r\n")?;
        assert_eq!(rt; head, expected.as_slice());
        assert_eq!(rt; head.len(), bytes);
    }
    Ok(())
}

#[test]
fn a_refusal_closes_with_99_bytes_behind_its_status_line(rt: HostRuntime) -> Result<(), Fail> {
    let rows = [
        (400, b"HTTP/1.1 400 Bad Request\r\n".as_slice(), 125),
        (413, b"HTTP/1.1 413 Content Too Large\r\n", 32 + 99),
        (414, b"HTTP/1.1 414 URI Too Long\r\n", 126),
        (417, b"HTTP/1.1 417 Expectation Failed\r\n", 33 + 99),
        (
            431,
            b"HTTP/1.1 431 Request Header Fields Too Large\r\n",
            145,
        ),
        (501, b"HTTP/1.1 501 Not Implemented\r\n", 129),
    ];
    let mut out = HeadBuf::new(rt.alloc())?;
    for (code, line, bytes) in rows {
        let head = head_of(&rt, refusal(code), MOMENT, LastWord::Close, b"", &mut out);
        let closes = b"Content-Length: 0\r\nConnection: close\r\n\r\n";
        let expected = joined(rt.alloc(), &[line, DATE_AND_SERVER, closes])?;
        assert_eq!(rt; head, expected.as_slice());
        assert_eq!(rt; head.len(), bytes);
    }
    Ok(())
}

#[test]
fn the_interim_answer_has_25_bytes(rt: HostRuntime) {
    assert_eq!(rt; interim(), b"HTTP/1.1 100 Continue\r\n\r\n".as_slice());
    assert_eq!(rt; interim().len(), 25);
}

#[test]
fn the_buffer_holds_the_longest_location(rt: HostRuntime) -> Result<(), Fail> {
    let target = vec![in rt.alloc(); b'a'; 8_192]?;
    let whole = (0, target.len());
    let mut out = HeadBuf::new(rt.alloc())?;
    let response = moved(whole, Some(whole));
    let head = head_of(
        &rt,
        response,
        MOMENT,
        LastWord::KeepAlive,
        &target,
        &mut out,
    );
    let around = 133 - b"/sub/?q=1".len() + b"/?".len() + b"Connection: keep-alive\r\n".len();
    assert_eq!(rt; head.len(), around + 2 * 8_192);
    Ok(())
}
