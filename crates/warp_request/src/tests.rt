//! The cases that a reader of the rules would try, each with the verdict that the rules give.
mod bodies;
mod framing;

use crate::limits::{FIELD_LIMIT, HEAD_LIMIT};
use crate::scratch::Scratch;
use crate::verdict::{Framing, HeadInfo, Next, Span};
use crate::{is_blank, next};
use std::alloc::{AllocError, Global};
use std::process::Abort;
use std::test::Fail;
use warp_response::status::{BAD_REQUEST, HEADER_FIELDS_TOO_LARGE, NOT_IMPLEMENTED, URI_TOO_LONG};

/// A head: the places of its method and its target, its minor version, its length, and whether the
/// connection stays open; then its framing, and whether an interim answer is due.
macro_rules! asked {
    ($m0:literal .. $m1:literal, $t0:literal .. $t1:literal, $minor:literal, $len:literal, $keeps:literal) => {
        asked!($m0..$m1, $t0..$t1, $minor, $len, $keeps, Framing::None, false)
    };
    ($m0:literal .. $m1:literal, $t0:literal .. $t1:literal, $minor:literal, $len:literal, $keeps:literal, $framing:expr, $interim:literal) => {
        Next::Head(HeadInfo {
            method: Span { start: $m0, end: $m1 },
            target: Span { start: $t0, end: $t1 },
            minor: $minor,
            head_len: $len,
            framing: $framing,
            keeps: $keeps,
            interim: $interim,
        })
    };
}

type Row = (&'static str, &'static [u8], Next);

fn check(rt: &impl Abort, alloc: Global, rows: &[Row]) -> Result<(), Fail> {
    let mut scratch = Scratch::new(alloc)?;
    for (what, text, expected) in rows {
        assert_eq!(rt; next(text, &mut scratch), *expected, "{what}");
    }
    Ok(())
}

const A_REQUEST_LINE_HAS_TO_BE_WHOLE_BEFORE_IT_IS_JUDGED: [Row; 12] = [
    ("nothing", b"", Next::More),
    ("a line that is cut", b"GET /a HT", Next::More),
    ("two empty lines", b"\r\n\r\n", Next::More),
    ("an empty line and a lone CR", b"\r\n\r", Next::More),
    (
        "a line without its fields",
        b"GET / HTTP/1.1\r\n",
        Next::More,
    ),
    (
        "a head without its last line",
        b"GET / HTTP/1.1\r\nHost: a\r\n",
        Next::More,
    ),
    (
        "a target beyond ASCII, in a head that is cut",
        b"GET /\xc3\xa9 HTTP/1.1\r\n",
        Next::More,
    ),
    (
        "another version",
        b"GET / HTTP/2.0\r\nHost: a\r\n\r\n",
        Next::Refuse(BAD_REQUEST),
    ),
    (
        "another version, as soon as its line is whole",
        b"GET / HTTP/2.0\r\n",
        Next::Refuse(BAD_REQUEST),
    ),
    ("no version", b"GET /\r\n", Next::Refuse(BAD_REQUEST)),
    (
        "a target that is no UTF-8, as soon as its line is whole",
        b"GET /\xc3 HTTP/1.1\r\n",
        Next::Refuse(BAD_REQUEST),
    ),
    (
        "two spaces",
        b"GET  / HTTP/1.1\r\n",
        Next::Refuse(BAD_REQUEST),
    ),
];

#[test]
fn a_request_line_has_to_be_whole_before_it_is_judged(rt: HostRuntime) -> Result<(), Fail> {
    check(
        &rt,
        rt.alloc(),
        &A_REQUEST_LINE_HAS_TO_BE_WHOLE_BEFORE_IT_IS_JUDGED,
    )
}

const A_FIELD_LINE_IS_A_NAME_A_COLON_AND_A_VALUE: [Row; 10] = [
    (
        "a space before the colon",
        b"GET / HTTP/1.1\r\nHost : a\r\n\r\n",
        Next::Refuse(BAD_REQUEST),
    ),
    (
        "a space before the colon of a line that is cut",
        b"GET / HTTP/1.1\r\nHost :",
        Next::Refuse(BAD_REQUEST),
    ),
    (
        "a first field line that begins with a space",
        b"GET / HTTP/1.1\r\n Host: a\r\n\r\n",
        Next::Refuse(BAD_REQUEST),
    ),
    (
        "a later field line that begins with a tab",
        b"GET / HTTP/1.1\r\nHost: a\r\n\tb\r\n\r\n",
        Next::Refuse(BAD_REQUEST),
    ),
    (
        "no name",
        b"GET / HTTP/1.1\r\n: a\r\n\r\n",
        Next::Refuse(BAD_REQUEST),
    ),
    (
        "no colon",
        b"GET / HTTP/1.1\r\nHost\r\n\r\n",
        Next::Refuse(BAD_REQUEST),
    ),
    (
        "a NUL in a value",
        b"GET / HTTP/1.1\r\nHost: a\r\nX: \x00\r\n\r\n",
        Next::Refuse(BAD_REQUEST),
    ),
    (
        "lines that end in LF",
        b"GET / HTTP/1.1\nHost: a\n\n",
        asked!(0..3, 4..5, 1, 24, true),
    ),
    (
        "empty lines before it",
        b"\r\n\nGET / HTTP/1.1\r\nHost: a\r\n\r\n",
        asked!(3..6, 7..8, 1, 30, true),
    ),
    (
        "bytes behind it",
        b"GET / HTTP/1.1\r\nHost: a\r\n\r\nGET",
        asked!(0..3, 4..5, 1, 27, true),
    ),
];

#[test]
fn a_field_line_is_a_name_a_colon_and_a_value(rt: HostRuntime) -> Result<(), Fail> {
    check(&rt, rt.alloc(), &A_FIELD_LINE_IS_A_NAME_A_COLON_AND_A_VALUE)
}

const EXACTLY_ONE_RIGHT_HOST_IS_THERE_UNDER_1_1: [Row; 10] = [
    (
        "one",
        b"GET / HTTP/1.1\r\nHost: a\r\n\r\n",
        asked!(0..3, 4..5, 1, 27, true),
    ),
    (
        "an empty one",
        b"GET / HTTP/1.1\r\nHost:\r\n\r\n",
        asked!(0..3, 4..5, 1, 25, true),
    ),
    (
        "an address and a port, with spaces around",
        b"GET / HTTP/1.1\r\nHOST: \t[::1]:80 \r\n\r\n",
        asked!(0..3, 4..5, 1, 36, true),
    ),
    (
        "none under 1.0",
        b"GET / HTTP/1.0\r\n\r\n",
        asked!(0..3, 4..5, 0, 18, false),
    ),
    ("none", b"GET / HTTP/1.1\r\n\r\n", Next::Refuse(BAD_REQUEST)),
    (
        "two",
        b"GET / HTTP/1.1\r\nHost: a\r\nhost: a\r\n\r\n",
        Next::Refuse(BAD_REQUEST),
    ),
    (
        "a space within",
        b"GET / HTTP/1.1\r\nHost: a b\r\n\r\n",
        Next::Refuse(BAD_REQUEST),
    ),
    (
        "a path",
        b"GET / HTTP/1.1\r\nHost: a/b\r\n\r\n",
        Next::Refuse(BAD_REQUEST),
    ),
    (
        "a user",
        b"GET / HTTP/1.1\r\nHost: u@a\r\n\r\n",
        Next::Refuse(BAD_REQUEST),
    ),
    (
        "a space within, under 1.0",
        b"GET / HTTP/1.0\r\nHost: a b\r\n\r\n",
        Next::Refuse(BAD_REQUEST),
    ),
];

#[test]
fn exactly_one_right_host_is_there_under_1_1(rt: HostRuntime) -> Result<(), Fail> {
    check(&rt, rt.alloc(), &EXACTLY_ONE_RIGHT_HOST_IS_THERE_UNDER_1_1)
}

const A_TARGET_HAS_A_FORM_THAT_ITS_METHOD_ALLOWS: [Row; 18] = [
    (
        "a path",
        b"HEAD /a?b HTTP/1.1\r\nHost: a\r\n\r\n",
        asked!(0..4, 5..9, 1, 31, true),
    ),
    (
        "a path that begins with two slashes",
        b"GET //a HTTP/1.1\r\nHost: a\r\n\r\n",
        asked!(0..3, 4..7, 1, 29, true),
    ),
    (
        "the absolute form",
        b"GET http://a/x HTTP/1.1\r\nHost: a\r\n\r\n",
        asked!(0..3, 4..14, 1, 36, true),
    ),
    (
        "the absolute form in other letters, with a query",
        b"GET HttpS://a?b HTTP/1.1\r\nHost: a\r\n\r\n",
        asked!(0..3, 4..15, 1, 37, true),
    ),
    (
        "an authority",
        b"CONNECT a:1 HTTP/1.1\r\nHost: a\r\n\r\n",
        asked!(0..7, 8..11, 1, 33, true),
    ),
    (
        "the asterisk",
        b"OPTIONS * HTTP/1.1\r\nHost: a\r\n\r\n",
        asked!(0..7, 8..9, 1, 31, true),
    ),
    (
        "a method that nobody knows",
        b"BREW / HTTP/1.1\r\nHost: a\r\n\r\n",
        asked!(0..4, 5..6, 1, 28, true),
    ),
    (
        "the asterisk with another method",
        b"GET * HTTP/1.1\r\nHost: a\r\n\r\n",
        Next::Refuse(BAD_REQUEST),
    ),
    (
        "the asterisk with small letters",
        b"options * HTTP/1.1\r\nHost: a\r\n\r\n",
        Next::Refuse(BAD_REQUEST),
    ),
    (
        "more than the asterisk",
        b"OPTIONS *a HTTP/1.1\r\nHost: a\r\n\r\n",
        Next::Refuse(BAD_REQUEST),
    ),
    (
        "an authority with another method",
        b"GET a:1 HTTP/1.1\r\nHost: a\r\n\r\n",
        Next::Refuse(BAD_REQUEST),
    ),
    (
        "an authority with small letters",
        b"connect a:1 HTTP/1.1\r\nHost: a\r\n\r\n",
        Next::Refuse(BAD_REQUEST),
    ),
    (
        "another scheme",
        b"GET ftp://a/ HTTP/1.1\r\nHost: a\r\n\r\n",
        Next::Refuse(BAD_REQUEST),
    ),
    (
        "no authority before a path",
        b"GET http:///x HTTP/1.1\r\nHost: a\r\n\r\n",
        Next::Refuse(BAD_REQUEST),
    ),
    (
        "no authority before a query",
        b"GET https://?x HTTP/1.1\r\nHost: a\r\n\r\n",
        Next::Refuse(BAD_REQUEST),
    ),
    (
        "no authority",
        b"GET http:// HTTP/1.1\r\nHost: a\r\n\r\n",
        Next::Refuse(BAD_REQUEST),
    ),
    (
        "less than a scheme",
        b"GET http HTTP/1.1\r\nHost: a\r\n\r\n",
        Next::Refuse(BAD_REQUEST),
    ),
    (
        "a byte beyond ASCII",
        b"GET /\xc3\xa9 HTTP/1.1\r\nHost: a\r\n\r\n",
        Next::Refuse(BAD_REQUEST),
    ),
];

#[test]
fn a_target_has_a_form_that_its_method_allows(rt: HostRuntime) -> Result<(), Fail> {
    check(&rt, rt.alloc(), &A_TARGET_HAS_A_FORM_THAT_ITS_METHOD_ALLOWS)
}

const A_CONNECTION_STAYS_OPEN_BY_ITS_VERSION_AND_ITS_WORDS: [Row; 13] = [
    (
        "1.1",
        b"GET / HTTP/1.1\r\nHost: a\r\n\r\n",
        asked!(0..3, 4..5, 1, 27, true),
    ),
    (
        "1.1 with close",
        b"GET / HTTP/1.1\r\nHost: a\r\nConnection: close\r\n\r\n",
        asked!(0..3, 4..5, 1, 46, false),
    ),
    (
        "1.1 with close in a list, in other letters",
        b"GET / HTTP/1.1\r\nHost: a\r\nconnection: x,\tCLOSE ,y\r\n\r\n",
        asked!(0..3, 4..5, 1, 52, false),
    ),
    (
        "1.1 with close in a second line",
        b"GET / HTTP/1.1\r\nHost: a\r\nConnection: x\r\nConnection: close\r\n\r\n",
        asked!(0..3, 4..5, 1, 61, false),
    ),
    (
        "1.1 with both words",
        b"GET / HTTP/1.1\r\nHost: a\r\nConnection: close, keep-alive\r\n\r\n",
        asked!(0..3, 4..5, 1, 58, false),
    ),
    (
        "1.1 with another word",
        b"GET / HTTP/1.1\r\nHost: a\r\nConnection: closed\r\n\r\n",
        asked!(0..3, 4..5, 1, 47, true),
    ),
    (
        "1.1 with a word that holds a space",
        b"GET / HTTP/1.1\r\nHost: a\r\nConnection: close x\r\n\r\n",
        asked!(0..3, 4..5, 1, 48, true),
    ),
    (
        "1.0",
        b"GET / HTTP/1.0\r\n\r\n",
        asked!(0..3, 4..5, 0, 18, false),
    ),
    (
        "1.0 with keep-alive",
        b"GET / HTTP/1.0\r\nConnection: keep-alive\r\n\r\n",
        asked!(0..3, 4..5, 0, 42, true),
    ),
    (
        "1.0 with keep-alive between empty members",
        b"GET / HTTP/1.0\r\nConnection: , Keep-Alive,\r\n\r\n",
        asked!(0..3, 4..5, 0, 45, true),
    ),
    (
        "1.0 with both words in two lines",
        b"GET / HTTP/1.0\r\nConnection: keep-alive\r\nConnection: close\r\n\r\n",
        asked!(0..3, 4..5, 0, 61, false),
    ),
    (
        "1.0 with another word",
        b"GET / HTTP/1.0\r\nConnection: keep\r\n\r\n",
        asked!(0..3, 4..5, 0, 36, false),
    ),
    (
        "a browser",
        b"GET /sub/ HTTP/1.1\r\nHost: localhost:8080\r\nUser-Agent: Mozilla/5.0 (X11; Linux x86_64; rv:128.0) Gecko/20100101 Firefox/128.0\r\nAccept: text/html,*/*;q=0.8\r\nConnection: keep-alive\r\nCookie: theme=dark; lang=en\r\n\r\n",
        asked!(0..3, 4..9, 1, 210, true),
    ),
];

#[test]
fn a_connection_stays_open_by_its_version_and_its_words(rt: HostRuntime) -> Result<(), Fail> {
    check(
        &rt,
        rt.alloc(),
        &A_CONNECTION_STAYS_OPEN_BY_ITS_VERSION_AND_ITS_WORDS,
    )
}

const HOST_IS_JUDGED_BEFORE_THE_FRAMING: [Row; 4] = [
    (
        "no Host, and content that is too long",
        b"POST / HTTP/1.1\r\nContent-Length: 1048577\r\n\r\n",
        Next::Refuse(BAD_REQUEST),
    ),
    (
        "two Host lines, and a coding that nobody knows",
        b"POST / HTTP/1.1\r\nHost: a\r\nHost: a\r\nTransfer-Encoding: x, chunked\r\n\r\n",
        Next::Refuse(BAD_REQUEST),
    ),
    (
        "one Host line, and a coding that nobody knows",
        b"POST / HTTP/1.1\r\nHost: a\r\nTransfer-Encoding: x, chunked\r\n\r\n",
        Next::Refuse(NOT_IMPLEMENTED),
    ),
    (
        "a longer name",
        b"POST / HTTP/1.1\r\nHost: a\r\nContent-Length-Of: 5\r\n\r\n",
        asked!(0..4, 5..6, 1, 50, true),
    ),
];

#[test]
fn host_is_judged_before_the_framing(rt: HostRuntime) -> Result<(), Fail> {
    check(&rt, rt.alloc(), &HOST_IS_JUDGED_BEFORE_THE_FRAMING)
}

/// The front, as many letters `a`, and the end.
fn long_text(
    alloc: Global,
    front: &[u8],
    letters: usize,
    end: &[u8],
) -> Result<Vec<u8>, AllocError> {
    let mut text = Vec::new(alloc);
    text.extend_from_slice(front)?;
    for _ in 0..letters {
        text.push(b'a')?;
    }
    text.extend_from_slice(end)?;
    Ok(text)
}

#[test]
fn a_request_line_ends_within_the_limit(rt: HostRuntime) -> Result<(), Fail> {
    let mut scratch = Scratch::new(rt.alloc())?;
    let more = long_text(rt.alloc(), b"GET /", 8_186, b"")?;
    assert_eq!(rt; next(&more, &mut scratch), Next::More);
    let long = long_text(rt.alloc(), b"GET /", 8_187, b"")?;
    assert_eq!(rt; next(&long, &mut scratch), Next::Refuse(URI_TOO_LONG));
    let late = long_text(rt.alloc(), b"GET /", 8_187, b" HTTP/1.1\r\n")?;
    assert_eq!(rt; next(&late, &mut scratch), Next::Refuse(URI_TOO_LONG));
    Ok(())
}

#[test]
fn empty_lines_count_as_part_of_a_head(rt: HostRuntime) -> Result<(), Fail> {
    let mut scratch = Scratch::new(rt.alloc())?;
    let mut lines = Vec::new(rt.alloc());
    for _ in 1..HEAD_LIMIT {
        lines.push(b'\n')?;
    }
    assert_eq!(rt; next(&lines, &mut scratch), Next::More);
    lines.push(b'\n')?;
    assert_eq!(rt; next(&lines, &mut scratch), Next::Refuse(URI_TOO_LONG));
    Ok(())
}

#[test]
fn a_head_ends_within_the_limit(rt: HostRuntime) -> Result<(), Fail> {
    let mut scratch = Scratch::new(rt.alloc())?;
    let front = b"GET / HTTP/1.1\r\nHost: a\r\nX: ";
    let whole = long_text(rt.alloc(), front, 8_160, b"\r\n\r\n")?;
    assert_eq!(rt;
        next(&whole, &mut scratch),
        asked!(0..3, 4..5, 1, 8_192, true)
    );
    let more = long_text(rt.alloc(), front, 8_160, b"\r\n\r")?;
    assert_eq!(rt; next(&more, &mut scratch), Next::More);
    let long = long_text(rt.alloc(), front, 8_161, b"\r\n\r\n")?;
    assert_eq!(rt;
        next(&long, &mut scratch),
        Next::Refuse(HEADER_FIELDS_TOO_LARGE)
    );
    Ok(())
}

#[test]
fn a_head_has_at_most_100_fields(rt: HostRuntime) -> Result<(), Fail> {
    let mut scratch = Scratch::new(rt.alloc())?;
    let mut text = Vec::new(rt.alloc());
    text.extend_from_slice(b"GET / HTTP/1.1\r\nHost: a\r\n")?;
    for _ in 1..FIELD_LIMIT {
        text.extend_from_slice(b"A: b\r\n")?;
    }
    let mut more = text.clone()?;
    text.extend_from_slice(b"\r\n")?;
    assert_eq!(rt; next(&text, &mut scratch), asked!(0..3, 4..5, 1, 621, true));
    more.extend_from_slice(b"Host: b c\r\n\r\n")?;
    assert_eq!(rt;
        next(&more, &mut scratch),
        Next::Refuse(HEADER_FIELDS_TOO_LARGE)
    );
    Ok(())
}

#[test]
fn only_empty_lines_are_blank(rt: HostRuntime) {
    for (text, expected) in [
        (b"".as_slice(), true),
        (b"\r\n\n\r\n", true),
        (b"\r\n\r", false),
        (b"\n ", false),
        (b"\r\nG", false),
    ] {
        assert_eq!(rt; is_blank(text), expected);
    }
}
