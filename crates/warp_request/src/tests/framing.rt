//! Heads that delimit their content, as honest and as hostile clients write them, each with the verdict that
//! the rules give; and the requests after them.
use crate::body_reader::{BodyReader, BodyState, Fed};
use crate::limits::BODY_LIMIT;
use crate::next;
use crate::scratch::Scratch;
use crate::verdict::{Framing, Next};
use std::alloc::Global;
use std::process::Abort;
use std::test::Fail;
use warp_response::status::{BAD_REQUEST, CONTENT_TOO_LARGE, EXPECTATION_FAILED, NOT_IMPLEMENTED};

/// What the head is for, its version, its lines after Host, and the verdict on it: the framing and whether an
/// interim answer is due, or the status of a refusal.
type Row = (
    &'static str,
    &'static [u8],
    &'static [u8],
    Result<(Framing, bool), u16>,
);

const NEW: &[u8] = b"HTTP/1.1";

const OLD: &[u8] = b"HTTP/1.0";

/// Content of this length.
macro_rules! length {
    ($length:expr) => {
        Ok((Framing::Length($length), false))
    };
}

/// The verdict on a head with these lines, or 0 for one that isn't whole.
fn asked(
    alloc: Global,
    version: &[u8],
    lines: &[u8],
) -> Result<Result<(Framing, bool), u16>, Fail> {
    let mut scratch = Scratch::new(alloc)?;
    let mut text = Vec::new(alloc);
    text.extend_from_slice(b"POST /x ")?;
    text.extend_from_slice(version)?;
    text.extend_from_slice(b"\r\nHost: a\r\n")?;
    text.extend_from_slice(lines)?;
    text.extend_from_slice(b"\r\n")?;
    match next(&text, &mut scratch) {
        Next::Head(head) => Ok(Ok((head.framing, head.interim))),
        Next::Refuse(code) => Ok(Err(code)),
        Next::More => Ok(Err(0)),
    }
}

fn check(rt: &impl Abort, alloc: Global, rows: &[Row]) -> Result<(), Fail> {
    for (what, version, lines, expected) in rows {
        assert_eq!(rt; asked(alloc, version, lines)?, *expected, "{what}");
    }
    Ok(())
}

const A_LENGTH_IS_ONE_NUMBER: [Row; 29] = [
    ("none", NEW, b"", Ok((Framing::None, false))),
    ("one", NEW, b"Content-Length: 5\r\n", length!(5)),
    ("under 1.0", OLD, b"content-length:5\r\n", length!(5)),
    ("0", NEW, b"Content-Length: 0\r\n", length!(0)),
    (
        "zeros before it",
        NEW,
        b"Content-Length: 005\r\n",
        length!(5),
    ),
    (
        "the same twice in a list",
        NEW,
        b"Content-Length: 5, 5\r\n",
        length!(5),
    ),
    (
        "the same with another zero",
        NEW,
        b"Content-Length: 5 ,\t05\r\n",
        length!(5),
    ),
    (
        "the same in two lines",
        NEW,
        b"Content-Length: 5\r\nContent-Length: 5\r\n",
        length!(5),
    ),
    (
        "two different in a list",
        NEW,
        b"Content-Length: 5, 6\r\n",
        Err(BAD_REQUEST),
    ),
    (
        "two different in two lines",
        NEW,
        b"Content-Length: 5\r\nContent-Length: 6\r\n",
        Err(BAD_REQUEST),
    ),
    (
        "a different one behind two",
        NEW,
        b"Content-Length: 5\r\nContent-Length: 5, 6\r\n",
        Err(BAD_REQUEST),
    ),
    ("a plus", NEW, b"Content-Length: +5\r\n", Err(BAD_REQUEST)),
    ("a minus", NEW, b"Content-Length: -5\r\n", Err(BAD_REQUEST)),
    (
        "a space within",
        NEW,
        b"Content-Length: 5 5\r\n",
        Err(BAD_REQUEST),
    ),
    ("0x", NEW, b"Content-Length: 0x5\r\n", Err(BAD_REQUEST)),
    ("a letter", NEW, b"Content-Length: 5a\r\n", Err(BAD_REQUEST)),
    ("a point", NEW, b"Content-Length: 5.0\r\n", Err(BAD_REQUEST)),
    (
        "a digit beyond ASCII",
        NEW,
        b"Content-Length: \xd9\xa5\r\n",
        Err(BAD_REQUEST),
    ),
    ("nothing", NEW, b"Content-Length:\r\n", Err(BAD_REQUEST)),
    (
        "an empty member behind it",
        NEW,
        b"Content-Length: 5,\r\n",
        Err(BAD_REQUEST),
    ),
    (
        "an empty member before it",
        NEW,
        b"Content-Length: , 5\r\n",
        Err(BAD_REQUEST),
    ),
    (
        "as much as is taken",
        NEW,
        b"Content-Length: 1048576\r\n",
        length!(BODY_LIMIT),
    ),
    (
        "one more",
        NEW,
        b"Content-Length: 1048577\r\n",
        Err(CONTENT_TOO_LARGE),
    ),
    (
        "2 to the 64th",
        NEW,
        b"Content-Length: 18446744073709551616\r\n",
        Err(CONTENT_TOO_LARGE),
    ),
    (
        "2 to the 64th and 0",
        NEW,
        b"Content-Length: 18446744073709551616, 0\r\n",
        Err(BAD_REQUEST),
    ),
    (
        "2 to the 64th and one more",
        NEW,
        b"Content-Length: 18446744073709551616, 18446744073709551617\r\n",
        Err(BAD_REQUEST),
    ),
    (
        "10 to the 40th",
        NEW,
        b"Content-Length: 10000000000000000000000000000000000000000\r\n",
        Err(CONTENT_TOO_LARGE),
    ),
    (
        "10 to the 40th, twice",
        NEW,
        b"Content-Length: 10000000000000000000000000000000000000000, 010000000000000000000000000000000000000000\r\n",
        Err(CONTENT_TOO_LARGE),
    ),
    (
        "10 to the 40th and to the 41st",
        NEW,
        b"Content-Length: 10000000000000000000000000000000000000000, 100000000000000000000000000000000000000000\r\n",
        Err(BAD_REQUEST),
    ),
];

#[test]
fn a_length_is_one_number(rt: HostRuntime) -> Result<(), Fail> {
    check(&rt, rt.alloc(), &A_LENGTH_IS_ONE_NUMBER)
}

const CHUNKED: Result<(Framing, bool), u16> = Ok((Framing::Chunked, false));

const CODINGS_END_IN_CHUNKED_AND_NEVER_STAND_BESIDE_A_LENGTH: [Row; 23] = [
    ("alone", NEW, b"Transfer-Encoding: chunked\r\n", CHUNKED),
    (
        "in other letters",
        NEW,
        b"transfer-encoding:ChunkeD\r\n",
        CHUNKED,
    ),
    (
        "between empty members",
        NEW,
        b"Transfer-Encoding: , chunked ,\r\nTransfer-Encoding:\r\n",
        CHUNKED,
    ),
    (
        "behind another",
        NEW,
        b"Transfer-Encoding: gzip, chunked\r\n",
        Err(NOT_IMPLEMENTED),
    ),
    (
        "behind another line",
        NEW,
        b"Transfer-Encoding: gzip\r\nTransfer-Encoding: chunked\r\n",
        Err(NOT_IMPLEMENTED),
    ),
    (
        "before another",
        NEW,
        b"Transfer-Encoding: chunked, gzip\r\n",
        Err(BAD_REQUEST),
    ),
    (
        "before another line",
        NEW,
        b"Transfer-Encoding: chunked\r\nTransfer-Encoding: identity\r\n",
        Err(BAD_REQUEST),
    ),
    (
        "another alone",
        NEW,
        b"Transfer-Encoding: gzip\r\n",
        Err(BAD_REQUEST),
    ),
    ("nothing", NEW, b"Transfer-Encoding:\r\n", Err(BAD_REQUEST)),
    (
        "empty members",
        NEW,
        b"Transfer-Encoding: , ,\r\n",
        Err(BAD_REQUEST),
    ),
    (
        "twice",
        NEW,
        b"Transfer-Encoding: chunked, chunked\r\n",
        Err(BAD_REQUEST),
    ),
    (
        "in two lines",
        NEW,
        b"Transfer-Encoding: chunked\r\nTransfer-Encoding: chunked\r\n",
        Err(BAD_REQUEST),
    ),
    (
        "twice behind another",
        NEW,
        b"Transfer-Encoding: gzip, chunked, chunked\r\n",
        Err(BAD_REQUEST),
    ),
    (
        "with a parameter",
        NEW,
        b"Transfer-Encoding: chunked;q=1\r\n",
        Err(BAD_REQUEST),
    ),
    (
        "in quotes",
        NEW,
        b"Transfer-Encoding: \"chunked\"\r\n",
        Err(BAD_REQUEST),
    ),
    (
        "a longer word",
        NEW,
        b"Transfer-Encoding: xchunked\r\n",
        Err(BAD_REQUEST),
    ),
    (
        "under 1.0",
        OLD,
        b"Transfer-Encoding: chunked\r\n",
        Err(BAD_REQUEST),
    ),
    (
        "another under 1.0",
        OLD,
        b"Transfer-Encoding: gzip, chunked\r\n",
        Err(BAD_REQUEST),
    ),
    (
        "before a length",
        NEW,
        b"Transfer-Encoding: chunked\r\nContent-Length: 5\r\n",
        Err(BAD_REQUEST),
    ),
    (
        "behind a length",
        NEW,
        b"Content-Length: 5\r\nTransfer-Encoding: chunked\r\n",
        Err(BAD_REQUEST),
    ),
    (
        "behind another, before a length",
        NEW,
        b"Transfer-Encoding: gzip, chunked\r\nContent-Length: 5\r\n",
        Err(BAD_REQUEST),
    ),
    (
        "behind a length that is too large",
        NEW,
        b"Content-Length: 1048577\r\nTransfer-Encoding: chunked\r\n",
        Err(BAD_REQUEST),
    ),
    (
        "nothing beside a length",
        NEW,
        b"Transfer-Encoding:\r\nContent-Length: 5\r\n",
        Err(BAD_REQUEST),
    ),
];

#[test]
fn codings_end_in_chunked_and_never_stand_beside_a_length(rt: HostRuntime) -> Result<(), Fail> {
    check(
        &rt,
        rt.alloc(),
        &CODINGS_END_IN_CHUNKED_AND_NEVER_STAND_BESIDE_A_LENGTH,
    )
}

const A_CLIENT_WAITS_WITH_ITS_CONTENT_ALONE: [Row; 14] = [
    (
        "with a length",
        NEW,
        b"Expect: 100-continue\r\nContent-Length: 5\r\n",
        Ok((Framing::Length(5), true)),
    ),
    (
        "with chunks",
        NEW,
        b"Transfer-Encoding: chunked\r\nexpect:100-Continue\r\n",
        Ok((Framing::Chunked, true)),
    ),
    (
        "twice",
        NEW,
        b"Expect: 100-continue\r\nExpect: 100-continue\r\nContent-Length: 5\r\n",
        Ok((Framing::Length(5), true)),
    ),
    (
        "without content",
        NEW,
        b"Expect: 100-continue\r\n",
        Ok((Framing::None, false)),
    ),
    (
        "with no byte of it",
        NEW,
        b"Expect: 100-continue\r\nContent-Length: 0\r\n",
        Ok((Framing::Length(0), false)),
    ),
    (
        "under 1.0",
        OLD,
        b"Expect: 100-continue\r\nContent-Length: 5\r\n",
        Ok((Framing::Length(5), false)),
    ),
    (
        "for something else under 1.0",
        OLD,
        b"Expect: x\r\nContent-Length: 5\r\n",
        Ok((Framing::Length(5), false)),
    ),
    (
        "for something else",
        NEW,
        b"Expect: x\r\n",
        Err(EXPECTATION_FAILED),
    ),
    ("for nothing", NEW, b"Expect:\r\n", Err(EXPECTATION_FAILED)),
    (
        "for a list",
        NEW,
        b"Expect: 100-continue, 100-continue\r\n",
        Err(EXPECTATION_FAILED),
    ),
    (
        "for something else in a later line",
        NEW,
        b"Expect: 100-continue\r\nExpect: x\r\n",
        Err(EXPECTATION_FAILED),
    ),
    (
        "for something else in an earlier line",
        NEW,
        b"Expect: x\r\nExpect: 100-continue\r\n",
        Err(EXPECTATION_FAILED),
    ),
    (
        "for something else, with too much content",
        NEW,
        b"Expect: x\r\nContent-Length: 1048577\r\n",
        Err(CONTENT_TOO_LARGE),
    ),
    (
        "for something else, with another coding",
        NEW,
        b"Expect: x\r\nTransfer-Encoding: gzip, chunked\r\n",
        Err(NOT_IMPLEMENTED),
    ),
];

#[test]
fn a_client_waits_with_its_content_alone(rt: HostRuntime) -> Result<(), Fail> {
    check(&rt, rt.alloc(), &A_CLIENT_WAITS_WITH_ITS_CONTENT_ALONE)
}

/// The length of a head and its framing, or nothing of both.
fn shown(next: Next) -> (usize, Framing) {
    match next {
        Next::Head(head) => (head.head_len, head.framing),
        _ => (0, Framing::None),
    }
}

#[test]
fn a_request_ends_where_the_next_one_begins(rt: HostRuntime) -> Result<(), Fail> {
    let mut scratch = Scratch::new(rt.alloc())?;
    let text =
        b"POST /x HTTP/1.1\r\nHost: a\r\nTransfer-Encoding: chunked\r\n\r\n5;a=b\r\nhello\r\n0\r\nT: 1\r\n\r\nGET / HTTP/1.1\r\nHost: a\r\n\r\n".as_slice();
    let first = next(text, &mut scratch);
    assert_eq!(rt; shown(first), (57, Framing::Chunked));
    let body = &text[57..];
    assert_eq!(rt;
        BodyReader::new(Framing::Chunked).feed(body),
        Fed {
            used: 25,
            state: BodyState::Whole
        }
    );
    let later = next(&body[25..], &mut scratch);
    assert_eq!(rt; shown(later), (27, Framing::None));
    Ok(())
}
