//! Requests with bodies: what is passed over, what is refused, and when the interim answer comes. Each comes
//! in one piece and byte by byte.
ghost use Rattle.std.specs.Prelude.{IfOk};
ghost use Rattle.outside.specs.ReadScript.{EachFilled};

use super::{PAGE, Scene, cut, ends, exchanged, over_the_site, whole};
use outside::{ReadEvent, WriteEvent};
use std::alloc::{AllocError, Global};
use std::test::Fail;

const NOT_ALLOWED: &str =
    "HTTP/1.1 405 Method Not Allowed\r\nDate: Sun, 06 Nov 1994 08:49:37 GMT\r\nServer: warp-profile\r\nContent-Length: 0\r\nAllow: GET, HEAD, OPTIONS\r\n\r\n";

const BAD_REQUEST: &str = "HTTP/1.1 400 Bad Request\r\n";

const TOO_LARGE: &str = "HTTP/1.1 413 Content Too Large\r\n";

const GO_ON: &str = "HTTP/1.1 100 Continue\r\n\r\n";

#[test]
fn bodies_are_passed_over(rt: HostRuntime) -> Result<(), Fail> {
    for (what, input, length) in [
        (
            "a length",
            "POST /x HTTP/1.1\r\nHost: a\r\nContent-Length: 5\r\n\r\nhello",
            140,
        ),
        (
            "a length that is said twice",
            "POST /x HTTP/1.1\r\nHost: a\r\nContent-Length: 5, 5\r\n\r\nhello",
            140,
        ),
        (
            "a body that looks like a request",
            "POST /x HTTP/1.1\r\nHost: a\r\nContent-Length: 27\r\n\r\nGET / HTTP/1.1\r\nHost: a\r\n\r\n",
            140,
        ),
        (
            "a body that looks like a request, and a request behind it",
            "POST /x HTTP/1.1\r\nHost: a\r\nContent-Length: 27\r\n\r\nGET / HTTP/1.1\r\nHost: a\r\n\r\nGET / HTTP/1.1\r\nHost: a\r\n\r\n",
            140 + 140,
        ),
        (
            "chunks with an extension and a trailer, and a request behind them",
            "POST /x HTTP/1.1\r\nHost: a\r\nTransfer-Encoding: chunked\r\n\r\n5;a=b\r\nhello\r\n0\r\nT: 1\r\n\r\nGET / HTTP/1.1\r\nHost: a\r\n\r\n",
            140 + 140,
        ),
        (
            "a chunk that looks like the last one",
            "POST /x HTTP/1.1\r\nHost: a\r\nTransfer-Encoding: chunked\r\n\r\n5\r\n0\r\n\r\n\r\n0\r\n\r\nGET / HTTP/1.1\r\nHost: a\r\n\r\n",
            140 + 140,
        ),
    ] {
        exchanged(
            &rt,
            rt.alloc(),
            what,
            input.as_bytes(),
            0,
            length,
            NOT_ALLOWED,
        )?;
    }
    Ok(())
}

#[test]
fn a_page_is_sent_behind_the_body_of_its_request(rt: HostRuntime) -> Result<(), Fail> {
    exchanged(
        &rt,
        rt.alloc(),
        "a page",
        b"GET / HTTP/1.1\r\nHost: a\r\nContent-Length: 5\r\nConnection: close\r\n\r\nhello",
        0,
        159,
        PAGE,
    )?;
    Ok(())
}

#[test]
fn a_body_that_is_cut_short_is_not_answered(rt: HostRuntime) -> Result<(), Fail> {
    for (what, input, front) in [
        (
            "within a length",
            "POST /x HTTP/1.1\r\nHost: a\r\nContent-Length: 5\r\n\r\nhell",
            "",
        ),
        (
            "before a length",
            "POST /x HTTP/1.1\r\nHost: a\r\nContent-Length: 5\r\n\r\n",
            "",
        ),
        (
            "in front of the last chunk",
            "POST /x HTTP/1.1\r\nHost: a\r\nTransfer-Encoding: chunked\r\n\r\n5\r\nhello\r\n",
            "",
        ),
        (
            "in front of a body that was waved through",
            "POST /x HTTP/1.1\r\nHost: a\r\nExpect: 100-continue\r\nContent-Length: 5\r\n\r\n",
            GO_ON,
        ),
    ] {
        exchanged(
            &rt,
            rt.alloc(),
            what,
            input.as_bytes(),
            1,
            front.len(),
            front,
        )?;
    }
    Ok(())
}

#[test]
fn framings_that_two_servers_may_read_differently_are_refused(rt: HostRuntime) -> Result<(), Fail> {
    for (what, fields, length, front) in [
        ("two lengths", "Content-Length: 5, 6\r\n", 125, BAD_REQUEST),
        (
            "a length and chunks",
            "Content-Length: 5\r\nTransfer-Encoding: chunked\r\n",
            125,
            BAD_REQUEST,
        ),
        (
            "a coding behind chunks",
            "Transfer-Encoding: chunked, gzip\r\n",
            125,
            BAD_REQUEST,
        ),
        (
            "another coding",
            "Transfer-Encoding: gzip, chunked\r\n",
            129,
            "HTTP/1.1 501 Not Implemented\r\n",
        ),
        (
            "another expectation",
            "Expect: x\r\nContent-Length: 5\r\n",
            132,
            "HTTP/1.1 417 Expectation Failed\r\n",
        ),
        (
            "a length beyond the limit",
            "Content-Length: 1048577\r\n",
            131,
            TOO_LARGE,
        ),
    ] {
        let input = format!(in rt.alloc();
            "POST /x HTTP/1.1\r\nHost: a\r\n{fields}\r\nGET / HTTP/1.1\r\nHost: a\r\n\r\n"
        )?;
        exchanged(
            &rt,
            rt.alloc(),
            what,
            input.as_str().as_bytes(),
            0,
            length,
            front,
        )?;
    }
    exchanged(
        &rt,
        rt.alloc(),
        "chunks of HTTP/1.0",
        b"POST /x HTTP/1.0\r\nTransfer-Encoding: chunked\r\n\r\n0\r\n\r\n",
        0,
        125,
        BAD_REQUEST,
    )?;
    Ok(())
}

#[test]
fn bodies_that_break_a_rule_are_refused_and_close(rt: HostRuntime) -> Result<(), Fail> {
    for (what, body, length, front) in [
        ("a chunk size that is none", "x\r\n", 125, BAD_REQUEST),
        (
            "no CRLF behind a chunk",
            "5\r\nhello5\r\n",
            125,
            BAD_REQUEST,
        ),
        ("a chunk line with a lone CR", "5\rhello", 125, BAD_REQUEST),
        ("a chunk beyond the limit", "100001\r\n", 131, TOO_LARGE),
        (
            "chunks beyond the limit together",
            "1\r\na\r\n100000\r\n",
            131,
            TOO_LARGE,
        ),
    ] {
        let input = format!(in rt.alloc();
            "POST /x HTTP/1.1\r\nHost: a\r\nTransfer-Encoding: chunked\r\n\r\n{body}GET / HTTP/1.1\r\nHost: a\r\n\r\n"
        )?;
        exchanged(
            &rt,
            rt.alloc(),
            what,
            input.as_str().as_bytes(),
            0,
            length,
            front,
        )?;
    }
    Ok(())
}

/// A request with this many bytes of content, and one after it.
fn with_content(alloc: Global, length: usize) -> Result<Vec<u8>, AllocError> {
    let head = format!(in alloc;
        "POST /x HTTP/1.1\r\nHost: a\r\nContent-Length: {length}\r\n\r\n"
    )?;
    let mut input = head.as_str().as_bytes().to_vec(alloc)?;
    for _ in 0..length {
        input.push(b'G')?;
    }
    input.extend_from_slice(b"GET / HTTP/1.1\r\nHost: a\r\n\r\n")?;
    Ok(input)
}

#[test]
fn content_is_passed_over_beyond_what_the_input_holds(rt: HostRuntime) -> Result<(), Fail> {
    for length in [0, 1, 16_383, 16_384, 16_385] {
        let input = with_content(rt.alloc(), length)?;
        exchanged(
            &rt,
            rt.alloc(),
            "a long body",
            &input,
            0,
            140 + 140,
            NOT_ALLOWED,
        )?;
    }
    Ok(())
}

#[test]
fn content_of_1_mib_is_passed_over(rt: HostRuntime) -> Result<(), Fail> {
    let alloc = rt.alloc();
    let input = with_content(alloc, 1_048_576)?;
    let reads = whole(alloc, &input)?;
    let outcome = over_the_site(alloc, &["connection", "site"], reads, Scene::fair(alloc))?;
    assert_eq!(rt; outcome.status, 0);
    assert_eq!(rt; outcome.sent.len(), 140 + 140);
    assert!(rt; outcome.sent.starts_with(NOT_ALLOWED.as_bytes()));
    Ok(())
}

#[test]
fn the_interim_answer_comes_before_the_final_one(rt: HostRuntime) -> Result<(), Fail> {
    let alloc = rt.alloc();
    let waved = format!(in alloc; "{GO_ON}{NOT_ALLOWED}")?;
    for (what, fields, body) in [
        ("a length", "Content-Length: 5", "hello"),
        ("chunks", "Transfer-Encoding: chunked", "0\r\n\r\n"),
    ] {
        let input = format!(in alloc;
            "POST /x HTTP/1.1\r\nHost: a\r\nExpect: 100-continue\r\n{fields}\r\n\r\n{body}"
        )?;
        exchanged(
            &rt,
            alloc,
            what,
            input.as_str().as_bytes(),
            0,
            25 + 140,
            waved.as_str(),
        )?;
    }
    exchanged(
        &rt,
        alloc,
        "no content",
        b"POST /x HTTP/1.1\r\nHost: a\r\nExpect: 100-continue\r\nContent-Length: 0\r\n\r\n",
        0,
        140,
        NOT_ALLOWED,
    )?;
    exchanged(
        &rt,
        alloc,
        "HTTP/1.0",
        b"POST /x HTTP/1.0\r\nExpect: 100-continue\r\nContent-Length: 5\r\n\r\nhello",
        0,
        159,
        "HTTP/1.1 405 Method Not Allowed\r\n",
    )?;
    let refused = format!(in alloc; "{GO_ON}{BAD_REQUEST}")?;
    exchanged(
        &rt,
        alloc,
        "a body that is refused",
        b"POST /x HTTP/1.1\r\nHost: a\r\nExpect: 100-continue\r\nTransfer-Encoding: chunked\r\n\r\nx",
        0,
        25 + 125,
        refused.as_str(),
    )?;
    Ok(())
}

#[test]
fn the_interim_answer_is_sent_before_the_body_is_waited_for(rt: HostRuntime) -> Result<(), Fail> {
    let alloc = rt.alloc();
    let head = b"POST /x HTTP/1.1\r\nHost: a\r\nExpect: 100-continue\r\nContent-Length: 5\r\n\r\n";
    for (what, body, many) in [
        ("no body yet", "", false),
        ("no body yet, byte by byte", "", true),
        ("a part of the body", "hel", false),
        ("a part of the body, byte by byte", "hel", true),
    ] {
        let mut input = head.to_vec(alloc)?;
        input.extend_from_slice(body.as_bytes())?;
        let outcome = over_the_site(
            alloc,
            &["connection", "site"],
            then_late(alloc, &input, many)?,
            Scene::fair(alloc),
        )?;
        ends(&rt, what, &outcome, 13, GO_ON.as_bytes(), "not ready\n");
    }
    Ok(())
}

/// The input in one piece or in pieces of one byte, and then a read that isn't ready.
fn then_late(alloc: Global, input: &[u8], in_bytes: bool) -> Result<Vec<ReadEvent>, AllocError>
    ensures { IfOk result (λ reads. EachFilled reads.items) }
{
    let mut reads = cut(alloc, input, in_bytes)?;
    reads.push(ReadEvent::NotYet)?;
    Ok(reads)
}

#[test]
fn an_interim_answer_and_the_final_one_leave_in_one_write(rt: HostRuntime) -> Result<(), Fail> {
    let alloc = rt.alloc();
    let scene = Scene {
        writes: vec![in alloc; WriteEvent::Take(4_096), WriteEvent::Fail]?,
        ..Scene::fair(alloc)
    };
    let input =
        b"POST /x HTTP/1.1\r\nHost: a\r\nExpect: 100-continue\r\nContent-Length: 5\r\n\r\nhello";
    let reads = whole(alloc, input)?;
    let outcome = over_the_site(alloc, &["connection", "site"], reads, scene)?;
    assert_eq!(rt; outcome.status, 0);
    assert_eq!(rt; outcome.sent.len(), 25 + 140);
    Ok(())
}
