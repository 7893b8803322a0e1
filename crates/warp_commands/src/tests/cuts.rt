//! Input that ends, or a link that fails, at each place.
ghost use Rattle.std.specs.Prelude.{IfOk};
ghost use Rattle.outside.specs.ReadScript.{EachFilled};

use super::{Scene, THREE, byte_by_byte, over_the_site, whole};
use outside::{ReadEvent, WriteEvent};
use std::alloc::{AllocError, Global};
use std::test::Fail;

const WORDS: [&str; 2] = ["connection", "site"];

#[test]
fn input_that_ends_within_a_request_is_cut_short(rt: HostRuntime) -> Result<(), Fail> {
    let alloc = rt.alloc();
    assert_eq!(rt; THREE.len(), 92);
    for end in 0..93usize {
        let reads = whole(alloc, &THREE[..end])?;
        let outcome = over_the_site(alloc, &WORDS, reads, Scene::fair(alloc))?;
        let between = end == 0 || end == 27 || end == 59 || end == 92;
        assert_eq!(rt; outcome.status, u8::from(!between), "after {end} bytes");
    }
    Ok(())
}

/// The first pieces of ten bytes of three requests, and then a read that fails.
fn pieces_then_a_fault(alloc: Global, count: usize) -> Result<Vec<ReadEvent>, AllocError>
    ensures { IfOk result (λ reads. EachFilled reads.items) }
{
    let mut reads = tens(alloc, count)?;
    reads.push(ReadEvent::Fail)?;
    Ok(reads)
}

/// The first pieces of ten bytes of three requests.
fn tens(alloc: Global, count: usize) -> Result<Vec<ReadEvent>, AllocError>
    ensures { IfOk result (λ reads. EachFilled reads.items) }
{
    let mut reads = Vec::new(alloc);
    let mut rest = THREE;
    'pieces: for _ in 0..count {
        let n = if rest.len() < 10 { rest.len() } else { 10 };
        let piece = &rest[..n];
        if !piece.is_empty() {
            reads.push(ReadEvent::Piece(piece.to_vec(alloc)?))?;
        }
        rest = &rest[n..];
    }
    Ok(reads)
}

#[test]
fn each_read_and_each_write_may_fail(rt: HostRuntime) -> Result<(), Fail> {
    let alloc = rt.alloc();
    let fair = over_the_site(alloc, &WORDS, whole(alloc, THREE)?, Scene::fair(alloc))?;
    assert_eq!(rt; fair.sent.len(), 1_422);
    for count in 0..11usize {
        let reads = pieces_then_a_fault(alloc, count)?;
        let outcome = over_the_site(alloc, &WORDS, reads, Scene::fair(alloc))?;
        assert_eq!(rt; outcome.status, 3, "after {count} reads");
        assert!(rt; fair.sent.starts_with(&outcome.sent), "after {count} reads");
    }
    for count in 0..20usize {
        let mut writes = Vec::new(alloc);
        for _ in 0..count {
            writes.push(WriteEvent::Take(100))?;
        }
        writes.push(WriteEvent::Fail)?;
        let scene = Scene {
            writes,
            ..Scene::fair(alloc)
        };
        let outcome = over_the_site(alloc, &WORDS, tens(alloc, 10)?, scene)?;
        let status = if count < 16 { 4 } else { 0 };
        assert_eq!(rt; outcome.status, status, "after {count} writes");
        assert!(rt;
            fair.sent.starts_with(&outcome.sent),
            "after {count} writes"
        );
    }
    Ok(())
}

const CHUNKS: &[u8] =
    b"POST /x HTTP/1.1\r\nHost: a\r\nTransfer-Encoding: chunked\r\n\r\n5;a=b\r\nhello\r\n0\r\nT: 1\r\n\r\nGET / HTTP/1.1\r\nHost: a\r\n\r\n";

#[test]
fn chunks_that_end_anywhere_end_alike_in_one_piece_and_byte_by_byte(
    rt: HostRuntime,
) -> Result<(), Fail> {
    let alloc = rt.alloc();
    for end in 0..CHUNKS.len() + 1 {
        let input = &CHUNKS[..end];
        let one = over_the_site(alloc, &WORDS, whole(alloc, input)?, Scene::fair(alloc))?;
        let many = over_the_site(
            alloc,
            &WORDS,
            byte_by_byte(alloc, input)?,
            Scene::fair(alloc),
        )?;
        assert_eq!(rt; many.status, one.status, "after {end} bytes");
        assert!(rt;
            many.sent.as_slice() == one.sent.as_slice(),
            "after {end} bytes"
        );
    }
    Ok(())
}
