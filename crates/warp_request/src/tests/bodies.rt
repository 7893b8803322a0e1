//! Bodies as a client may send them, whole, broken and cut at any place.
use crate::body_reader::{BodyReader, BodyState};
use crate::verdict::Framing;
use std::alloc::{AllocError, Global};
use std::test::Fail;

/// How many bytes of the pieces a reader uses in all, and where it stands then.
fn read(framing: Framing, pieces: &[&[u8]]) -> (usize, BodyState) {
    let mut reader = BodyReader::new(framing);
    let mut used: usize = 0;
    let mut state = BodyState::More;
    for piece in pieces {
        let fed = reader.feed(piece);
        used = used.saturating_add(fed.used);
        state = fed.state;
    }
    (used, state)
}

#[test]
fn a_body_has_the_bytes_that_its_framing_says(rt: HostRuntime) {
    for (framing, piece, used, state) in [
        (Framing::None, b"hello".as_slice(), 0, BodyState::Whole),
        (Framing::Length(0), b"hello".as_slice(), 0, BodyState::Whole),
        (Framing::Length(5), b"hello".as_slice(), 5, BodyState::Whole),
        (
            Framing::Length(5),
            b"hello GET".as_slice(),
            5,
            BodyState::Whole,
        ),
        (Framing::Length(9), b"hello".as_slice(), 5, BodyState::More),
        (
            Framing::Chunked,
            b"5\r\nhello\r\n0\r\n\r\nGET".as_slice(),
            15,
            BodyState::Whole,
        ),
        (
            Framing::Chunked,
            b"5;a=b\r\nhello\r\n0\r\nT: 1\r\n\r\nGET".as_slice(),
            25,
            BodyState::Whole,
        ),
        (
            Framing::Chunked,
            b"a\t \r\n\r\n\0\r\n\n\n\r\r5\r\n0 ;\x80\r\n\r\n".as_slice(),
            25,
            BodyState::Whole,
        ),
        (
            Framing::Chunked,
            b"00000001\r\na\r\n00\r\n\r\n".as_slice(),
            19,
            BodyState::Whole,
        ),
        (
            Framing::Chunked,
            b"5\r\nhello\r\n0\r\nT: 1\r\n".as_slice(),
            19,
            BodyState::More,
        ),
        (
            Framing::Chunked,
            b"100000\r\n".as_slice(),
            8,
            BodyState::More,
        ),
    ] {
        assert_eq!(rt; read(framing, &[piece]), (used, state));
    }
}

#[test]
fn hostile_framings_are_refused(rt: HostRuntime) {
    for (code, body) in [
        (400, b"\r".as_slice()),
        (400, b"\n".as_slice()),
        (400, b";".as_slice()),
        (400, b"g".as_slice()),
        (400, b"000000005".as_slice()),
        (400, b"5\n".as_slice()),
        (400, b"5;\n".as_slice()),
        (400, b"5;a\n".as_slice()),
        (400, b"5;a=\0".as_slice()),
        (400, b"5;\x7f".as_slice()),
        (400, b"5\r\r".as_slice()),
        (400, b"5;\ra".as_slice()),
        (400, b"5;a\r\r".as_slice()),
        (400, b"5 5\r5".as_slice()),
        (400, b"5x".as_slice()),
        (400, b"5\r\nhello6".as_slice()),
        (400, b"5\r\nhello\n".as_slice()),
        (400, b"5\r\nhello\r6".as_slice()),
        (400, b"1\r\na\r\n\r".as_slice()),
        (400, b"0\r\n\n".as_slice()),
        (400, b"0\r\n\r\r".as_slice()),
        (400, b"0\r\nT: 1\n".as_slice()),
        (400, b"0\r\nT: \0".as_slice()),
        (400, b"0\r\nT: 1\rU".as_slice()),
        (413, b"100001\r\n".as_slice()),
        (413, b"ffffffff\r\n".as_slice()),
        (413, b"1\r\na\r\n100000\r\n".as_slice()),
    ] {
        let state = BodyState::Refuse(code);
        assert_eq!(rt;
            read(Framing::Chunked, &[body]),
            (body.len(), state),
            "{body:?}"
        );
        let (_, early) = body
            .split_last()
            .map_or((0, body), |(last, early)| (*last, early));
        assert_eq!(rt;
            read(Framing::Chunked, &[early]),
            (early.len(), BodyState::More),
            "{body:?}"
        );
    }
}

/// A text with this many letters between two others.
fn padded(alloc: Global, front: &[u8], letters: usize, back: &[u8]) -> Result<Vec<u8>, AllocError> {
    let mut text = Vec::new(alloc);
    text.extend_from_slice(front)?;
    for _ in 0..letters {
        text.push(b'a')?;
    }
    text.extend_from_slice(back)?;
    Ok(text)
}

#[test]
fn lines_and_trailers_have_their_limits(rt: HostRuntime) -> Result<(), Fail> {
    for (front, letters, back, used, state) in [
        // A chunk line of 256 bytes, and one of 257.
        (
            b"0;".as_slice(),
            252,
            b"\r\n\r\n".as_slice(),
            258,
            BodyState::Whole,
        ),
        (
            b"0;".as_slice(),
            253,
            b"\r\n\r\n".as_slice(),
            256,
            BodyState::Refuse(400),
        ),
        // A trailer section of 4,096 bytes, and one of 4,097.
        (
            b"0\r\n".as_slice(),
            4_092,
            b"\r\n\r\n".as_slice(),
            4_099,
            BodyState::Whole,
        ),
        (
            b"0\r\n".as_slice(),
            4_093,
            b"\r\n\r\n".as_slice(),
            4_099,
            BodyState::Refuse(431),
        ),
        // The 4,096th byte is itself a fault.
        (
            b"0\r\n".as_slice(),
            4_095,
            b"\n".as_slice(),
            4_099,
            BodyState::Refuse(400),
        ),
        (
            b"0\r\n".as_slice(),
            4_095,
            b"\r".as_slice(),
            4_099,
            BodyState::Refuse(431),
        ),
    ] {
        let body = padded(rt.alloc(), front, letters, back)?;
        assert_eq!(rt;
            read(Framing::Chunked, &[body.as_slice()]),
            (used, state),
            "{letters}"
        );
    }
    Ok(())
}

#[test]
fn the_sizes_of_all_chunks_have_a_limit(rt: HostRuntime) -> Result<(), Fail> {
    let half = padded(rt.alloc(), b"80000\r\n", 524_288, b"\r\n")?;
    assert_eq!(rt;
        read(
            Framing::Chunked,
            &[half.as_slice(), b"80000\r\n".as_slice()]
        ),
        (524_304, BodyState::More)
    );
    assert_eq!(rt;
        read(
            Framing::Chunked,
            &[half.as_slice(), b"80001\r\n".as_slice()]
        ),
        (524_304, BodyState::Refuse(413))
    );
    Ok(())
}

#[test]
fn a_length_of_the_limit_is_read_whole(rt: HostRuntime) -> Result<(), Fail> {
    let half = padded(rt.alloc(), b"", 524_288, b"")?;
    assert_eq!(rt;
        read(
            Framing::Length(1_048_576),
            &[half.as_slice(), half.as_slice(), b"GET".as_slice()]
        ),
        (1_048_576, BodyState::Whole)
    );
    Ok(())
}

#[test]
fn a_body_may_be_cut_anywhere(rt: HostRuntime) {
    for (framing, body, used, state) in [
        (
            Framing::Chunked,
            b"5;a=b\r\nhello\r\n1\r\n!\r\n0\r\nT: 1\r\n\r\nGET /".as_slice(),
            31,
            BodyState::Whole,
        ),
        (
            Framing::Chunked,
            b"5\r\nhello\r\n0\r\nT: 1\r\n".as_slice(),
            19,
            BodyState::More,
        ),
        (
            Framing::Chunked,
            b"5\r\nhello\r\n0\r\nT\0 1\r\n\r\n".as_slice(),
            15,
            BodyState::Refuse(400),
        ),
        (
            Framing::Chunked,
            b"1\r\n!\r\n100000;a\r\nhello".as_slice(),
            16,
            BodyState::Refuse(413),
        ),
        (
            Framing::Length(5),
            b"hello GET".as_slice(),
            5,
            BodyState::Whole,
        ),
    ] {
        for at in 0..=body.len() {
            let (front, back) = body.split_at(at);
            assert_eq!(rt; read(framing, &[front, back]), (used, state), "{at}");
        }
        assert_eq!(rt; read(framing, &[body]), (used, state));
    }
}

#[test]
fn a_settled_body_uses_nothing_more(rt: HostRuntime) {
    let whole = [
        b"2\r\nhi\r\n0\r\n\r\n".as_slice(),
        b"GET".as_slice(),
        b"\r\n".as_slice(),
    ];
    assert_eq!(rt; read(Framing::Chunked, &whole), (12, BodyState::Whole));
    let refused = [b"x".as_slice(), b"2\r\nhi\r\n0\r\n\r\n".as_slice()];
    assert_eq!(rt;
        read(Framing::Chunked, &refused),
        (1, BodyState::Refuse(400))
    );
}
