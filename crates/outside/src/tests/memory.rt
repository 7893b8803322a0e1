//! The forms in memory play what they were given.
ghost use Rattle.std.specs.Prelude.{◌≡◌};
ghost use Rattle.outside.specs.MemFolder.{folder_in};

use crate::{
    Clock, Files, FindOut, Link, MemClock, MemFile, MemFiles, MemSink, PartOut, PieceLink, Place,
    ReadEvent, ReadOut, RootOut, Sink, SinkOut, WriteEvent, WriteOut,
};
use std::alloc::{AllocError, Global};
use std::marker::Brand;
use std::process::Abort;
use std::test::Fail;

#[test]
fn a_link_gives_its_pieces_as_far_as_they_fit_and_then_its_end(
    rt: HostRuntime,
) -> Result<(), Fail> {
    let alloc = rt.alloc();
    let reads = vec![in alloc;
        ReadEvent::Piece(b"hello".to_vec(alloc)?),
        ReadEvent::NotYet,
        ReadEvent::Fail,
        ReadEvent::Piece(b"!".to_vec(alloc)?),
    ]?;
    let mut link = PieceLink::new(alloc, reads, Vec::new(alloc), 0)?;
    for (answer, bytes) in [
        (ReadOut::Got(3), b"hel".as_slice()),
        (ReadOut::Got(2), b"lo".as_slice()),
        (ReadOut::NotYet, b"".as_slice()),
        (ReadOut::Failed, b"".as_slice()),
        (ReadOut::Got(1), b"!".as_slice()),
        (ReadOut::End, b"".as_slice()),
        (ReadOut::End, b"".as_slice()),
    ] {
        let mut buf = [0u8; 3];
        assert_eq!(rt; link.read(&mut buf), answer);
        assert!(rt; buf.starts_with(bytes));
    }
    Ok(())
}

#[test]
fn a_link_takes_what_its_events_say_and_no_more_than_its_room(rt: HostRuntime) -> Result<(), Fail> {
    let alloc = rt.alloc();
    let writes = vec![in alloc;
        WriteEvent::Take(2),
        WriteEvent::Take(0),
        WriteEvent::NotYet,
        WriteEvent::Fail,
        WriteEvent::Take(9),
    ]?;
    let mut link = PieceLink::new(alloc, Vec::new(alloc), writes, 8)?;
    for answer in [
        WriteOut::Took(2),
        WriteOut::Took(0),
        WriteOut::NotYet,
        WriteOut::Failed,
        WriteOut::Took(3),
        WriteOut::Took(3),
        WriteOut::Failed,
    ] {
        assert_eq!(rt; link.write(b"abc"), answer);
    }
    assert!(rt; link.sent() == b"ababcabc".as_slice());
    Ok(())
}

/// Looks at files with these contents, of which the second and the sixth call fail.
fn looks_at_files<K: Place>(
    rt: &impl Abort,
    alloc: Global,
    contents: Vec<MemFile>,
) -> Result<(), AllocError>
    requires { folder_in contents.items ≡ K.folder }
{
    let failing = vec![in alloc; 2, 6]?;
    let mut files = MemFiles::<K>::new(alloc, contents, true, failing);
    assert_eq!(rt; files.root("site"), RootOut::Present);
    assert!(rt; matches!(files.find("a.txt"), FindOut::Failed));
    assert!(rt; matches!(files.find("b.txt"), FindOut::Absent));
    let FindOut::Found(mut opened) = files.find("a.txt") else {
        panic!(rt; "a.txt stands there");
    };
    assert_eq!(rt; opened.size, 5);
    assert_eq!(rt; opened.mtime, 7);
    assert!(rt; MemFiles::<K>::is_at(&opened.file, "a.txt"));
    assert!(rt; !MemFiles::<K>::is_at(&opened.file, "b.txt"));
    for (at, answer, bytes) in [
        (0, PartOut::Got(3), b"hel".as_slice()),
        (3, PartOut::Failed, b"".as_slice()),
        (3, PartOut::Got(2), b"lo".as_slice()),
    ] {
        let mut buf = [0u8; 3];
        assert!(rt; at < 5);
        assert_eq!(rt; files.read_at(&mut opened.file, at, &mut buf), answer);
        assert!(rt; buf.starts_with(bytes));
    }
    assert_eq!(rt; files.finds(), 3);
    Ok(())
}

#[test]
fn files_in_memory_are_found_by_path_and_fail_by_number(rt: HostRuntime) -> Result<(), Fail> {
    let alloc = rt.alloc();
    let file = MemFile {
        path: String::from_str(alloc, "a.txt")?,
        bytes: b"hello".to_vec(alloc)?,
        mtime: 7,
    };
    looks_at_files::<Brand>(&rt, alloc, vec![in alloc; file]?)?;
    Ok(())
}

#[test]
fn a_root_that_is_not_there_is_absent(rt: HostRuntime) -> Result<(), Fail> {
    let alloc = rt.alloc();
    let mut files = MemFiles::<Brand>::new(alloc, Vec::new(alloc), false, Vec::new(alloc));
    assert_eq!(rt; files.root("site"), RootOut::Absent);
    Ok(())
}

#[test]
fn a_clock_gives_its_moments_in_order_and_repeats_the_last(rt: HostRuntime) -> Result<(), Fail> {
    let mut clock = MemClock::new(vec![in rt.alloc(); 5, 7]?);
    for moment in [5, 7, 7, 7] {
        assert_eq!(rt; clock.now(), moment);
    }
    Ok(())
}

#[test]
fn a_sink_stores_a_piece_as_far_as_it_fits(rt: HostRuntime) -> Result<(), Fail> {
    let mut sink = MemSink::new(rt.alloc(), 5)?;
    for (piece, answer) in [
        (b"abc".as_slice(), SinkOut::Stored),
        (b"def".as_slice(), SinkOut::Failed),
        (b"".as_slice(), SinkOut::Stored),
        (b"g".as_slice(), SinkOut::Failed),
    ] {
        assert_eq!(rt; sink.put(piece), answer);
    }
    assert!(rt; sink.bytes() == b"abcde".as_slice());
    Ok(())
}
