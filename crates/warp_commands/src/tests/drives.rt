//! Whole commands, by the call that the program is: loads that are served in memory, and one connection.

use super::{ASKED, MOMENT, PAGE, ROOM, Scene, USAGE, over_the_site, whole};
use crate::{Host, run};
use outside::{MemClock, MemFiles, MemSink, PieceLink};
use poller::MemPoller;
use std::alloc::{AllocError, Global};
use std::sync::Wait;
use std::test::Fail;
use std::thread::Threads;
use warp_core::{Counts, ServeEnd};
use warp_front::NoFront;
use warp_jobs::FreeGate;
use warp_load::{LoadPlace, load_files};

/// The front of these commands, which is asked for nothing, or wants memory.
type MemFront = NoFront<MemPoller, MemFiles<LoadPlace>, MemClock, FreeGate>;

/// What a command is run with here.
pub(super) type MemHost = Host<
    PieceLink,
    MemFiles<LoadPlace>,
    MemClock,
    MemSink,
    MemSink,
    MemFront,
>;

/// Runs these words over the files of a load, with a link that asks for a page and so much room for
/// lines: the status, and the host.
pub(super) fn ran<R: Threads + Wait + Sync>(
    rt: &R,
    alloc: Global,
    words: &[&str],
    room: usize,
) -> Result<(u8, MemHost), AllocError> {
    let mut owned = Vec::new(alloc);
    for word in words {
        owned.push(String::from_str(alloc, word)?)?;
    }
    let mut host = Host {
        link: PieceLink::new(alloc, whole(alloc, ASKED)?, Vec::new(alloc), ROOM)?,
        files: MemFiles::new(alloc, load_files(alloc)?, true, Vec::new(alloc)),
        clock: MemClock::new(vec![in alloc; MOMENT]?),
        out: MemSink::new(alloc, room)?,
        errors: MemSink::new(alloc, 300)?,
        front: NoFront::new(),
        served: None,
        driven: None,
    };
    let status = run(rt, alloc, &owned, &mut host);
    Ok((status, host))
}

#[test]
fn a_load_adds_up_to_the_same_for_any_number_of_dispatchers(rt: HostRuntime) -> Result<(), Fail> {
    for dispatchers in ["1", "2", "3", "8"] {
        let (status, host) = ran(&rt, rt.alloc(), &["drive", "7", "8", "8", dispatchers], 100)?;
        assert_eq!(rt; status, 0, "{dispatchers}");
        assert_eq!(rt;
            host.out.bytes(),
            b"connections 8\nrequests 64\nbytes 336648\n".as_slice(),
            "{dispatchers}"
        );
        assert_eq!(rt; host.errors.bytes(), b"".as_slice(), "{dispatchers}");
        assert_eq!(rt; host.link.sent(), b"".as_slice(), "the link is not used");
    }
    Ok(())
}

#[test]
fn what_a_server_left_is_in_the_host(rt: HostRuntime) -> Result<(), Fail> {
    let (_status, host) = ran(&rt, rt.alloc(), &["drive", "0", "3", "1", "2"], 100)?;
    let Some(driven) = &host.driven else {
        return Err(Fail::from("nothing was left"));
    };
    assert!(rt;
        driven.end
            == ServeEnd::Over(Counts {
                accepted: 3,
                turned: 0
            })
    );
    assert_eq!(rt; driven.kits.len(), 2);
    assert_eq!(rt; (driven.limit, driven.seconds), (3, 30));
    Ok(())
}

#[test]
fn an_output_without_room_gets_the_front_of_the_lines(rt: HostRuntime) -> Result<(), Fail> {
    let lines = b"connections 1\nrequests 1\nbytes 140\n";
    for room in 0..lines.len() {
        let (status, host) = ran(&rt, rt.alloc(), &["drive", "0", "1", "1", "1"], room)?;
        assert_eq!(rt; status, 11, "{room}");
        assert_eq!(rt; host.out.bytes(), &lines[..room], "{room}");
        assert_eq!(rt; host.errors.bytes(), b"".as_slice(), "{room}");
    }
    let (status, host) = ran(&rt, rt.alloc(), &["drive", "0", "1", "1", "1"], lines.len())?;
    assert_eq!(rt; status, 0);
    assert_eq!(rt; host.out.bytes(), lines.as_slice());
    Ok(())
}

#[test]
fn words_of_no_load_are_no_command(rt: HostRuntime) -> Result<(), Fail> {
    let wrong: [&[&str]; 8] = [
        &["drive"],
        &["drive", "7", "200", "20"],
        &["drive", "7", "200", "20", "4", "1"],
        &["drive", "7", "200", "20", "0"],
        &["drive", "7", "200", "20", "65"],
        &["drive", "7", "4001", "1", "4"],
        &["drive", "x", "200", "20", "4"],
        &["serve", "7", "200", "20", "4"],
    ];
    for words in wrong {
        let (status, host) = ran(&rt, rt.alloc(), words, 100)?;
        assert_eq!(rt; status, 2);
        assert_eq!(rt; host.out.bytes(), b"".as_slice());
        assert_eq!(rt; host.errors.bytes(), USAGE.as_bytes());
        assert!(rt; host.driven.is_none());
    }
    Ok(())
}

#[test]
fn one_connection_is_served_as_by_its_own_call(rt: HostRuntime) -> Result<(), Fail> {
    let words = ["connection", "site"];
    let (status, host) = ran(&rt, rt.alloc(), &words, 100)?;
    let outcome = over_the_site(
        rt.alloc(),
        &words,
        whole(rt.alloc(), ASKED)?,
        Scene::fair(rt.alloc()),
    )?;
    assert_eq!(rt; status, outcome.status);
    assert_eq!(rt; host.link.sent(), PAGE.as_bytes());
    assert_eq!(rt; host.link.sent(), outcome.sent.as_slice());
    assert_eq!(rt;
        (host.out.bytes(), host.errors.bytes()),
        (b"".as_slice(), b"".as_slice())
    );
    assert!(rt; host.driven.is_none());
    Ok(())
}
