//! `serve` on the loopback: answered connections, one that says nothing, and a port that is taken. Each loop
//! has its limit, and no read of a client waits longer than a test has time.
mod clients;
mod server;
mod site;

use clients::{ask_twice, say_nothing};
use server::{Left, serve};
use site::{free_port, lay, listen, port_of, words};
use std::alloc::Global;
use std::sync::{Arc, Wait};
use std::test::Fail;
use std::thread::{Threads, join};

/// How many bytes answer the requests of a client: a page, a text, and the head of the text.
const ANSWERS: usize = 140 + 1_141 + 141;

/// The server in one thread, and a client that asks on two connections in another.
fn serve_two<R: Threads + Wait + Sync>(
    rt: &R,
    held: &Arc<HostRuntime, Global>,
    words: &[String],
    port: u16,
) -> (Option<Left>, Option<(usize, usize)>) {
    join(rt, || serve(rt, held, words), || ask_twice(held, port))
}

/// The server in one thread, and a client that says nothing in another.
fn serve_silence<R: Threads + Wait + Sync>(
    rt: &R,
    held: &Arc<HostRuntime, Global>,
    words: &[String],
    port: u16,
) -> (Option<Left>, Option<usize>) {
    join(rt, || serve(rt, held, words), || say_nothing(held, port))
}

#[test]
fn two_connections_are_answered(rt: HostRuntime) -> Result<(), Fail> {
    let rt = Arc::new(rt.alloc(), rt)?;
    let folder = "site_of_two_connections";
    lay(&*rt, folder)?;
    let port = free_port(&*rt)?;
    let words = words(rt.alloc(), folder, port, "2", "2", "30")?;
    let (left, answers) = serve_two(&*rt, &rt, &words, port);
    let left = left.ok_or("no memory")?;
    assert_eq!(*rt; answers, Some((ANSWERS, ANSWERS)));
    assert_eq!(*rt; left.status, 0);
    assert!(*rt; left.out.as_slice() == b"listening\nconnections 2\n".as_slice());
    assert!(*rt; left.errors.is_empty());
    assert_eq!(*rt; left.ended_cleanly, 2);
    Ok(())
}

#[test]
fn a_connection_that_says_nothing_times_out(rt: HostRuntime) -> Result<(), Fail> {
    let rt = Arc::new(rt.alloc(), rt)?;
    let folder = "site_of_a_silent_client";
    lay(&*rt, folder)?;
    let port = free_port(&*rt)?;
    let words = words(rt.alloc(), folder, port, "2", "1", "1")?;
    let (left, came) = serve_silence(&*rt, &rt, &words, port);
    let left = left.ok_or("no memory")?;
    assert_eq!(*rt; came, Some(0));
    assert_eq!(*rt; left.status, 0);
    assert!(*rt; left.out.as_slice() == b"listening\nconnections 1\n".as_slice());
    assert_eq!(*rt; left.timed_out, 1);
    Ok(())
}

#[test]
fn a_port_that_is_taken_is_no_place_to_listen(rt: HostRuntime) -> Result<(), Fail> {
    let rt = Arc::new(rt.alloc(), rt)?;
    let folder = "site_of_a_taken_port";
    lay(&*rt, folder)?;
    let taken = listen(&*rt)?;
    let words = words(rt.alloc(), folder, port_of(&taken)?, "1", "1", "1")?;
    let left = serve(&*rt, &rt, &words).ok_or("no memory")?;
    assert_eq!(*rt; left.status, 12);
    assert!(*rt; left.out.is_empty());
    assert!(*rt; left.errors.as_slice() == b"cannot listen\n".as_slice());
    assert!(*rt; !left.was_served);
    Ok(())
}
