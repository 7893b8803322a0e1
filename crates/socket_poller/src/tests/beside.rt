//! A server and a client in two threads.
use super::set_up::{
    LOOKS, accept_and_add, answer, connect, listen, opening, poll, set_clock, wait_for,
};
use crate::{SockLink, SockListener, SockPoller};
use outside::{AcceptOut, Link, Listener};
use poller::Reports;
use reg_keys::Opening;
use std::io::{Read, Write};
use std::net::TcpStream;
use std::rt::Clock;
use std::sync::Wait;
use std::sync::atomic::{AtomicBool, Ordering};
use std::test::Fail;
use std::thread::{Threads, join};

/// A body that is refused: more than the system keeps of what nobody reads.
const BODY: usize = 2_000_000;

/// Sends a body whole, and only then reads the answer. How many bytes of it came before the end, if it came
/// whole.
fn send_and_ask(client: &mut TcpStream, body: &[u8], done: &AtomicBool) -> Option<usize> {
    let answered = send_and_read(client, body);
    done.store(true, Ordering::SeqCst);
    answered
}

/// The same, without a note that it is done.
fn send_and_read(client: &mut TcpStream, body: &[u8]) -> Option<usize> {
    client.write_all(body).ok()?;
    let mut room = [0u8; 64];
    let mut read = 0usize;
    for _ in 0..LOOKS {
        match client.read(&mut room) {
            Ok(0) => return Some(read),
            Ok(count) => read = read.saturating_add(count),
            Err(_) => return None,
        }
    }
    None
}

/// Reads a little, answers and lets the link go, and polls until the client is done. Whether it answered, and
/// no other connection came.
fn refuse<C: Clock, R: Wait>(
    rt: &R,
    poller: &mut SockPoller<C>,
    reports: &mut Reports,
    mut link: SockLink,
    opening: Opening,
    listener: &mut SockListener,
    done: &AtomicBool,
) -> bool {
    wait_for(rt, poller, reports, opening, true);
    let mut room = [0u8; 1024];
    let _head = link.read(&mut room);
    let answered = answer(&mut link, b"413, and that is all");
    drop(link);
    for _ in 0..LOOKS {
        if done.load(Ordering::SeqCst) {
            break;
        }
        poll(rt, poller, reports);
    }
    answered && matches!(listener.accept(), AcceptOut::NotYet)
}

/// A client that sends a body, beside a server that refuses it.
fn refuse_beside<C: Clock + Sync, R: Threads + Wait + Sync>(
    rt: &R,
    poller: &mut SockPoller<C>,
    reports: &mut Reports,
    link: SockLink,
    listener: &mut SockListener,
    client: &mut TcpStream,
    body: &[u8],
) -> (Option<usize>, bool) {
    let done = AtomicBool::new(false);
    join(
        rt,
        || send_and_ask(client, body, &done),
        || refuse(rt, poller, reports, link, opening(9), listener, &done),
    )
}

#[test]
fn the_answer_to_a_refused_body_is_read_whole(rt: HostRuntime) -> Result<(), Fail> {
    let mut listener = listen(&rt)?;
    let mut pollers = SockPoller::group(&rt, &set_clock(rt.alloc())?, rt.alloc(), 1)?;
    let mut reports = Reports::new(rt.alloc())?;
    let poller = &mut pollers[0];
    let mut client = connect(&rt, &listener)?;
    let link = accept_and_add(&rt, &mut listener, poller, opening(9))?;
    let body = Vec::from_elem(rt.alloc(), b'x', BODY)?;
    let came = refuse_beside(
        &rt,
        poller,
        &mut reports,
        link,
        &mut listener,
        &mut client,
        &body,
    );
    assert_eq!(rt; came, (Some(20), true));
    Ok(())
}
