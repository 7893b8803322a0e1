//! Links that are let go while their peers are sending still.
use super::set_up::{
    LOOKS, SetClock, accept_and_add, answer, connect, listen, opening, poll, set_clock, wait_for,
};
use crate::{LINGER_SECONDS, LINGERING, SockListener, SockPoller};
use outside::{Link, ReadOut};
use poller::Reports;
use std::io::{ErrorKind, Read, Write};
use std::net::{Net, Shutdown, TcpStream};
use std::sync::Wait;
use std::test::Fail;
use std::thread;
use std::time::Duration;

/// Lets a link of a client go, which was asked with a byte and answered with three.
fn answer_and_let_go<R: Net<Stream = TcpStream> + Wait>(
    rt: &R,
    clock: &SetClock,
    listener: &mut SockListener,
    poller: &mut SockPoller<SetClock>,
    reports: &mut Reports,
) -> Result<TcpStream, Fail> {
    let mut client = connect(rt, listener)?;
    client.write_all(b"?")?;
    let mut link = accept_and_add(clock, listener, poller, opening(3))?;
    let mut room = [0u8; 1];
    for _ in 0..LOOKS {
        if link.read(&mut room) == ReadOut::Got(1) {
            break;
        }
        wait_for(rt, poller, reports, opening(3), true);
    }
    if answer(&mut link, b"no!") {
        return Ok(client);
    }
    Err(Fail::from("not answered"))
}

/// Polls so often that each place was looked at.
fn poll_round<R: Wait>(rt: &R, poller: &mut SockPoller<SetClock>, reports: &mut Reports) {
    for _ in 0..20 {
        poll(rt, poller, reports);
    }
}

/// Whether a client may send still: a few writes, a millisecond apart.
fn may_send(rt: &HostRuntime, client: &mut TcpStream) -> bool {
    for _ in 0..20 {
        if client.write(b"more").is_err() {
            return false;
        }
        thread::sleep(rt, Duration::from_millis(1));
    }
    true
}

#[test]
fn a_link_lingers_until_its_time_is_over(rt: HostRuntime) -> Result<(), Fail> {
    let mut listener = listen(&rt)?;
    let clock = set_clock(rt.alloc())?;
    let mut pollers = SockPoller::group(&rt, &clock, rt.alloc(), 1)?;
    let mut reports = Reports::new(rt.alloc())?;
    let poller = &mut pollers[0];
    let mut client = answer_and_let_go(&rt, &*clock, &mut listener, poller, &mut reports)?;
    poll_round(&rt, poller, &mut reports);
    clock.pass(LINGER_SECONDS - 1);
    poll_round(&rt, poller, &mut reports);
    assert!(rt; may_send(&rt, &mut client));
    poll_round(&rt, poller, &mut reports);
    assert!(rt; may_send(&rt, &mut client));
    let mut room = [0u8; 8];
    assert_eq!(rt; client.read(&mut room)?, 3);
    assert!(rt; room.starts_with(b"no!"));
    clock.pass(1);
    poll_round(&rt, poller, &mut reports);
    assert!(rt; !may_send(&rt, &mut client));
    Ok(())
}

#[test]
fn a_link_lingers_until_its_peer_ends(rt: HostRuntime) -> Result<(), Fail> {
    let mut listener = listen(&rt)?;
    let clock = set_clock(rt.alloc())?;
    let mut pollers = SockPoller::group(&rt, &clock, rt.alloc(), 1)?;
    let mut reports = Reports::new(rt.alloc())?;
    let poller = &mut pollers[0];
    let mut client = answer_and_let_go(&rt, &*clock, &mut listener, poller, &mut reports)?;
    poll_round(&rt, poller, &mut reports);
    assert_eq!(rt; poller.lingering(), 1);
    client.shutdown(Shutdown::Write)?;
    poll_round(&rt, poller, &mut reports);
    assert_eq!(rt; poller.lingering(), 0);
    Ok(())
}

/// Sends until that fails, or this many pieces were sent. How many were.
fn send_pieces<R: Wait>(
    rt: &R,
    client: &mut TcpStream,
    poller: &mut SockPoller<SetClock>,
    reports: &mut Reports,
    piece: &[u8],
    pieces: u32,
) -> Result<u32, Fail> {
    client.set_write_timeout(Some(Duration::from_millis(1)))?;
    let mut sent = 0u32;
    for _ in 0..1_000_000u32 {
        if sent >= pieces {
            break;
        }
        match client.write(piece) {
            Ok(_) => sent = sent.saturating_add(1),
            Err(e) if e.kind() == ErrorKind::WouldBlock => {}
            Err(_) => break,
        }
        poll(rt, poller, reports);
    }
    Ok(sent)
}

#[test]
fn a_peer_that_sends_too_much_is_closed(rt: HostRuntime) -> Result<(), Fail> {
    let mut listener = listen(&rt)?;
    let clock = set_clock(rt.alloc())?;
    let mut pollers = SockPoller::group(&rt, &clock, rt.alloc(), 1)?;
    let mut reports = Reports::new(rt.alloc())?;
    let poller = &mut pollers[0];
    let mut client = answer_and_let_go(&rt, &*clock, &mut listener, poller, &mut reports)?;
    poll_round(&rt, poller, &mut reports);
    let piece = Vec::from_elem(rt.alloc(), b'x', 65_536)?;
    let sent = send_pieces(&rt, &mut client, poller, &mut reports, &piece, 128)?;
    assert_eq!(rt; sent, 128);
    assert_eq!(rt; poller.lingering(), 1);
    let more = send_pieces(&rt, &mut client, poller, &mut reports, &piece, 1_024)?;
    assert!(rt; more < 1_024);
    assert_eq!(rt; poller.lingering(), 0);
    Ok(())
}

#[test]
fn no_more_links_linger_than_there_are_places(rt: HostRuntime) -> Result<(), Fail> {
    let mut listener = listen(&rt)?;
    let clock = set_clock(rt.alloc())?;
    let mut pollers = SockPoller::group(&rt, &clock, rt.alloc(), 1)?;
    let mut reports = Reports::new(rt.alloc())?;
    let poller = &mut pollers[0];
    let mut clients = Vec::new(rt.alloc());
    for _ in 0..LINGERING + 10 {
        clients.push(answer_and_let_go(&rt, &*clock, &mut listener, poller, &mut reports)?)?;
    }
    poll_round(&rt, poller, &mut reports);
    assert_eq!(rt; poller.lingering(), LINGERING);
    clock.pass(LINGER_SECONDS);
    poll_round(&rt, poller, &mut reports);
    assert_eq!(rt; poller.lingering(), 0);
    Ok(())
}

#[test]
fn a_link_that_was_not_answered_is_closed_at_once(rt: HostRuntime) -> Result<(), Fail> {
    let mut listener = listen(&rt)?;
    let clock = set_clock(rt.alloc())?;
    let mut pollers = SockPoller::group(&rt, &clock, rt.alloc(), 1)?;
    let mut reports = Reports::new(rt.alloc())?;
    let poller = &mut pollers[0];
    let mut client = connect(&rt, &listener)?;
    client.write_all(b"?")?;
    drop(accept_and_add(&*clock, &mut listener, poller, opening(3))?);
    poll_round(&rt, poller, &mut reports);
    assert_eq!(rt; poller.lingering(), 0);
    assert!(rt; !may_send(&rt, &mut client));
    Ok(())
}
