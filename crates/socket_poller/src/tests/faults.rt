//! Peers that go away, and descriptors that run out.
use super::set_up::{LOOKS, accept, accept_and_add, answer, connect, listen, opening, set_clock};
use crate::{SockLink, SockListener, SockPoller};
use outside::{AcceptOut, Link, Listener, ReadOut, WriteOut};
use std::io::{ErrorKind, Read, Write};
use std::net::TcpStream;
use std::os::fd::{AsFd, OwnedFd};
use std::test::Fail;
use std::thread;
use std::time::Duration;

/// Writes until a write fails. Whether one did.
fn write_until_it_fails(rt: &HostRuntime, link: &mut SockLink) -> bool {
    for _ in 0..LOOKS {
        match link.write(b"x") {
            WriteOut::Failed => return true,
            WriteOut::Took(_) | WriteOut::NotYet => thread::sleep(rt, Duration::from_millis(1)),
        }
    }
    false
}

#[test]
fn a_peer_that_goes_away_is_a_fault_of_its_link_alone(rt: HostRuntime) -> Result<(), Fail> {
    let mut listener = listen(&rt)?;
    let mut pollers = SockPoller::group(&rt, &set_clock(rt.alloc())?, rt.alloc(), 1)?;
    let client = connect(&rt, &listener)?;
    let mut link = accept_and_add(&rt, &mut listener, &mut pollers[0], opening(0))?;
    let mut other = connect(&rt, &listener)?;
    let mut served = accept_and_add(&rt, &mut listener, &mut pollers[0], opening(1))?;
    drop(client);
    assert!(rt; write_until_it_fails(&rt, &mut link));
    assert_eq!(rt; link.write(b"x"), WriteOut::Failed);
    drop(link);
    assert!(rt; answer(&mut served, b"still here"));
    let mut room = [0u8; 64];
    assert_eq!(rt; other.read(&mut room)?, 10);
    Ok(())
}

#[test]
fn a_client_that_left_before_it_was_accepted_holds_nobody_up(rt: HostRuntime) -> Result<(), Fail> {
    let mut listener = listen(&rt)?;
    let mut gone = connect(&rt, &listener)?;
    gone.write_all(b"x")?;
    drop(gone);
    let mut client = connect(&rt, &listener)?;
    client.write_all(b"yz")?;
    let mut room = [0u8; 8];
    for _ in 0..LOOKS {
        let mut link = accept(&rt, &mut listener)?;
        if link.read(&mut room) == ReadOut::Got(2) {
            assert!(rt; room.starts_with(b"yz"));
            return Ok(());
        }
    }
    Err(Fail::from("the second connection didn't come"))
}

/// Takes descriptors until none is left.
fn take_all(rt: &HostRuntime, stream: &TcpStream) -> Result<Vec<OwnedFd>, Fail> {
    let mut taken = Vec::new(rt.alloc());
    for _ in 0..u32::MAX {
        match stream.as_fd().try_clone_to_owned() {
            Ok(descriptor) => taken.push(descriptor)?,
            Err(_) => return Ok(taken),
        }
    }
    Err(Fail::from("descriptors don't run out"))
}

/// Whether the peer of a client ended, or reset it.
fn is_turned_away(client: &mut TcpStream) -> bool {
    match client.read(&mut [0u8; 8]) {
        Ok(count) => count == 0,
        Err(e) => e.kind() == ErrorKind::ConnectionReset,
    }
}

/// Accepts, where no descriptor is left. Whether the answer is to wait.
fn waits(listener: &mut SockListener) -> bool {
    matches!(listener.accept(), AcceptOut::NotYet)
}

#[test]
fn where_descriptors_run_out_connections_are_turned_away(rt: HostRuntime) -> Result<(), Fail> {
    let mut listener = listen(&rt)?;
    let mut first = connect(&rt, &listener)?;
    let mut served = accept(&rt, &mut listener)?;
    let mut second = connect(&rt, &listener)?;
    let mut third = connect(&rt, &listener)?;
    let taken = take_all(&rt, &first)?;
    assert!(rt; waits(&mut listener));
    assert!(rt; is_turned_away(&mut second));
    assert!(rt; is_turned_away(&mut third));
    assert!(rt; answer(&mut served, b"ok"));
    assert_eq!(rt; first.read(&mut [0u8; 8])?, 2);
    drop(taken);
    let mut fourth = connect(&rt, &listener)?;
    let mut link = accept(&rt, &mut listener)?;
    assert!(rt; answer(&mut link, b"ok"));
    assert_eq!(rt; fourth.read(&mut [0u8; 8])?, 2);
    Ok(())
}
