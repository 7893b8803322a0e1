//! Polls, reports, reads and writes of one thread.
ghost use Rattle.std.specs.Prelude.{◌≤◌};

use super::set_up::{
    SetClock, accept, accept_and_add, answer, connect, listen, opening, poll, read_to_end,
    set_clock, wait_for,
};
use crate::{SockFault, SockLink, SockListener, SockPoller};
use outside::{Link, ReadOut};
use poller::{AddOut, PollOut, Poller, Reports};
use std::io::{Read, Write};
use std::net::{Shutdown, TcpStream};
use std::test::Fail;

#[test]
fn bytes_come_and_go_and_the_end_is_seen(rt: HostRuntime) -> Result<(), Fail> {
    let mut listener = listen(&rt)?;
    let mut pollers = SockPoller::group(&rt, &set_clock(rt.alloc())?, rt.alloc(), 1)?;
    let mut reports = Reports::new(rt.alloc())?;
    let mut client = connect(&rt, &listener)?;
    let poller = &mut pollers[0];
    let mut link = accept_and_add(&rt, &mut listener, poller, opening(7))?;
    assert!(rt; link.stream.nodelay()?);
    client.write_all(b"hello")?;
    assert!(rt; wait_for(&rt, poller, &mut reports, opening(7), true));
    let mut room = [0u8; 64];
    assert_eq!(rt; link.read(&mut room), ReadOut::Got(5));
    assert!(rt; room.starts_with(b"hello"));
    assert_eq!(rt; link.read(&mut room), ReadOut::NotYet);
    assert!(rt; answer(&mut link, b"world"));
    assert_eq!(rt; client.read(&mut room)?, 5);
    assert!(rt; room.starts_with(b"world"));
    client.write_all(&[b'x'; 10_000])?;
    client.shutdown(Shutdown::Write)?;
    let read = read_to_end(&rt, poller, &mut reports, &mut link, opening(7));
    assert_eq!(rt; read, Some(10_000));
    drop(link);
    assert_eq!(rt; client.read(&mut room)?, 0);
    Ok(())
}

#[test]
fn a_short_read_is_followed_by_the_end_that_came_with_it(rt: HostRuntime) -> Result<(), Fail> {
    let mut listener = listen(&rt)?;
    let mut pollers = SockPoller::group(&rt, &set_clock(rt.alloc())?, rt.alloc(), 1)?;
    let mut reports = Reports::new(rt.alloc())?;
    let mut client = connect(&rt, &listener)?;
    client.write_all(b"bye")?;
    client.shutdown(Shutdown::Write)?;
    let poller = &mut pollers[0];
    let mut link = accept_and_add(&rt, &mut listener, poller, opening(40))?;
    assert!(rt; wait_for(&rt, poller, &mut reports, opening(40), true));
    let mut room = [0u8; 64];
    assert_eq!(rt; link.read(&mut room), ReadOut::Got(3));
    assert_eq!(rt; link.read(&mut room), ReadOut::End);
    Ok(())
}

#[test]
fn what_comes_behind_a_short_read_is_reported(rt: HostRuntime) -> Result<(), Fail> {
    let mut listener = listen(&rt)?;
    let mut pollers = SockPoller::group(&rt, &set_clock(rt.alloc())?, rt.alloc(), 1)?;
    let mut reports = Reports::new(rt.alloc())?;
    let mut client = connect(&rt, &listener)?;
    let poller = &mut pollers[0];
    let mut link = accept_and_add(&rt, &mut listener, poller, opening(4095))?;
    client.write_all(b"ab")?;
    assert!(rt; wait_for(&rt, poller, &mut reports, opening(4095), true));
    let mut room = [0u8; 64];
    assert_eq!(rt; link.read(&mut room), ReadOut::Got(2));
    client.write_all(b"cd")?;
    // The system isn't asked here: the bytes are there already.
    assert_eq!(rt; link.read(&mut room), ReadOut::NotYet);
    assert!(rt; wait_for(&rt, poller, &mut reports, opening(4095), true));
    assert_eq!(rt; link.read(&mut room), ReadOut::Got(2));
    assert!(rt; room.starts_with(b"cd"));
    Ok(())
}

#[test]
fn every_second_poll_that_mustnt_wait_asks_the_system(rt: HostRuntime) -> Result<(), Fail> {
    let mut listener = listen(&rt)?;
    let mut pollers = SockPoller::group(&rt, &set_clock(rt.alloc())?, rt.alloc(), 1)?;
    let mut reports = Reports::new(rt.alloc())?;
    let _client = connect(&rt, &listener)?;
    let poller = &mut pollers[0];
    assert_eq!(rt; poller.poll(&rt, false, &mut reports), PollOut::Polled);
    // A new link can be written to, so it is reported as soon as the system is asked.
    let _link = accept_and_add(&rt, &mut listener, poller, opening(1))?;
    reports.clear();
    assert_eq!(rt; poller.poll(&rt, false, &mut reports), PollOut::Polled);
    assert_eq!(rt; reports.len(), 0);
    reports.clear();
    assert_eq!(rt; poller.poll(&rt, false, &mut reports), PollOut::Polled);
    assert_eq!(rt; reports.len(), 1);
    assert_eq!(rt; poll(&rt, poller, &mut reports), 0);
    Ok(())
}

/// Adds the links of this many new clients.
fn add_links(
    rt: &HostRuntime,
    listener: &mut SockListener,
    poller: &mut SockPoller<SetClock>,
    count: u16,
) -> Result<Vec<(TcpStream, SockLink)>, Fail>
    requires { count ≤ 4096 }
{
    let mut links = Vec::new(rt.alloc());
    for fd in 0..count {
        let client = connect(rt, listener)?;
        let link = accept_and_add(rt, listener, poller, opening(fd))?;
        links.push((client, link))?;
    }
    Ok(links)
}

#[test]
fn links_are_spread_over_the_pollers_that_poll(rt: HostRuntime) -> Result<(), Fail> {
    let mut listener = listen(&rt)?;
    let mut pollers = SockPoller::group(&rt, &set_clock(rt.alloc())?, rt.alloc(), 3)?;
    let mut reports = Reports::new(rt.alloc())?;
    assert_eq!(rt; poll(&rt, &mut pollers[0], &mut reports), 0);
    assert_eq!(rt; poll(&rt, &mut pollers[2], &mut reports), 0);
    let _links = add_links(&rt, &mut listener, &mut pollers[0], 6)?;
    assert_eq!(rt; poll(&rt, &mut pollers[0], &mut reports), 3);
    assert_eq!(rt; poll(&rt, &mut pollers[1], &mut reports), 0);
    assert_eq!(rt; poll(&rt, &mut pollers[2], &mut reports), 3);
    Ok(())
}

#[test]
fn a_listener_is_reported_and_a_port_is_taken_once(rt: HostRuntime) -> Result<(), Fail> {
    let mut listener = listen(&rt)?;
    let mut pollers = SockPoller::group(&rt, &set_clock(rt.alloc())?, rt.alloc(), 1)?;
    let mut reports = Reports::new(rt.alloc())?;
    let poller = &mut pollers[0];
    assert_eq!(rt;
        poller.add_listener(opening(2), &mut listener),
        AddOut::Added
    );
    assert_eq!(rt;
        poller.add_listener(opening(2), &mut listener),
        AddOut::Added
    );
    let _client = connect(&rt, &listener)?;
    assert!(rt; wait_for(&rt, poller, &mut reports, opening(2), true));
    let mut link = accept(&rt, &mut listener)?;
    assert_eq!(rt; poller.add(opening(3), &mut link), AddOut::Added);
    assert_eq!(rt; poller.add(opening(4), &mut link), AddOut::Added);
    assert!(rt; wait_for(&rt, poller, &mut reports, opening(3), false));
    let again = SockListener::bind(&rt, [127, 0, 0, 1], listener.port()?);
    assert!(rt; matches!(again, Err(SockFault::Machine(98))));
    Ok(())
}
