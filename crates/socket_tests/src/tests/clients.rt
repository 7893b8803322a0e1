//! The clients: each connects as soon as somebody listens, and says how many bytes came.
use std::io::{Read, Write};
use std::net::{Ipv4Addr, Shutdown, SocketAddr, TcpStream};
use std::thread::sleep;
use std::time::Duration;

/// How often a client tries to connect, ten milliseconds apart, and how often it reads at most.
const TRIES: u32 = 1_000;

/// How long a client waits for bytes, in seconds.
const PATIENCE: u64 = 20;

/// Asks for a page, for a text, and for the head of the text.
const REQUESTS: &[u8] =
    b"GET / HTTP/1.1\r\nHost: a\r\n\r\nGET /a.txt HTTP/1.1\r\nHost: a\r\n\r\nHEAD /a.txt HTTP/1.1\r\nHost: a\r\n\r\n";

/// A client of the port, as soon as somebody listens there.
fn connect(rt: &HostRuntime, port: u16) -> Option<TcpStream> {
    for _ in 0..TRIES {
        if let Ok(client) = TcpStream::connect(rt, SocketAddr::from((Ipv4Addr::LOCALHOST, port))) {
            return Some(client);
        }
        sleep(rt, Duration::from_millis(10));
    }
    None
}

/// How many bytes come to the end of the connection, if it ends in time.
fn read_to_end(client: &mut TcpStream) -> Option<usize> {
    let patience = Some(Duration::from_secs(PATIENCE));
    client.set_read_timeout(patience).ok()?;
    let mut room = [0u8; 4096];
    let mut read = 0usize;
    for _ in 0..TRIES {
        match client.read(&mut room) {
            Ok(0) => return Some(read),
            Ok(count) => read = read.saturating_add(count),
            Err(_) => return None,
        }
    }
    None
}

/// Asks and ends its side. How many bytes come.
fn ask(rt: &HostRuntime, port: u16) -> Option<usize> {
    let mut client = connect(rt, port)?;
    client.write_all(REQUESTS).ok()?;
    client.shutdown(Shutdown::Write).ok()?;
    read_to_end(&mut client)
}

/// Asks on one connection, and then on another.
pub(super) fn ask_twice(rt: &HostRuntime, port: u16) -> Option<(usize, usize)> {
    let first = ask(rt, port)?;
    let second = ask(rt, port)?;
    Some((first, second))
}

/// Says nothing. How many bytes come.
pub(super) fn say_nothing(rt: &HostRuntime, port: u16) -> Option<usize> {
    let mut client = connect(rt, port)?;
    read_to_end(&mut client)
}
