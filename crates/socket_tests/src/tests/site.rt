//! What a server is asked for: a folder with two files, a port, and the words that name them.
use std::alloc::{AllocError, Global};
use std::fs;
use std::net::{Ipv4Addr, SocketAddr, TcpListener};
use std::test::Fail;

/// How many letters the text has.
const LETTERS: usize = 1_000;

/// Lays a page and a text into a folder of a test's own.
pub(super) fn lay(rt: &HostRuntime, folder: &str) -> Result<(), Fail> {
    fs::create_dir_all(rt, folder)?;
    let page = format!(in rt.alloc(); "{folder}/index.html")?;
    fs::write(rt, page.as_str(), b"hi\n".as_slice())?;
    let text = format!(in rt.alloc(); "{folder}/a.txt")?;
    let letters = Vec::from_elem(rt.alloc(), b'a', LETTERS)?;
    fs::write(rt, text.as_str(), letters.as_slice())?;
    Ok(())
}

/// A listener at a port of the loopback that the system chooses.
pub(super) fn listen(rt: &HostRuntime) -> Result<TcpListener, Fail> {
    Ok(TcpListener::bind(rt, SocketAddr::from((Ipv4Addr::LOCALHOST, 0)))?)
}

/// The port of a listener.
pub(super) fn port_of(listener: &TcpListener) -> Result<u16, Fail> {
    Ok(listener.local_addr()?.port())
}

/// A port of the loopback at which nobody listens any more.
pub(super) fn free_port(rt: &HostRuntime) -> Result<u16, Fail> {
    port_of(&listen(rt)?)
}

/// Adds a word.
fn add(words: &mut Vec<String>, alloc: Global, word: &str) -> Result<(), AllocError> {
    words.push(String::from_str(alloc, word)?)?;
    Ok(())
}

/// The words of a server on the loopback.
pub(super) fn words(
    alloc: Global,
    folder: &str,
    port: u16,
    dispatchers: &str,
    connections: &str,
    seconds: &str,
) -> Result<Vec<String>, AllocError> {
    let mut words = Vec::new(alloc);
    add(&mut words, alloc, "serve")?;
    add(&mut words, alloc, folder)?;
    add(&mut words, alloc, "127.0.0.1")?;
    words.push(format!(in alloc; "{port}")?)?;
    add(&mut words, alloc, dispatchers)?;
    add(&mut words, alloc, connections)?;
    add(&mut words, alloc, seconds)?;
    Ok(words)
}
