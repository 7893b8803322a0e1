//! What the tests stand on: a listener, pollers, links and clients.
ghost use Rattle.std.specs.Prelude.{◌<◌};
ghost use Rattle.poller.specs.Polls.{HasToken};

use crate::{SockLink, SockListener, SockPoller};
use outside::{AcceptOut, Link, Listener, ReadOut, WriteOut};
use poller::{AddOut, Poller, Reports};
use reg_keys::{Dirs, Opening};
use std::alloc::{AllocError, Global};
use std::net::{Ipv4Addr, Net, SocketAddr, TcpStream};
use std::rt::Clock;
use std::sync::atomic::{AtomicU64, Ordering};
use std::sync::{Arc, Wait};
use std::test::Fail;
use std::time::Duration;
use std::{io, thread};

/// How often a side looks at most, a millisecond or ten apart.
pub(super) const LOOKS: u32 = 2_000;

/// How long a client waits at most, in seconds.
const PATIENCE: u64 = 20;

/// An opening with a descriptor, as a manager would make it.
pub(super) fn opening(fd: u16) -> Opening
    requires { fd < 4096 }
    ensures { HasToken result }
{
    Opening {
        number: 320 + u64::from(fd % 32),
        fd,
    }
}

/// A clock that a test sets.
#[derive(Drop)]
pub(super) struct SetClock {
    seconds: AtomicU64,
}

impl SetClock {
    pub(super) fn new() -> SetClock {
        SetClock {
            seconds: AtomicU64::new(1),
        }
    }

    /// Sets it on by this many seconds.
    pub(super) fn pass(&self, seconds: u64) {
        self.seconds.fetch_add(seconds, Ordering::SeqCst);
    }
}

impl Clock for SetClock {
    fn monotonic(&self) -> io::Result<Duration> {
        Ok(Duration::from_secs(self.seconds.load(Ordering::SeqCst)))
    }

    fn since_1970(&self) -> io::Result<Duration> {
        self.monotonic()
    }
}

/// A clock that stands until it is set, for pollers.
pub(super) fn set_clock(alloc: Global) -> Result<Arc<SetClock, Global>, AllocError> {
    Ok(Arc::new(alloc, SetClock::new())?)
}

/// A listener at a free port of the loopback.
pub(super) fn listen(rt: &HostRuntime) -> Result<SockListener, Fail> {
    Ok(SockListener::bind(rt, [127, 0, 0, 1], 0)?)
}

/// A client of the listener.
pub(super) fn connect<N: Net<Stream = TcpStream>>(
    net: &N,
    listener: &SockListener,
) -> Result<TcpStream, Fail> {
    let address = SocketAddr::from((Ipv4Addr::LOCALHOST, listener.port()?));
    let client = TcpStream::connect(net, address)?;
    let patience = Some(Duration::from_secs(PATIENCE));
    client.set_read_timeout(patience)?;
    client.set_write_timeout(patience)?;
    Ok(client)
}

/// The next link, which a client has asked for.
pub(super) fn accept<C: Clock>(clock: &C, listener: &mut SockListener) -> Result<SockLink, Fail> {
    for _ in 0..LOOKS {
        match listener.accept() {
            AcceptOut::Accepted(link) => return Ok(link),
            AcceptOut::NotYet => thread::sleep(clock, Duration::from_millis(1)),
            AcceptOut::Failed | AcceptOut::NoMemory => return Err(Fail::from("not accepted")),
        }
    }
    Err(Fail::from("no connection came"))
}

/// The next link, added under an opening.
pub(super) fn accept_and_add<C: Clock, P: Clock>(
    clock: &C,
    listener: &mut SockListener,
    poller: &mut SockPoller<P>,
    opening: Opening,
) -> Result<SockLink, Fail>
    requires { HasToken opening }
{
    let mut link = accept(clock, listener)?;
    match poller.add(opening, &mut link) {
        AddOut::Added => Ok(link),
        AddOut::Failed | AddOut::NoMemory => Err(Fail::from("not added")),
    }
}

/// Polls once, asking the system, and gives how many reports came.
pub(super) fn poll<C: Clock, R: Wait>(
    rt: &R,
    poller: &mut SockPoller<C>,
    reports: &mut Reports,
) -> usize {
    reports.clear();
    let _polled = poller.poll(rt, true, reports);
    reports.len()
}

/// Polls until a report names an opening, for reading or not.
pub(super) fn wait_for<C: Clock, R: Wait>(
    rt: &R,
    poller: &mut SockPoller<C>,
    reports: &mut Reports,
    opening: Opening,
    reading: bool,
) -> bool {
    for _ in 0..LOOKS {
        let count = poll(rt, poller, reports);
        for _ in 0..count {
            if let Some((reported, dirs)) = reports.pop_first()
                && reported == opening
                && (!reading || dirs != Dirs::Write)
            {
                return true;
            }
        }
    }
    false
}

/// Reads until `NotYet` answers, the end or a fault, and polls in between. How many
/// bytes came before the end.
pub(super) fn read_to_end<C: Clock, R: Wait>(
    rt: &R,
    poller: &mut SockPoller<C>,
    reports: &mut Reports,
    link: &mut SockLink,
    opening: Opening,
) -> Option<usize> {
    let mut room = [0u8; 4096];
    let mut read = 0usize;
    for _ in 0..LOOKS {
        match link.read(&mut room) {
            ReadOut::Got(count) => read = read.saturating_add(count),
            ReadOut::End => return Some(read),
            ReadOut::Failed => return None,
            ReadOut::NotYet => {
                wait_for(rt, poller, reports, opening, true);
            }
        }
    }
    None
}

/// Writes a small piece whole.
pub(super) fn answer(link: &mut SockLink, piece: &[u8]) -> bool {
    !piece.is_empty() && link.write(piece) == WriteOut::Took(piece.len())
}
