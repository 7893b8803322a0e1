//! A listener over a socket. It tells no plans.
ghost use Rattle.std.specs.Prelude.{◌≡◌, ◌≤◌, None, IfOk, OnErr};
ghost use Rattle.outside.specs.Counts.{full};
ghost use Rattle.outside.specs.ListenCauses.{IfAccepted, IsUntouched};

use crate::fault::SockFault;
use crate::home::Home;
use crate::limits::PASSED_OVER;
use crate::sock_link::SockLink;
use crate::trouble::{Trouble, trouble_of};
use mio::Interest;
use mio::net::{TcpListener, TcpStream};
use outside::{AcceptOut, Count, Listener};
use std::io;
use std::net::{Ipv4Addr, Net, SocketAddr};
use std::os::fd::{AsFd, OwnedFd};

/// A listener over a socket.
///
/// Where the process has no descriptor left, a connection that waits is turned away: a descriptor that is
/// kept for this is given up, the connection is accepted with it and closed, and it is taken again. So the
/// peer isn't left waiting, and the next one is met.
#[derive(Drop)]
pub struct SockListener {
    inner: TcpListener,
    /// The descriptor that is kept for turning away.
    spare: Option<OwnedFd>,
    /// Where it was added.
    home: Option<Home>,
    accepted: Count,
    waits: Count,
    faults: Count,
    failed_row: Count,
    ghost row_fits: { failed_row.n ≤ faults.n },
}

impl SockListener {
    ghost use Rattle.socket_poller.specs.SockListeners.{told_of, untouched_listener};

    /// Listens at an address of IPv4 and a port, or at any free port where that is 0.
    pub fn bind<N: Net>(net: &N, address: [u8; 4], port: u16) -> Result<SockListener, SockFault>
        ensures { IfOk result (λ listener. told_of listener ≡ untouched_listener) }
    {
        let [a, b, c, d] = address;
        let at = SocketAddr::from((Ipv4Addr::new(a, b, c, d), port));
        let inner = TcpListener::bind(net, at)?;
        let spare = inner.as_fd().try_clone_to_owned()?;
        Ok(SockListener {
            inner,
            spare: Some(spare),
            home: None,
            accepted: Count::new(),
            waits: Count::new(),
            faults: Count::new(),
            failed_row: Count::new(),
        })
    }

    /// The port that it listens at.
    pub fn port(&self) -> Result<u16, SockFault> {
        Ok(self.inner.local_addr()?.port())
    }

    /// Whether it was added to a poller.
    pub(crate) fn is_added(&self) -> bool {
        self.home.is_some()
    }

    /// Registers it, once. At an error it is as it was.
    pub(crate) fn join(&mut self, home: Home) -> io::Result<()>
        ensures told { told_of self.new ≡ told_of self.old }
        ensures none { OnErr result (self.new ≡ self.old) }
    {
        let (registry, token) = home.entry()?;
        registry.register(&mut self.inner, token, Interest::READABLE)?;
        self.home = Some(home);
        Ok(())
    }

    /// Asks to be reported again, since connections may wait that weren't looked at.
    fn ask_again(&mut self)
        ensures { told_of self.new ≡ told_of self.old }
    {
        if let Some(home) = &self.home
            && let Ok((registry, token)) = home.entry()
        {
            let _asked = registry.reregister(&mut self.inner, token, Interest::READABLE);
        }
    }

    /// Turns the next connection away. Whether there is a descriptor for another one.
    fn turn_away(&mut self) -> bool
        ensures { told_of self.new ≡ told_of self.old }
    {
        if let Some(spare) = self.spare.take() {
            drop(spare);
            let _turned_away = self.inner.accept();
        }
        self.spare = self.inner.as_fd().try_clone_to_owned().ok();
        self.spare.is_some()
    }

    /// The next connection that can be had.
    fn next(&mut self) -> Result<TcpStream, Trouble>
        ensures { told_of self.new ≡ told_of self.old }
    {
        for _ in 0..PASSED_OVER {
            let trouble = match self.inner.accept() {
                Ok((stream, _address)) => return Ok(stream),
                Err(error) => trouble_of(&error),
            };
            match trouble {
                Trouble::Gone => {}
                Trouble::Full if self.turn_away() => {}
                Trouble::Full => break,
                Trouble::Empty | Trouble::Broken => return Err(trouble),
            }
        }
        self.ask_again();
        Err(Trouble::Empty)
    }
}

impl Listener for SockListener {
    ghost use Rattle.socket_poller.specs.SockListeners.{told_of};

    type Link = SockLink;

    ghost told = { told_of };

    fn accept(&mut self) -> AcceptOut<SockLink> {
        match self.next() {
            Ok(stream) => {
                // Without this a small answer may wait for the acknowledgement of the one before it.
                let _at_once = stream.set_nodelay(true);
                self.accepted.rise();
                self.failed_row = Count::new();
                AcceptOut::Accepted(SockLink::new(stream))
            }
            Err(Trouble::Broken) => {
                self.faults.rise();
                self.failed_row.rise();
                AcceptOut::Failed
            }
            Err(_) => {
                self.waits.rise();
                self.failed_row = Count::new();
                AcceptOut::NotYet
            }
        }
    }

    ghost plans_apart = { λ _. tt };

    ghost row_fits = { λ listener. listener.row_fits };

    ghost accepted_fits = { λ listener. listener.accepted.fits };

    ghost waits_fit = { λ listener. listener.waits.fits };

    ghost faults_fit = { λ listener. listener.faults.fits };
}
