//! A link over a socket. It tells no bytes.
ghost use Rattle.std.specs.Prelude.{◌≡◌, ◌<◌, Some, None, false, length, refl, IsTrue, OnErr};
ghost use Rattle.outside.specs.Causes.{bytes_got, bytes_taken, GivesWithin, Read, TakesWithin, Wrote};
ghost use Rattle.outside.specs.ListenCauses.{IsUntouched};

use crate::home::Home;
use crate::retry::{read_once, write_once};
use mio::Interest;
use mio::net::TcpStream;
use outside::{Count, Link, ReadOut, WriteOut};
use std::io::ErrorKind;
use std::{io, mem};

/// How far the talk with a peer went.
#[derive(Clone, Copy)]
enum Talk {
    /// Nothing was written.
    Silent,
    /// Something was written, and the peer may be sending still.
    Answered,
    /// The peer ended, or there was a fault.
    Over,
}

/// A link over a socket. A link that is let go after it was written to, and whose peer may be sending still,
/// shuts its writing side and lingers: what comes is taken for a while and thrown away,
/// and then it is closed.
/// Closed at once, with bytes unread, it would be reset, and the peer might lose what was written.
pub struct SockLink {
    pub(crate) stream: TcpStream,
    /// Where it was added.
    home: Option<Home>,
    /// Whether the last read took all that was there.
    drained: bool,
    talk: Talk,
    read_faults: Count,
    write_faults: Count,
    read_waits: Count,
    write_waits: Count,
}

impl SockLink {
    ghost use Rattle.socket_poller.specs.SockLinks.{told_of};

    /// The link of a socket that doesn't wait.
    pub(crate) fn new(stream: TcpStream) -> SockLink
        ensures { IsUntouched (told_of result) }
    {
        SockLink {
            stream,
            home: None,
            drained: false,
            talk: Talk::Silent,
            read_faults: Count::new(),
            write_faults: Count::new(),
            read_waits: Count::new(),
            write_waits: Count::new(),
        }
    }

    /// Whether it was added to a poller.
    pub(crate) fn is_added(&self) -> bool {
        self.home.is_some()
    }

    /// Registers it, once and for both directions. At an error it is as it was.
    pub(crate) fn join(&mut self, home: Home) -> io::Result<()>
        ensures told { told_of self.new ≡ told_of self.old }
        ensures none { OnErr result (self.new ≡ self.old) }
    {
        let (registry, token) = home.entry()?;
        let both = Interest::READABLE | Interest::WRITABLE;
        registry.register(&mut self.stream, token, both)?;
        self.home = Some(home);
        Ok(())
    }

    /// Whether a read would surely have to wait: the last one took all that was there, and no end of the
    /// peer was reported since. That is asked once for each such read, so the next one asks the system.
    fn must_wait(&mut self) -> bool
        ensures told { told_of self.new ≡ told_of self.old }
        ensures only { IsTrue result → IsTrue self.old.drained }
        ensures once { self.new.drained ≡ false }
    {
        let drained = mem::replace(&mut self.drained, false);
        drained && !self.has_ended()
    }

    /// Whether the peer's end was reported. Where nothing is reported it may have come.
    fn has_ended(&self) -> bool {
        match &self.home {
            Some(home) => home.has_ended(),
            None => true,
        }
    }
}

impl Link for SockLink {
    ghost use Rattle.socket_poller.specs.SockLinks.{IsDrained, told_of};

    ghost told = { told_of };

    ghost sure = { false };

    // Where a read filled its buffer, the next one asks the system.
    fn read(&mut self, buf: &mut [u8]) -> ReadOut
        requires { 0 < length buf.old }
        ensures within { GivesWithin result buf.new }
        ensures read { Read result (bytes_got result buf.new) (told_of self.old) (told_of self.new) }
        ensures drained { IsDrained result (length buf.new) self.new.drained }
    {
        if self.must_wait() {
            self.read_waits.rise();
            return ReadOut::NotYet;
        }
        match read_once(&mut self.stream, buf) {
            Ok(0) => {
                self.talk = Talk::Over;
                ReadOut::End
            }
            Ok(n) => {
                self.drained = n < buf.len();
                ReadOut::Got(n)
            }
            Err(e) if e.kind() == ErrorKind::WouldBlock => {
                self.read_waits.rise();
                ReadOut::NotYet
            }
            Err(_) => {
                self.talk = Talk::Over;
                self.read_faults.rise();
                ReadOut::Failed
            }
        }
    }

    fn write(&mut self, piece: &[u8]) -> WriteOut {
        match write_once(&mut self.stream, piece) {
            Ok(0) => {
                self.write_faults.rise();
                WriteOut::Took(0)
            }
            Ok(n) => {
                if matches!(self.talk, Talk::Silent) {
                    self.talk = Talk::Answered;
                }
                WriteOut::Took(n)
            }
            Err(e) if e.kind() == ErrorKind::WouldBlock => {
                self.write_waits.rise();
                WriteOut::NotYet
            }
            Err(_) => {
                self.talk = Talk::Over;
                self.write_faults.rise();
                WriteOut::Failed
            }
        }
    }

    ghost use Rattle.std.proofs.Common.{arith};

    ghost ended_told = { λ _. refl };

    ghost follows_plan = { λ _. tt };

    ghost surely = { λ link sure. Prim.cc };

    ghost faults_fit = { λ link. record { reads = link.read_faults.fits; writes = link.write_faults.fits } };

    ghost waits_fit = { λ link. record { reads = link.read_waits.fits; writes = link.write_waits.fits } };
}

impl Drop for SockLink {
    /// Lets the socket linger where the peer may be sending still, and closes it else.
    fn drop(self) {
        let SockLink {
            stream,
            home,
            drained: _,
            talk,
            read_faults: _,
            write_faults: _,
            read_waits: _,
            write_waits: _,
        } = self;
        if let (Some(home), Talk::Answered) = (home, talk) {
            home.leave(stream);
        }
    }
}
