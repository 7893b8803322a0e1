//! Where a link or a listener was added: the set of one poller, under an opening.
ghost use Rattle.poller.specs.Polls.{HasToken};

use crate::group::{Group, Set};
use crate::limits::LINGER_TOKENS;
use mio::net::TcpStream;
use mio::{Registry, Token};
use reg_keys::Opening;
use std::alloc::{AllocError, Global};
use std::io;
use std::io::ErrorKind;
use std::net::Shutdown;
use std::sync::Arc;

/// Where a link or a listener was added.
#[derive(Drop)]
pub(crate) struct Home {
    group: Arc<Group, Global>,
    place: usize,
    opening: Opening,
    ghost fits: { HasToken opening },
}

impl Home {
    /// A place in a group, for an opening.
    pub fn new(
        group: &Arc<Group, Global>,
        place: usize,
        opening: Opening,
    ) -> Result<Home, AllocError>
        requires { HasToken opening }
    {
        Ok(Home {
            group: Arc::try_clone(group)?,
            place,
            opening,
        })
    }

    /// The set, which each place of a group has.
    fn set(&self) -> io::Result<&Set> {
        match self.group.sets.get(self.place) {
            Some(set) => Ok(set),
            None => Err(io::Error::from(ErrorKind::NotFound)),
        }
    }

    /// The system's set, and the token of the opening in it. The tokens of links that linger are given to no
    /// opening.
    pub fn entry(&self) -> io::Result<(&Registry, Token)> {
        let token = self.opening.token();
        if token >= LINGER_TOKENS {
            return Err(io::Error::from(ErrorKind::InvalidInput));
        }
        let set = self.set()?;
        Ok((&set.registry, Token(token as usize)))
    }

    /// Whether the peer of the opening was seen to end.
    pub fn has_ended(&self) -> bool {
        self.group.ends.has(self.opening)
    }

    /// Lets a socket linger: its writing side is shut, and it goes to the poller of its set. Where that
    /// fails it is closed.
    pub fn leave(&self, stream: TcpStream) {
        if stream.shutdown(Shutdown::Write).is_err() {
            return;
        }
        if let Ok(set) = self.set() {
            set.departed.put(stream);
        }
    }
}
