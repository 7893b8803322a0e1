//! Links that were let go, on their way to the poller that they linger with.
use crate::limits::{HAND_OVERS, LINGERING};
use mio::net::TcpStream;
use std::alloc::{AllocError, Global};
use std::collections::VecDeque;
use std::sync::Mutex;
use std::thread::yield_now;

/// The sockets of links that were let go, which the poller of their set hasn't taken in yet.
#[derive(Drop)]
pub(crate) struct Departed {
    streams: Mutex<VecDeque<TcpStream>>,
}

impl Departed {
    /// No link was let go. The room for sockets is taken now, so that letting a link go takes no memory.
    pub fn new(alloc: Global) -> Result<Departed, AllocError> {
        Ok(Departed {
            streams: Mutex::new(VecDeque::with_capacity(alloc, LINGERING)?),
        })
    }

    /// Puts a socket after the others. Whoever lets a link go can't wait, so this tries for a while. Where
    /// it doesn't come to it, or too many are there, the socket is closed.
    pub fn put(&self, stream: TcpStream) {
        for _ in 0..HAND_OVERS {
            if let Some(mut streams) = self.streams.try_lock() {
                if streams.len() < LINGERING {
                    let _handed = streams.push_back(stream);
                }
                return;
            }
            yield_now();
        }
    }

    /// Takes the first socket. None is given where another thread is at it just then.
    pub fn take(&self) -> Option<TcpStream> {
        let mut streams = self.streams.try_lock()?;
        streams.pop_front()
    }
}
