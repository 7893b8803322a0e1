//! Links that were let go and linger: their writing side is shut, what comes is taken and thrown away, and
//! they are closed once the peer ends, or after a while, or after this many bytes.
ghost use Rattle.std.specs.Prelude.{◌≡◌, ◌<◌, ◌≤◌};
ghost use Rattle.slab.specs.Slab.{slab_len};

use crate::group::Set;
use crate::limits::{
    DRAIN_ROOM, DRAINS, LINGER_BYTES, LINGER_SECONDS, LINGERING, LOOKED_AT, TAKEN_IN,
};
use crate::report::token_at;
use crate::retry::read_once;
use mio::net::TcpStream;
use mio::{Interest, Registry};
use slab::Slab;
use std::alloc::{AllocError, Global};
use std::io::ErrorKind;
use std::rt::Clock;
use std::time::{Duration, Instant};

/// A link that lingers.
#[derive(Drop)]
struct Lingering {
    stream: TcpStream,
    since: Instant,
    /// How many bytes of the peer are still taken.
    left: usize,
}

/// What taking the peer's bytes came to.
#[derive(Clone, Copy)]
enum Drained {
    /// None is there now.
    Waits,
    /// There may be more.
    More,
    /// It ended, or sent too much.
    Over,
}

impl Lingering {
    /// Takes what is there, a few times as much as there is room for at most.
    fn drain(&mut self, room: &mut [u8]) -> Drained {
        for _ in 0..DRAINS {
            match read_once(&mut self.stream, room) {
                Ok(n) if n == 0 || n > self.left => return Drained::Over,
                Ok(n) => self.left -= n,
                Err(e) if e.kind() == ErrorKind::WouldBlock => return Drained::Waits,
                Err(_) => return Drained::Over,
            }
        }
        Drained::More
    }
}

/// The links that linger with one poller, each at a place of its own.
#[derive(Drop)]
pub(crate) struct Lingerers {
    places: Slab<Lingering>,
    /// The place that is looked at next, whether its time is over.
    hand: usize,
    /// Where the peers' bytes are put. Nobody looks at them.
    room: Vec<u8>,
    ghost hand_within: { hand < 1024 },
    ghost few: { slab_len places ≤ 1024 },
}

impl Lingerers {
    /// No link lingers.
    pub fn new(alloc: Global) -> Result<Lingerers, AllocError> {
        Ok(Lingerers {
            places: Slab::with_capacity(alloc, LINGERING)?,
            hand: 0,
            room: Vec::from_elem(alloc, 0, DRAIN_ROOM)?,
        })
    }

    /// How many links linger.
    pub fn count(&self) -> usize
        ensures few { result ≤ LINGERING }
        ensures count { result ≡ slab_len self.now.places }
    {
        self.places.len()
    }

    /// Lets a socket of the set linger from now on. Where its peer has ended by now it is closed, and the set
    /// isn't told of it; the same where all places are taken.
    fn take_in(&mut self, registry: &Registry, stream: TcpStream, now: Instant) {
        let place = self.places.vacant_key();
        if self.places.len() >= LINGERING || place >= LINGERING {
            return;
        }
        let mut lingering = Lingering {
            stream,
            since: now,
            left: LINGER_BYTES,
        };
        if let Drained::Over = lingering.drain(&mut self.room) {
            return;
        }
        let watched = registry.reregister(
            &mut lingering.stream,
            token_at(place),
            Interest::READABLE,
        );
        if watched.is_ok() {
            let _placed = self.places.insert(lingering);
        }
    }

    /// Something came for the link at a place.
    pub fn hear(&mut self, registry: &Registry, place: usize) {
        if place >= LINGERING {
            return;
        }
        let Some(mut lingering) = self.places.try_remove(place) else {
            return;
        };
        let stays = match lingering.drain(&mut self.room) {
            Drained::Waits => true,
            Drained::More => registry
                .reregister(&mut lingering.stream, token_at(place), Interest::READABLE)
                .is_ok(),
            Drained::Over => false,
        };
        if stays {
            // The place that was left last is the one that is given next.
            let _placed = self.places.insert(lingering);
        }
    }

    /// Takes in the links of the set that were let go, and closes those that lingered long enough.
    pub fn tend<R: Clock>(&mut self, set: &Set, clock: &R) {
        let Ok(now) = Instant::now(clock) else {
            return;
        };
        for _ in 0..TAKEN_IN {
            let Some(stream) = set.departed.take() else {
                break;
            };
            self.take_in(&set.registry, stream, now);
        }
        if !self.places.is_empty() {
            self.look(now);
        }
    }

    /// Closes links whose time is over, of the next places.
    fn look(&mut self, now: Instant) {
        for _ in 0..LOOKED_AT {
            let place = self.hand;
            self.hand = (place + 1) % LINGERING;
            if self.is_over(place, now) {
                let _closed = self.places.try_remove(place);
            }
        }
    }

    /// Whether a link lingers at a place, and its time is over.
    fn is_over(&self, place: usize, now: Instant) -> bool {
        match self.places.get(place) {
            Some(lingering) => {
                now.saturating_duration_since(lingering.since)
                    >= Duration::from_secs(LINGER_SECONDS)
            }
            None => false,
        }
    }
}
