//! What the pollers of one server share: the set of each, and which peers have ended.
ghost use Rattle.std.specs.Prelude.{◌≡◌, ◌<◌, ◌≤◌, IfOk, length, vec_len};

use crate::departed::Departed;
use crate::fault::SockFault;
use crate::peer_ends::PeerEnds;
use mio::{Poll, Registry};
use std::alloc::Global;
use std::sync::atomic::{AtomicU64, Ordering};

/// The system's set of what one poller polls, and the links of this set that were let go.
#[derive(Drop)]
pub(crate) struct Set {
    pub registry: Registry,
    pub departed: Departed,
}

/// What the pollers of one server share.
#[derive(Drop)]
pub(crate) struct Group {
    pub sets: Vec<Set>,
    /// A bit for each poller that has polled.
    polling: AtomicU64,
    /// How many links were added.
    added: AtomicU64,
    pub ends: PeerEnds,
    ghost some: { 1 ≤ vec_len sets },
    ghost few: { vec_len sets ≤ 64 },
}

impl Group {
    /// The group of these sets, of which nobody polls yet.
    pub fn new(alloc: Global, polls: &[Poll]) -> Result<Group, SockFault>
        requires some { 1 ≤ length polls.now }
        requires few { length polls.now ≤ 64 }
        ensures { IfOk result (λ group. vec_len group.sets ≡ length polls.now) }
    {
        let mut sets = Vec::with_capacity(alloc, polls.len())?;
        for poll in polls {
            let registry = poll.registry().try_clone()?;
            let departed = Departed::new(alloc)?;
            sets.push(Set { registry, departed })?;
        }
        Ok(Group {
            sets,
            polling: AtomicU64::new(0),
            added: AtomicU64::new(0),
            ends: PeerEnds::new(alloc)?,
        })
    }

    /// Notes that a poller polls.
    pub fn join(&self, place: usize)
        requires { place < vec_len self.now.sets }
    {
        let bit = 1 << place;
        if self.polling.load(Ordering::SeqCst) & bit == 0 {
            self.polling.fetch_or(bit, Ordering::SeqCst);
        }
    }

    /// The place of the set that the next link is added to. The pollers that have polled take turns: so a
    /// link is never added where nobody looks. Where none has, it is the caller's own.
    pub fn next_place(&self, own: usize) -> usize
        ensures { result < vec_len self.now.sets }
    {
        let polling = self.polling.load(Ordering::SeqCst);
        let count = u64::from(polling.count_ones());
        let place = if count == 0 {
            own
        } else {
            let turn = self.added.fetch_add(1, Ordering::SeqCst);
            place_of_turn(polling, turn % count)
        };
        place % self.sets.len()
    }
}

/// The place of the bit that is set and has this many set ones below it.
fn place_of_turn(bits: u64, below: u64) -> usize {
    let mut left = bits;
    for _ in 0..below {
        left &= left.wrapping_sub(1);
    }
    left.trailing_zeros() as usize
}
