//! Where a reap puts the leases that it closes, so that their files are closed by the
//! caller and not under the lock.
ghost use Rattle.std.specs.Prelude.{◌≡◌, ◌<◌, ◌∷◌, ◌++◌, [], IfOk, length};

use std::alloc::{AllocError, Global};
use std::marker::Model;

/// Two for each entry.
const ROOM: usize = 512;

/// Leases that a reap closed. It has room for all that one reap can give.
#[derive(Drop)]
pub struct Basket<L> {
    leases: Vec<L>,
}

impl<L> Model for Basket<L> {
    ghost use Rattle.std.specs.Prelude.{◌≤◌, List, vec_capacity};

    ghost Value = { List L };

    ghost view = { λ b. b.leases.items };

    ghost invariant = { λ b. 512 ≤ vec_capacity b.leases };
}

impl<L: Drop> Basket<L> {
    /// An empty basket.
    pub fn new(alloc: Global) -> Result<Basket<L>, AllocError>
        ensures { IfOk result (λ basket. basket ≡ []) }
    {
        Ok(Basket {
            leases: Vec::with_capacity(alloc, ROOM)?,
        })
    }

    /// How many leases are in it.
    pub fn len(&self) -> usize
        ensures { result ≡ length self.now }
    {
        self.leases.len()
    }

    /// Drops the leases in it, and with them closes their files.
    pub fn clear(&mut self)
        ensures { self.new ≡ [] }
    {
        self.leases.clear();
    }

    /// Puts one more lease in.
    pub(crate) fn add(&mut self, lease: L)
        requires { length self.old < 512 }
        ensures { self.new ≡ self.old ++ lease ∷ [] }
    {
        self.leases.push_reserved(lease);
    }
}
