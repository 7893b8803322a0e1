//! The openings that were accepted and aren't finished, as an ordered set.
ghost use Rattle.std.specs.Prelude.{◌≡◌, ◌||◌, ◌&&◌, not, Bool, false, OnOk, OnErr};
ghost use Rattle.reg_keys.specs.declared.opening.Opening.{Opening};
ghost use Rattle.reg_keys.specs.Tests.{same};
ghost use Rattle.warp_tally.specs.OpenSet.{holds, HasAdded, SetHasTaken};

use reg_keys::Opening;
use std::alloc::{AllocError, Global};
use std::collections::BTreeSet;

/// Some openings. Each is there by its number and its descriptor.
#[derive(Drop)]
pub(crate) struct OpenSet {
    keys: BTreeSet<(u64, u16)>,
}

impl OpenSet {
    /// No opening. It takes no memory.
    pub(crate) fn new(alloc: Global) -> OpenSet
        ensures { (o : Opening) → holds result o ≡ false }
    {
        OpenSet {
            keys: BTreeSet::new(alloc),
        }
    }

    /// Adds the opening. Without memory for it, all stays.
    pub(crate) fn add(&mut self, o: Opening) -> Result<(), AllocError>
        ensures added { OnOk result (HasAdded o self.old self.new) }
        ensures kept { OnErr result ((p : Opening) → holds self.new p ≡ holds self.old p) }
    {
        match self.keys.insert((o.number, o.fd)) {
            Ok(_) => Ok(()),
            Err(_) => Err(AllocError),
        }
    }

    /// Takes the opening out: whether it was there.
    pub(crate) fn take(&mut self, o: Opening) -> bool
        ensures was { result ≡ holds self.old o }
        ensures taken { SetHasTaken o self.old self.new }
    {
        self.keys.remove(&(o.number, o.fd))
    }
}
