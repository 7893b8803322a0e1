//! An entry of a cache: a path, how many of its leases are out, and at most two that came back.
ghost use Rattle.std.specs.Prelude.{◌≡◌, ◌+◌, ◌-◌, ◌^◌, ◌<◌, ◌≤◌, ◌==◌, ◌&&◌, ◌↔◌, not, [], ◌∷◌, ◌++◌, true, false, None, Some, IsTrue, length, drop, slice_get, string_bytes};
ghost use Rattle.fd_cache.specs.History.{begun, given_back, is_left, lent};

use crate::basket::Basket;
use std::marker::Model;
use std::mem;

/// The leases of an entry that came back: the last one stands first.
#[derive(Drop)]
pub(crate) enum Idle<L> {
    None,
    One(L),
    Two(L, L),
}

/// An entry.
#[derive(Drop)]
pub(crate) struct Entry<L> {
    path: String,
    leases: u64,
    idle: Idle<L>,
    asked: bool,
}

impl<L> Model for Entry<L> {
    ghost use Rattle.std.specs.Prelude.{string_bytes};
    ghost use Rattle.fd_cache.specs.History.{EntryState};
    ghost use Rattle.fd_cache.specs.Idle.{idle_list};

    ghost Value = { EntryState L };

    ghost view = { λ e.
        record { path = string_bytes e.path; leases = e.leases; idle = idle_list e.idle; asked = e.asked } };
}

impl<L: Drop> Entry<L> {
    /// A new entry, with one lease out.
    pub(crate) fn new(path: String) -> Entry<L>
        ensures { result ≡ begun (string_bytes path) }
    {
        Entry {
            path,
            leases: 1,
            idle: Idle::None,
            asked: true,
        }
    }

    /// Its path.
    pub(crate) fn path(&self) -> &str
        ensures { result.now ≡ self.now.path }
    {
        self.path.as_str()
    }

    /// Whether no more leases of it can be counted.
    pub(crate) fn is_leased_out(&self) -> bool
        ensures few { self.now.leases < 2 ^ 64 }
        ensures full { IsTrue result ↔ (self.now.leases ≡ 2 ^ 64 - 1) }
    {
        self.leases == u64::MAX
    }

    /// Whether a lease of it is out.
    pub(crate) fn is_leased(&self) -> bool
        ensures { IsTrue result ↔ (0 < self.now.leases) }
    {
        self.leases > 0
    }

    /// Counts one more lease, and gives the one that came back last, if there is one.
    pub(crate) fn lend(&mut self) -> Option<L>
        requires { self.old.leases < 2 ^ 64 - 1 }
        ensures counted { self.new ≡ lent self.old }
        ensures last { result ≡ slice_get self.old.idle 0 }
    {
        self.leases += 1;
        self.asked = true;
        match mem::replace(&mut self.idle, Idle::None) {
            Idle::None => None,
            Idle::One(last) => Some(last),
            Idle::Two(last, first) => {
                self.idle = Idle::One(first);
                Some(last)
            }
        }
    }

    /// Counts one lease less, and keeps the one that came back, where there is room for it.
    pub(crate) fn take_back(&mut self, lease: L) -> Option<L>
        ensures kept { length self.old.idle < 2
            → (result ≡ None) × (self.new ≡ given_back (lease ∷ []) self.old) }
        ensures extra { 2 ≤ length self.old.idle
            → (result ≡ Some lease) × (self.new ≡ given_back [] self.old) }
    {
        self.leases = self.leases.saturating_sub(1);
        match mem::replace(&mut self.idle, Idle::None) {
            Idle::None => self.idle = Idle::One(lease),
            Idle::One(first) => self.idle = Idle::Two(lease, first),
            Idle::Two(last, first) => {
                self.idle = Idle::Two(last, first);
                return Some(lease);
            }
        }
        None
    }

    /// Counts one lease less, of which nothing came back.
    pub(crate) fn give_up(&mut self)
        ensures { self.new ≡ given_back [] self.old }
    {
        self.leases = self.leases.saturating_sub(1);
    }

    /// Whether nobody has a lease of it and nobody asked for it since the last reap.
    pub(crate) fn is_left(&self) -> bool
        ensures { result ≡ is_left self.now }
    {
        self.leases == 0 && !self.asked
    }

    /// Nobody asked for it from now on.
    pub(crate) fn rest(&mut self)
        ensures { self.new ≡ record self.old { asked = false } }
    {
        self.asked = false;
    }

    /// Puts the leases that came back into a basket.
    pub(crate) fn empty_into(self, basket: &mut Basket<L>)
        requires { length basket.old + 2 ≤ 512 }
        ensures all { basket.new ≡ basket.old ++ self.idle }
        ensures few { length self.idle ≤ 2 }
    {
        let Entry {
            path: _,
            leases: _,
            idle,
            asked: _,
        } = self;
        match idle {
            Idle::None => {}
            Idle::One(last) => basket.add(last),
            Idle::Two(last, first) => {
                basket.add(last);
                basket.add(first);
            }
        }
    }
}
