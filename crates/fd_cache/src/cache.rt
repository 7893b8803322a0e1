//! The cache itself: what each call makes of its entries, and what it answers.
ghost use Rattle.std.specs.Prelude.{◌≡◌, ◌<◌, ◌∷◌, ◌++◌, ℕ, List, [], IfOk, IsSome, IsSomeAnd, IsTrue, Some, string_bytes};
ghost use Rattle.fd_cache.specs.Shelf.{KeepsOwn};

use crate::basket::Basket;
use crate::calls::{CacheCall, CacheReply};
use crate::deed::CacheDeed;
use crate::lease::{Lease, Ticket};
use crate::shelf::Shelf;
use outside::Files;
use std::alloc::{AllocError, Global};
use turn_cell::Part;

/// A cache of open files.
///
/// Its entries lie on the heap, so that a cell that guards a cache moves a few words.
#[derive(Drop)]
pub struct Cache<F: Files> {
    shelf: Shelf<Lease<F>>,
    ghost own: { KeepsOwn (λ l. (F.file_path l.file, l.entry)) shelf },
}

impl<F: Files> Cache<F> {
    ghost use Rattle.fd_cache.specs.declared.calls.CacheCall.TheVariants as Calls;
    ghost use Rattle.fd_cache.specs.declared.calls.CacheReply.TheVariants as Replies;
    ghost use Rattle.fd_cache.specs.declared.deed.CacheDeed.TheVariants as Deeds;
    ghost use Rattle.outside.specs.Folder.{HasFile};
    ghost use Rattle.fd_cache.specs.Calls.{answers_call, deed_of};
    ghost use Rattle.fd_cache.specs.History.{HasPath, counts};
    ghost use Rattle.fd_cache.specs.Represents.{Enters, Represents};
    ghost use Rattle.fd_cache.specs.Shelf.{at};

    /// A cache with no entries.
    pub fn new(alloc: Global) -> Result<Cache<F>, AllocError>
        ensures { IfOk result (λ cache. Represents [] cache) }
    {
        Ok(Cache {
            shelf: Shelf::new(alloc)?,
        })
    }

    /// Lends the file of a path.
    pub(crate) fn acquire(&mut self, path: String) -> CacheReply<F>
        ensures answers { answers_call (Calls.Acquire path) result }
        ensures enters { Enters (deed_of (Calls.Acquire path) result) self.old self.new }
    {
        match self.shelf.entry_of(path.as_str()) {
            Some(k) => self.acquire_at(k, path),
            None => match self.shelf.free() {
                Some(k) => {
                    self.shelf.begin(k, path);
                    CacheReply::Fresh(Ticket { entry: k as u16 })
                }
                None => CacheReply::Bypass(path),
            },
        }
    }

    /// Lends the file of a path that has an entry.
    fn acquire_at(&mut self, k: usize, path: String) -> CacheReply<F>
        requires inside { k < 256 }
        requires there { HasPath (string_bytes path) (at k self.old.shelf) }
        ensures answers { answers_call (Calls.Acquire path) result }
        ensures enters { Enters (deed_of (Calls.Acquire path) result) self.old self.new }
    {
        if self.shelf.is_leased_out(k) {
            return CacheReply::Bypass(path);
        }
        match self.shelf.lend(k) {
            Some(lease) => CacheReply::Hit(lease),
            None => CacheReply::Fresh(Ticket { entry: k as u16 }),
        }
    }

    /// Makes the lease of a file that was found for a ticket.
    pub(crate) fn supplied(
        &mut self,
        ticket: Ticket,
        file: F::File,
        size: u64,
        mtime: u64,
    ) -> Lease<F>
        requires { HasFile F.folder (F.file_path file) size mtime }
        ensures answers { answers_call (Calls.Supplied ticket file size mtime) (Replies.Made result) }
        ensures enters { Enters (deed_of (Calls.Supplied ticket file size mtime) (Replies.Made result))
            self.old self.new }
    {
        let entry = if self.counts(ticket.entry, &file) {
            Some(ticket.entry)
        } else {
            None
        };
        Lease {
            entry,
            file,
            size,
            mtime,
        }
    }

    /// Takes a ticket back for which nothing was found.
    pub(crate) fn abandon(&mut self, ticket: Ticket)
        ensures { Enters (Deeds.Abandoned ticket.entry) self.old self.new }
    {
        self.shelf.give_up(ticket.entry as usize);
    }

    /// Takes a lease back.
    pub(crate) fn release(&mut self, lease: Lease<F>) -> CacheReply<F>
        ensures answers { answers_call (Calls.Release lease) result }
        ensures enters { Enters (deed_of (Calls.Release lease) result) self.old self.new }
    {
        let back = match lease.entry {
            Some(k) if self.counts(k, &lease.file) => self.shelf.take_back(k as usize, lease),
            _ => Some(lease),
        };
        match back {
            None => CacheReply::Kept,
            Some(lease) => CacheReply::Extra(file_of(lease)),
        }
    }

    /// Closes what is left: the leases of each entry that nobody has a lease of and nobody
    /// asked for since the last reap.
    pub(crate) fn reap(&mut self, basket: &mut Basket<Lease<F>>)
        requires { basket.old ≡ [] }
        ensures { Enters (Deeds.Reaped basket.new) self.old self.new }
    {
        self.shelf.reap(basket);
    }

    /// Whether a lease of this file counts for the entry of a number.
    fn counts(&self, k: u16, file: &F::File) -> bool
        ensures is { result ≡ counts (F.file_path file.now) (at k self.now.shelf) }
        ensures inside { IsTrue result → k < 256 }
        ensures there { IsTrue result
            → IsSomeAnd (at k self.now.shelf) (λ s. (s.path ≡ F.file_path file.now) × (0 < s.leases)) }
    {
        match self.shelf.get(k as usize) {
            Some(entry) => F::is_at(file, entry.path()) && entry.is_leased(),
            None => false,
        }
    }
}

impl<F: Files> Part for Cache<F> {
    ghost use Rattle.fd_cache.specs.Calls.{answers_call, deed_of, may_ask};
    ghost use Rattle.fd_cache.specs.Represents.{no_name, stands_for};

    type Call = CacheCall<F>;

    type Reply = CacheReply<F>;

    type Entry = CacheDeed<Lease<F>>;

    ghost stands = { stands_for };

    ghost name = { no_name };

    ghost may = { λ name call. may_ask call };

    ghost entry = { deed_of };

    ghost answers = { answers_call };

    #[tactic(auto, using(crate::proofs::Pasts::past_of_one_more))]
    fn apply(&mut self, call: CacheCall<F>) -> CacheReply<F> {
        match call {
            CacheCall::Acquire(path) => self.acquire(path),
            CacheCall::Supplied(ticket, file, size, mtime) => {
                CacheReply::Made(self.supplied(ticket, file, size, mtime))
            }
            CacheCall::Abandon(ticket) => {
                self.abandon(ticket);
                CacheReply::Abandoned
            }
            CacheCall::Release(lease) => self.release(lease),
            CacheCall::Reap(mut basket) => {
                self.reap(&mut basket);
                CacheReply::Reaped(basket)
            }
        }
    }
}

/// The file of a lease.
fn file_of<F: Files>(lease: Lease<F>) -> F::File
    ensures { result ≡ lease.file }
{
    let Lease {
        entry: _,
        file,
        size: _,
        mtime: _,
    } = lease;
    file
}
