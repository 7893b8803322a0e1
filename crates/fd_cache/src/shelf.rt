//! The entries of a cache, by their numbers.
ghost use Rattle.std.specs.Prelude.{◌≡◌, ◌≢◌, ◌<◌, ◌≤◌, ◌+◌, ◌-◌, ◌^◌, ◌↔◌, ℕ, IsTrue, IsSome, IsSomeAnd, IfSome, IfNone, IfOk, Some, None, [], ◌∷◌, ◌++◌, length, option_copied, option_map, slice_get, slice_index_or, slice_set, string_bytes, vec_len};
ghost use Rattle.fd_cache.specs.History.{HasPath, EntryState, begun, closed, closed_at, given_back, idle_at, lent, swept};
ghost use Rattle.fd_cache.specs.Shelf.{at};

use crate::basket::Basket;
use crate::entry::Entry;
use crate::index::Index;
use std::alloc::{AllocError, Global};
use std::marker::Model;
use std::mem;

/// How many entries there are.
const ENTRIES: usize = 256;

/// The entries of a cache: each is free, or has a path that no other has.
///
/// A path's entry is found by the index, without a look at other entries but where hashes meet. That a path
/// has none is known only once all entries were looked at.
#[derive(Drop)]
pub(crate) struct Shelf<L> {
    entries: Vec<Option<Entry<L>>>,
    index: Index,
}

impl<L> Model for Shelf<L> {
    ghost use Rattle.std.specs.Prelude.{◌≡◌, List, Option, vec_len};
    ghost use Rattle.fd_cache.specs.History.{EntryState};

    ghost Value = { List (Option (EntryState L)) };

    ghost view = { λ s. s.entries.items };

    ghost invariant = { λ s. vec_len s.entries ≡ 256 };
}

/// As many free entries as there are numbers.
fn free_entries<L: Drop>(alloc: Global) -> Result<Vec<Option<Entry<L>>>, AllocError>
    ensures count { IfOk result (λ entries. vec_len entries ≡ 256) }
    ensures free { IfOk result (λ entries. (k : ℕ) → at k entries.items ≡ None) }
{
    let mut entries = Vec::with_capacity(alloc, ENTRIES)?;
    for _ in 0..ENTRIES {
        entries.push_reserved(None);
    }
    Ok(entries)
}

impl<L: Drop> Shelf<L> {
    /// Free entries.
    pub(crate) fn new(alloc: Global) -> Result<Shelf<L>, AllocError>
        ensures { IfOk result (λ shelf. (k : ℕ) → at k shelf ≡ None) }
    {
        Ok(Shelf {
            entries: free_entries(alloc)?,
            index: Index::new(alloc)?,
        })
    }

    /// The entry of this path, where there is one. That there is none is known only once all were looked at.
    pub(crate) fn entry_of(&self, path: &str) -> Option<usize>
        ensures some { IfSome result (λ k. (k < 256) × HasPath path.now (at k self.now)) }
        ensures none { IfNone result ((k : ℕ) → HasPath path.now (at k self.now) → ⊥) }
    {
        match self.indexed(path) {
            Some(k) => Some(k),
            None => self.searched(path),
        }
    }

    /// The entry of this path that the index names.
    fn indexed(&self, path: &str) -> Option<usize>
        ensures { IfSome result (λ k. (k < 256) × HasPath path.now (at k self.now)) }
    {
        let mut place = Index::first(path);
        for _ in 0..ENTRIES {
            let k = self.index.number(place);
            match self.entries.get(k) {
                Some(Some(entry)) if entry.path() == path => return Some(k),
                Some(_) => place = Index::next(place),
                None => return None,
            }
        }
        None
    }

    /// The entry of this path, by all entries.
    fn searched(&self, path: &str) -> Option<usize>
        ensures some { IfSome result (λ k. (k < 256) × HasPath path.now (at k self.now)) }
        ensures none { IfNone result ((k : ℕ) → HasPath path.now (at k self.now) → ⊥) }
    {
        for k in 0..ENTRIES {
            if let Some(entry) = &self.entries[k]
                && entry.path() == path
            {
                return Some(k);
            }
        }
        None
    }

    /// Makes the index anew, of the entries that are there.
    fn note_all(&mut self)
        ensures { self.new ≡ self.old }
    {
        self.index.clear();
        for k in 0..ENTRIES {
            if let Some(entry) = &self.entries[k] {
                self.index.note(entry.path(), k as u16);
            }
        }
    }

    /// A free entry, where there is one.
    pub(crate) fn free(&self) -> Option<usize>
        ensures some { IfSome result (λ k. (k < 256) × (at k self.now ≡ None)) }
        ensures none { IfNone result ((k : ℕ) → k < 256 → IsSome (at k self.now)) }
    {
        for k in 0..ENTRIES {
            if self.entries[k].is_none() {
                return Some(k);
            }
        }
        None
    }

    /// Whether no more leases of an entry can be counted.
    pub(crate) fn is_leased_out(&self, k: usize) -> bool
        requires inside { k < 256 }
        requires there { IsSome (at k self.now) }
        ensures few { IsSomeAnd (at k self.now) (λ s. s.leases < 2 ^ 64) }
        ensures full { IsTrue result ↔ IsSomeAnd (at k self.now) (λ s. s.leases ≡ 2 ^ 64 - 1) }
    {
        match &self.entries[k] {
            Some(entry) => entry.is_leased_out(),
            None => false,
        }
    }

    /// Counts one more lease of an entry, and gives the one that came back last, if there is one.
    pub(crate) fn lend(&mut self, k: usize) -> Option<L>
        requires inside { k < 256 }
        requires room { IsSomeAnd (at k self.old) (λ s. s.leases < 2 ^ 64 - 1) }
        ensures size { length self.old ≡ 256 }
        ensures lent { self.new ≡ slice_set self.old k (option_map lent (at k self.old)) }
        ensures last { result ≡ slice_get (idle_at (at k self.old)) 0 }
    {
        match &mut self.entries[k] {
            Some(entry) => entry.lend(),
            None => None,
        }
    }

    /// Makes a free entry one of this path, with one lease out.
    pub(crate) fn begin(&mut self, k: usize, path: String)
        requires { k < 256 }
        ensures size { length self.old ≡ 256 }
        ensures begun { self.new ≡ slice_set self.old k (Some (begun (string_bytes path))) }
    {
        self.index.note(path.as_str(), k as u16);
        self.entries[k] = Some(Entry::new(path));
    }

    /// Counts one lease less, and keeps the one that came back, where there is room for it.
    pub(crate) fn take_back(&mut self, k: usize, lease: L) -> Option<L>
        requires inside { k < 256 }
        requires there { IsSome (at k self.old) }
        ensures size { length self.old ≡ 256 }
        ensures kept { length (idle_at (at k self.old)) < 2 → (result ≡ None)
            × (self.new ≡ slice_set self.old k (option_map (given_back (lease ∷ [])) (at k self.old))) }
        ensures extra { 2 ≤ length (idle_at (at k self.old)) → (result ≡ Some lease)
            × (self.new ≡ slice_set self.old k (option_map (given_back []) (at k self.old))) }
    {
        match &mut self.entries[k] {
            Some(entry) => entry.take_back(lease),
            None => unreachable!(),
        }
    }

    /// Counts one lease less, of which nothing came back.
    pub(crate) fn give_up(&mut self, k: usize)
        requires { k < 256 }
        ensures size { length self.old ≡ 256 }
        ensures less { self.new ≡ slice_set self.old k (option_map (given_back []) (at k self.old)) }
    {
        if let Some(entry) = &mut self.entries[k] {
            entry.give_up();
        }
    }

    /// The entry of a number, where it isn't free.
    pub(crate) fn get(&self, k: usize) -> Option<&Entry<L>>
        ensures is { option_copied result ≡ at k self.now }
        ensures inside { IsSome result → k < 256 }
    {
        match self.entries.get(k) {
            Some(Some(entry)) => Some(entry),
            _ => None,
        }
    }

    /// Frees each entry that is left, whose leases go into the basket, and lets all others be asked for anew.
    pub(crate) fn reap(&mut self, basket: &mut Basket<L>)
        requires { basket.old ≡ [] }
        ensures swept { (e : ℕ) → at e self.new ≡ swept (at e self.old) }
        ensures closed { basket.new ≡ closed 256 (λ e. at e self.old) }
    {
        for k in 0..ENTRIES {
            self.reap_at(k, basket);
        }
        self.note_all();
    }

    /// The same of one entry.
    fn reap_at(&mut self, k: usize, basket: &mut Basket<L>)
        requires inside { k < 256 }
        requires room { length basket.old + 2 ≤ 512 }
        ensures size { length self.old ≡ 256 }
        ensures swept { self.new ≡ slice_set self.old k (swept (at k self.old)) }
        ensures closed { basket.new ≡ basket.old ++ closed_at (at k self.old) }
        ensures few { length (closed_at (at k self.old)) ≤ 2 }
    {
        let place = &mut self.entries[k];
        let entry = mem::replace(place, None);
        *place = sweep(entry, basket);
    }
}

/// What a reap leaves of an entry. Where that is nothing, its leases go into the basket.
fn sweep<L: Drop>(entry: Option<Entry<L>>, basket: &mut Basket<L>) -> Option<Entry<L>>
    requires { length basket.old + 2 ≤ 512 }
    ensures swept { result ≡ swept entry }
    ensures closed { basket.new ≡ basket.old ++ closed_at entry }
    ensures few { length (closed_at entry) ≤ 2 }
{
    let mut entry = entry?;
    if entry.is_left() {
        entry.empty_into(basket);
        return None;
    }
    entry.rest();
    Some(entry)
}
