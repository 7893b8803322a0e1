//! What takes each connection that is finished.
ghost use Rattle.std.specs.Prelude.{◌≡◌, ◌≤◌, ◌+◌, ℕ, [], IfOk};
ghost use Rattle.reg_keys.specs.declared.opening.Opening.{Opening};
ghost use Rattle.reg_keys.specs.Tests.{one_if};
ghost use Rattle.event_tests.specs.Accounting.{finishes_in, is_job};

use reg_keys::Opening;
use std::alloc::{AllocError, Global};

/// A connection that is finished.
#[derive(Clone, Copy, Drop)]
pub struct Finish {
    pub opening: Opening,
    /// The number of the job from which it was finished, which is how often it had registered again.
    pub number: u64,
    /// How many bytes it had read.
    pub read: u64,
}

/// What a dispatcher notes. What has no room isn't noted, so that a test misses it.
#[derive(Drop)]
pub struct Book {
    pub finished: Vec<Finish>,
    /// The numbers of the keys that ran, in order.
    pub ran: Vec<u64>,
    /// How many runs were given a mark that isn't later than the one that their job was registered with.
    pub stale: u64,
}

impl Book {
    /// An empty book with room for so many connections and so many runs.
    pub fn new(alloc: Global, connections: usize, runs: usize) -> Result<Book, AllocError>
        ensures { IfOk result (λ book. book.finished.items ≡ []) }
    {
        Ok(Book {
            finished: Vec::with_capacity(alloc, connections)?,
            ran: Vec::with_capacity(alloc, runs)?,
            stale: 0,
        })
    }

    /// Notes a run of a key, and whether its mark is later than the one that its job was registered with.
    pub(crate) fn note(&mut self, key: u64, is_later: bool)
        ensures { self.new.finished ≡ self.old.finished }
    {
        if self.ran.len() < self.ran.capacity() {
            self.ran.push_reserved(key);
        }
        if !is_later {
            self.stale = self.stale.saturating_add(1);
        }
    }

    /// Takes a connection that is finished.
    pub(crate) fn finish(&mut self, opening: Opening, number: u64, read: u64)
        ensures { (o : Opening) (k : ℕ) → finishes_in self.new.finished.items o k
            ≤ finishes_in self.old.finished.items o k + one_if (is_job o k opening.number opening.fd number) }
    {
        if self.finished.len() >= self.finished.capacity() {
            return;
        }
        self.finished.push_reserved(Finish {
            opening,
            number,
            read,
        });
    }
}
