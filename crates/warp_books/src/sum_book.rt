//! A book that keeps sums alone.
ghost use Rattle.std.specs.Prelude.{◌≡◌, ◌<◌, []};
ghost use Rattle.warp_books.specs.Books.{BookHasTaken, IsBookOf, kind_number};
ghost use Rattle.warp_books.specs.EndCounts.{book_told};

use crate::book::{Book, Ended};
use crate::finish::{Finish, Turned};
use conn_loop::End;

/// How many kinds of end there are.
const KINDS: usize = 11;

/// The place of the count of a kind of end.
fn place_of(kind: Finish) -> usize
    ensures number { result ≡ kind_number kind }
    ensures within { result < KINDS }
{
    match kind {
        Finish::Ended(End::Clean) => 0,
        Finish::Ended(End::Cut) => 1,
        Finish::Ended(End::ReadFault) => 2,
        Finish::Ended(End::WriteFault) => 3,
        Finish::Ended(End::FileFault) => 4,
        Finish::Ended(End::NoMemory) => 5,
        Finish::TimedOut => 6,
        Finish::TurnedAway(Turned::Watches) => 7,
        Finish::TurnedAway(Turned::Crowded) => 8,
        Finish::TurnedAway(Turned::Poller) => 9,
        Finish::TurnedAway(Turned::Shut) => 10,
    }
}

/// How many connections ended in each way, and how many moments, bytes and waits they had together. Each
/// number stops at 2^64 - 1. It takes no memory.
#[derive(Drop)]
pub struct SumBook {
    ends: [u64; KINDS],
    moments: u64,
    bytes: u64,
    waits: u64,
}

impl SumBook {
    /// A book that was handed nothing.
    pub fn new() -> SumBook
        ensures { IsBookOf [] (book_told result) }
    {
        SumBook {
            ends: [0; KINDS],
            moments: 0,
            bytes: 0,
            waits: 0,
        }
    }

    /// How many connections ended in this way.
    pub fn ends(&self, kind: Finish) -> u64
        ensures { result ≡ (book_told self.now).sums.ends kind }
    {
        self.ends[place_of(kind)]
    }

    /// How many moments were asked for them.
    pub fn moments(&self) -> u64
        ensures { result ≡ (book_told self.now).sums.moments }
    {
        self.moments
    }

    /// How many bytes were sent.
    pub fn bytes(&self) -> u64
        ensures { result ≡ (book_told self.now).sums.bytes }
    {
        self.bytes
    }

    /// How often their links had to be waited for.
    pub fn waits(&self) -> u64
        ensures { result ≡ (book_told self.now).sums.waits }
    {
        self.waits
    }
}

impl<D: Ended + Drop> Book<D> for SumBook {
    ghost told = { book_told };

    fn finished(&mut self, done: D)
        ensures { BookHasTaken (D.told done) (book_told self.old) (book_told self.new) }
    {
        let place = place_of(done.end());
        self.ends[place] = self.ends[place].saturating_add(1);
        self.moments = self.moments.saturating_add(done.moments());
        self.bytes = self.bytes.saturating_add(done.bytes());
        self.waits = self.waits.saturating_add(done.waits());
    }
}
