//! Finished connections, and what takes them.
ghost use Rattle.std.specs.Prelude.{◌≡◌, length};
ghost use Rattle.warp_books.specs.Books.{FinishedTold, BookTold, BookHasTaken, capped};

use crate::finish::Finish;

/// A connection that is finished, as a book sees it. What contracts know of it is one record.
pub trait Ended {
    // Its opening, its link, the moments that were asked for it, its bytes and waits, and how it ended.
    ghost told: { Self → FinishedTold };

    /// How it ended.
    fn end(&self) -> Finish
        ensures { result ≡ (told self.now).end };

    /// How many moments were asked for it, at most 2^64 - 1.
    fn moments(&self) -> u64
        ensures { result ≡ capped (length (told self.now).moments) };

    /// How many bytes were sent, where its link tells them, at most 2^64 - 1.
    fn bytes(&self) -> u64
        ensures { result ≡ (told self.now).bytes };

    /// How often its link had to be waited for, at most 2^64 - 1.
    fn waits(&self) -> u64
        ensures { result ≡ (told self.now).waits };
}

/// What takes each connection that is finished, by one dispatcher.
pub trait Book<D: Ended>: Drop {
    // The sums over all that it was handed, and, where it keeps them, the list of them.
    ghost told: { Self → BookTold };

    /// Takes a finished connection.
    fn finished(&mut self, done: D)
        ensures { BookHasTaken (D.told done) (told self.old) (told self.new) };
}
