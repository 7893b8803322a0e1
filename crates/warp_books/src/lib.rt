//! What a server does with each connection that is finished: it hands it to a book, and one book for each
//! dispatcher keeps how many ended in each way, and what they add up to.
//!
//! The promise: a book's numbers are the sums over all that it was handed, each up to the most that a number
//! holds; and a finished connection is true to its link: what was sent is a prefix of the answers to what was
//! taken, and it is called cleanly ended or cut short only where it was.
#![tactic(auto)]

// A finished connection.
mod finish;
mod finished;

// Where it is kept.
mod book;
mod sum_book;

// Laws of books.
mod laws;

pub use book::{Book, Ended};
pub use finish::{Finish, Turned};
pub use finished::Finished;
pub use laws::{
    books_add_up, ended_connections_are_true, given_up_connections_are_true,
    unserved_connections_are_true,
};
pub use sum_book::SumBook;

#[cfg(test)]
mod tests;
