//! One connection, from the bytes read to the bytes written: request after request, in order, for any cutting
//! of the input. A `Conn` owns all the memory that it needs; the link, the files, the clock, the application
//! and a scratch are lent to it for each call. It opens no file: it asks for one by its path, and is supplied
//! with a lease. Answers that are ready together are written together, and content is read into the room of
//! what is written, part by part.
//!
//! The promise: after each `advance` the bytes written are a prefix of the answers to the bytes
//! read, in order, at the moments that the clock gave, and all of them wherever the connection
//! waits for more or ends cleanly.
#![tactic(auto)]

// What bounds a connection.
mod limits;

// How a call ends, and what a connection is supplied with.
mod step;
mod supply;

// The memory of a connection, and that of a thread.
mod buffer;
mod scratch;
mod writing;

// One request: where a connection stands with it, its body, and what an answer says of the connection.
mod bodies;
mod closing;
mod phase;

// The connection.
mod conn;

// Laws of the definitions.
mod laws;

pub use conn::Conn;
pub use laws::{
    answers_grow_with_bytes, answers_grow_with_moments, answers_take_no_more_moments, closed_stays,
    moments_grow, nothing_is_open, sent_is_a_prefix, the_limit_is_defined,
};
pub use limits::ANSWER_LIMIT;
pub use scratch::Scratch;
pub use step::{End, Step};
pub use supply::{Closing, Supply};

#[cfg(test)]
mod tests;
