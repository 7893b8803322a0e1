//! What the bytes after the last whole request begin with: the head of a request, something to be
//! refused, or too little to say; and how many of the bytes after a head are its body. Heads are read where
//! they lie, bodies piece by piece; nothing is copied or allocated.
//!
//! The promise: `next` answers exactly what the definition `next_of` says of the same bytes, and after any
//! pieces a `BodyReader` stands where the definition `body_of` says of all of them.
#![tactic(auto)]

// What a head and its body come to.
mod limits;
mod verdict;

// A head, read where it lies.
mod heads;
mod lines;
mod scratch;

// What its parts must be.
mod checks;
mod fields;
mod names;
mod target;
mod values;

// What each field with a meaning asks.
mod coding;
mod connection;
mod expect;
mod framing;
mod host;
mod length;

// A body, byte by byte.
mod body_place;
mod body_reader;

// What holds of the definitions.
mod laws;

pub use body_place::{CHUNK_DIGITS, CHUNK_LINE_LIMIT, TRAILER_LIMIT};
pub use body_reader::{BodyReader, BodyState, Fed};
pub use heads::next;
pub use laws::{
    a_refusal_can_be_sent, a_settled_body_stays, a_settled_head_stays, limits_are_defined,
    lists_join_their_lines,
};
pub use limits::{BODY_LIMIT, FIELD_LIMIT, FIELD_ROOM, HEAD_LIMIT};
pub use lines::is_blank;
pub use scratch::Scratch;
pub use verdict::{Framing, HeadInfo, Next, Span};

#[cfg(test)]
mod tests;
