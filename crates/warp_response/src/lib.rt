//! The bytes of every answer of the server: its status line, its fields and the empty line after them (RFC
//! 9112, sections 2 to 4; RFC 9110). It knows no connection, no request and no file: it is told what an
//! answer shows and writes it into a buffer that has room for every head, and so it never runs out of
//! memory after the buffer's making.
//!
//! Its promise: `head_bytes` writes exactly the head that `head_text` defines, for every
//! response that can be sent.
#![tactic(auto)]

// What an answer shows.
mod response;
pub mod status;

// The bytes of its head.
mod date_line;
mod fields;
mod head_buf;
mod heads;
mod location;

// The answers that no application makes.
mod refusals;

// What holds of the definitions.
mod laws;

pub use head_buf::HeadBuf;
pub use heads::head_bytes;
pub use laws::{a_date_is_of_its_moment, each_status_has_its_number};
pub use refusals::{interim, refusal};
pub use response::{Content, Kind, LastWord, Place, Response};

#[cfg(test)]
mod tests;
