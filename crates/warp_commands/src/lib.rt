//! The commands: what their words mean, and the calls that carry them out from words to status.
//!
//! Its promise: the call that the program's `main` makes says of the very link, files, clock and sink that
//! it was handed that the written bytes are a prefix of the requests' answers in order, whole at a clean
//! end, and why each status came.
#![tactic(auto)]

// What the words mean, and what a status is.
mod command;
mod service;
mod status;

// One connection, served.
mod connection;

// What is promised of every server's passes.
mod laws;

// A load, served, and what is told of it.
mod load_run;
mod printing;
mod summary;

// Whoever connects, served.
mod serving;

// The call that a program is.
mod program;

pub use command::{Command, Usage, command_of};
pub use connection::run_connection;
pub use load_run::Driven;
pub use program::{Host, run};
pub use service::Service;
pub use serving::ServedBy;
pub use status::{Status, refuse};

#[cfg(test)]
mod tests;
