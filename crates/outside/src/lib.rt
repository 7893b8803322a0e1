//! What a connection stands on: a link, files, a clock and a sink. Each is a trait whose contract all that
//! stands above is proved from, with a form in memory, which tells its bytes, and an adapter over the real
//! thing, which tells its counts alone. A listener, which links come from, is a trait alone: its two forms
//! belong to the pollers, in the crates above.
//!
//! The promise: a call answers that something failed or must wait only where a count of
//! that very object rose.
#![tactic(auto)]

// The traits.
mod clock;
mod count;
mod files;
mod link;
mod listener;
mod sink;

// What the forms in memory are made of.
mod bytes;
mod call_script;
mod looks;
mod place;
mod read_script;

// The forms in memory.
mod mem_clock;
mod mem_files;
mod mem_sink;
mod piece_link;

// What the adapters share.
mod retry;
mod rooted;

// The adapters over the system.
mod os_clock;
mod os_file;
mod os_files;
mod std_link;
mod std_sink;

pub use bytes::{Room, copy_from};
pub use clock::Clock;
pub use count::Count;
pub use files::{Files, FindOut, Opened, PartOut, RootOut};
pub use link::{Link, ReadOut, WriteOut};
pub use listener::{AcceptOut, Listener};
pub use mem_clock::MemClock;
pub use mem_files::{MemFile, MemFiles, MemOpen};
pub use mem_sink::MemSink;
pub use os_clock::OsClock;
pub use os_file::OsFile;
pub use os_files::OsFiles;
pub use piece_link::{PieceLink, WriteEvent};
pub use place::Place;
pub use read_script::ReadEvent;
pub use sink::{Sink, SinkOut};
pub use std_link::StdLink;
pub use std_sink::StdSink;

#[cfg(test)]
mod tests;
