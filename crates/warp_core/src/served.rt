//! What a server leaves behind.

use outside::Files;
use poller::Poller;
use std::sync::Arc;
use warp_jobs::{Job, Kit};
use warp_passes::{ServePass, Shared};

/// How many links were accepted, and how many of them were turned away before they had an opening.
#[derive(Clone, Copy, Debug, PartialEq, Eq)]
pub struct Counts {
    pub accepted: u64,
    pub turned: u64,
}

/// How a server ended.
#[derive(Clone, Copy, Debug, PartialEq, Eq)]
pub enum ServeEnd {
    /// As many links were accepted as it was to serve, and each is finished.
    Over(Counts),
    /// A poller failed, in a poll or in taking the listener.
    PollFault,
    /// 1,000 accepts in a row failed.
    AcceptFault,
    /// A stripe, a cell or the queue takes no more calls.
    Spent,
    /// Memory was wanted.
    NoMemory,
}

/// What a server leaves behind: how it ended, what its dispatchers shared, their passes, and their kits.
#[derive(Drop)]
pub struct Served<P: Poller, F: Files, C, B, G> {
    pub end: ServeEnd,
    pub shared: Arc<Shared<Job<P, F>, F>>,
    pub passes: Vec<ServePass<Job<P, F>, F>>,
    pub kits: Vec<Kit<P, F, C, B, G>>,
    pub listener: Option<P::Listener>,
    pub limit: u64,
    pub seconds: u64,
}
