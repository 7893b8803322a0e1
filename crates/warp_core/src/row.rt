//! A dispatcher between two turns.

use crate::beat::Beats;
use dispatcher::DispPass;
use outside::Files;
use poller::{Poller, Reports};
use warp_jobs::Job;
use warp_runner::ServerRunner;

/// Why a dispatcher makes no further turn.
#[derive(Clone, Copy)]
pub(crate) enum Halted {
    /// Its poller failed, in a poll or in taking the listener.
    PollFault,
    /// One of its deeds stopped it with this code, and the tally was told so.
    WithCode(u8),
    /// A stripe, a cell or the queue takes no more calls.
    Spent,
}

/// One dispatcher: its passes of the manager and of the queue, its runner, and how it stopped.
#[derive(Drop)]
pub(crate) struct Row<P: Poller, F: Files, C, B, G> {
    pub(crate) disp: DispPass<Job<P, F>>,
    pub(crate) runner: ServerRunner<P, F, C, B, G>,
    pub(crate) reports: Reports,
    /// The beats, of the one dispatcher that keeps them.
    pub(crate) beats: Option<Beats<F>>,
    /// Why it makes no further turn, if it doesn't.
    pub(crate) halted: Option<Halted>,
}
