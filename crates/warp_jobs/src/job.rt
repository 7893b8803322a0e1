//! What waits in the manager of events.
ghost use Rattle.warp_jobs.specs.Tags.{tag_of};

use crate::listening::Listening;
use crate::session::Session;
use outside::Files;
use poller::Poller;
use stripe_table::Load;

/// A job: a connection that is served, or the listener. Each lies in one box, so that a job is two words.
#[derive(Drop)]
pub enum Job<P: Poller, F: Files> {
    Serve(Box<Session<P::Link, F>>),
    Listen(Box<Listening<P::Listener>>),
}

impl<P: Poller, F: Files> Load for Job<P, F> {
    ghost tag = { λ job. tag_of job };
}
