//! What the dispatchers of a server run: jobs. A job is a connection that is served, or the listener that
//! connections come from. It waits in the manager of events until it fires, and is handed to a runner then.
//!
//! The promise: a job's tag shows what an account needs of it, and its type keeps what the tag doesn't show:
//! that the connection stands for what its link has taken and sent.
#![tactic(auto)]

// What a job holds.
mod listening;
mod session;

// A job.
mod job;

// What a dispatcher is given.
mod gate;
mod kit;

pub use gate::{FreeGate, Gate};
pub use job::Job;
pub use kit::Kit;
pub use listening::{FAILED_ROW, Listening};
pub use session::{Parts, Session, Went};

#[cfg(test)]
mod tests;
