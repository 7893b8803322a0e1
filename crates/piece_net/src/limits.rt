//! The sizes of a scripted poller, each named once. They are this project's own.

/// How many openings a scripted poller keeps at most: one for each descriptor.
pub const KEPT: usize = 4096;
