//! The sizes of polls and of the memory net, each named once. They are this project's own.

/// How many reports one poll gives at most.
pub const REPORTS: usize = 1024;

/// How many links the listener of a memory net gives before its first report, and how many more each report
/// allows.
pub const ACCEPTS: u64 = 16;
