//! What comes and goes between a connection and the one who keeps files: what is
//! supplied, and what is left at the end.

use fd_cache::Lease;
use outside::Files;

/// What was found at the path that a connection asked for, where files are lent by leases `X`.
#[derive(Drop)]
pub enum Supply<X> {
    /// A file, which is lent to the connection until `Conn::spent_lease` or `Conn::finish` gives it back.
    Leased(X),
    /// No file is there.
    Absent,
    /// The files failed.
    Failed,
    /// Memory was wanted.
    NoMemory,
}

/// What is left of a connection.
#[derive(Drop)]
pub struct Closing<F: Files> {
    /// The lease that wasn't given back.
    pub lease: Option<Lease<F>>,
    /// The moments at which the final answers were made, in order.
    pub moments: Vec<u64>,
    /// How many bytes were written. The count stands still at the end of its type.
    pub bytes: u64,
    /// How many of the link's answers were `NotYet`. The count stands still at the end of its type.
    pub waits: u64,
}
