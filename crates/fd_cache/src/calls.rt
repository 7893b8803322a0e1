//! What a cache is asked, and what it answers.
use crate::basket::Basket;
use crate::lease::{Lease, Ticket};
use outside::Files;

/// What is asked of a cache.
#[derive(Drop)]
pub enum CacheCall<F: Files> {
    /// A lease of the file at this path.
    Acquire(String),
    /// The file of a ticket was found: the file, its size and its time.
    Supplied(Ticket, F::File, u64, u64),
    /// Nothing was found for a ticket.
    Abandon(Ticket),
    /// A lease comes back.
    Release(Lease<F>),
    /// What nobody asked for since the last reap is closed. The basket is empty.
    Reap(Basket<Lease<F>>),
}

/// What a cache answers.
#[derive(Drop)]
pub enum CacheReply<F: Files> {
    /// A lease whose file was open already.
    Hit(Lease<F>),
    /// The caller looks for the file, and hands the ticket back with what was found.
    Fresh(Ticket),
    /// The cache doesn't keep this path: the caller looks for the file, for himself.
    Bypass(String),
    /// The lease of a file that was found.
    Made(Lease<F>),
    /// The ticket is back.
    Abandoned,
    /// The lease is back, and its file stays open.
    Kept,
    /// The lease is back, and its file isn't kept.
    Extra(F::File),
    /// The leases that were closed.
    Reaped(Basket<Lease<F>>),
}
