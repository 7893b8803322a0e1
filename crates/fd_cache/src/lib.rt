//! Files that stay open between requests: a cache of at most 256 paths, of each of which it keeps up to
//! two open files that nobody uses. A file that is lent is a lease. It goes back by a release, and a
//! reap closes what nobody asked for.
//!
//! Its promise: each call adds one deed to the history that the cache stands for, and its
//! reply is what that history calls for. So a file is lent to one at a time, and none is
//! closed while a lease of its path is out.
#![tactic(auto)]

// What is lent, and what a call answers.
mod acquired;
mod calls;
mod deed;
mod lease;

// The cache as a part: an entry a path, and the files that nobody uses.
mod basket;
mod cache;
mod entry;
mod index;
mod shelf;

// The calls, over a cache that is shared and over one of one's own.
mod looking;
mod own;
mod shared;

// Laws of histories.
mod laws;

pub use acquired::{Acquired, ReleaseOut};
pub use basket::Basket;
pub use cache::Cache;
pub use calls::{CacheCall, CacheReply};
pub use deed::CacheDeed;
pub use laws::{histories_account_for_leases, histories_go_by_paths};
pub use lease::{Lease, Ticket};
pub use own::{acquire_own, release_own};
pub use shared::{acquire, release};

#[cfg(test)]
mod tests;
