//! What one call on a cache and its reply come to. It is plain content, for contracts alone.
use std::collections::LinkedList;

/// One call and its reply. A number is that of the entry that the reply gave or that a lease or a ticket
/// names; a list is a path; `L` is what is lent.
pub enum CacheDeed<L> {
    /// A path was asked for, and a lease of its entry was given that had come back before.
    Hit(u64, LinkedList<u64>, L),
    /// A path was asked for, and its entry has no file that nobody uses, or there was no
    /// entry and there is one now.
    Fresh(u64, LinkedList<u64>),
    /// A path was asked for that the cache doesn't keep.
    Bypass(LinkedList<u64>),
    /// The file of this path was found for a ticket, and the lease names this entry or none.
    Made(u64, LinkedList<u64>, Option<u64>),
    /// Nothing was found for a ticket.
    Abandoned(u64),
    /// A lease of this path came back, and is kept.
    Kept(u64, LinkedList<u64>, L),
    /// A lease of this path came back that names this entry or none, and its file is handed back.
    Extra(Option<u64>, LinkedList<u64>),
    /// These leases were closed.
    Reaped(LinkedList<L>),
}
