//! What a server counts over all its dispatchers: connections that were accepted, turned away and finished,
//! and the first stop. It is a part of a turn cell, so that all calls stand in one history.
//!
//! The promise: a connection's finish counts at most once, and only after it was accepted; and where as many
//! were finished as were accepted, each one was.
#![tactic(auto)]

mod calls;
mod laws;
mod open_set;
mod tally;

pub use calls::{Counted, TallyCall, TallyEntry, TallyReply};
pub use laws::{
    finished_openings_are_counted, finishes_follow_accepts, full_counts_close_each,
    pasts_weigh_as_their_histories, replies_show_the_counts, stops_stay, tallies_reply_rightly,
};
pub use tally::Tally;

#[cfg(test)]
mod tests;
