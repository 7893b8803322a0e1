//! Watches over openings, by which a server ends connections on which nothing happens. A watch is added for
//! an opening and tickled whenever something happens on it. From time to time a sweep comes by and gives the
//! openings of the watches that nobody tickled since the sweep before. Each watch has a word in a table and a
//! slot for its opening, and every call is a few atomic steps on words: nothing waits, and nothing is
//! allocated.
//!
//! The promise: there is one history of what was decided of which watch, of which each pass knows a part. In
//! it a watch lives from its add to its cancel or to the sweep that gives it, a sweep gives a watch exactly
//! where a sweep was the last that came by, and each answer is the one that the history calls for.
#![tactic(auto)]

// Bounds, watches, and what is known of them.
mod limits;
mod view;
mod watch;

// The rule of the words, and what each step does by it.
mod one_slot;
mod plays;
mod round;
mod rule;
mod word;

// The table and its calls.
mod expired;
mod timeouts;

// Laws of histories.
mod laws;

pub use expired::Expired;
pub use laws::{
    added_watches_were_unborn, ended_watches_stay_ended, full_tables_show_each_slot,
    gone_watches_have_ended, sweeps_answer_what_they_gave, sweeps_give_after_a_sweep,
    watches_end_once, watches_keep_their_openings,
};
pub use limits::{SLOTS, USES};
pub use rule::Words;
pub use timeouts::{TimePass, Timeouts};
pub use view::{
    AddOutcome, CancelOutcome, Holding, Shown, TimeCall, TimeView, WatchEntry, WatchName,
};
pub use watch::{AddWatch, CancelOut, TickleOut, Watch};

#[cfg(test)]
mod tests;
