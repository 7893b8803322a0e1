//! What the calls of a table of registrations say to one another: openings of descriptors, keys of
//! registrations, directions, marks and events, and the history that one stripe of the table makes of
//! them. The definitions in specs/ say of such a history, entry by entry, what is live, waiting, due
//! and out after it, and which reply each call must have.
//!
//! The promise: in every legal history a registration runs at most once, only under its own opening
//! and only after it was due, and a due registration has exactly one event out.
//!
//! What holds of every legal history is had by calling a law: a function that does nothing, whose
//! contract is the law. Lemmas for crates that compute with histories themselves stand in specs/, in
//! `Laws` and `ListLaws`; the proofs prove the laws.
#![tactic(auto)]

// Openings, registrations and events.
mod event;
mod limits;
mod opening;
mod registration;

// The entries of a history.
mod entry;

// Laws of legal histories, and worked histories.
mod laws;
mod worked;

pub use entry::{
    AskOutcome, CloseOutcome, DispatchOutcome, Entry, FiredKey, LoadKind, OpenOutcome,
    RegisterOutcome, ReportOutcome, ShutKey, WithdrawOutcome,
};
pub use event::{Event, EventName};
pub use laws::{
    lawful_worlds_lose_no_wake_up, legal_closes_for_good, legal_closes_what_it_opened,
    legal_draws_each_once, legal_draws_in_its_stripe, legal_ended_or_waits,
    legal_ends_what_was_registered, legal_has_one_event_each, legal_is_consistent,
    legal_names_own_openings, legal_numbers_reports_alone, legal_runs_once,
    legal_runs_under_its_marks, legal_runs_what_was_registered, legal_stripes_happen_once,
    legal_tells_of_flags, refusals_change_nothing,
};
pub use limits::{
    DESCRIPTORS, FLAGS, LAST_COUNT, PLACES, STRIPE_DESCRIPTORS, STRIPES,
    limits_are_those_of_the_definitions,
};
pub use opening::Opening;
pub use registration::{Dir, Dirs, Key, Marks};
pub use worked::{
    worked_answers_are_legal, worked_events_are_legal, worked_last_descriptor_is_legal,
    worked_marks_are_legal, worked_refusals_are_legal,
};

#[cfg(test)]
mod tests;
