//! A lock of the project's own, over one word and one slot of `atomic_table`. A value that calls are applied
//! to, a `Part`, lies in a `TurnCell`, and each thread calls it with a `Pass`. The calls of all threads stand
//! in one history, which no memory has; each pass knows a beginning of it, and which of its entries are the
//! pass's own.
//!
//! Its promise: a call that was made is the last entry of a history that begins with all that its pass had
//! seen, of the pass's own entries it alone is new, and its reply answers it.
//!
//! Tables above that have seats of this kind and a rule of their own cite the definitions of specs/, the
//! laws, and of the proofs `Weights`, `Classes`, `Seats`, `Entries`, `Passes` and `Joins`, which speak of any
//! histories and views.
#![tactic(auto)]

// What is called, and with what.
mod cell;
mod part;
mod pass;

// What contracts know of it.
mod laws;
mod view;

// Why it is so: the rule, and the atomic steps under it.
mod plays;
mod rule;

pub use cell::TurnCell;
pub use laws::{
    all_seats_see_all, an_entry_is_the_passes_own, halves_are_a_split, joined_views_are_a_join,
};
pub use part::Part;
pub use pass::{Pass, Stepped, Tried};
pub use view::{JoinPending, Turn, View};

#[cfg(test)]
mod tests;
