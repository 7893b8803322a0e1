//! The event manager: the registrations of all descriptors, in 32 stripes that any number of threads call
//! at a time. A row of turn cells holds the stripes, so that a call takes the turn of one stripe alone;
//! one cell more holds the numbers that descriptors are opened by.
//!
//! Its promise: each call on an opening or a key makes exactly one entry in the history of its own stripe
//! and none in another's, and its answer is the reply of that entry, in a history that is legal.
#![tactic(auto)]

// The numbers of descriptors, as a part of a turn cell.
mod bits;
mod free_numbers;
mod numbers;

// Rows of turn cells, and passes of them.
mod cells;
mod pass;

// The manager: what is stored, its making, and what is done with passes.
mod leveling;
mod manager;
mod stripes;

// Its calls, and what they answer.
mod answers;
mod calls;
mod kinds;
mod tries;

// What holds of all histories.
mod laws;

pub use answers::{
    AskOut, CloseOut, DispatchOut, Held, OpenOut, RegisterOut, ReportOut, TryDispatch, TryRegister,
    TryReport, WithdrawOut,
};
pub use cells::{Cells, CellsPass};
pub use laws::{
    a_draw_gives_the_least_number, a_number_is_given_back_once, callbacks_run_once, calls_weigh,
    level_passes_add_up, manager_passes_are_split_cell_by_cell, what_was_closed_stays_closed,
};
pub use manager::EventManager;
pub use numbers::{Numbers, NumbersCall, NumbersEntry, NumbersReply};
pub use pass::MgrPass;

#[cfg(test)]
mod tests;
