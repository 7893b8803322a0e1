//! One stripe of the table of callbacks: the registrations of the 128 descriptors `fd` with the same `fd %
//! 32`, with their readiness, their events and the flags that haven't been asked to their end. It is used by
//! one thread at a time, lies behind one lock, and stores nothing of its past.
//!
//! The promise: each call adds exactly one entry to the history that the stripe stands for, and its reply is
//! the one that the definitions over that history give.
#![tactic(auto)]

// What is registered, what is asked and what is answered.
mod calls;
mod four;
mod load;

// The stripe, and the stripe as what a turn cell guards.
mod part;
mod stripe;

// What a stripe keeps.
mod bits;
mod descriptor;
mod firing;
mod flags;
mod index;

pub use calls::{
    AskReply, CloseReply, DispatchReply, Fired, FiredList, OpenReply, RegisterReply, Reply,
    ReportReply, ShutList, StripeCall, WithdrawReply,
};
pub use four::Four;
pub use load::{Load, Payload};
pub use stripe::Stripe;
