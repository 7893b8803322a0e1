//! Tests of `stripe_table`: tables of calls on a stripe and of the replies that they must have, and a stripe
//! in a turn cell. They stand in a crate of their own, since a crate with tests is proved twice.
#![tactic(auto)]

#[cfg(test)]
mod tests;
