//! Tests of whole servers over a net in memory, with their dispatchers in threads: loads that are served to their
//! ends, by any number of dispatchers, and a run that its gate holds up while others pass. They stand in a crate of
//! their own, since a crate with tests is proved twice.
#![tactic(auto)]

#[cfg(test)]
mod tests;
