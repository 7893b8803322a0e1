//! The program's call with a server over what plays a script: which end comes of which cause, and what each link got.
//!
//! It has nothing but tests.
#![tactic(auto)]

#[cfg(test)]
mod tests;
