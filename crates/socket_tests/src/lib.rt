//! The server over real sockets, by the call that the program is, with its clients in the same process. It is
//! tests alone, in a crate of their own, since no crate below knows both `serve` and sockets.
#![tactic(auto)]

#[cfg(test)]
mod tests;
