//! Sockets on the loopback, with the client in the same process. Each loop has its limit, and no read of a
//! client waits longer than a test has time.
mod beside;
mod faults;
mod lingering;
mod polls;
mod set_up;
