//! Turns on one thread.
mod plain;
mod planned;
mod turns;
