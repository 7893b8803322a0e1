//! The watches of one thread, of a full table, of passes that add, and of a watch that
//! several threads are after.
mod full;
mod round;
mod sweeps;
mod threads;
