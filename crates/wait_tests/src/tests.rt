//! Links that were accepted, and threads that wait for them.
mod net;
mod waiting;
