//! What no clause says: that the calls succeed with ample memory, and what the adapters
//! make of the real thing.
mod adapters;
mod memory;
