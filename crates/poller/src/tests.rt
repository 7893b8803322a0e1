//! What no clause says: that the calls succeed with ample memory, the worked row of a net, that a dropped
//! link is reported no more, and that nothing is lost between a thread that polls and one that reads.
mod net;
mod reports;
