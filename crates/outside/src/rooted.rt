//! What files keep of the last look for their root, so that a caller can be shown it.
use crate::files::RootOut;

/// The last root that was asked for, and the answer.
#[derive(Drop)]
pub(crate) struct Rooted {
    pub(crate) text: String,
    pub(crate) answer: RootOut,
}
