//! What a dispatcher works with.

/// What one dispatcher works with: a poller, files, a clock, the book of the connections that it finished,
/// and a gate.
#[derive(Drop)]
pub struct Kit<P, F, C, B, G> {
    pub poller: P,
    pub files: F,
    pub clock: C,
    pub book: B,
    pub gate: G,
}
