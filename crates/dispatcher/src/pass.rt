//! What a dispatcher makes its calls with. A caller may use its passes between turns, as one that opens
//! descriptors does, and may put others in their place: a turn asks for no more than that they are of its
//! manager and its queue.
ghost use Rattle.std.specs.Prelude.{◌≡◌, [], IfOk};

use crate::hand::Hand;
use event_mgr::MgrPass;
use ready_queue::QPass;
use std::alloc::{AllocError, Global};

/// A dispatcher's passes of the manager and of the queue, and the events in its hand.
#[derive(Drop)]
pub struct DispPass<T> {
    pub mgr: MgrPass<T>,
    pub queue: QPass,
    pub hand: Hand,
}

impl<T> DispPass<T> {
    /// The two passes, and an empty hand. All memory that a dispatcher's turns ever need is taken here, but
    /// what its runner and its poller take.
    pub fn new(alloc: Global, mgr: MgrPass<T>, queue: QPass) -> Result<DispPass<T>, AllocError>
        ensures mgr { IfOk result (λ passes. passes.mgr ≡ mgr) }
        ensures queue { IfOk result (λ passes. passes.queue ≡ queue) }
        ensures hand { IfOk result (λ passes. passes.hand ≡ []) }
    {
        let hand = Hand::new(alloc)?;
        Ok(DispPass { mgr, queue, hand })
    }
}
