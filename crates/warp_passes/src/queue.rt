//! Telling one pass of the queue what another has seen: a pass is split off the one and joined into the other,
//! as with the passes of a turn cell. It has made no move, so nobody's own moves change.
ghost use Rattle.level.specs.Leveling.{HasShared};
ghost use Rattle.ready_queue.specs.Calls.{IsOf, view_of};

use ready_queue::{QPass, ReadyQueue};

/// Tells `to` what `from` has seen of the queue.
///
/// It takes no memory, makes no move, and waits for nothing.
pub fn tell_queue(queue: &ReadyQueue, from: &mut QPass, to: &mut QPass)
    requires from { IsOf queue.now from.old }
    requires to { IsOf queue.now to.old }
    ensures from { IsOf queue.now from.new }
    ensures to { IsOf queue.now to.new }
    ensures shared { HasShared (view_of from.old) (view_of to.old) (view_of from.new) (view_of to.new) }
{
    let Ok(other) = queue.split(from) else {
        unreachable!()
    };
    queue.join(to, other);
}
