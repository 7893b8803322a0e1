//! The round in which adds look at the slots. A pass adds its watches one after the other, and different
//! threads write their words later. So slots whose places in the round follow one another lie in different
//! lines of a processor's cache.
ghost use Rattle.std.specs.Prelude.{◌≡◌, ◌<◌};
ghost use Rattle.timeout_mgr.specs.Calls.{slot_at};

use crate::limits::SLOTS;

/// How many words of a table lie in one line of a processor's cache.
const LINE: usize = 8;

/// In how many lines the words of all slots lie.
const LINES: usize = SLOTS / LINE;

/// How many places two passes begin apart that were split. It is no multiple of the lines, so that the first
/// eight passes begin in different lines, and the first 64 at different slots.
pub(crate) const SPLIT_GAP: usize = LINES + LINES / 8;

/// The slot at this place of the round.
pub(crate) fn slot_of(place: usize) -> usize
    requires { place < 4096 }
    ensures is { result ≡ slot_at place }
    ensures inside { result < 4096 }
{
    place % LINES * LINE + place / LINES
}
