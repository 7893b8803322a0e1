//! All things new, and a pass of them for each dispatcher.
ghost use Rattle.std.specs.Prelude.{◌≡◌, ◌<◌, IfOk, length};
ghost use Rattle.warp_passes.specs.Levels.{AreNewPasses};

use crate::shared::{ServePass, Shared};
use event_mgr::manager_passes_are_split_cell_by_cell;
use level::split_passes_hold_all_seats;
use outside::Files;
use std::alloc::{AllocError, Global};
use stripe_table::Load;

/// All things new, and this many passes of them. None has seen anything or did anything, and on
/// each cell each seat is one pass's.
pub fn shared_among<J: Load, F: Files>(
    alloc: Global,
    dispatchers: usize,
) -> Result<(Shared<J, F>, Vec<ServePass<J, F>>), AllocError>
    requires { 0 < dispatchers }
    ensures count { IfOk result (λ s. length s.1.items ≡ dispatchers) }
    ensures new { IfOk result (λ s. AreNewPasses s.0 s.1.items) }
{
    // Laws of seats, for the proof: they do nothing when run.
    split_passes_hold_all_seats::<ServePass<J, F>>();
    manager_passes_are_split_cell_by_cell();
    let mut passes = Vec::with_capacity(alloc, dispatchers)?;
    let (shared, first) = Shared::new(alloc)?;
    passes.push_reserved(first);
    for _ in 1..dispatchers {
        let first = &mut passes[0];
        let other = shared.split(alloc, first)?;
        passes.push_reserved(other);
    }
    Ok((shared, passes))
}
