//! A law of the passes that a server leaves. It is the contract of a function that does nothing when it runs.
ghost use Rattle.std.specs.Prelude.{List, All};
ghost use Rattle.warp_passes.specs.Levels.{ArePassesLevel};
ghost use Rattle.warp_passes.specs.Passes.{PassView, IsLawfulPass};
ghost use Rattle.warp_core.specs.Events.{KeepAllEvents};
ghost use Rattle.warp_commands.specs.Headline.{KeepsCallbacks};

use event_mgr::callbacks_run_once;
use warp_passes::level_passes_add_up;

/// What passes did that were brought level stands in one legal history of each stripe, each call once,
/// and in these histories callbacks run once, under their own openings, and each that is due has
/// exactly one event. Where the passes' dispatchers lost no event, each that was named was dispatched,
/// or lies in the queue or in a hand.
pub(crate) fn level_passes_keep_callbacks<A, L>()
    ensures { (known : A → PassView L) (xs : List A) →
        All (λ x. IsLawfulPass (known x)) xs → ArePassesLevel known xs → KeepAllEvents known xs
        → KeepsCallbacks known xs }
{
    callbacks_run_once();
    level_passes_add_up::<A, L>();
}
