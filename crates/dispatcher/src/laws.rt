//! What a runner that makes calls goes by.
ghost use Rattle.dispatcher.specs.Runs.{CallsOfRuns};

use event_mgr::calls_weigh;
use stripe_table::Load;

/// What the calls that a run may make come to, as `Runner::run` owes it (`HasMadeCalls`): none, each by
/// itself, and several one after another. A run that opens, registers, withdraws, asks or closes shows its
/// clause `made` by it.
pub fn calls_of_runs<T: Load>()
    ensures { CallsOfRuns T.tag }
{
    calls_weigh::<T>();
}
