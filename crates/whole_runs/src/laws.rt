//! What holds of all that the dispatchers of a server did. The law is the contract of a function
//! that does nothing when it runs.
ghost use Rattle.std.specs.Prelude.{All};
ghost use Rattle.std.specs.Arc.{arc_value};
ghost use Rattle.turn_cell.specs.Weights.{weigh};
ghost use Rattle.poller.specs.Faults.{PollerFaults};
ghost use Rattle.warp_passes.specs.Levels.{ArePassesLevel};
ghost use Rattle.warp_passes.specs.Passes.{AreOf, pass_view};
ghost use Rattle.warp_core.specs.Ends.{EndsSo};
ghost use Rattle.warp_core.specs.Journals.{AreExplained};
ghost use Rattle.whole_runs.specs.Accounts.{ServedAddsUp};

use fd_cache::Lease;
use outside::Files;
use poller::Poller;
use reg_keys::{legal_ends_what_was_registered, legal_stripes_happen_once};
use warp_books::{Book, Finished};
use warp_core::Served;
use warp_jobs::Job;
use warp_passes::{ServePass, level_passes_add_up};
use warp_tally::finishes_follow_accepts;

/// What a server of this many links leaves behind adds up. The caller owes what `serve_loop` says of it.
pub fn served_runs_add_up<P: Poller, F: Files, C, B: Book<Finished<P::Link, F>>, G>(
    served: &Served<P, F, C, B, G>,
    limit: u64,
)
    requires own { All (λ pass. AreOf (arc_value served.now.shared) pass) served.now.passes.items }
    requires level { ArePassesLevel pass_view served.now.passes.items }
    requires explained { AreExplained B.told limit served.now.passes.items served.now.kits.items }
    requires ends { EndsSo pass_view limit served.now.end served.now.passes.items
        (weigh (λ kit. (P.meaning.faults kit.poller).polls) served.now.kits.items) }
    ensures { ServedAddsUp B.told limit served.now }
{
    level_passes_add_up::<ServePass<Job<P, F>, F>, Lease<F>>();
    legal_ends_what_was_registered();
    legal_stripes_happen_once();
    finishes_follow_accepts();
}
