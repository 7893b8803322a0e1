//! Dispatchers tell one another what their passes have seen, where these lie in rows.

use crate::row::Row;
use level::Share;
use outside::{Clock, Files};
use poller::Poller;
use warp_books::{Book, Finished};
use warp_jobs::{Gate, Job};
use warp_passes::{ShareRow, Shared, tell_queue};

impl<P: Poller, F: Files, C: Clock, B: Book<Finished<P::Link, F>>, G: Gate> ShareRow
    for Row<P, F, C, B, G> {
    ghost use Rattle.warp_passes.specs.Cells.{meaning_by};
    ghost use Rattle.warp_core.specs.Rows.{Beside, IsRowOf, beside_of, known_by};

    type Of = Shared<Job<P, F>, F>;

    ghost meaning = { record {
      passes = meaning_by known_by IsRowOf;
      beside = Beside;
      rest = λ row. beside_of B.told P.meaning.faults C.told row;
    } };

    fn share_row(
        of: &Shared<Job<P, F>, F>,
        from: &mut Row<P, F, C, B, G>,
        to: &mut Row<P, F, C, B, G>,
    ) {
        Share::share(&of.mgr, &mut from.disp.mgr, &mut to.disp.mgr);
        tell_queue(&of.queue, &mut from.disp.queue, &mut to.disp.queue);
        Share::share(&of.cache, &mut from.runner.cached, &mut to.runner.cached);
        Share::share(&of.tally, &mut from.runner.tallied, &mut to.runner.tallied);
    }
}
