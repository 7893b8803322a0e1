//! Passes of all shared things tell one another what they have seen, so that all of them
//! can be brought level.
use crate::rows::ShareRow;
use crate::shared::{ServePass, Shared};
use level::Share;
use outside::Files;
use stripe_table::Load;

impl<J: Load, F: Files> Share for ServePass<J, F> {
    ghost use Rattle.warp_passes.specs.Cells.{serve_meaning};

    type Of = Shared<J, F>;

    ghost meaning = { serve_meaning };

    fn share(of: &Shared<J, F>, from: &mut ServePass<J, F>, to: &mut ServePass<J, F>) {
        of.tell(from, to);
    }
}

impl<J: Load, F: Files> ShareRow for ServePass<J, F> {
    ghost use Rattle.warp_passes.specs.Cells.{pass_row};

    type Of = Shared<J, F>;

    ghost meaning = { pass_row };

    fn share_row(of: &Shared<J, F>, from: &mut ServePass<J, F>, to: &mut ServePass<J, F>) {
        of.tell(from, to);
    }
}
