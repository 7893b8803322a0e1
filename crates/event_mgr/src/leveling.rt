//! Passes of a manager tell one another what they have seen, so that all of them can be brought level.
use crate::manager::EventManager;
use crate::pass::MgrPass;
use level::Share;
use stripe_table::Load;

impl<T: Load> Share for MgrPass<T> {
    ghost use Rattle.event_mgr.specs.Level.{mgr_meaning};

    type Of = EventManager<T>;

    ghost meaning = { mgr_meaning };

    fn share(of: &EventManager<T>, from: &mut MgrPass<T>, to: &mut MgrPass<T>) {
        of.share(from, to);
    }
}
