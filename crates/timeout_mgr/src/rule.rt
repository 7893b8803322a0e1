//! The rule of the table of a timeout manager, which holds between any two steps of any threads.
ghost use Rattle.timeout_mgr.specs.Passes.{first_view};
ghost use Rattle.timeout_mgr.specs.Rule.{IsKept};

use crate::view::TimeView;
use atomic_table::TableRule;
use reg_keys::Opening;

/// The rule. It needs no key.
pub struct Words;

impl TableRule<Option<Opening>, TimeView, ()> for Words {
    ghost holds = { λ key. IsKept };

    ghost first = { λ key. first_view };
}
