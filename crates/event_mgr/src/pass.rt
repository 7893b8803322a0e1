//! What calls on the manager are made with.
use crate::cells::CellsPass;
use crate::numbers::{Numbers, NumbersEntry};
use reg_keys::Entry;
use stripe_table::Stripe;
use turn_cell::Pass;

/// A pass of each of the 32 stripes' cells, and one of the cell of the numbers.
///
/// It is of one manager, and belongs to whoever holds it. Join it into another before you drop it, or
/// its entries are nobody's: they stay in the histories, but no sum over passes counts them any more.
#[derive(Drop)]
pub struct MgrPass<T> {
    pub(crate) stripes: CellsPass<Stripe<T>, Entry>,
    pub(crate) numbers: Pass<Numbers, NumbersEntry>,
}
