//! What calls on a cell are made with, and what they answer.
ghost use Rattle.turn_cell.specs.Rule.{IsAtRest};

use crate::part::Part;
use crate::view::View;
use atomic_table::Seat;

/// What a thread makes calls on a cell with. It has no bytes.
///
/// It is of one cell, and belongs to whoever holds it: dropping it leaves its seats to nobody.
#[derive(Drop)]
pub struct Pass<P, E> {
    pub(crate) seat: Seat<Option<P>, View<E>>,
    ghost rests: { IsAtRest seat.me },
}

/// What a step answers that waits for its turn.
#[derive(Drop)]
pub enum Stepped<P: Part> {
    /// The call was made, and stands in the history.
    Done(P::Reply),
    /// The cell has 2^62 entries and takes no more. The call is handed back.
    Spent(P::Call),
}

/// What a step answers that makes one try.
#[derive(Drop)]
pub enum Tried<P: Part> {
    /// The call was made, and stands in the history.
    Done(P::Reply),
    /// The turn was held. `count` is the number of entries that the word had, and the call is handed back.
    Busy { count: u64, call: P::Call },
    /// The cell has 2^62 entries and takes no more. The call is handed back.
    Spent(P::Call),
}
