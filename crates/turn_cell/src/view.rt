//! What a pass knows of its cell's history. It is plain data that exists in contracts alone: no value of it
//! is made, and it has no bytes.
use std::collections::LinkedList;

/// Whether a pass holds its cell's turn. Between calls none does.
pub enum Turn<E> {
    Idle,
    /// The cell is being made, and its slot has no part yet.
    Making,
    /// The turn is held, and the list is the history as it then is.
    Holds(LinkedList<(u64, E)>),
}

/// What a join is to be told of two passes, each given by what it had seen and by its classes, at the load
/// after it. Between calls there is nothing to tell.
pub enum JoinPending<E> {
    Nothing,
    Joined(
        LinkedList<(u64, E)>,
        LinkedList<(u64, u64)>,
        LinkedList<(u64, E)>,
        LinkedList<(u64, u64)>,
    ),
}

/// What a pass knows.
pub struct View<E> {
    /// The name of the cell's part.
    pub name: LinkedList<u64>,
    /// The beginning of the cell's history that the pass has seen: each entry with the seat that it was made
    /// under.
    pub seen: LinkedList<(u64, E)>,
    /// The classes of seats that are the pass's. The class `(r, k)` is the numbers that leave `r` when
    /// divided by `2^k`.
    pub classes: LinkedList<(u64, u64)>,
    /// How many `fetch_or` steps were made with the pass.
    pub tries: u64,
    /// The last word that one of them found, or 0.
    pub found: u64,
    /// Whether one of them found the word of a spent cell.
    pub met_spent: bool,
    pub turn: Turn<E>,
    pub told: JoinPending<E>,
    /// Whether the pass was joined into another, which has all that it had.
    pub gone: bool,
}
