//! The rule of a turn cell's table, which holds between any two steps of any threads.
//!
//! One word and one slot of the table are the cell's; the others lie round them and never change. There is
//! one list of entries, which no memory has: the part stands for it, and what each pass has seen begins it.
//! At most one pass holds the turn. The word is twice the length of the list, plus one while the turn is
//! held, and while nobody holds it the part is in the slot.
ghost use Rattle.turn_cell.specs.Rule.{Kept};
ghost use Rattle.turn_cell.specs.View.{newcomer};

use crate::part::Part;
use crate::view::View;
use atomic_table::TableRule;
use std::alloc::Global;
use std::marker::PhantomData;

/// The rule. Its key is the part, which is read for its name alone.
pub struct Turns<P> {
    part: PhantomData<P>,
}

impl<P: Part> TableRule<Option<P>, View<P::Entry>, P> for Turns<P> {
    ghost holds = { λ key. Kept P.stands P.name (P.name key) };

    ghost first = { λ key. newcomer (P.name key) };
}
