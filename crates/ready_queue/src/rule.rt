//! The rule of a ready queue, which holds between any two steps of any threads.
//!
//! There is one list of moves, which no memory has: what the ring holds is the events put in it less those
//! taken, each move was allowed where it was made, what each pass has seen begins it, and no seat is of two
//! passes. What a pass knows is the view of a turn cell's pass, whose name is here the capacity.
ghost use Rattle.std.specs.Prelude.{Option, None, ℕ};
ghost use Rattle.turn_cell.specs.View.{left_of, right_of, both_of, gone_view};
ghost use Rattle.ready_queue.specs.declared.rule.Move.TheVariants.{Put, Taken};
ghost use Rattle.ready_queue.specs.Rule.{Kept, newcomer, made_for, AddsMove, Learned};

use crossbeam_queue::protocol::{Join, Lesson, Outcome, Protocol, Split};
use reg_keys::{Event, EventName};
use std::marker::{Brand, PhantomData};
use turn_cell::View;

/// One entry of a queue's history. No value of it is made.
pub enum Move {
    /// The event joined at the back.
    Put(EventName),
    /// The event left at the front.
    Taken(EventName),
}

/// The rule. It stands in the type of a queue, and nothing is done with it.
pub struct Order;

impl Protocol<Event, View<Move>> for Order {
    ghost holds = { Kept };

    ghost first = { newcomer };
}

/// An event joins at the back, or the queue is found full.
pub(crate) struct Puts;

impl Outcome<Event, View<Move>> for Puts {
    ghost then = { λ v e w. AddsMove (Put e) v w };
}

impl Lesson<Event, View<Move>> for Puts {
    ghost fact = { Learned };
}

/// An event leaves at the front, or the queue is found empty.
pub(crate) struct Takes;

impl Outcome<Event, View<Move>> for Takes {
    ghost then = { λ v e w. AddsMove (Taken e) v w };
}

impl Lesson<Event, View<Move>> for Takes {
    ghost fact = { Learned };
}

/// A look, which changes nothing.
pub(crate) struct Look;

impl Lesson<Event, View<Move>> for Look {
    ghost fact = { Learned };
}

/// The capacity of a queue that is being made. The call that makes it picks it.
pub(crate) trait Capacity {
    ghost capacity: { Option ℕ };
}

impl Capacity for Brand {
    ghost capacity = { None };
}

/// The first pass is told the capacity. What is split off it is nobody's.
pub(crate) struct Begin<C> {
    capacity: PhantomData<C>,
}

impl<C: Capacity> Split<View<Move>> for Begin<C> {
    ghost left = { made_for C.capacity };

    ghost right = { λ v. gone_view };
}

/// A pass's first class is cut in two.
pub(crate) struct Halve;

impl Split<View<Move>> for Halve {
    ghost left = { left_of };

    ghost right = { right_of };
}

/// A pass takes in another.
pub(crate) struct Both;

impl Join<View<Move>> for Both {
    ghost both = { both_of };

    ghost spent = { gone_view };
}
