//! The kinds of atomic step on a turn cell's table, and what each tells the pass that makes it.
ghost use Rattle.std.specs.Prelude.{Option, None};
ghost use Rattle.turn_cell.specs.View.{left_of, right_of, both_of, gone_view};
ghost use Rattle.turn_cell.specs.Rule.{asked, begun, given_back, ended, looked};

use crate::part::Part;
use crate::view::View;
use atomic_table::{Join, Play, Split};
use std::marker::{Brand, PhantomData};

/// The entry that a step adds to the history. Each call that ends a turn picks it.
pub trait Said<E> {
    ghost item: { Option E };
}

impl<E> Said<E> for Brand {
    ghost item = { None };
}

/// The call that is being made. Each call that takes the turn picks it.
pub trait Asked<C> {
    ghost call: { Option C };
}

impl<C> Asked<C> for Brand {
    ghost call = { None };
}

/// A load: the pass that makes a cell takes the empty slot.
pub(crate) struct Begin;

impl<P, E> Play<Option<P>, View<E>> for Begin {
    ghost then = { begun };
}

/// A `fetch_or`: the turn is taken where nobody holds it.
pub(crate) struct Take<P> {
    part: PhantomData<P>,
}

impl<P: Part> Play<Option<P>, View<P::Entry>> for Take<P> {
    ghost then = { asked P.stands P.name };
}

/// A `fetch_sub`: the turn is given back, with no entry.
pub(crate) struct GiveBack;

impl<P, E> Play<Option<P>, View<E>> for GiveBack {
    ghost then = { given_back };
}

/// A `fetch_add`: the turn is ended, with the entry that W names.
pub(crate) struct End<W> {
    said: PhantomData<W>,
}

impl<P, E, W: Said<E>> Play<Option<P>, View<E>> for End<W> {
    ghost then = { ended W.item };
}

/// A load, which changes nothing.
pub(crate) struct Look;

impl<P, E> Play<Option<P>, View<E>> for Look {
    ghost then = { looked };
}

/// A pass's first class is cut in two.
pub(crate) struct Halve;

impl<E> Split<View<E>> for Halve {
    ghost left = { left_of };

    ghost right = { right_of };
}

/// A pass takes in another.
pub(crate) struct Both;

impl<E> Join<View<E>> for Both {
    ghost both = { both_of };

    ghost spent = { gone_view };
}
