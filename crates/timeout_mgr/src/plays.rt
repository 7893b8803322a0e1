//! The kinds of atomic step on the table, and what each tells the pass that makes it.
ghost use Rattle.std.specs.Prelude.{ℕ, List, [], Option, None};
ghost use Rattle.reg_keys.specs.declared.Opening.{Opening};
ghost use Rattle.timeout_mgr.specs.declared.view.TimeCall.{TimeCall};
ghost use Rattle.timeout_mgr.specs.declared.view.TimeCall.TheVariants.{Sweep};
ghost use Rattle.timeout_mgr.specs.Passes.{first_view};
ghost use Rattle.timeout_mgr.specs.Plays.{added, answers, cancel_look, cancel_try, freed, joined_look, saw, sweep_look, take_try, tickle_look, tickle_try, age_try, expire_try};
ghost use Rattle.timeout_mgr.specs.Rule.{both_of};

use crate::view::TimeView;
use atomic_table::{Join, Play, Split};
use reg_keys::Opening;
use std::marker::{Brand, PhantomData};

/// The number of the watch that a call is about. Each call picks it, since a step has no parameter of its
/// own.
pub trait Numbered {
    ghost number: { ℕ };
}

impl Numbered for Brand {
    ghost number = { 0 };
}

/// The answer that ends a call. Each call picks it.
pub trait Answering {
    ghost call: { TimeCall };
}

impl Answering for Brand {
    ghost call = { Sweep [] };
}

/// Where a sweep ends: at the last slot, by the openings that it gave before. Each look of a sweep picks it.
pub trait Ending {
    ghost before: { Option (List Opening) };
}

impl Ending for Brand {
    ghost before = { None };
}

/// A load by an add.
pub(crate) struct Saw;

impl Play<Option<Opening>, TimeView> for Saw {
    ghost then = { saw };
}

/// An exchange from free to making.
pub(crate) struct Take;

impl Play<Option<Opening>, TimeView> for Take {
    ghost then = { take_try };
}

/// A store: the watch is there.
pub(crate) struct Birth;

impl Play<Option<Opening>, TimeView> for Birth {
    ghost then = { added };
}

/// A load by a tickle.
pub(crate) struct TickleLook<N> {
    marker: PhantomData<N>,
}

impl<N: Numbered> Play<Option<Opening>, TimeView> for TickleLook<N> {
    ghost then = { tickle_look N.number };
}

/// An exchange from inactive to active.
pub(crate) struct TickleTry<N> {
    marker: PhantomData<N>,
}

impl<N: Numbered> Play<Option<Opening>, TimeView> for TickleTry<N> {
    ghost then = { tickle_try N.number };
}

/// A load by a cancel.
pub(crate) struct CancelLook<N> {
    marker: PhantomData<N>,
}

impl<N: Numbered> Play<Option<Opening>, TimeView> for CancelLook<N> {
    ghost then = { cancel_look N.number };
}

/// An exchange to leaving.
pub(crate) struct CancelTry<N> {
    marker: PhantomData<N>,
}

impl<N: Numbered> Play<Option<Opening>, TimeView> for CancelTry<N> {
    ghost then = { cancel_try N.number };
}

/// A load by a sweep.
pub(crate) struct SweepLook<E> {
    marker: PhantomData<E>,
}

impl<E: Ending> Play<Option<Opening>, TimeView> for SweepLook<E> {
    ghost then = { sweep_look E.before };
}

/// An exchange by a sweep from active to inactive.
pub(crate) struct Age<E, N> {
    ending: PhantomData<E>,
    number: PhantomData<N>,
}

impl<E: Ending, N: Numbered> Play<Option<Opening>, TimeView> for Age<E, N> {
    ghost then = { age_try E.before N.number };
}

/// An exchange by a sweep from inactive to leaving.
pub(crate) struct Expire<E, N> {
    ending: PhantomData<E>,
    number: PhantomData<N>,
}

impl<E: Ending, N: Numbered> Play<Option<Opening>, TimeView> for Expire<E, N> {
    ghost then = { expire_try E.before N.number };
}

/// A store: the slot is free for its next use.
pub(crate) struct Release;

impl Play<Option<Opening>, TimeView> for Release {
    ghost then = { freed };
}

/// A load after a join.
pub(crate) struct Compare;

impl Play<Option<Opening>, TimeView> for Compare {
    ghost then = { joined_look };
}

/// A load that ends a call whose answer no single step decided.
pub(crate) struct Answer<C> {
    marker: PhantomData<C>,
}

impl<C: Answering> Play<Option<Opening>, TimeView> for Answer<C> {
    ghost then = { answers C.call };
}

/// A pass is split: the new one has done nothing, and has seen as much.
pub(crate) struct Cut;

impl Split<TimeView> for Cut {
    ghost left = { λ v. v };

    ghost right = { λ v. record first_view { seen = v.seen } };
}

/// A pass takes in another.
pub(crate) struct Both;

impl Join<TimeView> for Both {
    ghost both = { both_of };

    ghost spent = { first_view };
}
