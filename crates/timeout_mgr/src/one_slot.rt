//! What the calls do at one slot: a load of its word, exchanges from what the load found, and, for the one
//! that took the slot, its opening in or out.
ghost use Rattle.std.specs.Prelude.{◌≡◌, ◌<◌, ◌≤◌, ◌^◌, None};
ghost use Rattle.timeout_mgr.specs.Word.{bits_of};

use crate::expired::Expired;
use crate::limits::USES;
use crate::plays::{
    Age, Answer, Answering, Birth, CancelLook, CancelTry, Ending, Expire, Numbered, Release, Saw,
    SweepLook, Take, TickleLook, TickleTry,
};
use crate::timeouts::{TimePass, Timeouts};
use crate::watch::{CancelOut, TickleOut, Watch};
use crate::word::{SlotState, Word};
use reg_keys::Opening;
use std::marker::Brand;

/// What one exchange of a cancel showed.
#[derive(Drop)]
pub(crate) enum Left {
    Cancelled,
    Gone,
    /// The watch lives on, and its word is this.
    Lives(u64),
}

/// The word of a slot at this use, in this state.
fn word(uses: u64, state: SlotState) -> u64
    requires { uses ≤ 2 ^ 40 }
    ensures { result ≡ bits_of (record { uses = uses; state = state }) }
{
    Word { uses, state }.bits()
}

impl Timeouts {
    ghost use Rattle.timeout_mgr.specs.Shown.{ShowsAlive};
    ghost use Rattle.timeout_mgr.specs.Calls.{IsOf, view_of, HasTickled, HasCancelled, name_of_watch};
    ghost use Rattle.timeout_mgr.specs.OneSlot.{Stays, AddsAt, Leaves, SweepsAt, Answers};

    /// Adds a watch at this slot, where it is free and stays so until the exchange.
    pub(crate) fn add_at(&self, pass: &mut TimePass, slot: usize, o: Opening) -> Option<Watch>
        requires own { IsOf self.now pass.old }
        requires inside { slot < 4096 }
        ensures own { IsOf self.now pass.new }
        ensures adds { AddsAt slot o (view_of pass.old) result (view_of pass.new) }
    {
        let seat = &mut pass.seat;
        let found = self.table.shared.load::<Saw>(seat, slot);
        let Word {
            uses: number,
            state,
        } = Word::of_bits(found);
        let SlotState::Free = state else {
            return None;
        };
        if number >= USES {
            return None;
        }
        let making = word(number, SlotState::Making);
        let since = self
            .table
            .shared
            .compare_exchange::<Take>(seat, slot, found, making);
        if since != found {
            return None;
        }
        let _vacant = self.table.shared.exchange(seat, slot, Some(o));
        let active = word(number, SlotState::Active);
        self.table.shared.store::<Birth>(seat, slot, active);
        Some(Watch { slot, number })
    }

    pub(crate) fn tickle_as<N: Numbered>(&self, pass: &mut TimePass, watch: &Watch) -> TickleOut
        requires own { IsOf self.now pass.old }
        requires number { N.number ≡ watch.now.number }
        ensures own { IsOf self.now pass.new }
        ensures tickles { HasTickled (name_of_watch watch.now) (view_of pass.old) result (view_of pass.new) }
    {
        let active = word(watch.number, SlotState::Active);
        let inactive = word(watch.number, SlotState::Inactive);
        let seat = &mut pass.seat;
        let found = self.table.shared.load::<TickleLook<N>>(seat, watch.slot);
        if found == active {
            return TickleOut::Alive;
        }
        if found != inactive {
            return TickleOut::Gone;
        }
        let found = self
            .table
            .shared
            .compare_exchange::<TickleTry<N>>(seat, watch.slot, inactive, active);
        if found == inactive || found == active {
            return TickleOut::Alive;
        }
        TickleOut::Gone
    }

    pub(crate) fn cancel_as<N: Numbered>(&self, pass: &mut TimePass, watch: Watch) -> CancelOut
        requires own { IsOf self.now pass.old }
        requires number { N.number ≡ watch.number }
        ensures own { IsOf self.now pass.new }
        ensures cancels { HasCancelled watch (view_of pass.old) result (view_of pass.new) }
    {
        let active = word(watch.number, SlotState::Active);
        let inactive = word(watch.number, SlotState::Inactive);
        let first = self
            .table
            .shared
            .load::<CancelLook<N>>(&mut pass.seat, watch.slot);
        if first != active && first != inactive {
            return CancelOut::Gone;
        }
        let second = match self.leave::<N>(pass, &watch, first) {
            Left::Cancelled => return CancelOut::Cancelled,
            Left::Gone => return CancelOut::Gone,
            Left::Lives(word) => word,
        };
        let third = match self.leave::<N>(pass, &watch, second) {
            Left::Cancelled => return CancelOut::Cancelled,
            Left::Gone => return CancelOut::Gone,
            Left::Lives(word) => word,
        };
        match self.leave::<N>(pass, &watch, third) {
            Left::Cancelled => CancelOut::Cancelled,
            Left::Gone => CancelOut::Gone,
            Left::Lives(_) => {
                self.answer::<Brand, Watch>(pass, &watch);
                CancelOut::Again(watch)
            }
        }
    }

    /// One exchange to leaving, from the word that is named. Where it finds that word, the slot is emptied
    /// and freed for its next use.
    fn leave<N: Numbered>(&self, pass: &mut TimePass, watch: &Watch, named: u64) -> Left
        requires own { IsOf self.now pass.old }
        requires number { N.number ≡ watch.now.number }
        requires lives { ShowsAlive watch.now.number named }
        ensures own { IsOf self.now pass.new }
        ensures leaves { Leaves (name_of_watch watch.now) named (view_of pass.old) result (view_of pass.new) }
    {
        let active = word(watch.number, SlotState::Active);
        let inactive = word(watch.number, SlotState::Inactive);
        let leaving = word(watch.number, SlotState::Leaving);
        let seat = &mut pass.seat;
        let found = self
            .table
            .shared
            .compare_exchange::<CancelTry<N>>(seat, watch.slot, named, leaving);
        if found == named {
            let _opening = self.table.shared.exchange(seat, watch.slot, None);
            let next = word(watch.number + 1, SlotState::Free);
            self.table.shared.store::<Release>(seat, watch.slot, next);
            return Left::Cancelled;
        }
        if found == active || found == inactive {
            return Left::Lives(found);
        }
        Left::Gone
    }

    /// What a sweep does at this slot. It gives the opening of the watch that it ended. The openings that the
    /// sweep gave before are there for the proof alone: by them the caller picks how the sweep ends.
    pub(crate) fn sweep_at<E: Ending>(
        &self,
        pass: &mut TimePass,
        slot: usize,
        _before: &Expired,
    ) -> Option<Opening>
        requires own { IsOf self.now pass.old }
        requires inside { slot < 4096 }
        ensures own { IsOf self.now pass.new }
        ensures sweeps { SweepsAt slot E.before (view_of pass.old) result (view_of pass.new) }
    {
        let found = self.table.shared.load::<SweepLook<E>>(&mut pass.seat, slot);
        let Word {
            uses: number,
            state,
        } = Word::of_bits(found);
        match state {
            SlotState::Active => {
                self.age::<E, Brand>(pass, slot, number);
                None
            }
            SlotState::Inactive => self.expire::<E, Brand>(pass, slot, number),
            SlotState::Free | SlotState::Making | SlotState::Leaving => None,
        }
    }

    /// One exchange from active to inactive.
    fn age<E: Ending, N: Numbered>(&self, pass: &mut TimePass, slot: usize, number: u64)
        requires own { IsOf self.now pass.old }
        requires inside { slot < 4096 }
        requires number { (N.number ≡ number) × (number < 2 ^ 40) }
        ensures own { IsOf self.now pass.new }
        ensures sweeps { SweepsAt slot E.before (view_of pass.old) None (view_of pass.new) }
    {
        let active = word(number, SlotState::Active);
        let inactive = word(number, SlotState::Inactive);
        self.table
            .shared
            .compare_exchange::<Age<E, N>>(&mut pass.seat, slot, active, inactive);
    }

    /// One exchange from inactive to leaving. Where it finds the slot so, it takes the opening and frees the
    /// slot for its next use.
    fn expire<E: Ending, N: Numbered>(
        &self,
        pass: &mut TimePass,
        slot: usize,
        number: u64,
    ) -> Option<Opening>
        requires own { IsOf self.now pass.old }
        requires inside { slot < 4096 }
        requires number { (N.number ≡ number) × (number < 2 ^ 40) }
        ensures own { IsOf self.now pass.new }
        ensures sweeps { SweepsAt slot E.before (view_of pass.old) result (view_of pass.new) }
    {
        let inactive = word(number, SlotState::Inactive);
        let leaving = word(number, SlotState::Leaving);
        let seat = &mut pass.seat;
        let found = self
            .table
            .shared
            .compare_exchange::<Expire<E, N>>(seat, slot, inactive, leaving);
        if found != inactive {
            return None;
        }
        let given = self.table.shared.exchange(seat, slot, None);
        let next = word(number + 1, SlotState::Free);
        self.table.shared.store::<Release>(seat, slot, next);
        given
    }

    /// A load by which a call ends whose answer no single step decided, so that the pass knows of the call.
    /// What the answer is about is there for the proof alone: the caller picks the answer by it.
    pub(crate) fn answer<C: Answering, T>(&self, pass: &mut TimePass, _about: &T)
        requires own { IsOf self.now pass.old }
        ensures own { IsOf self.now pass.new }
        ensures answers { Answers C.call (view_of pass.old) (view_of pass.new) }
    {
        self.table.shared.load::<Answer<C>>(&mut pass.seat, 0);
    }
}
