//! The manager's calls that wait for their stripe's turn. Each is one call on one stripe; `open_fd` and
//! `close_fd` also draw a number or give one back.
ghost use Rattle.std.specs.Prelude.{◌<◌};
ghost use Rattle.reg_keys.specs.declared.limits.TheConstants.{STRIPES};
ghost use Rattle.stripe_table.specs.Calls.{IsOfStripe};
ghost use Rattle.turn_cell.specs.Calls.{IsOf, view_of};
ghost use Rattle.event_mgr.specs.Stripes.{GivenBack};
ghost use Rattle.event_mgr.specs.Manager.{IsOfMgr, mgr_view, HasOpened, HasReported, HasRegistered, HasWithdrawn, HasAsked, HasDispatched, HasClosed};
ghost use Rattle.event_mgr.specs.Kinds.{HasCalled};

use crate::answers::{AskOut, CloseOut, DispatchOut, OpenOut, RegisterOut, ReportOut, WithdrawOut};
use crate::kinds::{
    asked, closed, dispatched, event_of, load_of, opened, registered, reported, withdrawn,
};
use crate::manager::EventManager;
use crate::numbers::{Numbers, NumbersCall, NumbersEntry, NumbersReply};
use crate::pass::MgrPass;
use crate::stripes::{stripe_of_descriptor, stripe_of_key};
use reg_keys::{Dir, Dirs, Event, Key, Opening, legal_names_own_openings};
use std::sync::Wait;
use stripe_table::{
    AskReply, CloseReply, DispatchReply, Load, OpenReply, Payload, RegisterReply, ReportReply,
    Stripe, StripeCall, WithdrawReply,
};
use turn_cell::{Pass, Stepped};

impl<T: Load> EventManager<T> {
    /// Opens the lowest free descriptor.
    ///
    /// A number is drawn and its descriptor opened in its stripe. Where the stripe is spent the number is
    /// given back, and where the descriptor has an opening of another's making it stays out.
    pub fn open_fd<R: Wait>(&self, rt: &R, pass: &mut MgrPass<T>) -> OpenOut
        requires { IsOfMgr self.now pass.old }
        ensures own { IsOfMgr self.now pass.new }
        ensures step { HasOpened (mgr_view pass.old) result (mgr_view pass.new) }
    {
        let drawn = match self.numbers.step(rt, &mut pass.numbers, NumbersCall::Draw) {
            Stepped::Done(reply) => reply,
            Stepped::Spent(_) => return OpenOut::Spent,
        };
        let fd = match drawn {
            NumbersReply::Drawn(fd) => fd,
            NumbersReply::AllOut => return OpenOut::Full,
            NumbersReply::Back | NumbersReply::NotOut => unreachable!(),
        };
        let stripe = stripe_of_descriptor(fd);
        match self.ask_stripe(rt, pass, stripe, StripeCall::Open(fd)) {
            Stepped::Done(reply) => match opened(reply) {
                OpenReply::Opened(o) => OpenOut::Opened(o),
                OpenReply::Taken(o) => OpenOut::Taken(o),
                OpenReply::Spent => {
                    self.give_back(rt, &mut pass.numbers, fd);
                    OpenOut::Spent
                }
            },
            Stepped::Spent(_) => {
                self.give_back(rt, &mut pass.numbers, fd);
                OpenOut::Spent
            }
        }
    }

    /// Records that a poller reported this opening ready for these directions.
    pub fn report<R: Wait>(
        &self,
        rt: &R,
        pass: &mut MgrPass<T>,
        opening: Opening,
        dirs: Dirs,
    ) -> ReportOut
        requires { IsOfMgr self.now pass.old }
        ensures own { IsOfMgr self.now pass.new }
        ensures step { HasReported opening dirs (mgr_view pass.old) result (mgr_view pass.new) }
    {
        let stripe = stripe_of_descriptor(opening.fd);
        match self.ask_stripe(rt, pass, stripe, StripeCall::Report(opening, dirs)) {
            Stepped::Done(reply) => reported(reply),
            Stepped::Spent(_) => ReportReply::Spent,
        }
    }

    /// Registers a job or a flag for one direction of an opening.
    ///
    /// `mark` is the mark of that direction which the caller saw when it found nothing more to do: the
    /// opening's own number at first, later what `Fired::marks` gave. So the way of a job is: when it
    /// fires, read or write until there is nothing more to do, then register again with the mark that it
    /// was given. A report that came since has another mark, and the registration is due at once. Without
    /// a mark it is due wherever the direction counts as ready.
    ///
    /// A refusal hands the load back.
    pub fn register<R: Wait>(
        &self,
        rt: &R,
        pass: &mut MgrPass<T>,
        opening: Opening,
        dir: Dir,
        mark: Option<u64>,
        load: Payload<T>,
    ) -> RegisterOut<T>
        requires { IsOfMgr self.now pass.old }
        ensures own { IsOfMgr self.now pass.new }
        ensures step { HasRegistered T.tag opening dir mark load (mgr_view pass.old) result
            (mgr_view pass.new) }
    {
        let stripe = stripe_of_descriptor(opening.fd);
        let call = StripeCall::Register(opening, dir, mark, load);
        match self.ask_stripe(rt, pass, stripe, call) {
            Stepped::Done(reply) => registered(reply),
            Stepped::Spent(back) => RegisterReply::Spent(load_of(back)),
        }
    }

    /// Takes a registration back.
    pub fn withdraw<R: Wait>(&self, rt: &R, pass: &mut MgrPass<T>, key: Key) -> WithdrawOut<T>
        requires { IsOfMgr self.now pass.old }
        ensures own { IsOfMgr self.now pass.new }
        ensures step { HasWithdrawn T.tag key (mgr_view pass.old) result (mgr_view pass.new) }
    {
        let stripe = stripe_of_key(key);
        match self.ask_stripe(rt, pass, stripe, StripeCall::Withdraw(key)) {
            Stepped::Done(reply) => match withdrawn(reply) {
                WithdrawReply::Back(job) => WithdrawOut::Back(job),
                WithdrawReply::Gone => WithdrawOut::Gone,
            },
            Stepped::Spent(_) => WithdrawOut::Spent,
        }
    }

    /// Asks how a flag came out. Once it is told that the flag ran or was closed, the flag is forgotten.
    pub fn ask<R: Wait>(&self, rt: &R, pass: &mut MgrPass<T>, key: Key) -> AskOut
        requires { IsOfMgr self.now pass.old }
        ensures own { IsOfMgr self.now pass.new }
        ensures step { HasAsked key (mgr_view pass.old) result (mgr_view pass.new) }
    {
        let stripe = stripe_of_key(key);
        match self.ask_stripe(rt, pass, stripe, StripeCall::Ask(key)) {
            Stepped::Done(reply) => match asked(reply) {
                AskReply::Waiting => AskOut::Waiting,
                AskReply::Ran(dir, marks) => AskOut::Ran(dir, marks),
                AskReply::Closed => AskOut::Closed,
                AskReply::Unknown => AskOut::Unknown,
            },
            Stepped::Spent(_) => AskOut::Spent,
        }
    }

    /// Takes the registrations that an event fires; the caller runs their jobs.
    ///
    /// A refusal for want of numbers or entries hands the event back.
    pub fn dispatch<R: Wait>(&self, rt: &R, pass: &mut MgrPass<T>, event: Event) -> DispatchOut<T>
        requires { IsOfMgr self.now pass.old }
        ensures own { IsOfMgr self.now pass.new }
        ensures step { HasDispatched T.tag event (mgr_view pass.old) result (mgr_view pass.new) }
    {
        let stripe = stripe_of_descriptor(event.opening().fd);
        match self.ask_stripe(rt, pass, stripe, StripeCall::Dispatch(event)) {
            Stepped::Done(reply) => dispatched(reply),
            Stepped::Spent(back) => DispatchReply::Spent(event_of(back)),
        }
    }

    /// Closes an opening, gives what waited, and gives the number of its descriptor back, in this order.
    pub fn close_fd<R: Wait>(&self, rt: &R, pass: &mut MgrPass<T>, opening: Opening) -> CloseOut<T>
        requires { IsOfMgr self.now pass.old }
        ensures own { IsOfMgr self.now pass.new }
        ensures step { HasClosed T.tag opening (mgr_view pass.old) result (mgr_view pass.new) }
    {
        let stripe = stripe_of_descriptor(opening.fd);
        match self.ask_stripe(rt, pass, stripe, StripeCall::Close(opening)) {
            Stepped::Done(reply) => match closed(reply) {
                CloseReply::Shut(list) => {
                    self.give_back(rt, &mut pass.numbers, opening.fd);
                    CloseOut::Shut(list)
                }
                CloseReply::NotOpen => CloseOut::NotOpen,
            },
            Stepped::Spent(_) => CloseOut::Spent,
        }
    }

    /// Makes a call on a stripe, and waits for its turn.
    fn ask_stripe<R: Wait>(
        &self,
        rt: &R,
        pass: &mut MgrPass<T>,
        stripe: u8,
        call: StripeCall<T>,
    ) -> Stepped<Stripe<T>>
        requires own { IsOfMgr self.now pass.old }
        requires stripe { stripe < STRIPES }
        requires may { IsOfStripe stripe call }
        ensures own { IsOfMgr self.now pass.new }
        ensures step { HasCalled T.tag stripe call (mgr_view pass.old) result (mgr_view pass.new) }
    {
        // A law of legal histories: it does nothing when it runs.
        legal_names_own_openings();
        self.stripes.call(rt, &mut pass.stripes, stripe, call)
    }

    /// Gives a number back. If the cell of the numbers is spent, it stays out.
    fn give_back<R: Wait>(&self, rt: &R, pass: &mut Pass<Numbers, NumbersEntry>, fd: u16)
        requires { IsOf self.now.numbers pass.old }
        ensures own { IsOf self.now.numbers pass.new }
        ensures step { GivenBack fd (view_of pass.old) (view_of pass.new) }
    {
        let _ = self.numbers.step(rt, pass, NumbersCall::GiveBack(fd));
    }
}
