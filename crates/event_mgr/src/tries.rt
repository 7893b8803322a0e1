//! The manager's calls that don't wait. Each makes one `fetch_or`, on the word of its stripe's cell.
ghost use Rattle.std.specs.Prelude.{◌<◌};
ghost use Rattle.reg_keys.specs.declared.limits.TheConstants.{STRIPES};
ghost use Rattle.stripe_table.specs.Calls.{IsOfStripe};
ghost use Rattle.event_mgr.specs.Manager.{IsOfMgr, mgr_view, HasTriedReport, HasTriedRegister, HasTriedDispatch};
ghost use Rattle.event_mgr.specs.Kinds.{HasTried};

use crate::answers::{Held, TryDispatch, TryRegister, TryReport};
use crate::kinds::{dispatched, event_of, load_of, registered, reported};
use crate::manager::EventManager;
use crate::pass::MgrPass;
use crate::stripes::stripe_of_descriptor;
use reg_keys::{Dir, Dirs, Event, Opening, legal_names_own_openings};
use stripe_table::{DispatchReply, Load, Payload, RegisterReply, ReportReply, Stripe, StripeCall};
use turn_cell::Tried;

impl<T: Load> EventManager<T> {
    /// Records that a poller reported this opening ready, where nobody has its stripe's turn.
    pub fn try_report(&self, pass: &mut MgrPass<T>, opening: Opening, dirs: Dirs) -> TryReport
        requires { IsOfMgr self.now pass.old }
        ensures own { IsOfMgr self.now pass.new }
        ensures step { HasTriedReport opening dirs (mgr_view pass.old) result (mgr_view pass.new) }
    {
        let stripe = stripe_of_descriptor(opening.fd);
        match self.try_stripe(pass, stripe, StripeCall::Report(opening, dirs)) {
            Tried::Done(reply) => match reported(reply) {
                ReportReply::Noted(event) => TryReport::Noted(event),
                ReportReply::Stale => TryReport::Stale,
                ReportReply::Spent => TryReport::Spent,
            },
            Tried::Busy { count, call: _ } => TryReport::Busy(Held { stripe, count }),
            Tried::Spent(_) => TryReport::Spent,
        }
    }

    /// Registers a job or a flag, where nobody has the stripe's turn. A refusal hands the load back.
    pub fn try_register(
        &self,
        pass: &mut MgrPass<T>,
        opening: Opening,
        dir: Dir,
        mark: Option<u64>,
        load: Payload<T>,
    ) -> TryRegister<T>
        requires { IsOfMgr self.now pass.old }
        ensures own { IsOfMgr self.now pass.new }
        ensures step { HasTriedRegister T.tag opening dir mark load (mgr_view pass.old) result
            (mgr_view pass.new) }
    {
        let stripe = stripe_of_descriptor(opening.fd);
        let call = StripeCall::Register(opening, dir, mark, load);
        match self.try_stripe(pass, stripe, call) {
            Tried::Done(reply) => match registered(reply) {
                RegisterReply::Waits(key, event) => TryRegister::Waits(key, event),
                RegisterReply::Shut(back) => TryRegister::Shut(back),
                RegisterReply::Crowded(back) => TryRegister::Crowded(back),
                RegisterReply::Spent(back) => TryRegister::Spent(back),
            },
            Tried::Busy { count, call: back } => {
                TryRegister::Busy(Held { stripe, count }, load_of(back))
            }
            Tried::Spent(back) => TryRegister::Spent(load_of(back)),
        }
    }

    /// Takes the registrations that an event fires, where nobody has the stripe's turn. `Busy` and `Spent`
    /// hand the event back.
    pub fn try_dispatch(&self, pass: &mut MgrPass<T>, event: Event) -> TryDispatch<T>
        requires { IsOfMgr self.now pass.old }
        ensures own { IsOfMgr self.now pass.new }
        ensures step { HasTriedDispatch T.tag event (mgr_view pass.old) result (mgr_view pass.new) }
    {
        let stripe = stripe_of_descriptor(event.opening().fd);
        match self.try_stripe(pass, stripe, StripeCall::Dispatch(event)) {
            Tried::Done(reply) => match dispatched(reply) {
                DispatchReply::Ran(list, next) => TryDispatch::Ran(list, next),
                DispatchReply::Stale => TryDispatch::Stale,
                DispatchReply::Spent(back) => TryDispatch::Spent(back),
            },
            Tried::Busy { count, call: back } => {
                TryDispatch::Busy(Held { stripe, count }, event_of(back))
            }
            Tried::Spent(back) => TryDispatch::Spent(event_of(back)),
        }
    }

    /// Makes a call on a stripe, where nobody has its turn.
    fn try_stripe(&self, pass: &mut MgrPass<T>, stripe: u8, call: StripeCall<T>) -> Tried<Stripe<T>>
        requires own { IsOfMgr self.now pass.old }
        requires stripe { stripe < STRIPES }
        requires may { IsOfStripe stripe call }
        ensures own { IsOfMgr self.now pass.new }
        ensures step { HasTried T.tag stripe call (mgr_view pass.old) result (mgr_view pass.new) }
    {
        // A law of legal histories: it does nothing when it runs.
        legal_names_own_openings();
        self.stripes.try_call(&mut pass.stripes, stripe, call)
    }
}
