//! The stripe as a part that calls are applied to one after the other.
ghost use Rattle.std.specs.Prelude.{◌∷◌, [], map};
ghost use Rattle.reg_keys.specs.Histories.{past_of};
ghost use Rattle.stripe_table.specs.Represents.{Represents};
ghost use Rattle.stripe_table.specs.Calls.{entry_of, call_may, IsAnswerTo};
ghost use Rattle.reg_keys.specs.declared.entry.Entry.{Entry};

use crate::calls::{Reply, StripeCall};
use crate::load::Load;
use crate::stripe::Stripe;
use reg_keys::Entry;
use turn_cell::Part;

impl<T: Load> Part for Stripe<T> {
    type Call = StripeCall<T>;

    type Reply = Reply<T>;

    type Entry = Entry;

    // The stripe stands for the entries alone, whatever their seats.
    ghost stands = { λ s h. Represents T.tag (past_of (map (λ e. e.1) h)) s };

    ghost name = { λ s. s.stripe ∷ s.first ∷ [] };

    ghost may = { λ n call. call_may n call };

    ghost entry = { λ call reply. entry_of T.tag call reply };

    ghost answers = { λ call reply. IsAnswerTo call reply };

    fn apply(&mut self, call: StripeCall<T>) -> Reply<T> {
        match call {
            StripeCall::Open(fd) => Reply::Open(self.open(fd)),
            StripeCall::Report(o, dirs) => Reply::Report(self.report(o, dirs)),
            StripeCall::Register(o, dir, mark, load) => {
                Reply::Register(self.register(o, dir, mark, load))
            }
            StripeCall::Withdraw(key) => Reply::Withdraw(self.withdraw(key)),
            StripeCall::Ask(key) => Reply::Ask(self.ask(key)),
            StripeCall::Dispatch(event) => Reply::Dispatch(self.dispatch(event)),
            StripeCall::Close(o) => Reply::Close(self.close(o)),
        }
    }
}
