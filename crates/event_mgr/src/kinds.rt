//! The seven kinds of reply stand behind one type. A call gets a reply of its own kind, so each of these
//! takes a reply out of that type, and no other kind can come.
ghost use Rattle.std.specs.Prelude.{◌≡◌};
ghost use Rattle.stripe_table.specs.declared.calls.Reply.TheVariants as Answer;
ghost use Rattle.stripe_table.specs.declared.calls.StripeCall.TheVariants as Call;
ghost use Rattle.event_mgr.specs.Kinds.{IsOfKind};

use reg_keys::Event;
use stripe_table::{
    AskReply, CloseReply, DispatchReply, OpenReply, Payload, RegisterReply, Reply, ReportReply,
    StripeCall, WithdrawReply,
};

/// The reply to an `Open`.
pub(crate) fn opened<T: Drop>(reply: Reply<T>) -> OpenReply
    requires { IsOfKind Answer.Open reply }
    ensures { reply ≡ Answer.Open result }
{
    match reply {
        Reply::Open(reply) => reply,
        _ => unreachable!(),
    }
}

/// The reply to a `Report`.
pub(crate) fn reported<T: Drop>(reply: Reply<T>) -> ReportReply
    requires { IsOfKind Answer.Report reply }
    ensures { reply ≡ Answer.Report result }
{
    match reply {
        Reply::Report(reply) => reply,
        _ => unreachable!(),
    }
}

/// The reply to a `Register`.
pub(crate) fn registered<T: Drop>(reply: Reply<T>) -> RegisterReply<T>
    requires { IsOfKind Answer.Register reply }
    ensures { reply ≡ Answer.Register result }
{
    match reply {
        Reply::Register(reply) => reply,
        _ => unreachable!(),
    }
}

/// The reply to a `Withdraw`.
pub(crate) fn withdrawn<T: Drop>(reply: Reply<T>) -> WithdrawReply<T>
    requires { IsOfKind Answer.Withdraw reply }
    ensures { reply ≡ Answer.Withdraw result }
{
    match reply {
        Reply::Withdraw(reply) => reply,
        _ => unreachable!(),
    }
}

/// The reply to an `Ask`.
pub(crate) fn asked<T: Drop>(reply: Reply<T>) -> AskReply
    requires { IsOfKind Answer.Ask reply }
    ensures { reply ≡ Answer.Ask result }
{
    match reply {
        Reply::Ask(reply) => reply,
        _ => unreachable!(),
    }
}

/// The reply to a `Dispatch`.
pub(crate) fn dispatched<T: Drop>(reply: Reply<T>) -> DispatchReply<T>
    requires { IsOfKind Answer.Dispatch reply }
    ensures { reply ≡ Answer.Dispatch result }
{
    match reply {
        Reply::Dispatch(reply) => reply,
        _ => unreachable!(),
    }
}

/// The reply to a `Close`.
pub(crate) fn closed<T: Drop>(reply: Reply<T>) -> CloseReply<T>
    requires { IsOfKind Answer.Close reply }
    ensures { reply ≡ Answer.Close result }
{
    match reply {
        Reply::Close(reply) => reply,
        _ => unreachable!(),
    }
}

/// The load of a `Register` that is handed back.
pub(crate) fn load_of<T: Drop>(call: StripeCall<T>) -> Payload<T>
    requires { (o : _) × (d : _) × (m : _) × (load : _) × (call ≡ Call.Register o d m load) }
    ensures { (o : _) (d : _) (m : _) (load : _) → call ≡ Call.Register o d m load → result ≡ load }
{
    match call {
        StripeCall::Register(_, _, _, load) => load,
        _ => unreachable!(),
    }
}

/// The event of a `Dispatch` that is handed back.
pub(crate) fn event_of<T: Drop>(call: StripeCall<T>) -> Event
    requires { (x : _) × (call ≡ Call.Dispatch x) }
    ensures { call ≡ Call.Dispatch result }
{
    match call {
        StripeCall::Dispatch(event) => event,
        _ => unreachable!(),
    }
}
