//! Calls on the tally, which lies in a turn cell. Each call is one entry of the tally's
//! history, and waits for the turn.
ghost use Rattle.turn_cell.specs.Calls.{view_of};
ghost use Rattle.warp_tally.specs.declared.calls.TallyCall.TheVariants.{Accept, TurnAway, Finish, Stop, Look};
ghost use Rattle.warp_passes.specs.TallyCalls.{IsTallyOf, HasCalled};

use reg_keys::Opening;
use std::sync::Wait;
use turn_cell::{Pass, Stepped, TurnCell};
use warp_tally::{Tally, TallyCall, TallyEntry, TallyReply};

/// A pass of the tally's cell.
pub type TallyPass = Pass<Tally, TallyEntry>;

/// What a call on the tally answers.
#[derive(Clone, Copy, PartialEq, Eq)]
pub enum TallyOut {
    /// The call was made. Whether it counted stands in the reply.
    Done(TallyReply),
    /// The tally's cell has 2^62 entries and takes no more. The call wasn't made.
    Spent,
}

/// Counts a connection that was accepted under this opening. It counts, or wants memory.
pub fn accept<R: Wait>(
    rt: &R,
    cell: &TurnCell<Tally>,
    pass: &mut Pass<Tally, TallyEntry>,
    opening: Opening,
) -> TallyOut
    requires { IsTallyOf cell.now pass.old }
    ensures own { IsTallyOf cell.now pass.new }
    ensures called { HasCalled (Accept opening) (view_of pass.old) result (view_of pass.new) }
{
    call(rt, cell, pass, TallyCall::Accept(opening))
}

/// Counts a link that was turned away before it had an opening. It always counts.
pub fn turn_away<R: Wait>(
    rt: &R,
    cell: &TurnCell<Tally>,
    pass: &mut Pass<Tally, TallyEntry>,
) -> TallyOut
    requires { IsTallyOf cell.now pass.old }
    ensures own { IsTallyOf cell.now pass.new }
    ensures called { HasCalled TurnAway (view_of pass.old) result (view_of pass.new) }
{
    call(rt, cell, pass, TallyCall::TurnAway)
}

/// Counts the end of the connection of this opening, where it was accepted and isn't finished.
pub fn finish<R: Wait>(
    rt: &R,
    cell: &TurnCell<Tally>,
    pass: &mut Pass<Tally, TallyEntry>,
    opening: Opening,
) -> TallyOut
    requires { IsTallyOf cell.now pass.old }
    ensures own { IsTallyOf cell.now pass.new }
    ensures called { HasCalled (Finish opening) (view_of pass.old) result (view_of pass.new) }
{
    call(rt, cell, pass, TallyCall::Finish(opening))
}

/// Says that a dispatcher stops with this code. The first stop counts and is kept.
pub fn stop<R: Wait>(
    rt: &R,
    cell: &TurnCell<Tally>,
    pass: &mut Pass<Tally, TallyEntry>,
    code: u8,
) -> TallyOut
    requires { IsTallyOf cell.now pass.old }
    ensures own { IsTallyOf cell.now pass.new }
    ensures called { HasCalled (Stop code) (view_of pass.old) result (view_of pass.new) }
{
    call(rt, cell, pass, TallyCall::Stop(code))
}

/// Asks for the counts. It never counts.
pub fn look<R: Wait>(rt: &R, cell: &TurnCell<Tally>, pass: &mut Pass<Tally, TallyEntry>) -> TallyOut
    requires { IsTallyOf cell.now pass.old }
    ensures own { IsTallyOf cell.now pass.new }
    ensures called { HasCalled Look (view_of pass.old) result (view_of pass.new) }
{
    call(rt, cell, pass, TallyCall::Look)
}

/// Makes a call.
fn call<R: Wait>(
    rt: &R,
    cell: &TurnCell<Tally>,
    pass: &mut Pass<Tally, TallyEntry>,
    call: TallyCall,
) -> TallyOut
    requires { IsTallyOf cell.now pass.old }
    ensures own { IsTallyOf cell.now pass.new }
    ensures called { HasCalled call (view_of pass.old) result (view_of pass.new) }
{
    match cell.step(rt, pass, call) {
        Stepped::Done(reply) => TallyOut::Done(reply),
        Stepped::Spent(_) => TallyOut::Spent,
    }
}
