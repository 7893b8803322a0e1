//! A script as a link reads it: its input laid end to end, with how far it goes at each step.
ghost use Rattle.std.specs.Prelude.{◌≡◌, ◌<◌, ◌^◌, IfOk, length};
ghost use Rattle.poller.specs.LaidScripts.{Lays};

use crate::script::ScriptStep;
use std::alloc::{AllocError, Global};

/// How far a script goes once some of its steps were delivered: bytes of input, and bytes that may be
/// written.
#[derive(Clone, Copy)]
pub(crate) struct Reached {
    pub(crate) input: usize,
    pub(crate) allowance: u64,
}

/// The whole input, and how far it goes with no step delivered, with one, and so on.
#[derive(Drop)]
pub(crate) struct LaidScript {
    pub(crate) input: Vec<u8>,
    pub(crate) reached: Vec<Reached>,
}

/// Lays the steps of a script end to end.
pub(crate) fn lay_out(alloc: Global, steps: &[ScriptStep]) -> Result<LaidScript, AllocError>
    requires { length steps.now < 2 ^ 32 }
    ensures { IfOk result
        (λ script. Lays steps.now (length steps.now) script.input.items script.reached.items) }
{
    let mut input = Vec::new(alloc);
    let mut allowance = 0u64;
    let mut reached = Vec::with_capacity(alloc, steps.len() + 1)?;
    reached.push(Reached {
        input: 0,
        allowance,
    })?;
    for step in steps {
        input.extend_from_slice(&step.piece)?;
        allowance += step.allowance as u64;
        reached.push(Reached {
            input: input.len(),
            allowance,
        })?;
    }
    Ok(LaidScript { input, reached })
}
