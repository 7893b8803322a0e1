//! A cell with a pass for each of this many threads.
ghost use Rattle.std.specs.Prelude.{◌≡◌, ◌<◌, IfOk, [], length};
ghost use Rattle.level.specs.Leveling.{AreOf, views_of, HoldsEachOnce, AreFresh};

use std::alloc::{AllocError, Global};
use turn_cell::{Part, Pass, TurnCell};

/// A cell round a part that stands for no calls, and `count` passes of it. Each seat is one
/// pass's, and none has seen anything.
pub fn cell_with_passes<P: Part>(
    alloc: Global,
    part: P,
    count: usize,
) -> Result<(TurnCell<P>, Vec<Pass<P, P::Entry>>), AllocError>
    requires some { 0 < count }
    requires part { P.stands part [] }
    ensures count { IfOk result (λ c. length c.1.items ≡ count) }
    ensures own { IfOk result (λ c. AreOf c.0 c.1.items) }
    ensures once { IfOk result (λ c. HoldsEachOnce (views_of c.1.items)) }
    ensures fresh { IfOk result (λ c. AreFresh (P.name part) (views_of c.1.items)) }
{
    let mut passes = Vec::with_capacity(alloc, count)?;
    let (cell, pass) = TurnCell::new(alloc, part)?;
    passes.push_reserved(pass);
    for _ in 1..count {
        let first = &mut passes[0];
        let other = cell.split(first)?;
        passes.push_reserved(other);
    }
    Ok((cell, passes))
}
