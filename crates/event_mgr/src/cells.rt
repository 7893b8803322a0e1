//! A row of 32 turn cells, one for each stripe, and a pass for each of them. A call is made on one cell, and
//! makes its steps on that cell's word alone: so calls on two stripes never meet.
ghost use Rattle.std.specs.Prelude.{◌≡◌, ◌<◌, IfOk, IfErr};

use crossbeam_utils::CachePadded;
use reg_keys::STRIPES;
use std::alloc::{AllocError, Global};
use std::sync::Wait;
use turn_cell::{Part, Pass, Stepped, Tried, TurnCell};

/// A turn cell for each stripe.
///
/// The padding keeps the handles of the cells apart: each is two pointers and some numbers that no call
/// writes. What calls write, a cell's word and its slot, lies behind those pointers, and is kept apart from
/// other cells' by the cell itself. Nothing is claimed of the processor's cache.
#[derive(Drop)]
pub struct Cells<P: Part> {
    cells: Vec<CachePadded<TurnCell<P>>>,
}

/// A pass of each cell of a row. It has no bytes but those of its list.
#[derive(Drop)]
pub struct CellsPass<P, E> {
    passes: Vec<Pass<P, E>>,
}

impl<P: Part> Cells<P> {
    ghost use Rattle.event_mgr.specs.Rows.{name_at, views_of, AreNewParts, AreOf, AreFirst, AreSplit, AreJoined, AreShared, TriesAt, StepsAt};

    /// A row of cells round 32 parts that stand for no calls, and its first pass, which has all seats and
    /// has seen nothing. The part at each place has the name of that stripe, as `Stripe::new` gives it.
    ///
    /// Where there is no memory, the parts are dropped.
    pub fn new(
        alloc: Global,
        parts: Vec<P>,
    ) -> Result<(Cells<P>, CellsPass<P, P::Entry>), AllocError>
        requires { AreNewParts P.stands P.name parts.items }
        ensures own { IfOk result (λ c. AreOf c.0 c.1) }
        ensures views { IfOk result (λ c. AreFirst (views_of c.1)) }
    {
        let mut cells = Vec::with_capacity(alloc, parts.len())?;
        let mut passes = Vec::with_capacity(alloc, parts.len())?;
        for part in parts {
            let (cell, pass) = TurnCell::new(alloc, part)?;
            cells.push_reserved(CachePadded::new(cell));
            passes.push_reserved(pass);
        }
        Ok((Cells { cells }, CellsPass { passes }))
    }

    /// Makes a call on one stripe's cell where nobody has its turn. It makes one `fetch_or`, on that cell's
    /// word, and never tries again.
    pub fn try_call(&self, pass: &mut CellsPass<P, P::Entry>, stripe: u8, call: P::Call) -> Tried<P>
        requires own { AreOf self.now pass.old }
        requires stripe { stripe < STRIPES }
        requires may { P.may (name_at stripe) call }
        ensures own { AreOf self.now pass.new }
        ensures step { TriesAt P.stands P.name P.entry P.answers stripe call (views_of pass.old) result
            (views_of pass.new) }
    {
        let mine = &mut pass.passes[stripe as usize];
        self.cells[stripe as usize].try_step(mine, call)
    }

    /// Makes a call on one stripe's cell, and waits while others have its turn.
    pub fn call<R: Wait>(
        &self,
        rt: &R,
        pass: &mut CellsPass<P, P::Entry>,
        stripe: u8,
        call: P::Call,
    ) -> Stepped<P>
        requires own { AreOf self.now pass.old }
        requires stripe { stripe < STRIPES }
        requires may { P.may (name_at stripe) call }
        ensures own { AreOf self.now pass.new }
        ensures step { StepsAt P.stands P.name P.entry P.answers stripe call (views_of pass.old) result
            (views_of pass.new) }
    {
        let mine = &mut pass.passes[stripe as usize];
        self.cells[stripe as usize].step(rt, mine, call)
    }

    /// A pass of each cell, that has seen what this one has, with no calls of its own.
    ///
    /// Its memory is taken before any pass is split, so where there is none this pass is as it was.
    pub fn split(
        &self,
        alloc: Global,
        pass: &mut CellsPass<P, P::Entry>,
    ) -> Result<CellsPass<P, P::Entry>, AllocError>
        requires { AreOf self.now pass.old }
        ensures own { AreOf self.now pass.new }
        ensures other { IfOk result (λ o. AreOf self.now o) }
        ensures split { IfOk result (λ o. AreSplit (views_of pass.old) (views_of pass.new) (views_of o)) }
        ensures same { IfErr result (λ _. pass.new ≡ pass.old) }
    {
        let mut passes = Vec::with_capacity(alloc, self.cells.len())?;
        for stripe in 0..self.cells.len() {
            let mine = &mut pass.passes[stripe];
            let Ok(other) = self.cells[stripe].split(mine) else {
                unreachable!()
            };
            passes.push_reserved(other);
        }
        Ok(CellsPass { passes })
    }

    /// Tells `to` what `from` has seen of each cell: a pass is split off the one and joined into the other.
    /// It takes no memory, waits for no turn, and makes no call.
    pub fn share(&self, from: &mut CellsPass<P, P::Entry>, to: &mut CellsPass<P, P::Entry>)
        requires from { AreOf self.now from.old }
        requires to { AreOf self.now to.old }
        ensures from { AreOf self.now from.new }
        ensures to { AreOf self.now to.new }
        ensures shared { AreShared (views_of from.old) (views_of to.old) (views_of from.new)
            (views_of to.new) }
    {
        for stripe in 0..self.cells.len() {
            let source = &mut from.passes[stripe];
            let Ok(other) = self.cells[stripe].split(source) else {
                unreachable!()
            };
            let target = &mut to.passes[stripe];
            self.cells[stripe].join(target, other);
        }
    }

    /// Takes in another pass of the row, with all that it has seen of each cell and all its seats.
    pub fn join(&self, pass: &mut CellsPass<P, P::Entry>, other: CellsPass<P, P::Entry>)
        requires own { AreOf self.now pass.old }
        requires other { AreOf self.now other }
        ensures own { AreOf self.now pass.new }
        ensures joined { AreJoined (views_of pass.old) (views_of other) (views_of pass.new) }
    {
        let CellsPass { passes: mut others } = other;
        while let Some(last) = others.pop() {
            let stripe = others.len();
            let mine = &mut pass.passes[stripe];
            self.cells[stripe].join(mine, last);
        }
    }
}
