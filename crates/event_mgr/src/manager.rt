//! The event manager: 32 stripes of the table of callbacks, each behind a turn of its own, and the numbers of
//! descriptors behind one more. This file has what is stored, its making, and what is done with passes.
//!
//! What meets what: a call takes the turn of its own stripe and no other, so two calls meet only where they
//! are on one stripe. Opening draws a number first and then opens its descriptor; closing closes first and
//! gives the number back after that. The order is so since the two histories know nothing of one another: a
//! number that was given back before the close could be drawn, and its descriptor found taken, by a thread in
//! between. No clause says that a number is free exactly while its descriptor has no opening: an opening can
//! be closed by whoever knows it.
ghost use Rattle.std.specs.Prelude.{◌≡◌, ◌<◌, IfOk, IfErr};
ghost use Rattle.event_mgr.specs.Manager.{IsOfMgr, IsFirst, IsMgrSplit, IsMgrJoined, IsMgrShared, mgr_view};

use crate::cells::Cells;
use crate::numbers::Numbers;
use crate::pass::MgrPass;
use crate::stripes::all_stripes;
use std::alloc::{AllocError, Global};
use stripe_table::{Load, Stripe};
use turn_cell::TurnCell;

/// The registrations of all 4,096 descriptors, shared by any number of threads, each with a pass of its own.
#[derive(Drop)]
pub struct EventManager<T: Load> {
    pub(crate) stripes: Cells<Stripe<T>>,
    pub(crate) numbers: TurnCell<Numbers>,
}

impl<T: Load> EventManager<T> {
    /// A manager with no descriptor open, and its first pass. All the memory that its calls ever need is
    /// taken here.
    pub fn new(alloc: Global) -> Result<(EventManager<T>, MgrPass<T>), AllocError>
        ensures own { IfOk result (λ m. IsOfMgr m.0 m.1) }
        ensures view { IfOk result (λ m. IsFirst (mgr_view m.1)) }
    {
        let parts = all_stripes(alloc)?;
        let (stripes, passes) = Cells::new(alloc, parts)?;
        let free = Numbers::new(alloc)?;
        let (numbers, pass) = TurnCell::new(alloc, free)?;
        let manager = EventManager { stripes, numbers };
        let pass = MgrPass {
            stripes: passes,
            numbers: pass,
        };
        Ok((manager, pass))
    }

    /// A pass that has seen what this one has of each history, with no calls of its own.
    ///
    /// Its memory is taken before any pass is split, so where there is none this pass is as it was.
    pub fn split(&self, alloc: Global, pass: &mut MgrPass<T>) -> Result<MgrPass<T>, AllocError>
        requires { IsOfMgr self.now pass.old }
        ensures own { IsOfMgr self.now pass.new }
        ensures other { IfOk result (λ o. IsOfMgr self.now o) }
        ensures split { IfOk result (λ o. IsMgrSplit (mgr_view pass.old) (mgr_view pass.new) (mgr_view o)) }
        ensures same { IfErr result (λ _. mgr_view pass.new ≡ mgr_view pass.old) }
    {
        let stripes = self.stripes.split(alloc, &mut pass.stripes)?;
        let Ok(numbers) = self.numbers.split(&mut pass.numbers) else {
            unreachable!()
        };
        Ok(MgrPass { stripes, numbers })
    }

    /// Tells one pass what another has seen, of each of the 33 histories. It takes no memory and waits for
    /// no turn, and neither pass's own entries change.
    pub(crate) fn share(&self, from: &mut MgrPass<T>, to: &mut MgrPass<T>)
        requires from { IsOfMgr self.now from.old }
        requires to { IsOfMgr self.now to.old }
        ensures from { IsOfMgr self.now from.new }
        ensures to { IsOfMgr self.now to.new }
        ensures shared { IsMgrShared (mgr_view from.old) (mgr_view to.old) (mgr_view from.new)
            (mgr_view to.new) }
    {
        self.stripes.share(&mut from.stripes, &mut to.stripes);
        let Ok(other) = self.numbers.split(&mut from.numbers) else {
            unreachable!()
        };
        self.numbers.join(&mut to.numbers, other);
    }

    /// Takes in another pass of the manager, with all that it has seen and all its seats.
    pub fn join(&self, pass: &mut MgrPass<T>, other: MgrPass<T>)
        requires own { IsOfMgr self.now pass.old }
        requires other { IsOfMgr self.now other }
        ensures own { IsOfMgr self.now pass.new }
        ensures joined { IsMgrJoined (mgr_view pass.old) (mgr_view other) (mgr_view pass.new) }
    {
        let MgrPass { stripes, numbers } = other;
        self.stripes.join(&mut pass.stripes, stripes);
        self.numbers.join(&mut pass.numbers, numbers);
    }
}
