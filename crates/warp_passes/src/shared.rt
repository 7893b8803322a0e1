//! What all dispatchers share, and a pass of each thing of it.
ghost use Rattle.std.specs.Prelude.{◌≡◌, IfOk, IfErr};

use crate::queue::tell_queue;
use dispatcher::{DispPass, Hand};
use event_mgr::EventManager;
use fd_cache::{Cache, CacheDeed, Lease};
use level::Share;
use outside::Files;
use ready_queue::ReadyQueue;
use std::alloc::{AllocError, Global};
use stripe_table::Load;
use timeout_mgr::{TimePass, Timeouts};
use turn_cell::{Pass, TurnCell};
use warp_tally::{Tally, TallyEntry};

/// How many events the ready queue holds: two for each of 4,096 descriptors.
const QUEUE_EVENTS: u32 = 8_192;

/// What all dispatchers share. Each calls it with a pass of its own.
///
/// Nothing is padded here: what calls write lies behind each thing's own pointers.
#[derive(Drop)]
pub struct Shared<J: Load, F: Files> {
    /// The registrations of all descriptors.
    pub mgr: EventManager<J>,
    /// The events that wait for a dispatcher.
    pub queue: ReadyQueue,
    /// The watches over connections.
    pub times: Timeouts,
    /// The open files.
    pub cache: TurnCell<Cache<F>>,
    /// The counts of connections, and the first stop.
    pub tally: TurnCell<Tally>,
}

/// A pass of each shared thing, and the hand of a dispatcher.
///
/// It is of one `Shared`, and belongs to whoever holds it. Dropped, it leaves its entries to nobody.
#[derive(Drop)]
pub struct ServePass<J, F: Files> {
    pub disp: DispPass<J>,
    pub times: TimePass,
    pub cache: Pass<Cache<F>, CacheDeed<Lease<F>>>,
    pub tally: Pass<Tally, TallyEntry>,
}

impl<J: Load, F: Files> Shared<J, F> {
    ghost use Rattle.warp_passes.specs.Passes.{AreOf, IsFirst, IsPassSplit, pass_view, rest_of};
    ghost use Rattle.warp_passes.specs.Cells.{ArePassesShared};

    /// All things new, and their first pass: it has all seats, has seen nothing and did nothing. All memory
    /// that calls on them ever need is taken here, but that of the cache's paths and of the tally's openings.
    pub fn new(alloc: Global) -> Result<(Shared<J, F>, ServePass<J, F>), AllocError>
        ensures own { IfOk result (λ s. AreOf s.0 s.1) }
        ensures first { IfOk result (λ s. IsFirst (pass_view s.1)) }
    {
        let (mgr, mgr_pass) = EventManager::new(alloc)?;
        let (queue, queue_pass) = ReadyQueue::new(alloc, QUEUE_EVENTS)?;
        let (times, times_pass) = Timeouts::new(alloc)?;
        let empty = Cache::new(alloc)?;
        let (cache, cache_pass) = TurnCell::new(alloc, empty)?;
        let (tally, tally_pass) = TurnCell::new(alloc, Tally::new(alloc))?;
        let disp = DispPass::new(alloc, mgr_pass, queue_pass)?;
        let shared = Shared {
            mgr,
            queue,
            times,
            cache,
            tally,
        };
        let pass = ServePass {
            disp,
            times: times_pass,
            cache: cache_pass,
            tally: tally_pass,
        };
        Ok((shared, pass))
    }

    /// A pass that has seen what this one has, did nothing, and has an empty hand. It takes half of this
    /// one's first class of seats on each cell.
    ///
    /// Its memory is taken before any pass is split, so where there is none this pass is as it was.
    pub fn split(
        &self,
        alloc: Global,
        pass: &mut ServePass<J, F>,
    ) -> Result<ServePass<J, F>, AllocError>
        requires { AreOf self.now pass.old }
        ensures own { AreOf self.now pass.new }
        ensures other { IfOk result (λ o. AreOf self.now o) }
        ensures split { IfOk result
            (λ o. IsPassSplit (pass_view pass.old) (pass_view pass.new) (pass_view o)) }
        ensures same { IfErr result (λ _. pass_view pass.new ≡ pass_view pass.old) }
    {
        let hand = Hand::new(alloc)?;
        let disp = &mut pass.disp;
        let mgr = self.mgr.split(alloc, &mut disp.mgr)?;
        let Ok(queue) = self.queue.split(&mut disp.queue) else {
            unreachable!()
        };
        let Ok(times) = self.times.split(&mut pass.times) else {
            unreachable!()
        };
        let Ok(cache) = self.cache.split(&mut pass.cache) else {
            unreachable!()
        };
        let Ok(tally) = self.tally.split(&mut pass.tally) else {
            unreachable!()
        };
        Ok(ServePass {
            disp: DispPass { mgr, queue, hand },
            times,
            cache,
            tally,
        })
    }

    /// Tells `to` what `from` has seen of each cell. It takes no memory, waits for no turn and makes no call.
    /// The passes of the timeouts are left alone, and so are the hands.
    pub(crate) fn tell(&self, from: &mut ServePass<J, F>, to: &mut ServePass<J, F>)
        requires from { AreOf self.now from.old }
        requires to { AreOf self.now to.old }
        ensures from { AreOf self.now from.new }
        ensures to { AreOf self.now to.new }
        ensures shared { ArePassesShared (pass_view from.old) (pass_view to.old)
            (pass_view from.new) (pass_view to.new) }
        ensures rest { rest_of (pass_view from.new) ≡ rest_of (pass_view from.old) }
        ensures other_rest { rest_of (pass_view to.new) ≡ rest_of (pass_view to.old) }
    {
        let disp = &mut from.disp;
        let other = &mut to.disp;
        Share::share(&self.mgr, &mut disp.mgr, &mut other.mgr);
        tell_queue(&self.queue, &mut disp.queue, &mut other.queue);
        Share::share(&self.cache, &mut from.cache, &mut to.cache);
        Share::share(&self.tally, &mut from.tally, &mut to.tally);
    }
}
