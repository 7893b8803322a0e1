//! Calls on the cache of open files, which lies in a turn cell. Each makes one entry of the cache's history
//! or two, and waits for the turn. Files are looked at and closed outside of it.
ghost use Rattle.std.specs.Prelude.{◌≡◌, []};
ghost use Rattle.turn_cell.specs.Calls.{view_of};
ghost use Rattle.fd_cache.specs.Acquired.{Gives};
ghost use Rattle.warp_passes.specs.CacheCalls.{IsCacheOf, HasCached, DidAcquire, DidRelease, DidReap, acquire_met, release_met, reap_met};

use fd_cache::{Acquired, Basket, Cache, CacheCall, CacheDeed, CacheReply, Lease, ReleaseOut};
use outside::Files;
use std::alloc::Global;
use std::sync::Wait;
use turn_cell::{Pass, Stepped, TurnCell};

/// A pass of the cache's cell.
pub type CachePass<F> = Pass<Cache<F>, CacheDeed<Lease<F>>>;

/// What a reap answers.
#[derive(Clone, Copy, Debug, PartialEq, Eq)]
pub enum ReapOut {
    /// What nobody asked for since the last reap is closed.
    Reaped,
    /// The cell of the cache has 2^62 entries and takes no more. Nothing is closed.
    Spent,
}

/// Acquires the file at a path: one that is open already, or what a look finds.
pub fn acquire<R: Wait, F: Files>(
    alloc: Global,
    rt: &R,
    cell: &TurnCell<Cache<F>>,
    pass: &mut Pass<Cache<F>, CacheDeed<Lease<F>>>,
    path: &str,
    files: &mut F,
) -> Acquired<F>
    requires { IsCacheOf cell.now pass.old }
    ensures own { IsCacheOf cell.now pass.new }
    ensures gives { Gives path.now result }
    ensures cached { HasCached (DidAcquire path.now result (F.told files.old) (F.told files.new))
        (acquire_met result)
        (view_of pass.old) (view_of pass.new) }
{
    fd_cache::acquire(alloc, rt, cell, pass, path, files)
}

/// Gives a lease back. Its file is closed where the cache doesn't keep it.
pub fn release<R: Wait, F: Files>(
    rt: &R,
    cell: &TurnCell<Cache<F>>,
    pass: &mut Pass<Cache<F>, CacheDeed<Lease<F>>>,
    lease: Lease<F>,
) -> ReleaseOut
    requires { IsCacheOf cell.now pass.old }
    ensures own { IsCacheOf cell.now pass.new }
    ensures cached { HasCached (DidRelease lease result) (release_met result)
        (view_of pass.old) (view_of pass.new) }
{
    fd_cache::release(rt, cell, pass, lease)
}

/// Closes what nobody asked for since the last reap. The files are closed once the turn is given back. The
/// basket is empty, and comes back so for the next reap.
pub fn reap_once<R: Wait, F: Files>(
    rt: &R,
    cell: &TurnCell<Cache<F>>,
    pass: &mut Pass<Cache<F>, CacheDeed<Lease<F>>>,
    basket: Basket<Lease<F>>,
) -> (ReapOut, Basket<Lease<F>>)
    requires own { IsCacheOf cell.now pass.old }
    requires basket { basket ≡ [] }
    ensures own { IsCacheOf cell.now pass.new }
    ensures basket { result.1 ≡ [] }
    ensures cached { HasCached (DidReap result.0) (reap_met result.0) (view_of pass.old) (view_of pass.new) }
{
    match cell.step(rt, pass, CacheCall::Reap(basket)) {
        Stepped::Done(CacheReply::Reaped(mut closed)) => {
            closed.clear();
            (ReapOut::Reaped, closed)
        }
        Stepped::Done(_) => unreachable!(),
        Stepped::Spent(CacheCall::Reap(back)) => (ReapOut::Spent, back),
        Stepped::Spent(_) => unreachable!(),
    }
}
