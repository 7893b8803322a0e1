//! Loads that 1, 2 and 4 dispatchers serve to their ends.
ghost use Rattle.std.specs.Prelude.{◌≡◌, ◌≤◌, [], All, IfOk, length, vec_len};
ghost use Rattle.warp_books.specs.Books.{IsBookOf};
ghost use Rattle.warp_books.specs.EndCounts.{book_told};

use super::{LoadKit, LoadServed, SECONDS, is_whole, kit_of, net_of};
use poller::MemPoller;
use std::alloc::{AllocError, Global};
use std::sync::Wait;
use std::test::Fail;
use std::thread::Threads;
use warp_core::serve_loop;
use warp_jobs::FreeGate;
use warp_load::{Load, a_load_has_its_ranges};

/// A kit for each poller.
fn kits_of(alloc: Global, pollers: Vec<MemPoller>) -> Result<Vec<LoadKit<FreeGate>>, AllocError>
    ensures count { IfOk result (λ kits. length kits.items ≡ vec_len pollers) }
    ensures books { IfOk result (λ kits. All (λ kit. IsBookOf [] (book_told kit.book)) kits.items) }
{
    let mut kits = Vec::with_capacity(alloc, pollers.len())?;
    for poller in pollers {
        kits.push(kit_of(alloc, poller, FreeGate)?)?;
    }
    Ok(kits)
}

/// Serves a load with so many dispatchers.
fn serve<R: Threads + Wait + Sync>(
    rt: &R,
    alloc: Global,
    load: Load,
    dispatchers: u32,
) -> Result<LoadServed<FreeGate>, AllocError>
    requires { (1 ≤ dispatchers) × (dispatchers ≤ 64) }
{
    // A law of loads, for the proof: it does nothing when run.
    a_load_has_its_ranges();
    let (listener, pollers) = net_of(alloc, load, dispatchers)?;
    let kits = kits_of(alloc, pollers)?;
    serve_loop(rt, alloc, listener, kits, load.connections, SECONDS)
}

/// Whether so many dispatchers serve a load of 100 connections to its end.
fn is_served_by<R: Threads + Wait + Sync>(
    rt: &R,
    alloc: Global,
    dispatchers: u32,
) -> Result<bool, Fail>
    requires { (1 ≤ dispatchers) × (dispatchers ≤ 64) }
{
    let load = Load::new(7, 100, 3).ok_or("a load")?;
    let served = serve(rt, alloc, load, dispatchers)?;
    Ok(is_whole(&served, load))
}

#[test]
fn a_load_is_served_to_its_end_by_1_2_and_4_dispatchers(rt: HostRuntime) -> Result<(), Fail> {
    assert!(rt; is_served_by(&rt, rt.alloc(), 1)?);
    assert!(rt; is_served_by(&rt, rt.alloc(), 2)?);
    assert!(rt; is_served_by(&rt, rt.alloc(), 4)?);
    Ok(())
}
