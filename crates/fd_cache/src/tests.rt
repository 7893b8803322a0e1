//! A cache over files in memory, of one's own and shared.
ghost use Rattle.std.specs.Prelude.{◌≡◌};
ghost use Rattle.outside.specs.MemFolder.{folder_in};
ghost use Rattle.turn_cell.specs.Calls.{IsOf};

use crate::{
    Acquired, Basket, Cache, CacheCall, CacheDeed, CacheReply, Lease, ReleaseOut, acquire,
    acquire_own, release, release_own,
};
use outside::{Files, MemFile, MemFiles, Place};
use std::alloc::{AllocError, Global};
use std::marker::Brand;
use std::process::Abort;
use std::sync::Wait;
use std::test::Fail;
use turn_cell::{Pass, Stepped, TurnCell};

/// A pass of a cache's cell.
type CachePass<F> = Pass<Cache<F>, CacheDeed<Lease<F>>>;

/// How many leases a reap closes.
fn reaped<R: Wait + Abort, F: Files>(
    rt: &R,
    alloc: Global,
    cell: &TurnCell<Cache<F>>,
    pass: &mut CachePass<F>,
) -> Result<usize, AllocError>
    requires { IsOf cell.now pass.old }
    ensures { IsOf cell.now pass.new }
{
    let basket = Basket::new(alloc)?;
    match cell.step(rt, pass, CacheCall::Reap(basket)) {
        Stepped::Done(CacheReply::Reaped(mut basket)) => {
            let count = basket.len();
            basket.clear();
            assert_eq!(rt; basket.len(), 0);
            Ok(count)
        }
        _ => panic!(rt; "a reap is answered by a basket"),
    }
}

/// The lease of a path, which is there.
fn leased<R: Wait + Abort, F: Files>(
    rt: &R,
    alloc: Global,
    cell: &TurnCell<Cache<F>>,
    pass: &mut CachePass<F>,
    path: &str,
    files: &mut F,
) -> Lease<F>
    requires { IsOf cell.now pass.old }
    ensures { IsOf cell.now pass.new }
{
    match acquire(alloc, rt, cell, pass, path, files) {
        Acquired::Leased(lease) => lease,
        _ => panic!(rt; "{path} is there"),
    }
}

/// Whether a lease that came back is kept.
fn is_kept<R: Wait + Abort, F: Files>(
    rt: &R,
    cell: &TurnCell<Cache<F>>,
    pass: &mut CachePass<F>,
    lease: Lease<F>,
) -> bool
    requires { IsOf cell.now pass.old }
    ensures { IsOf cell.now pass.new }
{
    match cell.step(rt, pass, CacheCall::Release(lease)) {
        Stepped::Done(CacheReply::Kept) => true,
        Stepped::Done(CacheReply::Extra(_)) => false,
        _ => panic!(rt; "a release is answered"),
    }
}

/// A leased file isn't closed. One that came back is closed by the first reap before
/// which nobody asked for it.
fn closes_what_nobody_asked_for<R: Wait + Abort, K: Place>(
    rt: &R,
    alloc: Global,
    cell: &TurnCell<Cache<MemFiles<K>>>,
    pass: &mut CachePass<MemFiles<K>>,
    files: &mut MemFiles<K>,
) -> Result<(), AllocError>
    requires { IsOf cell.now pass.old }
    ensures { IsOf cell.now pass.new }
{
    let first = leased(rt, alloc, cell, pass, "a.txt", files);
    assert_eq!(rt; (first.size, first.mtime), (5, 7));
    assert_eq!(rt; reaped(rt, alloc, cell, pass)?, 0);
    assert_eq!(rt; reaped(rt, alloc, cell, pass)?, 0);
    assert_eq!(rt; release(rt, cell, pass, first), ReleaseOut::Released);
    assert_eq!(rt; reaped(rt, alloc, cell, pass)?, 1);
    let again = leased(rt, alloc, cell, pass, "a.txt", files);
    assert!(rt; is_kept(rt, cell, pass, again));
    assert_eq!(rt; reaped(rt, alloc, cell, pass)?, 0);
    assert_eq!(rt; reaped(rt, alloc, cell, pass)?, 1);
    assert_eq!(rt; files.finds(), 2);
    Ok(())
}

/// Of a path two files are kept that came back, and one of these is lent before the files are asked.
fn keeps_two_of_a_path<R: Wait + Abort, K: Place>(
    rt: &R,
    alloc: Global,
    cell: &TurnCell<Cache<MemFiles<K>>>,
    pass: &mut CachePass<MemFiles<K>>,
    files: &mut MemFiles<K>,
)
    requires { IsOf cell.now pass.old }
    ensures { IsOf cell.now pass.new }
{
    let one = leased(rt, alloc, cell, pass, "a.txt", files);
    let two = leased(rt, alloc, cell, pass, "a.txt", files);
    assert!(rt; is_kept(rt, cell, pass, one));
    assert_eq!(rt; files.finds(), 4);
    let hit = leased(rt, alloc, cell, pass, "a.txt", files);
    assert_eq!(rt; files.finds(), 4);
    let fresh = leased(rt, alloc, cell, pass, "a.txt", files);
    assert_eq!(rt; files.finds(), 5);
    assert!(rt; is_kept(rt, cell, pass, two));
    assert!(rt; is_kept(rt, cell, pass, hit));
    assert!(rt; !is_kept(rt, cell, pass, fresh));
}

/// A shared cache, of whose files' calls the seventh fails.
fn shares_files<R: Wait + Abort, K: Place>(
    rt: &R,
    alloc: Global,
    contents: Vec<MemFile>,
) -> Result<(), AllocError>
    requires { folder_in contents.items ≡ K.folder }
{
    let failing = vec![in alloc; 7]?;
    let mut files = MemFiles::<K>::new(alloc, contents, true, failing);
    let (cell, mut pass) = TurnCell::new(alloc, Cache::new(alloc)?)?;
    closes_what_nobody_asked_for(rt, alloc, &cell, &mut pass, &mut files)?;
    keeps_two_of_a_path(rt, alloc, &cell, &mut pass, &mut files);
    let absent = acquire(alloc, rt, &cell, &mut pass, "b.txt", &mut files);
    assert!(rt; matches!(absent, Acquired::Absent));
    let failed = acquire(alloc, rt, &cell, &mut pass, "b.txt", &mut files);
    assert!(rt; matches!(failed, Acquired::Failed));
    Ok(())
}

/// A cache of one's own, of all files of a folder of 257.
fn takes_all_entries<K: Place>(
    rt: &impl Abort,
    alloc: Global,
    contents: Vec<MemFile>,
) -> Result<(), AllocError>
    requires { folder_in contents.items ≡ K.folder }
{
    let mut files = MemFiles::<K>::new(alloc, contents, true, Vec::new(alloc));
    let mut cache = Cache::new(alloc)?;
    for n in 0u64..257 {
        let path = format!(in alloc; "{n}")?;
        match acquire_own(alloc, &mut cache, path.as_str(), &mut files) {
            Acquired::Leased(lease) => assert_eq!(rt; lease.entry.is_none(), n == 256),
            _ => panic!(rt; "{n} is there"),
        }
    }
    let Acquired::Leased(past) = acquire_own(alloc, &mut cache, "256", &mut files) else {
        panic!(rt; "256 is there");
    };
    assert_eq!(rt; files.finds(), 258);
    release_own(&mut cache, past);
    Ok(())
}

/// A file of five bytes.
fn a_file(alloc: Global, path: String) -> Result<MemFile, AllocError> {
    Ok(MemFile {
        path,
        bytes: b"hello".to_vec(alloc)?,
        mtime: 7,
    })
}

#[test]
fn a_shared_cache_keeps_files_open_until_nobody_asked_for_them(
    rt: HostRuntime,
) -> Result<(), Fail> {
    let alloc = rt.alloc();
    let file = a_file(alloc, String::from_str(alloc, "a.txt")?)?;
    shares_files::<HostRuntime, Brand>(&rt, alloc, vec![in alloc; file]?)?;
    Ok(())
}

#[test]
fn a_path_beyond_256_entries_is_leased_without_one(rt: HostRuntime) -> Result<(), Fail> {
    let alloc = rt.alloc();
    let mut contents = Vec::new(alloc);
    for n in 0u64..257 {
        contents.push(a_file(alloc, format!(in alloc; "{n}")?)?)?;
    }
    takes_all_entries::<Brand>(&rt, alloc, contents)?;
    Ok(())
}

/// Takes what may move to another thread.
fn moves<X: Send>(_moved: &X) {}

/// Takes what threads may share.
fn shares<X: Sync>(_shared: &X) {}

#[test]
fn a_cache_may_move_to_another_thread_and_be_shared(rt: HostRuntime) -> Result<(), Fail> {
    let alloc = rt.alloc();
    let cache = Cache::<MemFiles<Brand>>::new(alloc)?;
    moves(&cache);
    let (cell, pass) = TurnCell::new(alloc, cache)?;
    shares(&cell);
    moves(&pass);
    Ok(())
}
