//! A cache of one's own: nobody else calls it, so nothing waits.
ghost use Rattle.std.specs.Prelude.{◌≡◌};
ghost use Rattle.fd_cache.specs.declared.deed.CacheDeed.TheVariants as Deeds;
ghost use Rattle.fd_cache.specs.Acquired.{Asks, Gives, HasReleased, LookedSo, Ran, ending};
ghost use Rattle.fd_cache.specs.Represents.{Enters};

use crate::acquired::Acquired;
use crate::cache::Cache;
use crate::calls::CacheReply;
use crate::lease::{Lease, Ticket};
use crate::looking::look_past;
use outside::{Files, FindOut, Opened};
use std::alloc::Global;

/// Acquires the file at a path: one that is open already, or what a look finds.
pub fn acquire_own<F: Files>(
    alloc: Global,
    cache: &mut Cache<F>,
    path: &str,
    files: &mut F,
) -> Acquired<F>
    ensures gives { Gives path.now result }
    ensures asks { Asks path.now result (F.told files.old) (F.told files.new) }
    ensures ran { Ran path.now result (F.told files.old) (F.told files.new) cache.old cache.new }
{
    let Ok(asked) = String::from_str(alloc, path) else {
        return Acquired::NoMemory;
    };
    match cache.acquire(asked) {
        CacheReply::Hit(lease) => Acquired::Leased(lease),
        CacheReply::Fresh(ticket) => look(cache, ticket, path, files),
        CacheReply::Bypass(_) => look_past(path, files),
        _ => unreachable!(),
    }
}

/// Gives a lease back. Its file is closed where the cache doesn't keep it.
pub fn release_own<F: Files>(cache: &mut Cache<F>, lease: Lease<F>)
    ensures { HasReleased lease cache.old cache.new }
{
    cache.release(lease);
}

/// Looks for the file of a ticket, and ends the ticket.
fn look<F: Files>(cache: &mut Cache<F>, ticket: Ticket, path: &str, files: &mut F) -> Acquired<F>
    ensures gives { Gives path.now result }
    ensures looked { LookedSo result path.now (F.told files.old) (F.told files.new) }
    ensures ended { Enters (ending ticket.entry path.now result) cache.old cache.new }
{
    match files.find(path) {
        FindOut::Found(opened) => {
            let Opened { file, size, mtime } = opened;
            Acquired::Leased(cache.supplied(ticket, file, size, mtime))
        }
        FindOut::Absent => {
            cache.abandon(ticket);
            Acquired::Absent
        }
        FindOut::Failed => {
            cache.abandon(ticket);
            Acquired::Failed
        }
        FindOut::NoMemory => {
            cache.abandon(ticket);
            Acquired::NoMemory
        }
    }
}
