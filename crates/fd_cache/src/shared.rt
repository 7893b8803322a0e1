//! A cache that threads share, in a turn cell. The files are looked at between two
//! turns, and closed after one.
ghost use Rattle.std.specs.Prelude.{◌≡◌};
ghost use Rattle.turn_cell.specs.Calls.{IsOf, view_of};
ghost use Rattle.fd_cache.specs.Acquired.{Gives};
ghost use Rattle.fd_cache.specs.Shared.{HasAbandoned, HasEndedTicket, HasGivenBack, HasShared};

use crate::acquired::{Acquired, ReleaseOut};
use crate::cache::Cache;
use crate::calls::{CacheCall, CacheReply};
use crate::deed::CacheDeed;
use crate::lease::{Lease, Ticket};
use crate::looking::look_past;
use outside::{Files, FindOut, Opened};
use std::alloc::Global;
use std::sync::Wait;
use turn_cell::{Pass, Stepped, TurnCell};

/// Acquires the file at a path: one that is open already, or what a look finds.
pub fn acquire<R: Wait, F: Files>(
    alloc: Global,
    rt: &R,
    cell: &TurnCell<Cache<F>>,
    pass: &mut Pass<Cache<F>, CacheDeed<Lease<F>>>,
    path: &str,
    files: &mut F,
) -> Acquired<F>
    requires { IsOf cell.now pass.old }
    ensures own { IsOf cell.now pass.new }
    ensures gives { Gives path.now result }
    ensures ran { HasShared path.now result (view_of pass.old) (view_of pass.new)
        (F.told files.old) (F.told files.new) }
{
    let Ok(asked) = String::from_str(alloc, path) else {
        return Acquired::NoMemory;
    };
    match cell.step(rt, pass, CacheCall::Acquire(asked)) {
        Stepped::Done(CacheReply::Hit(lease)) => Acquired::Leased(lease),
        Stepped::Done(CacheReply::Fresh(ticket)) => look(rt, cell, pass, ticket, path, files),
        Stepped::Done(CacheReply::Bypass(_)) => look_past(path, files),
        Stepped::Done(_) => unreachable!(),
        Stepped::Spent(_) => Acquired::Spent,
    }
}

/// Gives a lease back. Its file is closed where the cache doesn't keep it.
pub fn release<R: Wait, F: Files>(
    rt: &R,
    cell: &TurnCell<Cache<F>>,
    pass: &mut Pass<Cache<F>, CacheDeed<Lease<F>>>,
    lease: Lease<F>,
) -> ReleaseOut
    requires { IsOf cell.now pass.old }
    ensures own { IsOf cell.now pass.new }
    ensures gave_back { HasGivenBack lease result (view_of pass.old) (view_of pass.new) }
{
    match cell.step(rt, pass, CacheCall::Release(lease)) {
        Stepped::Done(_) => ReleaseOut::Released,
        Stepped::Spent(_) => ReleaseOut::Spent,
    }
}

/// Looks for the file of a ticket, and ends the ticket.
fn look<R: Wait, F: Files>(
    rt: &R,
    cell: &TurnCell<Cache<F>>,
    pass: &mut Pass<Cache<F>, CacheDeed<Lease<F>>>,
    ticket: Ticket,
    path: &str,
    files: &mut F,
) -> Acquired<F>
    requires { IsOf cell.now pass.old }
    ensures own { IsOf cell.now pass.new }
    ensures gives { Gives path.now result }
    ensures ended { HasEndedTicket ticket.entry path.now result (view_of pass.old) (view_of pass.new)
        (F.told files.old) (F.told files.new) }
{
    match files.find(path) {
        FindOut::Found(opened) => {
            let Opened { file, size, mtime } = opened;
            match cell.step(rt, pass, CacheCall::Supplied(ticket, file, size, mtime)) {
                Stepped::Done(CacheReply::Made(lease)) => Acquired::Leased(lease),
                Stepped::Done(_) => unreachable!(),
                Stepped::Spent(_) => Acquired::Spent,
            }
        }
        FindOut::Absent => abandon(rt, cell, pass, ticket, Acquired::Absent),
        FindOut::Failed => abandon(rt, cell, pass, ticket, Acquired::Failed),
        FindOut::NoMemory => abandon(rt, cell, pass, ticket, Acquired::NoMemory),
    }
}

/// Gives a ticket back, and then answers so.
fn abandon<R: Wait, F: Files>(
    rt: &R,
    cell: &TurnCell<Cache<F>>,
    pass: &mut Pass<Cache<F>, CacheDeed<Lease<F>>>,
    ticket: Ticket,
    answer: Acquired<F>,
) -> Acquired<F>
    requires { IsOf cell.now pass.old }
    ensures own { IsOf cell.now pass.new }
    ensures abandoned { HasAbandoned ticket.entry answer result (view_of pass.old) (view_of pass.new) }
{
    match cell.step(rt, pass, CacheCall::Abandon(ticket)) {
        Stepped::Done(_) => answer,
        Stepped::Spent(_) => Acquired::Spent,
    }
}
