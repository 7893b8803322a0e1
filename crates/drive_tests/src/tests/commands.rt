//! Loads by the call that the program is: any number of dispatchers prints the same sums, which are the load's.
ghost use Rattle.std.specs.Prelude.{◌≡◌, None, IfOk};
ghost use Rattle.outside.specs.Causes.{IsFresh};

use outside::{Link, MemClock, MemFiles, MemSink, PieceLink};
use poller::MemPoller;
use std::alloc::{AllocError, Global};
use std::sync::Wait;
use std::test::Fail;
use std::thread::Threads;
use warp_commands::{Host, run};
use warp_front::NoFront;
use warp_jobs::FreeGate;
use warp_load::{LOAD_MOMENT, Load, LoadPlace, Sums, expected, load_files};

/// The front of these commands, which is asked for nothing.
type MemFront = NoFront<MemPoller, MemFiles<LoadPlace>, MemClock, FreeGate>;

/// What a command is run with here.
type MemHost = Host<PieceLink, MemFiles<LoadPlace>, MemClock, MemSink, MemSink, MemFront>;

/// The words that serve a load with so many dispatchers.
fn words_of(alloc: Global, load: Load, dispatchers: u32) -> Result<Vec<String>, AllocError> {
    let numbers = [
        load.seed,
        load.connections,
        load.requests,
        u64::from(dispatchers),
    ];
    let mut words = Vec::with_capacity(alloc, 5)?;
    words.push(String::from_str(alloc, "drive")?)?;
    for number in numbers {
        words.push(format!(in alloc; "{number}")?)?;
    }
    Ok(words)
}

/// What these words are run with, which nothing was served with.
fn host_of(alloc: Global) -> Result<MemHost, AllocError>
    ensures fresh { IfOk result (λ host. IsFresh (⟦<PieceLink as Link>⟧.told host.link)) }
    ensures unserved { IfOk result (λ host. (host.served ≡ None) × (host.driven ≡ None)) }
{
    Ok(Host {
        link: PieceLink::new(alloc, Vec::new(alloc), Vec::new(alloc), 0)?,
        files: MemFiles::new(alloc, load_files(alloc)?, true, Vec::new(alloc)),
        clock: MemClock::new(vec![in alloc; LOAD_MOMENT]?),
        out: MemSink::new(alloc, 100)?,
        errors: MemSink::new(alloc, 300)?,
        front: NoFront::new(),
        served: None,
        driven: None,
    })
}

/// Serves a load with so many dispatchers: the status, and what was printed.
fn driven<R: Threads + Wait + Sync>(
    rt: &R,
    alloc: Global,
    load: Load,
    dispatchers: u32,
) -> Result<(u8, Vec<u8>), AllocError> {
    let words = words_of(alloc, load, dispatchers)?;
    let mut host = host_of(alloc)?;
    let status = run(rt, alloc, &words, &mut host);
    Ok((status, Vec::from_slice(alloc, host.out.bytes())?))
}

/// The lines of what a load comes to.
fn lines_of(alloc: Global, load: Load) -> Result<String, AllocError> {
    let connections = load.connections;
    let Sums { requests, bytes } = expected(load);
    format!(in alloc; "connections {connections}\nrequests {requests}\nbytes {bytes}\n")
}

/// Whether so many dispatchers print what a load comes to, with the status 0.
fn adds_up<R: Threads + Wait + Sync>(
    rt: &R,
    alloc: Global,
    load: Load,
    dispatchers: u32,
) -> Result<bool, AllocError> {
    let (status, printed) = driven(rt, alloc, load, dispatchers)?;
    let lines = lines_of(alloc, load)?;
    Ok(status == 0 && printed.as_slice() == lines.as_bytes())
}

/// Whether each of these numbers of dispatchers prints what the load of 200 connections comes to.
fn both_add_up<R: Threads + Wait + Sync>(
    rt: &R,
    alloc: Global,
    dispatchers: u32,
    others: u32,
) -> Result<bool, Fail> {
    let load = Load::new(7, 200, 20).ok_or("a load")?;
    Ok(adds_up(rt, alloc, load, dispatchers)? && adds_up(rt, alloc, load, others)?)
}

#[test]
fn one_dispatcher_and_2_add_up_to_the_load(rt: HostRuntime) -> Result<(), Fail> {
    assert!(rt; both_add_up(&rt, rt.alloc(), 1, 2)?);
    Ok(())
}

#[test]
fn three_dispatchers_and_4_add_up_to_the_load(rt: HostRuntime) -> Result<(), Fail> {
    assert!(rt; both_add_up(&rt, rt.alloc(), 3, 4)?);
    Ok(())
}

#[test]
fn five_dispatchers_and_6_add_up_to_the_load(rt: HostRuntime) -> Result<(), Fail> {
    assert!(rt; both_add_up(&rt, rt.alloc(), 5, 6)?);
    Ok(())
}

#[test]
fn seven_dispatchers_and_8_add_up_to_the_load(rt: HostRuntime) -> Result<(), Fail> {
    assert!(rt; both_add_up(&rt, rt.alloc(), 7, 8)?);
    Ok(())
}

#[test]
fn four_thousand_connections_over_4_dispatchers_add_up_to_the_load(
    rt: HostRuntime,
) -> Result<(), Fail> {
    let load = Load::new(7, 4000, 1).ok_or("a load")?;
    assert!(rt; adds_up(&rt, rt.alloc(), load, 4)?);
    Ok(())
}
