//! What a scripted listener gives, and what a scripted poller reports.
ghost use Rattle.std.specs.Prelude.{◌≡◌, IfOk};
ghost use Rattle.outside.specs.ListenCauses.{IsUntouched};
ghost use Rattle.outside.specs.PieceLink.{told_of as link_told};

use crate::{AcceptEvent, PieceListener, PiecePoller};
use outside::{AcceptOut, Listener, PieceLink};
use poller::{AddOut, PollOut, Poller, REPORTS, Reports};
use reg_keys::{Dirs, Opening};
use std::alloc::{AllocError, Global};
use std::process::Abort;
use std::test::Fail;

/// A link that gives nothing and takes nothing.
fn link(alloc: Global) -> Result<PieceLink, AllocError>
    ensures { IfOk result (λ link. IsUntouched (link_told link)) }
{
    PieceLink::new(alloc, Vec::new(alloc), Vec::new(alloc), 0)
}

#[test]
fn a_listener_plays_its_events_and_gives_nothing_behind_them(rt: HostRuntime) -> Result<(), Fail> {
    let alloc = rt.alloc();
    let mut events = Vec::new(alloc);
    events.push(AcceptEvent::Fail)?;
    events.push(AcceptEvent::Give(link(alloc)?))?;
    events.push(AcceptEvent::NotYet)?;
    let mut listener = PieceListener::new(events);
    assert_eq!(rt; listener.left(), 3);
    assert!(rt; matches!(listener.accept(), AcceptOut::Failed));
    assert!(rt; matches!(listener.accept(), AcceptOut::Accepted(_)));
    for _behind in 0..3 {
        assert!(rt; matches!(listener.accept(), AcceptOut::NotYet));
    }
    assert_eq!(rt; listener.left(), 0);
    Ok(())
}

/// The opening that a number and a descriptor are.
fn opening(number: u64, fd: u16) -> Opening
    ensures { (result.number ≡ number) × (result.fd ≡ fd) }
{
    Opening { number, fd }
}

/// Asserts what the next poll reports.
fn reports<R: Abort + std::sync::Wait>(
    rt: &R,
    alloc: Global,
    poller: &mut PiecePoller,
    wanted: &[Opening],
) -> Result<(), AllocError> {
    let mut out = Reports::new(alloc)?;
    assert!(rt; poller.poll(rt, false, &mut out) == PollOut::Polled);
    for opening in wanted {
        assert!(rt; out.pop_first() == Some((*opening, Dirs::Both)));
    }
    assert_eq!(rt; out.len(), 0);
    Ok(())
}

#[test]
fn a_descriptor_that_is_used_again_is_reported_under_its_last_opening(
    rt: HostRuntime,
) -> Result<(), Fail> {
    let alloc = rt.alloc();
    let mut poller = PiecePoller::new(alloc, Vec::new(alloc));
    reports(&rt, alloc, &mut poller, &[])?;
    let mut link = link(alloc)?;
    for (number, fd) in [(32, 0), (33, 1), (64, 0)] {
        assert!(rt; poller.add(opening(number, fd), &mut link) == AddOut::Added);
    }
    let wanted = [opening(33, 1), opening(64, 0)];
    reports(&rt, alloc, &mut poller, &wanted)?;
    reports(&rt, alloc, &mut poller, &wanted)?;
    assert_eq!(rt; poller.kept(), 2);
    Ok(())
}

#[test]
fn polls_fail_by_number(rt: HostRuntime) -> Result<(), Fail> {
    let alloc = rt.alloc();
    let mut poller = PiecePoller::new(alloc, vec![in alloc; 2u64]?);
    let mut link = link(alloc)?;
    assert!(rt; poller.add(opening(33, 1), &mut link) == AddOut::Added);
    reports(&rt, alloc, &mut poller, &[opening(33, 1)])?;
    let mut out = Reports::new(alloc)?;
    assert!(rt; poller.poll(&rt, true, &mut out) == PollOut::Failed);
    assert_eq!(rt; out.len(), 0);
    reports(&rt, alloc, &mut poller, &[opening(33, 1)])?;
    assert_eq!(rt; poller.polls(), 3);
    Ok(())
}

#[test]
fn more_openings_than_one_poll_reports_come_in_turn(rt: HostRuntime) -> Result<(), Fail> {
    let alloc = rt.alloc();
    let mut poller = PiecePoller::new(alloc, Vec::new(alloc));
    let mut link = link(alloc)?;
    for fd in 0..1025u16 {
        assert!(rt; poller.add(opening(0, fd), &mut link) == AddOut::Added);
    }
    let mut out = Reports::new(alloc)?;
    assert!(rt; poller.poll(&rt, false, &mut out) == PollOut::Polled);
    assert_eq!(rt; out.len(), REPORTS);
    assert!(rt; out.pop_first() == Some((opening(0, 0), Dirs::Both)));
    out.clear();
    assert!(rt; poller.poll(&rt, false, &mut out) == PollOut::Polled);
    assert!(rt; out.pop_first() == Some((opening(0, 1024), Dirs::Both)));
    assert!(rt; out.pop_first() == Some((opening(0, 0), Dirs::Both)));
    Ok(())
}
