//! A net in memory, on one thread and on two.
ghost use Rattle.std.specs.Prelude.{◌≡◌, ◌<◌, ◌^◌, ◌≤◌, IfOk, length};
ghost use Rattle.poller.specs.Scripts.{AreScripts};

use crate::{
    AddOut, MemLink, MemListener, MemNet, MemPoller, PollOut, Poller, REPORTS, Reports, Script,
    ScriptStep,
};
use outside::{AcceptOut, Link, Listener, ReadOut, WriteOut};
use reg_keys::{Dirs, Opening};
use std::alloc::{AllocError, Global};
use std::sync::Wait;
use std::test::Fail;
use std::thread::{Threads, join, yield_now};

/// How often a side of a test with two threads looks at most.
const LOOKS: u32 = 1_000_000;

/// The opening with a descriptor.
fn opening(fd: u16) -> Opening
    requires { fd < 4096 }
    ensures { result ≡ record { number = 32; fd = fd } }
{
    Opening { number: 32, fd }
}

/// A step of a script.
fn step(alloc: Global, piece: &[u8], allowance: u32) -> Result<ScriptStep, AllocError> {
    Ok(ScriptStep {
        piece: piece.to_vec(alloc)?,
        allowance,
    })
}

/// The worked script: `ab` with two bytes allowed, and `c` with nine.
fn worked(alloc: Global) -> Result<Script, AllocError>
    ensures { IfOk result (λ script. length script.steps.items < 2 ^ 32) }
{
    Ok(Script {
        steps: vec![in alloc; step(alloc, b"ab", 2)?, step(alloc, b"c", 9)?]?,
        room: 100,
    })
}

/// A net of the worked script, with one poller, the link, and room for reports.
#[derive(Drop)]
struct Bench {
    listener: MemListener,
    poller: MemPoller,
    link: MemLink,
    reports: Reports,
}

/// The last of these pollers.
fn last(pollers: &mut Vec<MemPoller>) -> Result<MemPoller, Fail> {
    let Some(poller) = pollers.pop() else {
        return Err(Fail::from("no poller"));
    };
    Ok(poller)
}

/// A net of one script, with one poller.
fn net_of_one(alloc: Global) -> Result<(MemListener, MemPoller), Fail> {
    let mut scripts = Vec::new(alloc);
    scripts.push(worked(alloc)?)?;
    let (listener, mut pollers) = MemNet::new(alloc, scripts, 1)?;
    let poller = last(&mut pollers)?;
    Ok((listener, poller))
}

impl Bench {
    /// A link that was accepted, and isn't added to the poller.
    fn new(alloc: Global) -> Result<Bench, Fail> {
        let (mut listener, poller) = net_of_one(alloc)?;
        let link = accepted(&mut listener)?;
        let reports = Reports::new(alloc)?;
        Ok(Bench {
            listener,
            poller,
            link,
            reports,
        })
    }

    /// The same, added to the poller.
    fn added(alloc: Global) -> Result<Bench, Fail> {
        let mut bench = Bench::new(alloc)?;
        if bench.adds(0) {
            Ok(bench)
        } else {
            Err(Fail::from("the link wasn't added"))
        }
    }

    /// Whether the poller takes the link.
    fn adds(&mut self, fd: u16) -> bool
        requires { fd < 4096 }
    {
        self.poller.add(opening(fd), &mut self.link) == AddOut::Added
    }

    /// Whether a read answers so, and gives bytes that begin with these.
    fn reads(&mut self, wanted: ReadOut, bytes: &[u8]) -> bool {
        let mut buf = [0u8; 8];
        let out = self.link.read(&mut buf);
        out == wanted && buf.starts_with(bytes)
    }

    /// Whether a write of these bytes answers so.
    fn writes(&mut self, bytes: &[u8], wanted: WriteOut) -> bool
        requires { 0 < length bytes.now }
    {
        self.link.write(bytes) == wanted
    }

    /// How many reports a poll gives.
    fn polls<R: Wait>(&mut self, rt: &R) -> usize {
        polled(rt, &mut self.poller, &mut self.reports)
    }

    /// Whether the first report left is of this link's descriptor, in both directions, and no other is there.
    fn reports_alone(&mut self, fd: u16) -> bool
        requires { fd < 4096 }
    {
        let Some((first, dirs)) = self.reports.pop_first() else {
            return false;
        };
        first == opening(fd) && dirs == Dirs::Both && self.reports.pop_first().is_none()
    }
}

/// A script of one step, which brings a byte.
fn short(alloc: Global) -> Result<Script, AllocError>
    ensures { IfOk result (λ script. length script.steps.items < 2 ^ 32) }
{
    Ok(Script {
        steps: vec![in alloc; step(alloc, b"x", 0)?]?,
        room: 0,
    })
}

/// This many short scripts.
fn short_scripts(alloc: Global, count: u32) -> Result<Vec<Script>, AllocError>
    ensures { IfOk result (λ scripts. AreScripts scripts.items) }
{
    let mut scripts = Vec::new(alloc);
    for _made in 0..count {
        let script = short(alloc)?;
        scripts.push(script)?;
    }
    Ok(scripts)
}

/// The link that the listener gives now.
fn accepted(listener: &mut MemListener) -> Result<MemLink, Fail> {
    match listener.accept() {
        AcceptOut::Accepted(link) => Ok(link),
        _ => Err(Fail::from("no link")),
    }
}

/// How many links the listener gives before it answers to wait.
fn given(alloc: Global, listener: &mut MemListener) -> Result<Vec<MemLink>, AllocError> {
    let mut links = Vec::new(alloc);
    for _ in 0..LOOKS {
        let AcceptOut::Accepted(link) = listener.accept() else {
            break;
        };
        links.push(link)?;
    }
    Ok(links)
}

/// How many reports a poll gives.
fn polled<R: Wait>(rt: &R, poller: &mut MemPoller, reports: &mut Reports) -> usize {
    reports.clear();
    poller.poll(rt, false, reports);
    reports.len()
}

#[test]
fn nothing_comes_before_a_poll(rt: HostRuntime) -> Result<(), Fail> {
    let mut bench = Bench::new(rt.alloc())?;
    assert!(rt; bench.reads(ReadOut::NotYet, b""));
    assert!(rt; bench.writes(b"hello", WriteOut::NotYet));
    Ok(())
}

#[test]
fn a_poll_reports_the_link_in_both_directions(rt: HostRuntime) -> Result<(), Fail> {
    let mut bench = Bench::new(rt.alloc())?;
    assert!(rt; bench.adds(7));
    assert_eq!(rt; bench.polls(&rt), 1);
    assert!(rt; bench.reports_alone(7));
    Ok(())
}

#[test]
fn a_poll_delivers_one_step(rt: HostRuntime) -> Result<(), Fail> {
    let mut bench = Bench::added(rt.alloc())?;
    assert_eq!(rt; bench.polls(&rt), 1);
    assert!(rt; bench.reads(ReadOut::Got(2), b"ab"));
    assert!(rt; bench.reads(ReadOut::NotYet, b""));
    assert!(rt; bench.writes(b"hello", WriteOut::Took(2)));
    assert!(rt; bench.writes(b"llo", WriteOut::NotYet));
    Ok(())
}

/// A net whose first step was delivered, read and answered.
fn past_the_first_step<R: Wait>(rt: &R, alloc: Global) -> Result<Bench, Fail> {
    let mut bench = Bench::added(alloc)?;
    bench.polls(rt);
    if bench.reads(ReadOut::Got(2), b"ab") && bench.writes(b"hello", WriteOut::Took(2)) {
        Ok(bench)
    } else {
        Err(Fail::from("the first step didn't come"))
    }
}

#[test]
fn the_next_poll_delivers_the_next_step(rt: HostRuntime) -> Result<(), Fail> {
    let mut bench = past_the_first_step(&rt, rt.alloc())?;
    assert_eq!(rt; bench.polls(&rt), 1);
    assert!(rt; bench.reads(ReadOut::Got(1), b"c"));
    assert!(rt; bench.reads(ReadOut::End, b""));
    assert!(rt; bench.writes(&[b'z'; 50], WriteOut::Took(50)));
    assert!(rt; bench.link.sent().starts_with(b"hez"));
    assert_eq!(rt; bench.polls(&rt), 0);
    Ok(())
}

#[test]
fn a_read_gives_bytes_of_several_steps_and_a_write_stops_at_the_room(
    rt: HostRuntime,
) -> Result<(), Fail> {
    let mut bench = Bench::added(rt.alloc())?;
    assert_eq!(rt; bench.polls(&rt), 1);
    assert_eq!(rt; bench.polls(&rt), 1);
    assert!(rt; bench.reads(ReadOut::Got(3), b"abc"));
    assert!(rt; bench.writes(&[b'z'; 101], WriteOut::Took(100)));
    assert!(rt; bench.writes(b"z", WriteOut::NotYet));
    Ok(())
}

/// Whether the poller takes the listener.
fn adds_listener(poller: &mut MemPoller, listener: &mut MemListener, fd: u16) -> bool
    requires { fd < 4096 }
{
    poller.add_listener(opening(fd), listener) == AddOut::Added
}

#[test]
fn a_link_that_was_added_is_not_added_again(rt: HostRuntime) -> Result<(), Fail> {
    let mut bench = Bench::added(rt.alloc())?;
    assert!(rt; bench.adds(1));
    assert!(rt; adds_listener(&mut bench.poller, &mut bench.listener, 2));
    assert_eq!(rt; bench.polls(&rt), 1);
    Ok(())
}

/// How many reports three polls give, before the last two of which the link is dropped.
fn polls_round_a_drop<R: Wait>(rt: &R, bench: Bench) -> (usize, usize, usize) {
    let Bench {
        listener: _,
        mut poller,
        link,
        mut reports,
    } = bench;
    let first = polled(rt, &mut poller, &mut reports);
    drop(link);
    let second = polled(rt, &mut poller, &mut reports);
    (first, second, polled(rt, &mut poller, &mut reports))
}

#[test]
fn a_link_that_is_dropped_is_reported_no_more(rt: HostRuntime) -> Result<(), Fail> {
    let bench = Bench::added(rt.alloc())?;
    assert_eq!(rt; polls_round_a_drop(&rt, bench), (1, 0, 0));
    Ok(())
}

/// A net of short scripts with two pollers, and room for reports.
#[derive(Drop)]
struct Wide {
    listener: MemListener,
    poller: MemPoller,
    /// The listener is added to it.
    waker: MemPoller,
    reports: Reports,
    links: Vec<MemLink>,
}

impl Wide {
    fn new(alloc: Global, count: u32) -> Result<Wide, Fail> {
        let scripts = short_scripts(alloc, count)?;
        let (mut listener, mut pollers) = MemNet::new(alloc, scripts, 2)?;
        let poller = last(&mut pollers)?;
        let mut waker = last(&mut pollers)?;
        if !adds_listener(&mut waker, &mut listener, 0) {
            return Err(Fail::from("the listener wasn't added"));
        }
        let reports = Reports::new(alloc)?;
        Ok(Wide {
            listener,
            poller,
            waker,
            reports,
            links: Vec::new(alloc),
        })
    }

    /// How many links the listener gives, and how many reports the poll after that.
    fn turns<R: Wait>(&mut self, rt: &R, alloc: Global) -> Result<(usize, usize), AllocError> {
        let got = given(alloc, &mut self.listener)?;
        Ok((got.len(), polled(rt, &mut self.waker, &mut self.reports)))
    }

    /// Adds the next link to the poller and keeps it, after a poll that lets the listener give more, where that
    /// is due.
    fn takes<R: Wait>(&mut self, rt: &R, fd: u16) -> Result<bool, Fail>
        requires { fd < 4096 }
    {
        if fd % 16 == 0 {
            polled(rt, &mut self.waker, &mut self.reports);
        }
        let mut link = accepted(&mut self.listener)?;
        let added = self.poller.add(opening(fd), &mut link) == AddOut::Added;
        self.links.push(link)?;
        Ok(added)
    }

    /// The same of links with all descriptors below this one.
    fn takes_all<R: Wait>(&mut self, rt: &R, end: u16) -> Result<bool, Fail>
        requires { end ≤ 4096 }
    {
        for fd in 0..end {
            if !self.takes(rt, fd)? {
                return Ok(false);
            }
        }
        Ok(true)
    }

    /// How many reports a poll gives.
    fn polls<R: Wait>(&mut self, rt: &R) -> usize {
        polled(rt, &mut self.poller, &mut self.reports)
    }

    /// The descriptor of the first report left.
    fn first(&mut self) -> Option<u16> {
        let (opening, _) = self.reports.pop_first()?;
        Some(opening.fd)
    }
}

#[test]
fn a_listener_gives_sixteen_links_and_as_many_more_for_each_report(
    rt: HostRuntime,
) -> Result<(), Fail> {
    let mut wide = Wide::new(rt.alloc(), 40)?;
    for wanted in [(16, 1), (16, 1), (8, 0), (0, 0)] {
        assert_eq!(rt; wide.turns(&rt, rt.alloc())?, wanted);
    }
    Ok(())
}

#[test]
fn a_poll_gives_as_many_reports_as_fit_and_the_next_one_goes_on(
    rt: HostRuntime,
) -> Result<(), Fail> {
    let count = REPORTS as u16 + 6;
    let mut wide = Wide::new(rt.alloc(), count as u32)?;
    assert!(rt; wide.takes_all(&rt, count)?);
    assert_eq!(rt; wide.polls(&rt), REPORTS);
    assert_eq!(rt; wide.polls(&rt), 6);
    assert_eq!(rt; wide.first(), Some(REPORTS as u16));
    assert_eq!(rt; wide.polls(&rt), 0);
    Ok(())
}

/// Polls until a poll gives nothing more.
fn poll_all<R: Wait>(rt: &R, poller: &mut MemPoller, reports: &mut Reports) {
    for _ in 0..LOOKS {
        if polled(rt, poller, reports) == 0 {
            return;
        }
        yield_now();
    }
}

/// Reads until the input is over, and says how many bytes came.
fn read_all(link: &mut MemLink) -> Option<usize> {
    let mut total: usize = 0;
    let mut buf = [0u8; 2];
    for _ in 0..LOOKS {
        match link.read(&mut buf) {
            ReadOut::Got(n) => total = total.saturating_add(n),
            ReadOut::End => return Some(total),
            _ => yield_now(),
        }
    }
    None
}

/// How many bytes a thread reads while another polls.
fn read_while_polled<R: Threads + Wait + Sync>(rt: &R, bench: Bench) -> Option<usize> {
    let Bench {
        listener: _,
        mut poller,
        mut link,
        mut reports,
    } = bench;
    let (read, ()) = join(
        rt,
        move || read_all(&mut link),
        || poll_all(rt, &mut poller, &mut reports),
    );
    read
}

#[test]
fn a_thread_that_reads_gets_what_another_delivers(rt: HostRuntime) -> Result<(), Fail> {
    let bench = Bench::added(rt.alloc())?;
    assert_eq!(rt; read_while_polled(&rt, bench), Some(3));
    Ok(())
}
