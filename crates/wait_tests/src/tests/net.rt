//! A link that was accepted from a memory net, under an opening of a manager: what it gives and takes goes by
//! what was polled.
ghost use Rattle.std.specs.Prelude.{◌≡◌, ◌<◌, [], IfOk, length};

use event_mgr::EventManager;
use event_tests::Job;
use event_tests::set_up::{Net, net_of, open, worked_script};
use outside::{Link, ReadOut, WriteOut};
use poller::{AddOut, MemLink, MemPoller, PollOut, Poller, Reports};
use reg_keys::{Dirs, Opening};
use std::alloc::Global;
use std::sync::Wait;
use std::test::Fail;

/// Polls once, and fails unless this opening alone is reported, for both directions.
fn poll_of<R: Wait>(
    rt: &R,
    poller: &mut MemPoller,
    reports: &mut Reports,
    opening: Opening,
) -> Result<(), Fail> {
    reports.clear();
    if poller.poll(rt, false, reports) != PollOut::Polled {
        return Err(Fail::from("the poll failed"));
    }
    let Some((reported, Dirs::Both)) = reports.pop_first() else {
        return Err(Fail::from("no report of both directions"));
    };
    if reported.number != opening.number || reported.fd != opening.fd || reports.len() != 0 {
        return Err(Fail::from("another report"));
    }
    Ok(())
}

/// The worked link, and the net that it comes from.
#[derive(Drop)]
struct Scene {
    net: Net,
    link: MemLink,
}

impl Scene {
    fn new<R: Wait>(rt: &R, alloc: Global) -> Result<Scene, Fail> {
        let mut net = net_of(alloc, worked_script(alloc)?)?;
        let link = net.accepts(rt)?;
        Ok(Scene { net, link })
    }

    /// Adds the link under a new opening of a manager.
    fn enters<R: Wait>(&mut self, rt: &R, alloc: Global) -> Result<Opening, Fail> {
        let (mgr, mut pass) = EventManager::<Job>::new(alloc)?;
        let opening = open(rt, &mgr, &mut pass)?;
        if self.net.poller.add(opening, &mut self.link) == AddOut::Added {
            Ok(opening)
        } else {
            Err(Fail::from("the link wasn't added"))
        }
    }

    /// Polls once, and fails unless this opening alone is reported, for both directions.
    fn polls<R: Wait>(&mut self, rt: &R, opening: Opening) -> Result<(), Fail> {
        poll_of(rt, &mut self.net.poller, &mut self.net.reports, opening)
    }

    /// Whether a read answers so, and gives bytes that begin with these.
    fn reads(&mut self, wanted: ReadOut, bytes: &[u8]) -> bool {
        let mut room = [0u8; 4];
        let out = self.link.read(&mut room);
        out == wanted && room.starts_with(bytes)
    }

    /// Whether a write of these bytes answers so.
    fn writes(&mut self, bytes: &[u8], wanted: WriteOut) -> bool
        requires { 0 < length bytes.now }
    {
        self.link.write(bytes) == wanted
    }
}

#[test]
fn an_accepted_link_gives_and_takes_nothing_before_a_poll(rt: HostRuntime) -> Result<(), Fail> {
    let mut scene = Scene::new(&rt, rt.alloc())?;
    assert!(rt; scene.reads(ReadOut::NotYet, b""));
    assert!(rt; scene.writes(b"hello", WriteOut::NotYet));
    Ok(())
}

#[test]
fn an_accepted_link_gives_and_takes_what_was_polled(rt: HostRuntime) -> Result<(), Fail> {
    let mut scene = Scene::new(&rt, rt.alloc())?;
    let opening = scene.enters(&rt, rt.alloc())?;
    scene.polls(&rt, opening)?;
    assert!(rt; scene.reads(ReadOut::Got(2), b"ab"));
    assert!(rt; scene.reads(ReadOut::NotYet, b""));
    assert!(rt; scene.writes(b"hello", WriteOut::Took(2)));
    assert!(rt; scene.writes(b"hello", WriteOut::NotYet));
    scene.polls(&rt, opening)?;
    assert!(rt; scene.reads(ReadOut::Got(1), b"c"));
    assert!(rt; scene.reads(ReadOut::End, b""));
    assert!(rt; scene.writes(&[b'x'; 50], WriteOut::Took(50)));
    Ok(())
}
