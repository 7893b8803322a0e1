//! What no clause says: that the calls succeed with ample memory, and what they come to in worked cases.
ghost use Rattle.outside.specs.ListenCauses.{IsUntouched};

mod listeners;

use crate::{Parts, Session, Went};
use conn_loop::{Conn, End, Scratch};
use outside::{Files, Link, MemClock, MemFiles, PieceLink, ReadEvent};
use reg_keys::{Dir, Opening};
use std::alloc::{AllocError, Global};
use std::marker::Brand;
use std::test::Fail;
use timeout_mgr::{AddWatch, Timeouts, Watch};
use warp_books::Finish;

const OPENING: Opening = Opening { number: 7, fd: 7 };

/// A request that is answered without a look for a file.
const OPTIONS: &[u8] = b"OPTIONS * HTTP/1.1\r\nHost: a\r\n\r\n";

/// A connection over this link, of which nothing was read or written.
fn begun<L: Link + Drop, F: Files>(
    alloc: Global,
    link: L,
    watch: Watch,
) -> Result<Session<L, F>, AllocError>
    requires { IsUntouched (L.told link) }
{
    let conn = Conn::<F>::new(alloc)?;
    Ok(Session::new(OPENING, link, conn, watch))
}

#[test]
fn a_connection_is_brought_on_and_finished(rt: HostRuntime) -> Result<(), Fail> {
    let alloc = rt.alloc();
    let (times, mut pass) = Timeouts::new(alloc)?;
    let AddWatch::Added(watch) = times.add(&mut pass, OPENING) else {
        panic!(rt; "a new table has room");
    };
    let reads = vec![in alloc; ReadEvent::Piece(OPTIONS.to_vec(alloc)?), ReadEvent::NotYet]?;
    let link = PieceLink::new(alloc, reads, Vec::new(alloc), 1_000)?;
    let mut session = begun::<PieceLink, MemFiles<Brand>>(alloc, link, watch)?;
    let mut files = MemFiles::<Brand>::new(alloc, Vec::new(alloc), true, Vec::new(alloc));
    let mut clock = MemClock::new(vec![in alloc; 784_111_777]?);
    let mut scratch = Scratch::new(alloc)?;
    assert!(rt;
        matches!(
            session.advance(&mut files, &mut clock, &mut scratch),
            Went::Waits(Dir::Read)
        )
    );
    assert!(rt;
        matches!(
            session.advance(&mut files, &mut clock, &mut scratch),
            Went::Over(End::Clean)
        )
    );
    assert!(rt; session.spent_lease().is_none());
    assert_eq!(rt; session.opening().number, 7);
    let Parts { done, watch, lease } = session.finish(Finish::TimedOut);
    assert_eq!(rt; (done.bytes, done.waits, done.moments.len()), (124, 1, 1));
    assert!(rt; lease.is_none());
    let _ = times.cancel(&mut pass, watch);
    Ok(())
}
