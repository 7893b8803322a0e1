//! What a server over sockets begins with.
ghost use Rattle.std.specs.Prelude.{◌≡◌, ◌≤◌, [], All, IfOk, None, length};
ghost use Rattle.warp_books.specs.Books.{IsBookOf};
ghost use Rattle.warp_books.specs.EndCounts.{book_told};

use outside::{Count, Files, OsClock, OsFiles, RootOut};
use socket_poller::{SockFault, SockListener, SockPoller};
use std::alloc::Global;
use std::net::Net;
use std::os::unix::fs::FileExt;
use std::rt;
use std::sync::Arc;
use warp_books::SumBook;
use warp_front::{Front, KitsOut, ListenOut};
use warp_jobs::{FreeGate, Kit};

/// An address of IPv4 and a port.
#[derive(Clone, Copy)]
struct Place {
    address: [u8; 4],
    port: u16,
}

/// What a server over sockets begins with: it listens over TCP, and its dispatchers work with sockets, the
/// system's files and the system's time, and with books that keep sums.
#[derive(Drop)]
pub struct SockFront<R> {
    rt: Arc<R, Global>,
    alloc: Global,
    place: Option<Place>,
    root: Option<String>,
    faults: Count,
}

/// What each dispatcher works with.
type SockKit<R> = Kit<SockPoller<R>, OsFiles<R>, OsClock<R>, SumBook, FreeGate>;

impl<R> SockFront<R> {
    ghost use Rattle.std.specs.Prelude.{◌≡◌, None};
    ghost use Rattle.sock_front.specs.SockFronts.{told_of};

    /// A front of which nothing was asked, over this runtime.
    pub fn new(rt: Arc<R, Global>, alloc: Global) -> SockFront<R>
        ensures { told_of result ≡ record { place = None; root = None; faults = 0 } }
    {
        SockFront {
            rt,
            alloc,
            place: None,
            root: None,
            faults: Count::new(),
        }
    }
}

impl<R: Net + rt::Files + rt::Clock + Drop> SockFront<R>
where
    R::File: FileExt,
{
    /// This many kits over the files below the root. Where the root is no folder any
    /// more, the machine refused.
    fn made(&self, root: &str, count: usize) -> Result<Vec<SockKit<R>>, SockFault>
        requires { (1 ≤ count) × (count ≤ 64) }
        ensures count { IfOk result (λ kits. length kits.items ≡ count) }
        ensures books { IfOk result (λ kits. All (λ kit. IsBookOf [] (book_told kit.book)) kits.items) }
    {
        let pollers = SockPoller::group(&*self.rt, &self.rt, self.alloc, count)?;
        let mut kits = Vec::with_capacity(self.alloc, count)?;
        for poller in pollers {
            kits.push(self.kit(poller, root)?)?;
        }
        Ok(kits)
    }

    /// The kit of a poller.
    fn kit(&self, poller: SockPoller<R>, root: &str) -> Result<SockKit<R>, SockFault>
        ensures { IfOk result (λ kit. IsBookOf [] (book_told kit.book)) }
    {
        let mut files = OsFiles::new(self.alloc, Arc::try_clone(&self.rt)?);
        match files.root(root) {
            RootOut::Present => {}
            RootOut::NoMemory => return Err(SockFault::NoMemory),
            RootOut::Absent | RootOut::Failed => return Err(SockFault::Machine(0)),
        }
        Ok(Kit {
            poller,
            files,
            clock: OsClock::new(Arc::try_clone(&self.rt)?),
            book: SumBook::new(),
            gate: FreeGate,
        })
    }
}

impl<R: Net + rt::Files + rt::Clock + Send + Sync + Drop> Front for SockFront<R>
where
    R::File: FileExt,
{
    type Poller = SockPoller<R>;

    type Files = OsFiles<R>;

    type Clock = OsClock<R>;

    type Gate = FreeGate;

    ghost use Rattle.sock_front.specs.SockFronts.{told_of};

    ghost told = { told_of };

    fn listen(&mut self, address: [u8; 4], port: u16) -> ListenOut<SockListener> {
        let answer = match SockListener::bind(&*self.rt, address, port) {
            Ok(listener) => ListenOut::Listening(listener),
            Err(SockFault::NoMemory) => return ListenOut::NoMemory,
            Err(SockFault::Machine(_)) => {
                self.faults.rise();
                ListenOut::Failed
            }
        };
        self.place = Some(Place { address, port });
        answer
    }

    fn kits(&mut self, root: &str, count: usize) -> KitsOut<SockKit<R>> {
        let Ok(text) = String::from_str(self.alloc, root) else {
            return KitsOut::NoMemory;
        };
        let answer = match self.made(root, count) {
            Ok(kits) => KitsOut::Made(kits),
            Err(SockFault::NoMemory) => return KitsOut::NoMemory,
            Err(SockFault::Machine(_)) => {
                self.faults.rise();
                KitsOut::Failed
            }
        };
        self.root = Some(text);
        answer
    }
}
