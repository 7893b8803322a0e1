//! A connection that is served: its link, how far it was brought, and the watch over it.
ghost use Rattle.std.specs.Prelude.{◌≡◌, Option, Some, None, option_map, [], List, ℕ};
ghost use Rattle.outside.specs.ListenCauses.{IsUntouched};
ghost use Rattle.fd_cache.specs.Calls.{entry_held, entry_of};
ghost use Rattle.app_trait.specs.FolderMoves.{folder_move};
ghost use Rattle.conn_loop.specs.Causes.{ReadsOnly};
ghost use Rattle.conn_loop.specs.ConnState.{Represents, IsAsking, path_asked, at_first};
ghost use Rattle.conn_loop.specs.Steps.{to_go};
ghost use Rattle.conn_loop.specs.Supplies.{Supplies, Holds, GivesLease};
ghost use Rattle.timeout_mgr.specs.Calls.{name_of_watch};
ghost use Rattle.warp_books.specs.Truth.{finished_of};
ghost use Rattle.warp_jobs.specs.Held.{IsHeld};
ghost use Rattle.warp_jobs.specs.Sessions.{HasGone, MayFinish, HasSupplied, HasGivenLease, HasCounted, finished_as, first_held};

use app_trait::FolderApp;
use conn_loop::{Closing, Conn, End, Scratch, Step, Supply};
use fd_cache::Lease;
use outside::{Clock, Files, Link};
use reg_keys::{Dir, Opening};
use std::marker::Model;
use timeout_mgr::Watch;
use warp_books::{Finish, Finished, ended_connections_are_true, given_up_connections_are_true};

/// How far a connection came.
#[derive(Clone, Copy)]
pub enum Went {
    /// Its link must be waited for, in this direction.
    Waits(Dir),
    /// It wants the file at a path.
    Asks,
    /// It is over.
    Over(End),
}

/// What is left of a connection that is finished.
#[derive(Drop)]
pub struct Parts<L: Link, F: Files> {
    /// The connection, as a book takes it.
    pub done: Finished<L, F>,
    /// The watch over it.
    pub watch: Watch,
    /// The lease that it still held.
    pub lease: Option<Lease<F>>,
}

/// A connection that is served: its opening, its link, how far it was brought, the watch over it, and the
/// number of its next registration, which is how often its link had to be waited for.
#[derive(Drop)]
pub struct Session<L: Link, F: Files> {
    opening: Opening,
    link: L,
    conn: Conn<F>,
    watch: Watch,
    number: u64,
}

impl<L: Link, F: Files> Model for Session<L, F> {
    ghost use Rattle.timeout_mgr.specs.Calls.{name_of_watch};
    ghost use Rattle.warp_jobs.specs.Held.{Held, IsHeld};

    ghost Value = { Held };

    ghost view = { λ s. record {
      opening = s.opening;
      link = L.told s.link;
      conn = s.conn;
      watch = name_of_watch s.watch;
      number = s.number;
    } };

    ghost invariant = { λ s. IsHeld F.folder s.opening (L.told s.link) s.conn s.number };
}

impl<L: Link, F: Files> Session<L, F> {
    /// A connection of which nothing was read or written yet.
    pub fn new(opening: Opening, link: L, conn: Conn<F>, watch: Watch) -> Session<L, F>
        requires untouched { IsUntouched (L.told link) }
        requires fresh { conn ≡ at_first }
        requires represents { Represents folder_move F.folder conn (L.told link) }
        ensures { result ≡ first_held opening (L.told link) (name_of_watch watch) }
    {
        Session {
            opening,
            link,
            conn,
            watch,
            number: 0,
        }
    }

    /// The opening under which its link is reported.
    pub fn opening(&self) -> Opening
        ensures { result ≡ self.now.opening }
    {
        self.opening
    }

    /// What its type keeps of it, as a theorem: it does nothing when run.
    pub fn keeps_its_counts(&self)
        ensures { IsHeld F.folder self.now.opening self.now.link self.now.conn self.now.number }
    {
        // A field is read, so that the proof sees what the type keeps.
        let _number = self.number;
    }

    /// The watch over it.
    pub fn watch(&self) -> &Watch
        ensures { name_of_watch result.now ≡ self.now.watch }
    {
        &self.watch
    }

    /// Brings the connection on until its link must be waited for, it wants a file, or it is over.
    ///
    /// A connection whose link had to be waited for 2^64 - 1 times is over for want of memory.
    pub fn advance<C: Clock>(&mut self, files: &mut F, clock: &mut C, scratch: &mut Scratch) -> Went
        ensures gone { HasGone result self.old self.new (C.told clock.old) (C.told clock.new) }
        ensures files { ReadsOnly (F.told files.old) (F.told files.new) }
    {
        ended_connections_are_true();
        let step = self
            .conn
            .advance(&mut self.link, files, &FolderApp, clock, scratch);
        match step {
            Step::WantRead => waits(&mut self.number, Dir::Read),
            Step::WantWrite => waits(&mut self.number, Dir::Write),
            Step::WantFile => Went::Asks,
            Step::Done(end) => Went::Over(end),
        }
    }

    /// The path of the file that it wants.
    pub fn wanted(&self) -> &str
        requires { IsAsking self.now.conn }
        ensures { result.now ≡ path_asked self.now.conn }
    {
        self.conn.wanted()
    }

    /// Takes what was found at the path that it wants.
    pub fn supply(&mut self, got: Supply<Lease<F>>)
        requires asking { IsAsking self.old.conn }
        requires none_spent { self.old.conn.lease ≡ None }
        requires there { Supplies F.folder (λ lease. F.file_path lease.file) (path_asked self.old.conn) got }
        ensures supplied { HasSupplied self.old self.new }
        ensures holds { Holds (λ lease. F.file_path lease.file) (λ lease. entry_of lease) got self.new.conn }
    {
        FolderApp.serves();
        self.conn.supply(got);
    }

    /// Gives a lease back that it doesn't need any more.
    pub fn spent_lease(&mut self) -> Option<Lease<F>>
        ensures { HasGivenLease (option_map (λ lease. F.file_path lease.file) result)
            (entry_held result) self.old self.new }
    {
        self.conn.spent_lease()
    }

    /// Finishes the connection: it ended so. The caller owes that it is over with that end, or that the
    /// end says nothing of its bytes.
    pub fn finish(self, end: Finish) -> Parts<L, F>
        requires { MayFinish end self.conn }
        ensures watch { name_of_watch result.watch ≡ self.watch }
        ensures lease { option_map (λ lease. F.file_path lease.file) result.lease ≡ self.conn.lease }
        ensures entry { entry_held result.lease ≡ self.conn.entry }
        ensures done { finished_as result.done.opening (L.told result.done.link)
            result.done.moments.items result.done.bytes result.done.waits result.done.end
            ≡ finished_of self.opening self.link self.conn end }
    {
        given_up_connections_are_true();
        let Session {
            opening,
            link,
            conn,
            watch,
            number: _,
        } = self;
        let Closing {
            lease,
            moments,
            bytes,
            waits,
        } = conn.finish();
        Parts {
            done: Finished::new(opening, link, moments, bytes, waits, end),
            watch,
            lease,
        }
    }
}

/// The link must be waited for in this direction: counts the registration that comes of it.
fn waits(number: &mut u64, dir: Dir) -> Went
    ensures { HasCounted dir result number.old number.new }
{
    match number.checked_add(1) {
        Some(next) => {
            *number = next;
            Went::Waits(dir)
        }
        None => Went::Over(End::NoMemory),
    }
}
