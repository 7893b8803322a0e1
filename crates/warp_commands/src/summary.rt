//! How a load ended that was served, by its server's end and by the books.
ghost use Rattle.std.specs.Prelude.{◌≡◌, ◌≢◌, ◌↔◌, IsTrue};
ghost use Rattle.warp_core.specs.declared.served.ServeEnd.TheVariants.{Over};
ghost use Rattle.warp_commands.specs.declared.status.Status.TheVariants as Exit;
ghost use Rattle.warp_commands.specs.Driven.{EndsAs, SomeEnded, SomeGivenUp, SomeRefused, SomeTurnedAway, WereServed, bytes_of, ended_of, requests_of};

use crate::status::Status;
use conn_loop::End;
use warp_books::{Finish, SumBook, Turned};
use warp_core::{Counts, ServeEnd};
use warp_jobs::Kit;

/// How a load ended whose server ended so, by what it counted and by the books. Where all is
/// clean, that is to be printed yet.
pub(crate) fn status_of<P, F, C, G>(end: ServeEnd, kits: &[Kit<P, F, C, SumBook, G>]) -> Status
    ensures cause { EndsAs result end kits.now }
    ensures unprinted { result ≢ Exit.OutFault }
{
    match end {
        ServeEnd::Spent => Status::Spent,
        ServeEnd::PollFault => Status::PollFault,
        ServeEnd::AcceptFault => Status::AcceptFault,
        ServeEnd::NoMemory => Status::NoMemory,
        ServeEnd::Over(counts) => status_of_ends(counts, kits),
    }
}

/// How a load ended whose connections are all finished.
fn status_of_ends<P, F, C, G>(counts: Counts, kits: &[Kit<P, F, C, SumBook, G>]) -> Status
    ensures cause { EndsAs result (Over counts) kits.now }
    ensures unprinted { result ≢ Exit.OutFault }
{
    if some_ended(kits, Finish::Ended(End::NoMemory)) {
        return Status::NoMemory;
    }
    if some_turned_away(counts, kits) {
        return Status::TurnedAway;
    }
    status_of_own_ends(counts, kits)
}

/// How a load ended whose connections all came to an end of their own.
fn status_of_own_ends<P, F, C, G>(counts: Counts, kits: &[Kit<P, F, C, SumBook, G>]) -> Status
    requires { WereServed counts kits.now }
    ensures cause { EndsAs result (Over counts) kits.now }
    ensures unprinted { result ≢ Exit.OutFault }
{
    let _counts = counts;
    if some_ended(kits, Finish::Ended(End::ReadFault)) {
        return Status::ReadFault;
    }
    if some_ended(kits, Finish::Ended(End::WriteFault)) {
        return Status::WriteFault;
    }
    if some_ended(kits, Finish::Ended(End::FileFault)) {
        return Status::FileFault;
    }
    if some_ended(kits, Finish::Ended(End::Cut)) {
        return Status::Cut;
    }
    Status::Clean
}

/// Whether a link was turned away before it had an opening, or a connection was given up that had one.
fn some_turned_away<P, F, C, G>(counts: Counts, kits: &[Kit<P, F, C, SumBook, G>]) -> bool
    ensures { IsTrue result ↔ SomeTurnedAway counts kits.now }
{
    counts.turned > 0 || some_given_up(kits)
}

/// Whether a connection that had an opening timed out or was turned away.
fn some_given_up<P, F, C, G>(kits: &[Kit<P, F, C, SumBook, G>]) -> bool
    ensures { IsTrue result ↔ SomeGivenUp kits.now }
{
    some_ended(kits, Finish::TimedOut) || some_refused(kits)
}

/// Whether a connection that had an opening was turned away.
fn some_refused<P, F, C, G>(kits: &[Kit<P, F, C, SumBook, G>]) -> bool
    ensures { IsTrue result ↔ SomeRefused kits.now }
{
    some_ended(kits, Finish::TurnedAway(Turned::Watches))
        || some_ended(kits, Finish::TurnedAway(Turned::Crowded))
        || some_ended(kits, Finish::TurnedAway(Turned::Poller))
        || some_ended(kits, Finish::TurnedAway(Turned::Shut))
}

/// Whether a connection ended in this way.
fn some_ended<P, F, C, G>(kits: &[Kit<P, F, C, SumBook, G>], kind: Finish) -> bool
    ensures { IsTrue result ↔ SomeEnded kind kits.now }
{
    ended_of(kits, kind) > 0
}

/// How many connections ended in this way, by all books.
fn ended_of<P, F, C, G>(kits: &[Kit<P, F, C, SumBook, G>], kind: Finish) -> u128
    ensures { result ≡ ended_of kind kits.now }
{
    let mut sum = 0;
    for kit in kits {
        sum += kit.book.ends(kind) as u128;
    }
    sum
}

/// How many final answers were made, by all books.
pub(crate) fn requests_of<P, F, C, G>(kits: &[Kit<P, F, C, SumBook, G>]) -> u128
    ensures { result ≡ requests_of kits.now }
{
    let mut sum = 0;
    for kit in kits {
        sum += kit.book.moments() as u128;
    }
    sum
}

/// How many bytes were sent, by all books.
pub(crate) fn bytes_of<P, F, C, G>(kits: &[Kit<P, F, C, SumBook, G>]) -> u128
    ensures { result ≡ bytes_of kits.now }
{
    let mut sum = 0;
    for kit in kits {
        sum += kit.book.bytes() as u128;
    }
    sum
}
