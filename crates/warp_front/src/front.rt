//! What a server asks for before it serves. What contracts know of a front is one record.
ghost use Rattle.std.specs.Prelude.{◌≡◌, ◌<◌, ◌≤◌, [], All, length};
ghost use Rattle.warp_books.specs.Books.{IsBookOf};
ghost use Rattle.warp_books.specs.EndCounts.{book_told};
ghost use Rattle.warp_front.specs.Fronts.{AskedForKits, AskedToListen, FrontTold, IfListening, IfMade, IsUnheard};

use outside::{Clock, Files};
use poller::Poller;
use warp_books::SumBook;
use warp_jobs::{Gate, Kit};

/// What a call to listen answers.
#[derive(Drop)]
pub enum ListenOut<X> {
    /// The listener, of which nothing was asked yet.
    Listening(X),
    /// The front's count of faults rose.
    Failed,
    /// Memory was short.
    NoMemory,
}

/// What a call for kits answers.
#[derive(Drop)]
pub enum KitsOut<K> {
    /// As many kits as were asked for, of which none was used yet.
    Made(Vec<K>),
    /// The front's count of faults rose.
    Failed,
    /// Memory was short.
    NoMemory,
}

/// What a server begins with: whoever listens for it, and makes what each of its dispatchers works with.
pub trait Front {
    type Poller: Poller + Send + Drop;

    type Files: Files + Send + Drop;

    type Clock: Clock + Send + Drop;

    type Gate: Gate + Send + Drop;

    // What was asked of it, and how many faults there were.
    ghost told: { Self → FrontTold };

    /// Listens at an address of IPv4 and a port.
    fn listen(
        &mut self,
        address: [u8; 4],
        port: u16,
    ) -> ListenOut<<Self::Poller as Poller>::Listener>
        ensures unheard { IfListening result (λ listener. IsUnheard (Self.Poller.Listener.told listener)) }
        ensures asked { AskedToListen result address port (told self.old) (told self.new) };

    /// Makes this many kits, whose files lie below the root.
    fn kits(
        &mut self,
        root: &str,
        count: usize,
    ) -> KitsOut<Kit<Self::Poller, Self::Files, Self::Clock, SumBook, Self::Gate>>
        requires { (1 ≤ count) × (count ≤ 64) }
        ensures count { IfMade result (λ kits. length kits ≡ count) }
        ensures books { IfMade result (λ kits. All (λ kit. IsBookOf [] (book_told kit.book)) kits) }
        ensures asked { AskedForKits result root.now (told self.old) (told self.new) };
}
