//! What a server begins with, in memory.
ghost use Rattle.std.specs.Prelude.{◌≡◌, ◌≤◌, All, IfOk, [], drop, length};
ghost use Rattle.std.specs.Option.{ForSome};
ghost use Rattle.std.proofs.Props.{props};
ghost use Rattle.warp_books.specs.Books.{IsBookOf};
ghost use Rattle.warp_books.specs.EndCounts.{book_told};
ghost use Rattle.warp_front.specs.Fronts.{AskedForKits, AskedToListen, IfListening, IfMade, IsUnheard};
ghost use Rattle.piece_net.specs.PieceListeners.{told_of as listener_told};

use outside::{Clock, Count, Files, RootOut};
use piece_net::{PieceListener, PiecePoller};
use std::alloc::Global;
use std::collections::VecDeque;
use warp_books::SumBook;
use warp_front::{Front, KitsOut, ListenOut};
use warp_jobs::{Gate, Kit};

/// An address of IPv4 and a port.
#[derive(Clone, Copy)]
struct Place {
    address: [u8; 4],
    port: u16,
}

/// What a server begins with, in memory: a listener, which it hands out once, and kits,
/// which it hands out in order.
#[derive(Drop)]
pub struct MemFront<F, C, G> {
    alloc: Global,
    listener: Option<PieceListener>,
    kits: VecDeque<Kit<PiecePoller, F, C, SumBook, G>>,
    failing: bool,
    place: Option<Place>,
    root: Option<String>,
    faults: Count,
    ghost unheard: { ForSome listener (λ l. IsUnheard (listener_told l)) } by { Prim.hlevel props },
    ghost empty: { All (λ kit. IsBookOf [] (book_told kit.book)) kits.items } by { Prim.hlevel props },
}

/// How handing out kits ended early.
#[derive(Clone, Copy)]
enum Refusal {
    Failed,
    NoMemory,
}

impl<F: Files + Drop, C: Drop, G: Drop> MemFront<F, C, G> {
    ghost use Rattle.warp_front_mem.specs.MemFronts.{IsRootedAt, fresh_front, front_told};

    /// A front of which nothing was asked. `failing` says whether its calls to listen fail.
    ///
    /// The caller owes that nothing was asked of the listener, and that the books are empty.
    pub fn new(
        alloc: Global,
        listener: PieceListener,
        kits: Vec<Kit<PiecePoller, F, C, SumBook, G>>,
        failing: bool,
    ) -> MemFront<F, C, G>
        requires unheard { IsUnheard (listener_told listener) }
        requires empty { All (λ kit. IsBookOf [] (book_told kit.book)) kits.items }
        ensures told { front_told result ≡ fresh_front }
    {
        MemFront {
            alloc,
            listener: Some(listener),
            kits: VecDeque::from_vec(kits),
            failing,
            place: None,
            root: None,
            faults: Count::new(),
        }
    }

    /// The first kit, whose files lie below the root.
    fn rooted(&mut self, root: &str) -> Result<Kit<PiecePoller, F, C, SumBook, G>, Refusal>
        ensures book { IfOk result (λ kit. IsBookOf [] (book_told kit.book)) }
        ensures there { IfOk result (λ kit. IsRootedAt root.now (F.told kit.files)) }
        ensures left { self.new.kits.items ≡ drop 1 self.old.kits.items }
        ensures listener { self.new.listener ≡ self.old.listener }
        ensures told { front_told self.new ≡ front_told self.old }
    {
        let Some(mut kit) = self.kits.pop_front() else {
            return Err(Refusal::Failed);
        };
        match kit.files.root(root) {
            RootOut::Present => Ok(kit),
            RootOut::NoMemory => Err(Refusal::NoMemory),
            RootOut::Absent | RootOut::Failed => Err(Refusal::Failed),
        }
    }

    /// The first kits, so many, whose files lie below the root.
    fn handed_out(
        &mut self,
        root: &str,
        count: usize,
    ) -> Result<Vec<Kit<PiecePoller, F, C, SumBook, G>>, Refusal>
        ensures count { IfOk result (λ kits. length kits.items ≡ count) }
        ensures books { IfOk result (λ kits. All (λ kit. IsBookOf [] (book_told kit.book)) kits.items) }
        ensures there { IfOk result (λ kits. All (λ kit. IsRootedAt root.now (F.told kit.files)) kits.items) }
        ensures enough { IfOk result (λ _. count ≤ length self.old.kits.items) }
        ensures listener { self.new.listener ≡ self.old.listener }
        ensures told { front_told self.new ≡ front_told self.old }
    {
        if self.kits.len() < count {
            return Err(Refusal::Failed);
        }
        let Ok(mut given) = Vec::with_capacity(self.alloc, count) else {
            return Err(Refusal::NoMemory);
        };
        for _given in 0..count {
            let kit = self.rooted(root)?;
            given.push_reserved(kit);
        }
        Ok(given)
    }
}

impl<F, C, G> Front for MemFront<F, C, G>
where
    F: Files + Send + Drop,
    C: Clock + Send + Drop,
    G: Gate + Send + Drop,
{
    type Poller = PiecePoller;

    type Files = F;

    type Clock = C;

    type Gate = G;

    ghost use Rattle.warp_front_mem.specs.MemFronts.{HandsOut, IsRootedAt, front_told};

    ghost told = { front_told };

    fn listen(&mut self, address: [u8; 4], port: u16) -> ListenOut<PieceListener>
        ensures unheard { IfListening result (λ listener. IsUnheard (listener_told listener)) }
        ensures asked { AskedToListen result address port (front_told self.old) (front_told self.new) }
        ensures hands { HandsOut self.old.failing self.old.listener result self.new.listener }
    {
        self.place = Some(Place { address, port });
        if self.failing {
            self.faults.rise();
            return ListenOut::Failed;
        }
        match self.listener.take() {
            Some(listener) => ListenOut::Listening(listener),
            None => {
                self.faults.rise();
                ListenOut::Failed
            }
        }
    }

    fn kits(&mut self, root: &str, count: usize) -> KitsOut<Kit<PiecePoller, F, C, SumBook, G>>
        requires { (1 ≤ count) × (count ≤ 64) }
        ensures count { IfMade result (λ kits. length kits ≡ count) }
        ensures books { IfMade result (λ kits. All (λ kit. IsBookOf [] (book_told kit.book)) kits) }
        ensures asked { AskedForKits result root.now (front_told self.old) (front_told self.new) }
        ensures enough { IfMade result (λ _. count ≤ length self.old.kits.items) }
        ensures there { IfMade result (λ kits. All (λ kit. IsRootedAt root.now (F.told kit.files)) kits) }
        ensures listener { self.new.listener ≡ self.old.listener }
    {
        let Ok(text) = String::from_str(self.alloc, root) else {
            return KitsOut::NoMemory;
        };
        let answer = match self.handed_out(root, count) {
            Ok(kits) => KitsOut::Made(kits),
            Err(Refusal::NoMemory) => return KitsOut::NoMemory,
            Err(Refusal::Failed) => {
                self.faults.rise();
                KitsOut::Failed
            }
        };
        self.root = Some(text);
        answer
    }
}
