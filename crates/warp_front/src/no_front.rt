//! A front for commands that need none.

use crate::front::{Front, KitsOut, ListenOut};
use outside::{Clock, Files};
use poller::Poller;
use std::marker::PhantomData;
use warp_books::SumBook;
use warp_jobs::{Gate, Kit};

/// A front for commands that need none: it wants memory at every call.
#[derive(Drop)]
pub struct NoFront<P, F, C, G> {
    of: PhantomData<(P, F, C, G)>,
}

impl<P, F, C, G> NoFront<P, F, C, G> {
    /// A front that wants memory at every call.
    pub fn new() -> NoFront<P, F, C, G> {
        NoFront { of: PhantomData }
    }
}

impl<P, F, C, G> Front for NoFront<P, F, C, G>
where
    P: Poller + Send + Drop,
    F: Files + Send + Drop,
    C: Clock + Send + Drop,
    G: Gate + Send + Drop,
{
    type Poller = P;

    type Files = F;

    type Clock = C;

    type Gate = G;

    ghost use Rattle.std.specs.Prelude.{None};

    ghost told = { λ _. record { place = None; root = None; faults = 0 } };

    fn listen(&mut self, _address: [u8; 4], _port: u16) -> ListenOut<P::Listener> {
        ListenOut::NoMemory
    }

    fn kits(&mut self, _root: &str, _count: usize) -> KitsOut<Kit<P, F, C, SumBook, G>> {
        KitsOut::NoMemory
    }
}
