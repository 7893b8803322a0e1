//! A connection that is finished, with what its type keeps of it.
ghost use Rattle.std.specs.Prelude.{◌≡◌};
ghost use Rattle.warp_books.specs.Truth.{IsTrueTo, folder_serving};

use crate::book::Ended;
use crate::finish::Finish;
use outside::{Files, Link};
use reg_keys::Opening;
use std::marker::PhantomData;

/// A connection that is finished: its opening, its link, the moments that were asked for it, the bytes that
/// it sent where its link tells them, how often its link had to be waited for, and how it ended. The two
/// numbers stop at 2^64 - 1. The files' type says over which folder it was served.
#[derive(Drop)]
pub struct Finished<L: Link, F: Files> {
    pub opening: Opening,
    pub link: L,
    pub moments: Vec<u64>,
    pub bytes: u64,
    pub waits: u64,
    pub end: Finish,
    of: PhantomData<F>,
    ghost stands: { ∥ IsTrueTo (folder_serving F.folder) (record {
      opening = opening;
      link = L.told link;
      moments = moments.items;
      bytes = bytes;
      waits = waits;
      end = end;
    }) ∥₁ },
}

impl<L: Link, F: Files> Finished<L, F> {
    /// A finished connection. The caller owes that it is true to its link.
    pub fn new(
        opening: Opening,
        link: L,
        moments: Vec<u64>,
        bytes: u64,
        waits: u64,
        end: Finish,
    ) -> Finished<L, F>
        requires { IsTrueTo (folder_serving F.folder) (record {
          opening = opening;
          link = L.told link;
          moments = moments.items;
          bytes = bytes;
          waits = waits;
          end = end;
        }) }
        ensures whose { (result.opening ≡ opening) × (result.link ≡ link) × (result.moments ≡ moments) }
        ensures numbers { (result.bytes ≡ bytes) × (result.waits ≡ waits) × (result.end ≡ end) }
    {
        Finished {
            opening,
            link,
            moments,
            bytes,
            waits,
            end,
            of: PhantomData,
        }
    }
}

impl<L: Link, F: Files> Ended for Finished<L, F> {
    ghost told = { λ d. record {
      opening = d.opening;
      link = L.told d.link;
      moments = d.moments.items;
      bytes = d.bytes;
      waits = d.waits;
      end = d.end;
    } };

    fn end(&self) -> Finish {
        self.end
    }

    fn moments(&self) -> u64 {
        self.moments.len() as u64
    }

    fn bytes(&self) -> u64 {
        self.bytes
    }

    fn waits(&self) -> u64 {
        self.waits
    }
}
