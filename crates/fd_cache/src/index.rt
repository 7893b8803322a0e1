//! A table of numbers by the hash of a path: a number stands in the first place from its path's hash on that
//! was free. The shelf checks what it says against its entries, so no contract speaks of it.
ghost use Rattle.std.specs.Prelude.{◌≡◌, ◌<◌, vec_len};

use std::alloc::{AllocError, Global};

/// How many places there are: twice as many as numbers, so that runs of taken places are short.
const PLACES: usize = 512;

/// A number that no entry has.
const NOBODY: u16 = 256;

/// The numbers.
#[derive(Drop)]
pub(crate) struct Index {
    places: Vec<u16>,
    ghost size: { vec_len places ≡ 512 },
}

impl Index {
    /// An index with no numbers.
    pub(crate) fn new(alloc: Global) -> Result<Index, AllocError> {
        Ok(Index {
            places: vec![in alloc; NOBODY; PLACES]?,
        })
    }

    /// The place at which the search for a path begins (FNV-1a).
    pub(crate) fn first(path: &str) -> usize
        ensures { result < 512 }
    {
        let mut hash: u64 = 0xcbf2_9ce4_8422_2325;
        for byte in path.as_bytes() {
            hash = (hash ^ *byte as u64).wrapping_mul(0x100_0000_01b3);
        }
        (hash % PLACES as u64) as usize
    }

    /// The place after a place.
    pub(crate) fn next(place: usize) -> usize
        requires { place < 512 }
        ensures { result < 512 }
    {
        (place + 1) % PLACES
    }

    /// The number at a place, or one that no entry has.
    pub(crate) fn number(&self, place: usize) -> usize
        requires { place < 512 }
    {
        self.places[place] as usize
    }

    /// Notes the number of a path.
    pub(crate) fn note(&mut self, path: &str, number: u16) {
        let mut place = Index::first(path);
        for _ in 0..PLACES {
            if self.places[place] >= NOBODY {
                self.places[place] = number;
                return;
            }
            place = Index::next(place);
        }
    }

    /// Forgets all numbers.
    pub(crate) fn clear(&mut self) {
        for place in 0..PLACES {
            self.places[place] = NOBODY;
        }
    }
}
