//! Where keys wait. A key is a number that doesn't show its descriptor. So for each of 256 classes of
//! keys the places are listed at which a key of the class waits, a bit for each place. A key that is
//! taken back is looked for at the listed places of its class alone. These are few: the keys that are
//! drawn one after the other fall into the classes one after the other. No place is lacking at which a
//! key waits, whatever else is listed.
ghost use Rattle.std.specs.Prelude.{◌≡◌, ◌<◌, ◌≤◌, ◌/◌, ◌%◌, ℕ, length, true, false, get_or, IfOk};
ghost use Rattle.std.specs.List.{list_any};
ghost use Rattle.std.specs.Int.{bit_at};
ghost use Rattle.stripe_table.specs.Index.{word_of, IsListed, KeepsOthers, ListsAll};

use crate::bits::{with_bit, without_bit};
use crate::descriptor::Registration;
use crate::four::Four;
use reg_keys::STRIPES;
use std::alloc::{AllocError, Global};
use std::marker::Model;

/// The classes of keys.
const CLASSES: u64 = 256;

/// The words of a class, with a bit for each descriptor of a stripe.
const CLASS_WORDS: u64 = 2;

/// The listed places of each class, for which room is taken at the making.
#[derive(Drop)]
pub(crate) struct KeyIndex {
    words: Vec<u64>,
}

impl Model for KeyIndex {
    ghost use Rattle.std.specs.Prelude.{List, ℕ, ◌≡◌, length};

    ghost Value = { List ℕ };

    ghost view = { λ x. x.words.items };

    ghost invariant = { λ x. length x.words.items ≡ 512 };
}

impl KeyIndex {
    /// No place is listed; an error is want of memory.
    pub(crate) fn new(alloc: Global) -> Result<KeyIndex, AllocError> {
        let words = vec![in alloc; 0u64; (CLASSES * CLASS_WORDS) as usize]?;
        Ok(KeyIndex { words })
    }

    /// What is listed for a key's class of the first 64 places, or of the others.
    pub(crate) fn half(&self, key: u64, half: usize) -> u64
        requires { half < 2 }
        ensures { (place : ℕ) → place / 64 ≡ half → IsListed self.now key place
            → bit_at result (place % 64) ≡ 1 }
    {
        self.words[(key / STRIPES % CLASSES * CLASS_WORDS) as usize + half]
    }

    /// Lists a place for the class of a key that waits there.
    pub(crate) fn add(&mut self, key: u64, place: usize)
        requires { place < 128 }
        ensures here { IsListed self.new key place }
        ensures kept { (k p : ℕ) → IsListed self.old k p → IsListed self.new k p }
    {
        let word = word_at(key, place);
        self.words[word] = with_bit(self.words[word], (place % 64) as u32);
    }

    /// A place is listed no more for the class of a key.
    pub(crate) fn remove(&mut self, key: u64, place: usize)
        requires { place < 128 }
        ensures { KeepsOthers place self.old self.new }
    {
        let word = word_at(key, place);
        self.words[word] = without_bit(self.words[word], (place % 64) as u32);
    }

    /// Lists a place for each of the registrations that wait there.
    pub(crate) fn add_all<T: Drop>(&mut self, waits: &Four<Registration<T>>, place: usize)
        requires { place < 128 }
        ensures here { ListsAll self.new place waits.now }
        ensures kept { (k p : ℕ) → IsListed self.old k p → IsListed self.new k p }
    {
        for i in 0..waits.len() {
            let Some(registration) = waits.get(i) else {
                unreachable!()
            };
            self.add(registration.key, place);
        }
    }

    /// A place is listed no more for any of the registrations.
    pub(crate) fn remove_all<T: Drop>(&mut self, taken: &Four<Registration<T>>, place: usize)
        requires { place < 128 }
        ensures { KeepsOthers place self.old self.new }
    {
        for i in 0..taken.len() {
            let Some(registration) = taken.get(i) else {
                return;
            };
            self.remove(registration.key, place);
        }
    }

    /// Registrations are taken out of a place, and others are left there, some of which
    /// may be of the same class.
    pub(crate) fn take_out<T: Drop>(
        &mut self,
        taken: &Four<Registration<T>>,
        left: &Four<Registration<T>>,
        place: usize,
    )
        requires { place < 128 }
        ensures here { ListsAll self.new place left.now }
        ensures others { KeepsOthers place self.old self.new }
    {
        self.remove_all(taken, place);
        self.add_all(left, place);
    }
}

/// The word that has the bit of a place for a key's class.
fn word_at(key: u64, place: usize) -> usize
    requires { place < 128 }
    ensures value { result ≡ word_of key place }
    ensures within { result < 512 }
{
    (key / STRIPES % CLASSES * CLASS_WORDS) as usize + place / 64
}
