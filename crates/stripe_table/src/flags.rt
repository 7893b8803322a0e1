//! The flags of a stripe that haven't been asked to their end, in the order of their registration,
//! which is that of their keys. A flag stays here when it has run and when its opening was closed.
ghost use Rattle.std.specs.Prelude.{◌≡◌, ◌<◌, ◌≤◌, ◌++◌, ◌∷◌, [], length, map, filter, not, if◌then◌else◌, nat_le, slice_get, IfOk, IfSome, IfNone, None, Some, true, false, option_to_list};
ghost use Rattle.std.specs.List.{list_any};
ghost use Rattle.stripe_table.specs.Ascending.{Ascends};

use crate::load::Payload;
use reg_keys::{Dir, FLAGS, Marks, Opening};
use std::alloc::{AllocError, Global};
use std::marker::Model;

/// What a flag's owner is told.
#[derive(Clone, Copy, Drop)]
pub(crate) enum FlagState {
    Waiting,
    Ran(Dir, Marks),
    Closed,
}

/// A flag that hasn't been asked to its end.
#[derive(Clone, Copy, Drop)]
pub(crate) struct UnaskedFlag {
    pub key: u64,
    pub opening: Opening,
    pub state: FlagState,
}

impl UnaskedFlag {
    ghost use Rattle.stripe_table.specs.Flags.{is_settled};

    /// Whether it is known how the flag came out.
    fn is_settled(&self) -> bool
        ensures { result ≡ is_settled self.now }
    {
        match self.state {
            FlagState::Waiting => false,
            FlagState::Ran(_, _) | FlagState::Closed => true,
        }
    }
}

/// The unasked flags, at most 512, for which room is taken at the making.
#[derive(Drop)]
pub(crate) struct Flags {
    items: Vec<UnaskedFlag>,
}

impl Model for Flags {
    ghost use Rattle.std.specs.Prelude.{List, ◌≤◌, vec_capacity};
    ghost use Rattle.stripe_table.specs.declared.flags.UnaskedFlag.{UnaskedFlag};

    ghost Value = { List UnaskedFlag };

    ghost view = { λ f. f.items.items };

    ghost invariant = { λ f. 512 ≤ vec_capacity f.items };
}

impl Flags {
    ghost use Rattle.stripe_table.specs.declared.flags.UnaskedFlag.{UnaskedFlag};
    ghost use Rattle.stripe_table.specs.Loads.{is_flag};
    ghost use Rattle.stripe_table.specs.Flags.{key_of, flag_has, settled, is_settled, begun, ended};

    /// No flag, with room for as many as a stripe keeps; an error is want of memory.
    pub(crate) fn new(alloc: Global) -> Result<Flags, AllocError>
        ensures { IfOk result (λ f. f ≡ []) }
    {
        Ok(Flags {
            items: Vec::with_capacity(alloc, FLAGS as usize)?,
        })
    }

    /// Whether no further flag is taken.
    pub(crate) fn is_full(&self) -> bool
        ensures { result ≡ nat_le 512 (length self.now) }
    {
        self.items.len() as u64 >= FLAGS
    }

    /// Adds a flag, for which there must be room.
    pub(crate) fn push(&mut self, flag: UnaskedFlag)
        requires { length self.old < 512 }
        ensures { self.new ≡ self.old ++ flag ∷ [] }
    {
        let pushed = self.items.push(flag);
        let Ok(()) = pushed else { unreachable!() };
    }

    /// Adds the flag of a registration, unless it brings a job. There must be room for a flag.
    pub(crate) fn begin<T>(&mut self, load: &Payload<T>, key: u64, opening: Opening)
        requires { is_flag load.now ≡ true → length self.old < 512 }
        ensures { self.new ≡ begun (is_flag load.now) key opening self.old }
    {
        if load.is_flag() {
            self.push(UnaskedFlag {
                key,
                opening,
                state: FlagState::Waiting,
            });
        }
    }

    /// Forgets the flag of a registration that is taken back, unless it brought a job.
    pub(crate) fn end<T>(&mut self, load: &Payload<T>, key: u64)
        ensures { Ascends key_of self.old → self.new ≡ ended (is_flag load.now) key self.old }
    {
        if load.is_flag() {
            self.forget(key);
        }
    }

    /// The place of a flag, found by halving, since the keys ascend.
    fn place_of(&self, key: u64) -> Option<usize>
        ensures there { IfSome result
            (λ i. (f : UnaskedFlag) × (slice_get self.now i ≡ Some f) × (f.key ≡ key)) }
        ensures absent { IfNone result (Ascends key_of self.now → list_any (flag_has key) self.now ≡ false) }
    {
        let items = self.items.as_slice();
        let mut low: usize = 0;
        let mut high = items.len();
        while low < high {
            let middle = low + (high - low) / 2;
            let found = flag_at(items, middle).key;
            if found == key {
                return Some(middle);
            }
            if found < key {
                low = middle + 1;
            } else {
                high = middle;
            }
        }
        None
    }

    /// Forgets a flag.
    pub(crate) fn forget(&mut self, key: u64)
        ensures { Ascends key_of self.old → self.new ≡ filter (λ f. not (flag_has key f)) self.old }
    {
        if let Some(place) = self.place_of(key) {
            self.items.remove(place);
        }
    }

    /// Says how a flag came out.
    pub(crate) fn settle(&mut self, key: u64, state: FlagState)
        ensures { Ascends key_of self.old → self.new ≡ map (settled key state) self.old }
    {
        if let Some(place) = self.place_of(key) {
            self.items[place].state = state;
        }
    }

    /// What is to be told of a flag. It is forgotten once it is told how it came out.
    pub(crate) fn ask(&mut self, key: u64) -> Option<UnaskedFlag>
        ensures told { Ascends key_of self.old → option_to_list result ≡ filter (flag_has key) self.old }
        ensures kept { Ascends key_of self.old
            → IfSome result (λ f.
            self.new ≡ (if is_settled f then filter (λ g. not (flag_has key g)) self.old else self.old)) }
        ensures none { IfNone result (self.new ≡ self.old) }
    {
        let Some(place) = self.place_of(key) else {
            return None;
        };
        let flag = flag_at(self.items.as_slice(), place);
        if flag.is_settled() {
            self.items.remove(place);
        }
        Some(flag)
    }
}

fn flag_at(items: &[UnaskedFlag], place: usize) -> UnaskedFlag
    requires { place < length items.now }
    ensures { slice_get items.now place ≡ Some result }
{
    items[place]
}
